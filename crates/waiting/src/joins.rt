//! What joins keep as pairs are sent and forgotten.
ghost use Rattle.waiting.specs.Joins.{FirstTakenOff, OthersBehind, BlankWithout, OthersWithout};
ghost use Rattle.waiting.specs.Joins.{NoneForBlank, SameInEach, DropAllows, ForgetAllows};
ghost use Rattle.waiting.specs.Joins.{ChangedByPutting, ChangedBySending};

/// The laws of joins that hold of each waiting list, whatever the kind, and what they make of a row
/// that is changed by what waits. Nothing to run: the contract says them.
pub fn joins_keep_their_laws()
    ensures first { FirstTakenOff }
    ensures behind { OthersBehind }
    ensures without { BlankWithout }
    ensures others { OthersWithout }
    ensures blank { NoneForBlank }
    ensures same { SameInEach }
    ensures sending { ChangedBySending }
    ensures putting { ChangedByPutting }
    ensures drop { DropAllows }
    ensures forget { ForgetAllows }
{}
