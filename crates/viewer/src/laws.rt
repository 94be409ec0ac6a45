//! Hearing in the subject's words.
ghost use Rattle.viewer.specs.Laws.{AsksOne, HearingLaws, LinesLaws, RowsApart};

/// Hearing keeps its laws: a line changes the entry that it speaks to and that entry's row, and no
/// other; what SUBOK, UNSUB and U leave, which lines are passed over, and which are refused. There
/// is nothing to run: the contract names the theorems.
pub fn hearing_keeps_its_laws()
    ensures asks { AsksOne }
    ensures hearing { HearingLaws }
    ensures lines { LinesLaws }
    ensures rows { RowsApart }
{}
