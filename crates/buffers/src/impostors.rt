//! What is no waiting buffer.
ghost use Rattle.waiting.specs.Policies.{Policy, Lawful};
ghost use Rattle.buffers.specs.Impostors.{DropsAll, RefusesAll};

/// No kind that drops what it is given keeps the laws, and none that refuses everything. Nothing to
/// run: the contract says it.
pub fn laws_refuse_impostors()
    ensures drops { (b : Policy) → DropsAll b → ¬ (Lawful b) }
    ensures refuses { (b : Policy) → RefusesAll b → ¬ (Lawful b) }
{}
