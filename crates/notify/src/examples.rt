//! Worked examples of written lines, as theorems on the definitions. Nothing runs: the contract is
//! a table whose rows are written out.
ghost use Rattle.notify.specs.Examples.{Examples};

/// The bytes of some lines, and which of two refusals comes first.
pub fn worked_lines()
    ensures { Examples }
{}
