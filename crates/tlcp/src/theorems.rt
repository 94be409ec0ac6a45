//! What the definitions of texts say in the subject's words. Nothing runs: the contract names
//! theorems.
ghost use Rattle.tlcp.specs.Escapes.{ReadsEscapes};
ghost use Rattle.tlcp.specs.Lists.{ReadsWritten, WrittenShort};
ghost use Rattle.tlcp.specs.Numbers.{ReadsDecimal, ReadsSigned};

/// Which texts spell bytes, numbers and codes; that a written list is read as the same delta, and
/// how long it is at most.
pub fn theorems_on_texts()
    ensures escapes { ReadsEscapes }
    ensures decimal { ReadsDecimal }
    ensures signed { ReadsSigned }
    ensures written { ReadsWritten }
    ensures short { WrittenShort }
{}
