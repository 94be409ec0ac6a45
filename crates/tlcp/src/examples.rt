//! Worked examples and tables, as theorems on the definitions. Nothing runs: each contract is a
//! table whose rows are written out, so that a definition that is changed disagrees with a row.
ghost use Rattle.tlcp.specs.Examples.{Examples};
ghost use Rattle.tlcp.specs.Refused.{RefusedTexts};
ghost use Rattle.tlcp.specs.Tables.{Tables};

/// Value lists written and read, a logic value, and a join.
pub fn worked_examples()
    ensures { Examples }
{}

/// Lists and lines that are refused, each with its number and place, and those that just are not.
pub fn refused_texts()
    ensures { RefusedTexts }
{}

/// The classes of bytes, how bytes are written, and the tags with their words and arguments.
pub fn byte_sets_and_words()
    ensures { Tables }
{}
