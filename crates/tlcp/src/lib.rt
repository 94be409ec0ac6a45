//! The text of TLCP 2.0.0: byte classes, escapes, numbers, value lists and the emulator's lines,
//! read; and value lists written. A refusal has a number and a place, an offset from 0;
//! `row::Fault` has the numbers.
#![tactic(auto)]

mod append;
mod argument;
mod arguments;
mod bounded;
mod class;
mod cut;
mod encode;
mod ends;
mod escape;
mod examples;
mod line;
mod list;
mod list_write;
mod number;
mod part;
mod shape;
mod tag;
mod text;
mod theorems;
mod word;
mod write;

pub use argument::{Code, Number, Valued};
pub use bounded::Bounded;
pub use class::{Class, all_of, is_of};
pub use encode::{hex_digits, put_escaped};
pub use ends::find_end;
pub use escape::{decode, hex_of};
pub use examples::{byte_sets_and_words, refused_texts, worked_examples};
pub use line::{LINE_LIMIT, Line, Notification, Part, read_line};
pub use list::{UNCOVERED, read_list};
pub use list_write::{LIST_LIMIT, covers, write_list};
pub use number::{CODE_LIMIT, COUNT_LIMIT, ID_LIMIT, Limits, read_code, read_number};
pub use part::Placed;
pub use tag::Tag;
pub use text::{find, is_word, split};
pub use theorems::theorems_on_texts;
pub use word::{Worded, first_with};
pub use write::{put, write_number};
