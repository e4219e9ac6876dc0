//! The listing: for each declared name that has a repository id its row, with its TypeCode, and what
//! is wrong with it at the root's end.
//!
//! A row is written over the facts of a whole root, whose ids it asks for, or made a tree for programs.
//! Nothing here knows trees of units, places, or how the facts came about.
//!
//! A row is a list of pieces, each a text or an id, with an equation for each line of the format and a method of
//! `RowWriter` beside it. `Answered` is a name looked up ahead, so that the waits for memory of 16 names are one.
//! `words.rt` writes what asks for no id, `shown.rt` what a row shows of what is declared.
#![tactic(auto)]

mod answered;
pub mod details;
mod entry;
mod laws;
mod piece;
mod row;
mod row_writer;
mod shown;
mod type_code;
mod words;

pub use answered::Answered;
pub use entry::{Entry, EntryTask, Pushed, entry_at};
pub use laws::{asked_ids, listed_row, nesting, references};
pub use words::{integer_word, push_number, push_path, unvalued_word};
