//! The published row of quotient terms, with one writer and any number of readers, which are in threads of their own.
//!
//! The shared object is a table of words. Word 0 is the number of notes published, and the note with number `i` stands in the five words from `1 + 5 * i`. Only the writer stores words, and no place is written twice. No call waits.
#![tactic(auto)]

mod kind;
mod laws;
mod make;
mod name;
mod note;
mod reader;
mod row;
mod steps;
mod writer;

pub use laws::{row_at_each_moment, row_terms_are_next};
pub use note::{RowNote, RowNoteOf};
pub use row::{Nothing, Row, RowFull, RowReader, RowWriter};
