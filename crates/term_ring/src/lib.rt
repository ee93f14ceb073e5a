//! Rings of notes, each with one writer and one reader, which are in threads of their own.
//!
//! The shared object is a table of words. Word 0 is the head, the number of notes taken, and word 16 the tail, the number of notes sent; the note with number `i` stands in the five words from `32 + 5 * (i mod places)`. The words between are not used. Only the writer stores the tail and the words of places, and only the reader stores the head. No call waits.
#![tactic(auto)]

mod laws;
mod make;
mod note;
mod reader;
mod ring;
mod scalars;
mod script;
mod steps;
mod view;
mod writer;

pub use laws::ring_at_each_moment;
pub use note::{Note, NoteOf};
pub use ring::{Empty, Full, Reader, Ring, Writer};
pub use scalars::Scalars;
pub use script::Script;
pub use view::View;
