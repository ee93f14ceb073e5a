//! Polynomial text: the names of the variables, the reader and the printer.
#![tactic(auto)]

mod class;
mod factors;
mod names;
mod print;
mod read;
mod syntax;
mod term;
mod terms;
mod tokens;
mod words;
mod write;

pub use names::{LONGEST_NAME, MOST_NAMES, Names, NamesFault, is_name, is_reserved, stands_in};
pub use read::read_poly;
pub use text_laws::TextFault;
pub use words::{count_words, split_word};
pub use write::write_poly;
