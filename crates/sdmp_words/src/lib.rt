//! The words of the command line: which are accepted, and what they set.
#![tactic(auto)]

mod fault;
mod numbers;
mod parsing;
mod reading;
mod settings;

pub use fault::WordsFault;
pub use reading::read_words;
pub use settings::Settings;
