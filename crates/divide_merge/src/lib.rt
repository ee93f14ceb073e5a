//! The shared merge of a division: one value that takes the notes of all workers' rings, finds the quotient and the remainder, and publishes the quotient terms and fronts in a row.
#![tactic(auto)]

mod advance;
mod answer;
mod divisor;
mod laws;
mod lower;
mod making;
mod mark;
mod merge;
mod reading;
mod receipt;
mod sharing;
mod steps;

pub use answer::{DivideAdvance, DivideAdvanceOf};
pub use laws::{division_at_each_moment, division_while_nobody_holds, one_verdict};
pub use merge::DivideMerge;
pub use receipt::{DivideAdvanced, DivideTally};
