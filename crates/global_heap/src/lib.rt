//! The shared merge of a product: one value that takes the notes of all workers' rings and emits the terms of the product.
#![tactic(auto)]

mod advance;
mod answer;
mod laws;
mod merge;
mod receipt;
mod sharing;

pub use answer::Advance;
pub use laws::{product_at_each_moment, product_while_nobody_holds};
pub use merge::Merge;
pub use receipt::{Advanced, MergeTally};
