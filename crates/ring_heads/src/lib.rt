//! What a shared merge holds of the rings that it reads: at most one term of each, and what finds the greatest of these heads.
#![tactic(auto)]

mod head;
mod heads;
mod scan;
mod taken;

pub use head::{Head, HeadOf};
pub use heads::Heads;
