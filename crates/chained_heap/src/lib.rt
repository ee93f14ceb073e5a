//! A heap of monomials in which rows with equal monomials share a node.
#![tactic(auto)]

mod ghost_list;
mod heap;
mod node;
mod sift;

pub use heap::ChainedHeap;
pub use node::Place;
