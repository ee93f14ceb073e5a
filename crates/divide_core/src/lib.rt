//! Division of polynomials.
#![tactic(auto)]

mod alone;
mod answer;
mod bound;
mod fit;
mod next;

pub use alone::divide_alone;
pub use answer::{DivideFault, Division};
pub use bound::{Norms, QUOTIENT_TERMS, with_term};
pub use fit::{Leading, find};
