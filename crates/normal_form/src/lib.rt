//! The normal form of a polynomial by a list of divisors: that there is at most one, and the divisors.
#![tactic(auto)]

mod answer;
mod divisors;

ghost use Rattle.normal_form.specs.NormalForm.{NormalFormUnique};

pub use answer::{DivisorFault, Reduced};
pub use divisors::{Divisors, MOST_DIVISORS};

/// At most one list of quotients and remainder are the normal form of a polynomial by divisors.
pub fn normal_form_unique()
    ensures { NormalFormUnique }
{}
