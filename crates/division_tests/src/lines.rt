//! Polynomials of two terms in one variable.
ghost use Rattle.std.specs.Prelude.{◌≡◌, ◌≤◌, IfOk, unsigned_abs};
ghost use Rattle.sdmp_laws.specs.Limits.{greatest_norm};
ghost use Rattle.division_tests.specs.Examples.{two_terms};

use canonical_terms::{Poly, TermOf};
use coeff_ring::Integers;
use packed_monomial::{Monomial, Packed};
use std::alloc::Global;
use std::test::Fail;

pub type Line = Packed<1>;

/// The polynomial a x^exponent + b.
pub fn binomial(
    alloc: Global,
    a: i128,
    exponent: u32,
    b: i128,
) -> Result<Poly<Integers, Line>, Fail>
    requires { (unsigned_abs a ≤ greatest_norm) × (unsigned_abs b ≤ greatest_norm) }
    ensures modulus { IfOk result (λ f. f.modulus ≡ 0) }
    ensures list { IfOk result (λ f. f.list ≡ two_terms a exponent b) }
{
    let power = Line::pack(&[exponent])?;
    let unit = Line::pack(&[0])?;
    let terms = [
        TermOf {
            mono: power,
            coef: a,
        },
        TermOf {
            mono: unit,
            coef: b,
        },
    ];
    Ok(Poly::from_terms(alloc, Integers, terms.to_vec(alloc)?)?)
}
