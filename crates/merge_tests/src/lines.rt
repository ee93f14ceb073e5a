//! Polynomials of two terms in one variable.
ghost use Rattle.std.specs.Prelude.{◌≡◌, IfOk};

use canonical_terms::{Poly, TermOf};
use coeff_ring::Integers;
use packed_monomial::{Monomial, Packed};
use std::alloc::Global;
use std::test::Fail;

pub type Line = Poly<Integers, Packed<1>>;

/// The polynomial a x^m + b x^n.
pub fn two_terms(alloc: Global, a: i64, m: u32, b: i64, n: u32) -> Result<Line, Fail>
    ensures { IfOk result (λ f. f.modulus ≡ 0) }
{
    let terms = [
        TermOf {
            mono: Packed::<1>::pack(&[m])?,
            coef: i128::from(a),
        },
        TermOf {
            mono: Packed::<1>::pack(&[n])?,
            coef: i128::from(b),
        },
    ];
    Ok(Line::from_terms(alloc, Integers, terms.to_vec(alloc)?)?)
}
