//! Polynomials in two variables.
ghost use Rattle.std.specs.Prelude.{◌≡◌, ◌≤◌, IfOk};
ghost use Rattle.sdmp_laws.specs.Order.{degree};
ghost use Rattle.packed_monomial.specs.Packing.{vector_of, limit_of};

use canonical_terms::{Poly, Term, TermOf};
use coeff_ring::CoeffRing;
use packed_monomial::{Monomial, Packed};
use std::alloc::Global;
use std::test::Fail;

pub type Plane = Packed<2>;

/// The exponents of x and of y, and the coefficient.
pub type Power = (u32, u32, i128);

// the term with these exponents and this coefficient
fn one_term<R: CoeffRing>(ring: R, power: Power) -> Result<Term<R, Plane>, Fail>
    ensures belongs { IfOk result (λ t. R.belongs (R.characteristic ring) t.coef) }
    ensures degree { IfOk result (λ t. degree (vector_of 2 t.mono.word) ≤ limit_of 2) }
{
    let (x, y, number) = power;
    let mono = Plane::pack(&[x, y])?;
    let size = ring
        .from_numeral(number.unsigned_abs())
        .ok_or("a coefficient")?;
    let coef = if number < 0 { ring.neg(size) } else { size };
    Ok(TermOf { mono, coef })
}

/// The sum of these terms.
pub fn poly<R: CoeffRing>(alloc: Global, ring: R, powers: &[Power]) -> Result<Poly<R, Plane>, Fail>
    ensures { IfOk result (λ f. f.modulus ≡ R.characteristic ring) }
{
    let mut list = Vec::new(alloc);
    for i in 0..powers.len() {
        let term = one_term(ring, powers[i])?;
        list.push(term)?;
    }
    Ok(Poly::from_terms(alloc, ring, list)?)
}

/// Whether both have the same terms.
pub fn is_same<R: CoeffRing, M: Monomial>(left: &Poly<R, M>, right: &Poly<R, M>) -> bool {
    let terms = left.terms();
    let others = right.terms();
    if terms.len() != others.len() {
        return false;
    }
    for i in 0..terms.len() {
        if terms[i].mono != others[i].mono {
            return false;
        }
        let words = left.ring().to_words(terms[i].coef);
        if words != right.ring().to_words(others[i].coef) {
            return false;
        }
    }
    true
}
