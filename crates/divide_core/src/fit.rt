//! The term whose product with the leading term of a divisor takes a coefficient away.
ghost use Rattle.std.specs.Prelude.{◌≡◌, ◌≢◌, ◌≤◌, ℕ, ℤ, pos, ◌*ℤ◌, MatchOption};
ghost use Rattle.sdmp_laws.specs.Order.{degree};
ghost use Rattle.sdmp_laws.specs.Ring.{red, IsReduced, IsUnit, IsInverse};
ghost use Rattle.sdmp_laws.specs.Poly.{Term};
ghost use Rattle.canonical_terms.specs.View.{term_of};
ghost use Rattle.divide_core.specs.Dividing.{IsTermQuotient};

use canonical_terms::{Term, TermOf};
use coeff_ring::CoeffRing;
use packed_monomial::Monomial;
use step_count::Steps;

/// The reduced coefficient whose product with `lead` reduces to `coef`, and None exactly where there is none. `inverse` is that of `lead`, where it is a unit; so the inverse is computed once for all terms.
pub fn fitting<R: CoeffRing>(
    ring: R,
    lead: R::E,
    inverse: Option<R::E>,
    coef: R::E,
    steps: &mut Steps,
) -> Option<R::E>
    requires lead { R.belongs (R.characteristic ring) lead }
    requires coef { R.belongs (R.characteristic ring) coef }
    requires nonzero { R.value lead ≢ pos 0 }
    requires inverse { MatchOption
        inverse
        (IsUnit (R.characteristic ring) (R.value lead) → ⊥)
        (λ v. R.belongs (R.characteristic ring) v × IsInverse (R.characteristic ring) (R.value lead) (R.value v)) }
    ensures { MatchOption
        result
        ((u : ℤ) → IsReduced (R.characteristic ring) u → red (R.characteristic ring) (u *ℤ R.value lead) ≡ R.value coef → ⊥)
        (λ u. R.belongs (R.characteristic ring) u × red (R.characteristic ring) (R.value u *ℤ R.value lead) ≡ R.value coef) }
{
    match inverse {
        Some(v) => Some(ring.mul(coef, v, steps)),
        None => ring.quotient(coef, lead),
    }
}

/// The leading term of a divisor, and the inverse of its coefficient where that is a unit, which is computed once for all terms.
#[derive(Clone, Copy)]
pub struct Leading<M, E> {
    pub term: TermOf<M, E>,
    pub inverse: Option<E>,
}

/// The term whose product with the leading one has the monomial and the coefficient of `term`, and None exactly where there is none.
pub fn find<R: CoeffRing, M: Monomial>(
    ring: R,
    lead: Leading<M, R::E>,
    term: Term<R, M>,
    steps: &mut Steps,
) -> Option<Term<R, M>>
    requires lead { R.belongs (R.characteristic ring) lead.term.coef }
    requires coef { R.belongs (R.characteristic ring) term.coef }
    requires nonzero { R.value lead.term.coef ≢ pos 0 }
    requires inverse { MatchOption
        lead.inverse
        (IsUnit (R.characteristic ring) (R.value lead.term.coef) → ⊥)
        (λ v. R.belongs (R.characteristic ring) v × IsInverse (R.characteristic ring) (R.value lead.term.coef) (R.value v)) }
    requires lead_low { degree (M.vector lead.term.mono) ≤ M.LIM }
    requires term_low { degree (M.vector term.mono) ≤ M.LIM }
    ensures { MatchOption
        result
        ((x : Term) → IsTermQuotient (R.characteristic ring) (M.vector lead.term.mono) (R.value lead.term.coef) (term_of M.vector R.value term) x → ⊥)
        (λ x. R.belongs (R.characteristic ring) x.coef × IsTermQuotient (R.characteristic ring) (M.vector lead.term.mono) (R.value lead.term.coef) (term_of M.vector R.value term) (term_of M.vector R.value x)) }
{
    let first = lead.term;
    if !first.mono.divides(term.mono) {
        return None;
    }
    let coef = fitting(ring, first.coef, lead.inverse, term.coef, steps)?;
    Some(TermOf {
        mono: term.mono.over(first.mono),
        coef,
    })
}
