//! Division on the calling thread.
ghost use Rattle.std.specs.Prelude.{◌≡◌, ◌≢◌, MatchResult, IsTrue, ◌↔◌, ◌⊎◌, None};
ghost use Rattle.sdmp_laws.specs.Division.{IsAccepted};
ghost use Rattle.divide_core.specs.Dividing.{AreTerms, IsLeading};
ghost use Rattle.division_laws.specs.Outcome.{division_of};
ghost use Rattle.divide_core.specs.Answer.{IsAnswer, IsRefusal};

use crate::answer::{DivideFault, Division};
use crate::bound::{Norms, with_term};
use crate::fit::{Leading, find};
use crate::next::take_next;
use canonical_terms::{Poly, Term};
use coeff_ring::CoeffRing;
use packed_monomial::Monomial;
use row_merge::QuotientRows;
use sdmp_laws::Mode;
use std::alloc::Global;
use step_count::Steps;

/// Divides `f` by `g` on the calling thread.
///
/// The products of the quotient terms and the later terms of the divisor are merged by a heap against the dividend, so that no remainder polynomial is formed (Monagan and Pearce, "Sparse polynomial division using a heap", 2011).
pub fn divide_alone<R: CoeffRing, M: Monomial>(
    alloc: Global,
    f: &Poly<R, M>,
    g: &Poly<R, M>,
    mode: Mode,
) -> Result<Division<R, M>, DivideFault>
    requires { f.now.modulus ≡ g.now.modulus }
    ensures { MatchResult
        result
        (λ answer. IsAnswer (division_of mode M.order M.VARS f.now g.now) answer)
        (λ fault. IsRefusal (division_of mode M.order M.VARS f.now g.now) fault) }
{
    let ring = g.ring();
    let divisor = g.terms();
    if divisor.is_empty() {
        return Err(DivideFault::ZeroDivisor);
    }
    let term = divisor[0];
    let inverse = ring.inverse(term.coef);
    if is_refused(ring, mode, inverse) {
        return Err(DivideFault::NotUnit);
    }
    divide_rows(alloc, f, f.terms(), g, mode, Leading { term, inverse })
}

fn is_exact(mode: Mode) -> bool
    ensures { IsTrue result ↔ mode ≡ Mode.Exact }
{
    match mode {
        Mode::Exact => true,
        Mode::Remainder => false,
    }
}

// whether a unit is asked for and the leading coefficient, which has this inverse, is none
fn is_refused<R: CoeffRing>(ring: R, mode: Mode, inverse: Option<R::E>) -> bool
    ensures { IsTrue result ↔ ((inverse ≡ None) × ((mode ≡ Mode.Remainder) ⊎ (R.characteristic ring ≢ 0))) }
{
    match inverse {
        Some(_) => false,
        None => match mode {
            Mode::Exact => ring.modulus() != 0,
            Mode::Remainder => true,
        },
    }
}

// divides the dividend, whose terms are given, by the rows of the divisor and its leading term
fn divide_rows<R: CoeffRing, M: Monomial>(
    alloc: Global,
    f: &Poly<R, M>,
    terms: &[Term<R, M>],
    g: &Poly<R, M>,
    mode: Mode,
    lead: Leading<M, R::E>,
) -> Result<Division<R, M>, DivideFault>
    requires moduli { f.now.modulus ≡ g.now.modulus }
    requires terms { AreTerms M.vector R.value (R.belongs f.now.modulus) M.order M.VARS M.LIM f.now terms.now }
    requires accepted { IsAccepted (division_of mode M.order M.VARS f.now g.now) }
    requires leading { IsLeading M.vector R.value (R.belongs g.now.modulus) M.LIM g.now lead }
    ensures { MatchResult
        result
        (λ answer. IsAnswer (division_of mode M.order M.VARS f.now g.now) answer)
        (λ fault. IsRefusal (division_of mode M.order M.VARS f.now g.now) fault) }
{
    let ring = g.ring();
    let norms = Norms {
        integers: ring.modulus() == 0,
        dividend: f.norm(),
        divisor: g.norm(),
    };
    let mut rows = QuotientRows::new(alloc, g, 1, 0)?;
    let mut norm = 0;
    let mut quotient = Vec::new(alloc);
    let mut rest = Vec::new(alloc);
    let mut read = 0;
    let mut steps = Steps::new();
    while let Some(term) = take_next(ring, terms, &mut read, &mut rows, &mut steps) {
        if ring.is_zero(term.coef) {
            continue;
        }
        let Some(found) = find(ring, lead, term, &mut steps) else {
            if is_exact(mode) {
                return Ok(Division::NoQuotient);
            }
            rest.push(term)?;
            continue;
        };
        norm = with_term(norms, norm, quotient.len() + 1, ring.size(found.coef))?;
        quotient.push(found)?;
        rows.reserve(1)?;
        rows.learn(found, &mut steps);
    }
    let q = Poly::from_ordered(ring, quotient);
    if is_exact(mode) {
        return Ok(Division::Quotient(q));
    }
    let r = Poly::from_ordered(ring, rest);
    Ok(Division::Remainder { q, r })
}
