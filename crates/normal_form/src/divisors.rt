//! The divisors of a reduction.
ghost use Rattle.std.specs.Prelude.{◌≡◌, ◌<◌, ◌≤◌, ◌++◌, ◌∷◌, [], length, MatchResult};
ghost use Rattle.sdmp_laws.specs.Poly.{lm};
ghost use Rattle.normal_form.specs.NormalForm.{IsDivisor};
ghost use Rattle.normal_form.specs.Divisors.{IsNoDivisor};

use crate::answer::DivisorFault;
use canonical_terms::Poly;
use coeff_ring::CoeffRing;
use packed_monomial::Monomial;
use std::alloc::Global;
use std::marker::Model;

/// No list has more divisors.
pub const MOST_DIVISORS: usize = 31;

// a divisor, its leading monomial, the degree of that, and the inverse of the leading coefficient, which is computed once for all terms
#[derive(Drop)]
struct Divisor<'a, R: CoeffRing, M: Monomial> {
    poly: &'a Poly<R, M>,
    lead: M,
    degree: u64,
    inverse: R::E,
}

/// Polynomials that divide, in the order in which they were added. None is zero, and the leading coefficient of each is a unit.
///
/// Contracts see the divisors as their modulus, 0 for the integers, and their lists of terms.
#[derive(Drop)]
pub struct Divisors<'a, R: CoeffRing, M: Monomial> {
    ring: R,
    list: Vec<Divisor<'a, R, M>>,
}

impl<'a, R: CoeffRing, M: Monomial> Model for Divisors<'a, R, M> {
    ghost use Rattle.std.specs.Prelude.{◌≤◌, All, map, length};
    ghost use Rattle.normal_form.specs.Divisors.{DivisorList, IsKept};

    ghost Value = { DivisorList };

    ghost view = { λ d. record { modulus = R.characteristic d.ring; list = map (λ x. x.poly.now.list) d.list.items } };

    ghost invariant = { λ d. (length d.list.items ≤ 31)
        × All (λ x. IsKept M.vector R.value (R.belongs (R.characteristic d.ring)) M.order (R.characteristic d.ring) M.VARS M.LIM x.poly.now x.lead x.degree x.inverse) d.list.items };
}

impl<'a, R: CoeffRing, M: Monomial> Divisors<'a, R, M> {
    /// No divisor. It allocates nothing.
    pub fn new(alloc: Global, ring: R) -> Divisors<'a, R, M>
        ensures modulus { result.modulus ≡ R.characteristic ring }
        ensures none { result.list ≡ [] }
    {
        Divisors {
            ring,
            list: Vec::new(alloc),
        }
    }

    /// How many divisors there are, at most `MOST_DIVISORS`. It allocates nothing.
    pub fn len(&self) -> usize
        ensures count { result ≡ length self.now.list }
        ensures most { result ≤ MOST_DIVISORS }
    {
        self.list.len()
    }

    /// One divisor more, over the same ring, where fewer than `MOST_DIVISORS` are held. After a refusal the divisors are as before.
    pub fn add(&mut self, g: &'a Poly<R, M>) -> Result<(), DivisorFault>
        requires modulus { g.now.modulus ≡ self.old.modulus }
        requires few { length self.old.list < MOST_DIVISORS }
        ensures { MatchResult
            result
            (λ _. IsDivisor M.order g.now.modulus M.VARS g.now.list
            × self.new ≡ record self.old { list = self.old.list ++ g.now.list ∷ [] })
            (λ fault. IsNoDivisor M.order g.now.modulus M.VARS g.now.list fault
            × self.new ≡ self.old) }
    {
        let ring = self.ring;
        let terms = g.terms();
        if terms.is_empty() {
            return Err(DivisorFault::ZeroDivisor);
        }
        let term = terms[0];
        let Some(inverse) = ring.inverse(term.coef) else {
            return Err(DivisorFault::NotUnit);
        };
        let Ok(()) = self.list.reserve(1) else {
            return Err(DivisorFault::NoMemory);
        };
        self.list.push_reserved(Divisor {
            poly: g,
            lead: term.mono,
            degree: term.mono.degree(),
            inverse,
        });
        Ok(())
    }
}
