//! What a merge keeps of its division.
ghost use Rattle.std.specs.Prelude.{◌≡◌};
ghost use Rattle.sdmp_laws.specs.Canonical.{IsCanonical};
ghost use Rattle.sdmp_laws.specs.Division.{IsAccepted};
ghost use Rattle.division_laws.specs.Outcome.{division_of};
ghost use Rattle.divide_merge.specs.Divisors.{IsDivisor};

use canonical_terms::Poly;
use coeff_ring::CoeffRing;
use divide_core::{Leading, Norms};
use packed_monomial::Monomial;
use sdmp_laws::Mode;

/// The mode of a division, the leading term of its divisor, how many terms the divisor has, and both norms.
#[derive(Clone, Copy)]
pub struct Divisor<M, E> {
    pub mode: Mode,
    pub lead: Leading<M, E>,
    pub terms: usize,
    pub norms: Norms,
}

/// That of the division of `f` by `g`, which isn't zero.
pub(crate) fn divisor_of<R: CoeffRing, M: Monomial>(
    f: &Poly<R, M>,
    g: &Poly<R, M>,
    mode: Mode,
) -> Divisor<M, R::E>
    requires moduli { f.now.modulus ≡ g.now.modulus }
    requires accepted { IsAccepted (division_of mode M.order M.VARS f.now g.now) }
    ensures canonical { IsCanonical M.order g.now.modulus M.VARS M.LIM g.now.list }
    ensures kept { IsDivisor M.vector R.value (R.belongs g.now.modulus) M.LIM (division_of mode M.order M.VARS f.now g.now) result }
{
    let ring = g.ring();
    let terms = g.terms();
    let term = terms[0];
    Divisor {
        mode,
        lead: Leading {
            term,
            inverse: ring.inverse(term.coef),
        },
        terms: terms.len(),
        norms: Norms {
            integers: ring.modulus() == 0,
            dividend: f.norm(),
            divisor: g.norm(),
        },
    }
}
