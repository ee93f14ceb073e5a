//! The answers of a division.
ghost use Rattle.std.specs.Prelude.{◌≡◌};

use canonical_terms::Poly;
use coeff_ring::CoeffRing;
use packed_monomial::Monomial;
use std::alloc::AllocFailed;

/// What a division gives: the quotient of an exact division, or that there is none; or the quotient and the remainder, no monomial of which is divisible by the leading monomial of the divisor.
#[derive(Drop)]
pub enum Division<R: CoeffRing, M: Monomial> {
    Quotient(Poly<R, M>),
    NoQuotient,
    Remainder { q: Poly<R, M>, r: Poly<R, M> },
}

/// Why a division is refused. The divisor is zero; its leading coefficient is no unit, where the ring is one of residues or a remainder is wanted; over the integers the norm of the dividend and that of the quotient times that of the divisor add up to more than 2^127 - 1; the quotient would have 2^30 terms; or memory is wanting.
#[derive(Clone, Copy, PartialEq, Eq, Debug, Drop)]
pub enum DivideFault {
    ZeroDivisor,
    NotUnit,
    CoefficientBound,
    TermBound,
    NoMemory,
}

impl From<sdmp_laws::NoMemory> for DivideFault {
    ghost use Rattle.divide_core.specs.declared.answer.DivideFault.TheVariants.{NoMemory};

    ghost from_gives = { λ _ e. e ≡ NoMemory };

    fn from(_: sdmp_laws::NoMemory) -> DivideFault {
        DivideFault::NoMemory
    }
}

impl<T: Drop> From<AllocFailed<T>> for DivideFault {
    ghost use Rattle.divide_core.specs.declared.answer.DivideFault.TheVariants.{NoMemory};

    ghost from_gives = { λ _ e. e ≡ NoMemory };

    fn from(_: AllocFailed<T>) -> DivideFault {
        DivideFault::NoMemory
    }
}
