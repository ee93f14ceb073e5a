//! The bounds on a quotient, tested term by term.
ghost use Rattle.std.specs.Prelude.{◌≡◌, ◌≢◌, ◌+◌, ◌*◌, ◌≤◌, ◌<◌, ◌^◌, IsTrue, MatchResult};
ghost use Rattle.sdmp_laws.specs.Limits.{greatest_norm, quotient_terms_limit};
ghost use Rattle.divide_core.specs.Answer.{IsBoundPassed};

use crate::answer::DivideFault;
use bound_check::quotient_room;

/// No quotient has so many terms.
pub const QUOTIENT_TERMS: usize = 1 << 30;

/// The norms of a dividend and of a divisor, and whether they are those of integers.
#[derive(Clone, Copy)]
pub struct Norms {
    pub integers: bool,
    pub dividend: u128,
    pub divisor: u128,
}

/// The norm of a quotient with one more term of this size, which then has `count` terms; over residues it isn't looked at. Refused where that passes a bound, the one on norms first.
pub fn with_term(
    norms: Norms,
    quotient: u128,
    count: usize,
    size: u128,
) -> Result<u128, DivideFault>
    requires { IsTrue norms.integers → quotient + size < 2 ^ 128 }
    ensures { MatchResult
        result
        (λ n. (IsTrue norms.integers → (n ≡ quotient + size) × (norms.dividend + n * norms.divisor ≤ greatest_norm)) × (count ≢ quotient_terms_limit))
        (λ fault. IsBoundPassed norms.integers norms.dividend norms.divisor (quotient + size) count fault) }
{
    if !norms.integers {
        if count == QUOTIENT_TERMS {
            return Err(DivideFault::TermBound);
        }
        return Ok(0);
    }
    let longer = quotient + size;
    if !quotient_room(norms.dividend, longer, norms.divisor) {
        return Err(DivideFault::CoefficientBound);
    }
    if count == QUOTIENT_TERMS {
        return Err(DivideFault::TermBound);
    }
    Ok(longer)
}
