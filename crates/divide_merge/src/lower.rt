//! How low a front may be.
ghost use Rattle.std.specs.Prelude.{◌≡◌, ◌≤◌, ◌<◌, ℕ, List, length, IfSome, false};
ghost use Rattle.sdmp_laws.specs.Order.{degree, ◌⋅◌, Divides};
ghost use Rattle.sdmp_laws.specs.Division.{AtOrAbove};
ghost use Rattle.divide_merge.specs.Lower.{power, IsLeastAbove};

use packed_monomial::{MOST_VARIABLES, Monomial};
use std::cmp::Ordering;
use step_count::Steps;

/// A monomial at `bound` or below, at or above each multiple of `lead` that is at `bound` or below: 1 where there is none; the greatest multiple of the next lower degree where none of the bound's degree is; else the bound itself.
pub(crate) fn lowered<M: Monomial>(lead: M, bound: M, steps: &mut Steps) -> M
    requires lead { degree (M.vector lead) ≤ M.LIM }
    ensures below { AtOrAbove M.order (M.vector result) (M.vector bound) }
    ensures multiples { (m : List ℕ) → length m ≡ M.VARS → Divides (M.vector lead) m → AtOrAbove M.order m (M.vector bound) → AtOrAbove M.order m (M.vector result) }
{
    let degree = bound.degree();
    let least = lead.degree();
    if degree < least {
        return M::one();
    }
    let more = degree - least;
    if is_multiple_below(lead, bound, more, steps) {
        return bound;
    }
    if more == 0 {
        return M::one();
    }
    multiple(lead, 0, more - 1).unwrap_or(bound)
}

// whether a multiple of `lead` with so much more degree, which is that of `bound`, may be at `bound` or below: the least of them is, or it has no room
fn is_multiple_below<M: Monomial>(lead: M, bound: M, more: u64, steps: &mut Steps) -> bool
    requires lead { degree (M.vector lead) ≤ M.LIM }
    ensures { result ≡ false → IsLeastAbove M.order M.VARS (M.vector lead) (M.vector bound) more }
{
    if M::VARS == 0 {
        return true;
    }
    match multiple(lead, M::VARS - 1, more) {
        None => true,
        Some(last) => !matches!(bound.higher(last, steps), Ordering::Less),
    }
}

// `lead` times a power of the variable with this number, where that is within the limit on degrees
fn multiple<M: Monomial>(lead: M, variable: usize, times: u64) -> Option<M>
    requires lead { degree (M.vector lead) ≤ M.LIM }
    requires variable { variable < M.VARS }
    ensures { IfSome result (λ m. M.vector m ≡ M.vector lead ⋅ power M.VARS variable times) }
{
    if M::VARS > MOST_VARIABLES || times > M::limit() {
        return None;
    }
    let mut exponents = [0u32; MOST_VARIABLES];
    exponents[variable] = times as u32;
    match M::pack(&exponents[..M::VARS]) {
        Ok(power) => Some(lead.times(power)),
        Err(_) => None,
    }
}
