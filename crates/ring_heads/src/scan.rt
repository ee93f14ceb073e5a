//! Scans of the heads. For few workers they take less time than a heap.
ghost use Rattle.std.specs.Prelude.{◌≡◌, ◌≤◌, ◌+◌, ◌<◌, length, map, All, MatchOption, IsTrue, false};
ghost use Rattle.sdmp_laws.specs.Poly.{coef};
ghost use Rattle.sdmp_laws.specs.Limits.{greatest_norm};
ghost use Rattle.chained_heap.specs.Shape.{IsTop, IsEmpty};
ghost use Rattle.ring_heads.specs.Heads.{live, size_at, missing_at, HeadBelongs};
ghost use Rattle.ring_heads.specs.Places.{place_of, IsHigher};

use crate::head::{Head, HeadOf};
use coeff_ring::CoeffRing;
use packed_monomial::Monomial;
use std::cmp::Ordering;
use step_count::Steps;

/// The greatest monomial of the heads, and None exactly where there is no head.
pub(crate) fn greatest<R: CoeffRing, M: Monomial>(
    list: &[Head<R, M>],
    steps: &mut Steps,
) -> Option<M>
    ensures { MatchOption result (IsEmpty (map place_of list.now)) (λ x. IsTop M.cmp (map place_of list.now) x) }
{
    let mut top = None;
    for head in list {
        if let HeadOf::Term(term) = head {
            top = Some(higher_of(top, term.mono, steps));
        }
    }
    top
}

// The greater of two monomials, or the one that there is.
#[inline(always)]
fn higher_of<M: Monomial>(top: Option<M>, mono: M, steps: &mut Steps) -> M
    ensures { IsHigher M.cmp top mono result }
{
    let Some(other) = top else {
        return mono;
    };
    match other.higher(mono, steps) {
        Ordering::Less => mono,
        _ => other,
    }
}

/// Whether there is no head.
pub(crate) fn no_head<R: CoeffRing, M: Monomial>(list: &[Head<R, M>]) -> bool
    ensures yes { IsTrue result → IsEmpty (map place_of list.now) }
    ensures no { result ≡ false → IsEmpty (map place_of list.now) → ⊥ }
{
    for head in list {
        if matches!(head, HeadOf::Term(_)) {
            return false;
        }
    }
    true
}

/// The sum of the heads at `mono`.
pub(crate) fn sum_at<R: CoeffRing, M: Monomial>(
    coefficients: R,
    mono: M,
    list: &[Head<R, M>],
) -> R::E
    requires belongs { All (HeadBelongs (R.belongs (R.characteristic coefficients))) list.now }
    requires bound { R.characteristic coefficients ≡ 0 → size_at (M.vector mono) (live M.vector R.value list.now) ≤ greatest_norm }
    ensures belongs { R.belongs (R.characteristic coefficients) result }
    ensures sum { R.value result ≡ coef (R.characteristic coefficients) (live M.vector R.value list.now) (M.vector mono) }
{
    let mut coef = coefficients.zero();
    for head in list {
        if let HeadOf::Term(term) = head {
            if term.mono == mono {
                coef = coefficients.add(coef, term.coef);
            }
        }
    }
    coef
}

/// The sum of the heads at `mono`, which go.
pub(crate) fn take_at<R: CoeffRing, M: Monomial>(
    coefficients: R,
    mono: M,
    list: &mut [Head<R, M>],
) -> R::E
    requires belongs { All (HeadBelongs (R.belongs (R.characteristic coefficients))) list.old }
    requires bound { R.characteristic coefficients ≡ 0 → size_at (M.vector mono) (live M.vector R.value list.old) ≤ greatest_norm }
    ensures belongs { R.belongs (R.characteristic coefficients) result }
    ensures sum { R.value result ≡ coef (R.characteristic coefficients) (live M.vector R.value list.old) (M.vector mono) }
    ensures heads { list.new ≡ map (missing_at M.cmp mono) list.old }
{
    let mut coef = coefficients.zero();
    for head in list.iter_mut() {
        if let HeadOf::Term(term) = *head {
            if term.mono == mono {
                coef = coefficients.add(coef, term.coef);
                *head = HeadOf::Missing;
            }
        }
    }
    coef
}
