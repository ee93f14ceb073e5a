//! The heads whose rows were taken from the heap.
ghost use Rattle.std.specs.Prelude.{◌≡◌, ◌≤◌, map, All};
ghost use Rattle.sdmp_laws.specs.Poly.{coef};
ghost use Rattle.sdmp_laws.specs.Limits.{greatest_norm};
ghost use Rattle.ring_heads.specs.Heads.{live, size_at, missing_at, HeadBelongs};
ghost use Rattle.ring_heads.specs.Places.{place_in, place_of};

use crate::head::{Head, HeadOf};
use chained_heap::ChainedHeap;
use coeff_ring::CoeffRing;
use packed_monomial::Monomial;

/// The sum of the heads of the taken rows, which are those at `mono`. They go.
pub(crate) fn sum_taken<R: CoeffRing, M: Monomial>(
    coefficients: R,
    mono: M,
    heap: &mut ChainedHeap<M>,
    list: &mut Vec<Head<R, M>>,
) -> R::E
    requires taken { heap.old ≡ map (place_in M.cmp mono) list.old.items }
    requires belongs { All (HeadBelongs (R.belongs (R.characteristic coefficients))) list.old.items }
    requires bound { R.characteristic coefficients ≡ 0 → size_at (M.vector mono) (live M.vector R.value list.old.items) ≤ greatest_norm }
    ensures belongs { R.belongs (R.characteristic coefficients) result }
    ensures sum { R.value result ≡ coef (R.characteristic coefficients) (live M.vector R.value list.old.items) (M.vector mono) }
    ensures heads { list.new.items ≡ map (missing_at M.cmp mono) list.old.items }
    ensures heap { heap.new ≡ map place_of list.new.items }
{
    let mut coef = coefficients.zero();
    while let Some(row) = heap.pop_taken() {
        let HeadOf::Term(term) = list[row as usize] else {
            unreachable!()
        };
        coef = coefficients.add(coef, term.coef);
        list[row as usize] = HeadOf::Missing;
    }
    coef
}
