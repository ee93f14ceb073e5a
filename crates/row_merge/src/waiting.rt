//! Rows of products, each of which waits for the row before it: a row reads a term only after the row before it did, since its own product with that term is lower. So few products are in the heap at a time (Monagan and Pearce, "Polynomial division using dynamic arrays, heaps, and packed exponent vectors", 2007). The terms that rows read are called learned: the quotient terms so far, or all terms of the other factor. What a row does after a product is inlined into the loop of a merge, as the calls of the heap are.
ghost use Rattle.std.specs.Prelude.{◌≡◌, ◌+◌, ◌-◌, ◌*◌, ◌≤◌, ◌<◌, ◌^◌, ℕ, List, ◌∷◌, length, All, Some, None, slice_set, slice_index, slice_index_or, IsTrue, ◌↔◌};
ghost use Rattle.std.specs.List.{sum_by};
ghost use Rattle.sdmp_laws.specs.Order.{degree};
ghost use Rattle.sdmp_laws.specs.Poly.{norm, Decreasing};
ghost use Rattle.sdmp_laws.specs.Limits.{greatest_norm};
ghost use Rattle.canonical_terms.specs.View.{term_of, sum_of};
ghost use Rattle.chained_heap.specs.declared.node.Place.{Place};
ghost use Rattle.chained_heap.specs.Shape.{present};
ghost use Rattle.row_merge.specs.Rows.{made, entered, taken_rows, IsCounted};
ghost use Rattle.row_merge.specs.Learned.{IsPopped, HasPopped, AreRows, IsMoved, TakesOut, unread, product_at};

use canonical_terms::{Term, TermOf};
use chained_heap::ChainedHeap;
use coeff_ring::CoeffRing;
use packed_monomial::Monomial;
use step_count::Steps;

/// Puts a row that is out at its product with the learned term at `read`, if that is open to it.
#[inline(always)]
pub fn insert_if<R: CoeffRing, M: Monomial>(
    open: bool,
    rows: &[Term<R, M>],
    learned: &[Term<R, M>],
    heap: &mut ChainedHeap<M>,
    row: u32,
    read: usize,
    steps: &mut Steps,
)
    requires within { IsTrue «open» → (row < length rows.now) × (read < length learned.now) × (row < length heap.old) × (slice_index_or heap.old row Place.Out ≡ Place.Out) }
    requires rows_low { All (λ t. degree (M.vector t.mono) ≤ M.LIM) rows.now }
    requires learned_low { All (λ t. degree (M.vector t.mono) ≤ M.LIM) learned.now }
    ensures moved { IsMoved M.vector row (product_at (sum_of M.vector R.value rows.now) (sum_of M.vector R.value learned.now) row read) (IsTrue «open») heap.old heap.new }
    ensures compares { (l : ℕ) → length heap.old < 2 ^ l → steps.new.compares + l * sum_by present heap.old ≤ steps.old.compares + l * sum_by present heap.new }
    ensures products { steps.new.products ≡ steps.old.products }
    ensures taken { taken_rows heap.new ≡ taken_rows heap.old }
{
    if open {
        let mono = rows[row as usize].mono.times(learned[read].mono);
        heap.insert(row, mono, steps);
    }
}

/// How far a row may read: the first as far as the terms are learned, each other as far as the row before it.
pub fn top_of(known: usize, reads: &[usize], row: usize) -> usize
    requires { row < length reads.now }
    ensures { result ≡ slice_index (known ∷ reads.now) row }
{
    if row == 0 { known } else { reads[row - 1] }
}

/// Whether a row has read just as many terms.
pub fn has_read(reads: &[usize], row: usize, read: usize) -> bool
    ensures { IsTrue result ↔ ((row < length reads.now) × (slice_index reads.now row ≡ read)) }
{
    row < reads.len() && reads[row] == read
}

/// The row that was put out has read a term: it goes back to the heap unless it waits for the row before it, and so does the row behind it, if that waited for it.
#[inline(always)]
fn move_on<R: CoeffRing, M: Monomial>(
    rows: &[Term<R, M>],
    learned: &[Term<R, M>],
    reads: &mut [usize],
    heap: &mut ChainedHeap<M>,
    row: u32,
    steps: &mut Steps,
)
    requires popped { HasPopped M.vector M.order (sum_of M.vector R.value learned.now) (sum_of M.vector R.value rows.now) reads.old heap.old row }
    requires few { length rows.now < 2 ^ 32 }
    requires long { length learned.now < 2 ^ 64 }
    requires rows_low { All (λ t. degree (M.vector t.mono) ≤ M.LIM) rows.now }
    requires learned_low { All (λ t. degree (M.vector t.mono) ≤ M.LIM) learned.now }
    requires rows_fall { Decreasing M.order (sum_of M.vector R.value rows.now) }
    requires learned_fall { Decreasing M.order (sum_of M.vector R.value learned.now) }
    ensures reads { reads.new ≡ slice_set reads.old row (slice_index reads.old row + 1) }
    ensures rows { (x : List ℕ) (before : List (Place M)) →
        IsPopped M.vector M.order x (sum_of M.vector R.value learned.now) (sum_of M.vector R.value rows.now) reads.old before heap.old row →
        AreRows M.vector M.order (Some x) (sum_of M.vector R.value learned.now) (sum_of M.vector R.value rows.now) reads.new heap.new }
    ensures compares { (l : ℕ) → length heap.old < 2 ^ l → steps.new.compares + l * sum_by present heap.old ≤ steps.old.compares + l * sum_by present heap.new }
    ensures products { steps.new.products ≡ steps.old.products }
    ensures taken { taken_rows heap.new ≡ taken_rows heap.old }
{
    let at = row as usize;
    let read = reads[at];
    let top = top_of(learned.len(), reads, at);
    let behind = has_read(reads, at + 1, read);
    reads[at] = read + 1;
    insert_if::<R, M>(read + 1 < top, rows, learned, heap, row, read + 1, steps);
    insert_if::<R, M>(behind, rows, learned, heap, row + 1, read, steps);
}

/// The sum of the products of the taken rows, all at `mono`; each of the rows moves on.
#[inline(always)]
pub fn sum_at<R: CoeffRing, M: Monomial>(
    ring: R,
    mono: M,
    rows: &[Term<R, M>],
    learned: &[Term<R, M>],
    reads: &mut [usize],
    heap: &mut ChainedHeap<M>,
    steps: &mut Steps,
) -> Term<R, M>
    requires taken { AreRows M.vector M.order (Some (M.vector mono)) (sum_of M.vector R.value learned.now) (sum_of M.vector R.value rows.now) reads.old heap.old }
    requires few { length rows.now < 2 ^ 32 }
    requires long { length learned.now < 2 ^ 64 }
    requires rows_low { All (λ t. degree (M.vector t.mono) ≤ M.LIM) rows.now }
    requires learned_low { All (λ t. degree (M.vector t.mono) ≤ M.LIM) learned.now }
    requires rows_fall { Decreasing M.order (sum_of M.vector R.value rows.now) }
    requires learned_fall { Decreasing M.order (sum_of M.vector R.value learned.now) }
    requires rows_belong { All (λ t. R.belongs (R.characteristic ring) t.coef) rows.now }
    requires learned_belong { All (λ t. R.belongs (R.characteristic ring) t.coef) learned.now }
    requires fits { R.characteristic ring ≡ 0 → norm (unread (sum_of M.vector R.value rows.now) reads.old (sum_of M.vector R.value learned.now)) ≤ greatest_norm }
    ensures mono { result.mono ≡ mono }
    ensures belongs { R.belongs (R.characteristic ring) result.coef }
    ensures out { TakesOut
        M.order
        (R.characteristic ring)
        (unread (sum_of M.vector R.value rows.now) reads.old (sum_of M.vector R.value learned.now))
        (unread (sum_of M.vector R.value rows.now) reads.new (sum_of M.vector R.value learned.now))
        (term_of M.vector R.value result) }
    ensures rows { AreRows M.vector M.order None (sum_of M.vector R.value learned.now) (sum_of M.vector R.value rows.now) reads.new heap.new }
    ensures reads { made reads.new ≡ made reads.old + taken_rows heap.old }
    ensures compares { (l : ℕ) → length heap.old < 2 ^ l → steps.new.compares + l * entered reads.old heap.old ≤ steps.old.compares + l * entered reads.new heap.new }
    ensures products { IsCounted steps.old.products (made reads.new - made reads.old) steps.new.products }
{
    let mut sum = ring.no_products();
    while let Some(row) = heap.pop_taken() {
        let at = row as usize;
        sum = ring.add_product(sum, rows[at].coef, learned[reads[at]].coef, steps);
        move_on::<R, M>(rows, learned, reads, heap, row, steps);
    }
    TermOf {
        mono,
        coef: ring.total(sum),
    }
}
