//! Rows of products, each read from its greatest product on.
ghost use Rattle.std.specs.Prelude.{◌≡◌, ◌+◌, ◌-◌, ◌*◌, ◌^◌, ◌<◌, ◌≤◌, ℕ, [], length, All, IfOk, IfSome, MatchOption, None, option_map, replicate, IsTrue, ◌↔◌, true, false};
ghost use Rattle.sdmp_laws.specs.Poly.{norm};
ghost use Rattle.sdmp_laws.specs.Limits.{greatest_norm};
ghost use Rattle.canonical_terms.specs.View.{term_of, sum_of};
ghost use Rattle.chained_heap.specs.declared.node.Place.{Place};
ghost use Rattle.row_merge.specs.Learned.{AreRows, unread};
ghost use Rattle.row_merge.specs.Rows.{IsFalling, made, entered, IsRows, IsSum, IsNext, IsCounted};

use crate::waiting::{insert_if, sum_at};
use canonical_terms::Term;
use chained_heap::ChainedHeap;
use coeff_ring::CoeffRing;
use packed_monomial::Monomial;
use sdmp_laws::NoMemory;
use std::alloc::Global;
use step_count::Steps;

/// How far rows of products were read.
///
/// A row is a term times each of the columns, which are the terms of another list. Both lists fall, so each row does. A row waits until the row before it has read past its next column.
#[derive(Drop)]
pub struct Rows<M: Monomial> {
    /// How many products each row has read.
    pub reads: Vec<usize>,
    /// The next products of the rows that don't wait.
    pub heap: ChainedHeap<M>,
    /// Whether the first row has begun.
    pub begun: bool,
}

impl<M: Monomial> Rows<M> {
    /// So many rows, none of which has begun. Only want of memory is refused, which more than 2^32 - 1 rows are.
    pub fn new(alloc: Global, count: usize) -> Result<Rows<M>, NoMemory>
        ensures few { IfOk result (λ rows. count < 2 ^ 32) }
        ensures reads { IfOk result (λ rows. rows.reads.items ≡ replicate count 0) }
        ensures heap { IfOk result (λ rows. rows.heap ≡ replicate count Place.Out) }
        ensures begun { IfOk result (λ rows. rows.begun ≡ false) }
    {
        if count > u32::MAX as usize {
            return Err(NoMemory);
        }
        let reads = vec![in alloc; 0usize; count]?;
        let heap = ChainedHeap::with_rows(alloc, count as u32)?;
        Ok(Rows {
            reads,
            heap,
            begun: false,
        })
    }

    /// Begins the first row, unless it has begun: its first product comes into the heap, where there is one.
    pub fn start<R: CoeffRing>(
        &mut self,
        terms: &[Term<R, M>],
        columns: &[Term<R, M>],
        steps: &mut Steps,
    )
        requires rows { IsRows M.vector M.order (sum_of M.vector R.value terms.now) (sum_of M.vector R.value columns.now) self.old.reads.items self.old.heap self.old.begun }
        requires terms_fall { IsFalling M.order M.VARS M.LIM (sum_of M.vector R.value terms.now) }
        requires columns_fall { IsFalling M.order M.VARS M.LIM (sum_of M.vector R.value columns.now) }
        ensures reads { self.new.reads.items ≡ self.old.reads.items }
        ensures begun { self.new.begun ≡ true }
        ensures rows { AreRows M.vector M.order None (sum_of M.vector R.value columns.now) (sum_of M.vector R.value terms.now) self.new.reads.items self.new.heap }
        ensures compares { (l : ℕ) → length self.old.heap < 2 ^ l → steps.new.compares + l * entered self.old.reads.items self.old.heap ≤ steps.old.compares + l * entered self.new.reads.items self.new.heap }
        ensures products { steps.new.products ≡ steps.old.products }
    {
        if self.begun {
            return;
        }
        self.begun = true;
        let some = has_product::<R, M>(terms, columns);
        insert_if::<R, M>(some, terms, columns, &mut self.heap, 0, 0, steps);
    }

    /// The sum of all products at the greatest monomial of those that were not read, which now are read, and None exactly where none is left. The sum may be zero.
    pub fn next_sum<R: CoeffRing>(
        &mut self,
        ring: R,
        terms: &[Term<R, M>],
        columns: &[Term<R, M>],
        steps: &mut Steps,
    ) -> Option<Term<R, M>>
        requires rows { AreRows M.vector M.order None (sum_of M.vector R.value columns.now) (sum_of M.vector R.value terms.now) self.old.reads.items self.old.heap }
        requires few { length terms.now < 2 ^ 32 }
        requires terms_fall { IsFalling M.order M.VARS M.LIM (sum_of M.vector R.value terms.now) }
        requires columns_fall { IsFalling M.order M.VARS M.LIM (sum_of M.vector R.value columns.now) }
        requires terms_belong { All (λ t. R.belongs (R.characteristic ring) t.coef) terms.now }
        requires columns_belong { All (λ t. R.belongs (R.characteristic ring) t.coef) columns.now }
        requires room { R.characteristic ring ≡ 0 → norm (sum_of M.vector R.value terms.now) * norm (sum_of M.vector R.value columns.now) ≤ greatest_norm }
        ensures begun { self.new.begun ≡ self.old.begun }
        ensures rows { AreRows M.vector M.order None (sum_of M.vector R.value columns.now) (sum_of M.vector R.value terms.now) self.new.reads.items self.new.heap }
        ensures belongs { IfSome result (λ t. R.belongs (R.characteristic ring) t.coef) }
        ensures sum { MatchOption
            result
            ((unread (sum_of M.vector R.value terms.now) self.old.reads.items (sum_of M.vector R.value columns.now) ≡ [])
            × (self.new.reads.items ≡ self.old.reads.items) × (self.new.heap ≡ self.old.heap))
            (λ t. IsSum M.order (R.characteristic ring) M.VARS (sum_of M.vector R.value terms.now) (sum_of M.vector R.value columns.now) self.old.reads.items self.new.reads.items (term_of M.vector R.value t)) }
        ensures more { IfSome result (λ _. made self.old.reads.items < made self.new.reads.items) }
        ensures compares { (l : ℕ) →
            length self.old.heap < 2 ^ l →
            steps.new.compares + l * entered self.old.reads.items self.old.heap + 2 * l * made self.old.reads.items ≤ steps.old.compares + l * entered self.new.reads.items self.new.heap + 2 * l * made self.new.reads.items }
        ensures products { IsCounted steps.old.products (made self.new.reads.items - made self.old.reads.items) steps.new.products }
    {
        match self.heap.take_top(steps) {
            None => None,
            Some(mono) => Some(sum_at(
                ring,
                mono,
                terms,
                columns,
                &mut self.reads,
                &mut self.heap,
                steps,
            )),
        }
    }

    /// The next term of the sum of all products, as `next_sum`, but sums that are zero are passed over.
    pub fn next_term<R: CoeffRing>(
        &mut self,
        ring: R,
        terms: &[Term<R, M>],
        columns: &[Term<R, M>],
        steps: &mut Steps,
    ) -> Option<Term<R, M>>
        requires rows { AreRows M.vector M.order None (sum_of M.vector R.value columns.now) (sum_of M.vector R.value terms.now) self.old.reads.items self.old.heap }
        requires few { length terms.now < 2 ^ 32 }
        requires terms_fall { IsFalling M.order M.VARS M.LIM (sum_of M.vector R.value terms.now) }
        requires columns_fall { IsFalling M.order M.VARS M.LIM (sum_of M.vector R.value columns.now) }
        requires terms_belong { All (λ t. R.belongs (R.characteristic ring) t.coef) terms.now }
        requires columns_belong { All (λ t. R.belongs (R.characteristic ring) t.coef) columns.now }
        requires room { R.characteristic ring ≡ 0 → norm (sum_of M.vector R.value terms.now) * norm (sum_of M.vector R.value columns.now) ≤ greatest_norm }
        ensures begun { self.new.begun ≡ self.old.begun }
        ensures rows { AreRows M.vector M.order None (sum_of M.vector R.value columns.now) (sum_of M.vector R.value terms.now) self.new.reads.items self.new.heap }
        ensures belongs { IfSome result (λ t. R.belongs (R.characteristic ring) t.coef) }
        ensures grows { made self.old.reads.items ≤ made self.new.reads.items }
        ensures next { IsNext M.order (R.characteristic ring) (sum_of M.vector R.value terms.now) (sum_of M.vector R.value columns.now) self.old.reads.items self.new.reads.items (option_map (term_of M.vector R.value) result) }
        ensures compares { (l : ℕ) →
            length self.old.heap < 2 ^ l →
            steps.new.compares + l * entered self.old.reads.items self.old.heap + 2 * l * made self.old.reads.items ≤ steps.old.compares + l * entered self.new.reads.items self.new.heap + 2 * l * made self.new.reads.items }
        ensures products { IsCounted steps.old.products (made self.new.reads.items - made self.old.reads.items) steps.new.products }
    {
        loop {
            let term = self.next_sum(ring, terms, columns, steps)?;
            if !ring.is_zero(term.coef) {
                return Some(term);
            }
        }
    }
}

// whether there is a row with a product
fn has_product<R: CoeffRing, M: Monomial>(terms: &[Term<R, M>], columns: &[Term<R, M>]) -> bool
    ensures { IsTrue result ↔ ((0 < length terms.now) × (0 < length columns.now)) }
{
    terms.len() > 0 && columns.len() > 0
}
