//! The heads of all workers.
ghost use Rattle.std.specs.Prelude.{◌≡◌, ◌≢◌, ◌+◌, ◌<◌, ◌≤◌, ℕ, [], length, replicate, map, slice_index_or, slice_set, All, IfOk, IfSome, IfNone, MatchOption, IsTrue, ◌↔◌, true, false};
ghost use Rattle.canonical_terms.specs.View.{term_of};
ghost use Rattle.ring_heads.specs.Heads.{plain_heads, live, missing_at, is_missing, HeadBelongs, IsTopOf, IsTopSum, TopFits};

use crate::head::{Head, HeadOf};
use crate::scan::{greatest, no_head, sum_at, take_at};
use crate::taken::sum_taken;
use canonical_terms::{Term, TermOf};
use chained_heap::ChainedHeap;
use coeff_ring::CoeffRing;
use packed_monomial::Monomial;
use sdmp_laws::NoMemory;
use std::alloc::Global;
use std::marker::Model;
use step_count::Steps;

// up to so many heads a scan takes less time than a heap
const SCANNED: u32 = 8;

/// The heads of the workers by their numbers. Contracts see them as their list.
///
/// Up to 8 workers the greatest head is found by a scan of them, and above by a heap over their monomials. No call but `new` allocates.
#[derive(Drop)]
pub struct Heads<R: CoeffRing, M: Monomial> {
    heap: Option<ChainedHeap<M>>,
    list: Vec<Head<R, M>>,
}

impl<R: CoeffRing, M: Monomial> Model for Heads<R, M> {
    ghost use Rattle.std.specs.Prelude.{◌≡◌, ◌^◌, ◌<◌, List, map, length};
    ghost use Rattle.std.specs.Option.{ForSome};
    ghost use Rattle.ring_heads.specs.declared.head.HeadOf.{HeadOf};
    ghost use Rattle.ring_heads.specs.Places.{place_of};

    ghost Value = { List (HeadOf M R.E) };

    ghost view = { λ h. h.list.items };

    ghost invariant = { λ h. ForSome h.heap (λ heap. heap ≡ map place_of h.list.items) × (length h.list.items < 2 ^ 32) };
}

impl<R: CoeffRing, M: Monomial> Heads<R, M> {
    /// No worker has a head or has ended.
    pub fn new(alloc: Global, workers: u32) -> Result<Heads<R, M>, NoMemory>
        ensures { IfOk result (λ h. h ≡ replicate workers HeadOf.Missing) }
    {
        let Ok(list) = Vec::from_elem(alloc, HeadOf::Missing, workers as usize) else {
            return Err(NoMemory);
        };
        if workers <= SCANNED {
            return Ok(Heads { heap: None, list });
        }
        let Ok(heap) = ChainedHeap::with_rows(alloc, workers) else {
            return Err(NoMemory);
        };
        Ok(Heads {
            heap: Some(heap),
            list,
        })
    }

    /// Whether the worker has neither a head nor its end.
    pub fn is_missing(&self, worker: usize) -> bool
        requires { worker < length self.now }
        ensures { result ≡ is_missing (slice_index_or self.now worker HeadOf.Missing) }
    {
        matches!(self.list[worker], HeadOf::Missing)
    }

    /// The term becomes the head of a worker that has none.
    pub fn put(&mut self, worker: usize, term: Term<R, M>, steps: &mut Steps)
        requires below { worker < length self.old }
        requires missing { slice_index_or self.old worker HeadOf.Missing ≡ HeadOf.Missing }
        ensures { self.new ≡ slice_set self.old worker (HeadOf.Term term) }
    {
        self.list[worker] = HeadOf::Term(term);
        if let Some(heap) = &mut self.heap {
            heap.insert(worker as u32, term.mono, steps);
        }
    }

    /// A worker that has no head has ended.
    pub fn end(&mut self, worker: usize)
        requires below { worker < length self.old }
        requires missing { slice_index_or self.old worker HeadOf.Missing ≡ HeadOf.Missing }
        ensures { self.new ≡ slice_set self.old worker HeadOf.Ended }
    {
        self.list[worker] = HeadOf::Ended;
    }

    /// Whether there is no head.
    pub fn is_empty(&self) -> bool
        ensures yes { IsTrue result → live M.vector R.value self.now ≡ [] }
        ensures no { result ≡ false → live M.vector R.value self.now ≢ [] }
    {
        match &self.heap {
            Some(heap) => heap.top().is_none(),
            None => no_head::<R, M>(&self.list),
        }
    }

    /// Whether each worker has ended.
    pub fn all_ended(&self) -> bool
        ensures { IsTrue result ↔ ((w : ℕ) → w < length self.now → slice_index_or self.now w HeadOf.Missing ≡ HeadOf.Ended) }
    {
        for head in &self.list {
            if !matches!(head, HeadOf::Ended) {
                return false;
            }
        }
        true
    }

    /// The greatest monomial of the heads, and None exactly where there is no head.
    pub fn top(&self, steps: &mut Steps) -> Option<M>
        ensures { MatchOption
            result
            (live M.vector R.value self.now ≡ [])
            (λ x. IsTopOf M.order (plain_heads M.vector R.value self.now) (M.vector x)) }
    {
        match &self.heap {
            Some(heap) => heap.top(),
            None => greatest::<R, M>(&self.list, steps),
        }
    }

    /// The greatest monomial of the heads with the sum of their coefficients there, which may be zero, and None exactly where there is no head. No head goes, and each is looked at.
    pub fn sum_at_top(&self, coefficients: R, steps: &mut Steps) -> Option<Term<R, M>>
        requires belongs { All (HeadBelongs (R.belongs (R.characteristic coefficients))) self.now }
        requires bound { R.characteristic coefficients ≡ 0 → TopFits M.order (plain_heads M.vector R.value self.now) }
        ensures none { IfNone result (live M.vector R.value self.now ≡ []) }
        ensures sum { IfSome result (λ t. IsTopSum M.order (R.characteristic coefficients) (plain_heads M.vector R.value self.now) (term_of M.vector R.value t)) }
        ensures belongs { IfSome result (λ t. R.belongs (R.characteristic coefficients) t.coef) }
    {
        let mono = self.top(steps)?;
        let coef = sum_at(coefficients, mono, &self.list);
        Some(TermOf { mono, coef })
    }

    /// Takes away the heads with the greatest monomial, and gives the sum of their coefficients there, which may be zero. None exactly where there is no head.
    pub fn take_top(&mut self, coefficients: R, steps: &mut Steps) -> Option<Term<R, M>>
        requires belongs { All (HeadBelongs (R.belongs (R.characteristic coefficients))) self.old }
        requires bound { R.characteristic coefficients ≡ 0 → TopFits M.order (plain_heads M.vector R.value self.old) }
        ensures none { IfNone result (live M.vector R.value self.old ≡ []) }
        ensures same { IfNone result (self.new ≡ self.old) }
        ensures sum { IfSome result (λ t. IsTopSum M.order (R.characteristic coefficients) (plain_heads M.vector R.value self.old) (term_of M.vector R.value t)) }
        ensures belongs { IfSome result (λ t. R.belongs (R.characteristic coefficients) t.coef) }
        ensures heads { IfSome result (λ t. self.new ≡ map (missing_at M.cmp t.mono) self.old) }
    {
        let Some(heap) = &mut self.heap else {
            let mono = greatest::<R, M>(&self.list, steps)?;
            let coef = take_at(coefficients, mono, &mut self.list);
            return Some(TermOf { mono, coef });
        };
        let mono = heap.take_top(steps)?;
        let coef = sum_taken(coefficients, mono, heap, &mut self.list);
        Some(TermOf { mono, coef })
    }
}

fn is_send<T: Send>() {}

// they go from thread to thread with their merge
fn heads_are_sent<R: CoeffRing, M: Monomial>() {
    is_send::<Heads<R, M>>();
}
