//! The rows of a divisor hand out the products of the quotient terms that they learn.
ghost use Rattle.std.specs.Prelude.{◌≡◌, ◌≢◌, ◌+◌, ◌*◌, ◌≤◌, ◌<◌, ◌^◌, ◌-◌, ℕ, List, [], ◌∷◌, ◌++◌, length, drop, All, MatchOption, IfOk, OnOk, OnErr, IfSome, Some, None, slice_set, slice_index, vec_len, vec_capacity, IsPermutation, slice_index_or, IsTrue, ◌↔◌};
ghost use Rattle.sdmp_laws.specs.Order.{degree};
ghost use Rattle.sdmp_laws.specs.Poly.{norm, row, every, lm, Decreasing};
ghost use Rattle.sdmp_laws.specs.Limits.{greatest_norm};
ghost use Rattle.canonical_terms.specs.View.{term_of, sum_of};
ghost use Rattle.chained_heap.specs.declared.node.Place.{Place};
ghost use Rattle.row_merge.specs.Learned.{IsGreatest, HandOut, IsPopped, HasPopped, AreRows, IsMoved, TakesOut, unread, product_at};

use crate::waiting::{has_read, insert_if, sum_at};
use canonical_terms::{Poly, Term};
use chained_heap::ChainedHeap;
use coeff_ring::CoeffRing;
use packed_monomial::Monomial;
use sdmp_laws::NoMemory;
use std::alloc::Global;
use std::marker::Model;
use step_count::Steps;

/// The rows of a divisor: its terms after the first, or the part of a worker of them. They learn quotient terms, the greatest first, and hand out the sums of the products, the greatest monomial first.
///
/// A row reads the learned terms in order. A product enters the heap only when the row before has read past the same learned term, so that the heap stays small (Monagan and Pearce, "Polynomial division using dynamic arrays, heaps, and packed exponent vectors", 2007). Contracts see the products that were not handed out as a list in some order.
#[derive(Drop)]
pub struct QuotientRows<'a, R: CoeffRing, M: Monomial> {
    divisor: &'a Poly<R, M>,
    ring: R,
    // the terms of the divisor that are rows
    rows: Vec<Term<R, M>>,
    // how many of the learned terms each row has read
    reads: Vec<usize>,
    heap: ChainedHeap<M>,
    learned: Vec<Term<R, M>>,
}

impl<'a, R: CoeffRing, M: Monomial> Model for QuotientRows<'a, R, M> {
    ghost use Rattle.std.specs.Prelude.{◌≡◌, ◌-◌, vec_len, vec_capacity};
    ghost use Rattle.canonical_terms.specs.View.{sum_of};
    ghost use Rattle.row_merge.specs.Learned.{QuotientState, unread, AreQuotientRows};

    ghost Value = { QuotientState };

    ghost view = { λ q. record {
      modulus = R.characteristic q.ring;
      divisor = q.divisor.now.list;
      rows = sum_of M.vector R.value q.rows.items;
      learned = sum_of M.vector R.value q.learned.items;
      unread = unread (sum_of M.vector R.value q.rows.items) q.reads.items (sum_of M.vector R.value q.learned.items);
      spare = vec_capacity q.learned - vec_len q.learned;
    } };

    ghost invariant = { λ q. (q.divisor.now.modulus ≡ R.characteristic q.ring) × AreQuotientRows M.vector R.value (R.belongs (R.characteristic q.ring)) M.order (R.characteristic q.ring) M.VARS M.LIM q.divisor.now.list q.rows.items q.learned.items q.reads.items q.heap };
}

impl<'a, R: CoeffRing, M: Monomial> QuotientRows<'a, R, M> {
    /// How many more terms may be learned before `reserve` is called.
    pub fn spare(&self) -> usize
        ensures { result ≡ self.now.spare }
    {
        self.learned.capacity() - self.learned.len()
    }

    /// How many terms were learned. It allocates nothing.
    pub fn known(&self) -> u64
        ensures { result ≡ length self.now.learned }
    {
        self.learned.len() as u64
    }

    /// The greatest monomial at which a product of a learned term was not handed out, and None exactly where there is none. It allocates nothing.
    pub fn top(&self) -> Option<M>
        ensures { MatchOption result (self.now.unread ≡ []) (λ m. IsGreatest M.order self.now.unread (M.vector m)) }
    {
        self.heap.top()
    }

    /// Rows that have learned nothing: the terms of the divisor, which isn't zero, at the places j from 1 on with `j % workers == worker`, where the first term has place 0.
    pub fn new(
        alloc: Global,
        divisor: &'a Poly<R, M>,
        workers: u32,
        worker: u32,
    ) -> Result<QuotientRows<'a, R, M>, NoMemory>
        requires nonzero { divisor.now.list ≢ [] }
        requires worker { worker < workers }
        ensures { IfOk result (λ q. q ≡ record {
          modulus = divisor.now.modulus;
          divisor = divisor.now.list;
          rows = every workers worker 1 (drop 1 divisor.now.list);
          learned = [];
          unread = [];
          spare = 0;
        }) }
    {
        let rows = later_rows::<R, M>(alloc, divisor.terms(), workers, worker)?;
        if rows.len() > u32::MAX as usize {
            return Err(NoMemory);
        }
        let reads = vec![in alloc; 0usize; rows.len()]?;
        let heap = ChainedHeap::with_rows(alloc, rows.len() as u32)?;
        Ok(QuotientRows {
            divisor,
            ring: divisor.ring(),
            rows,
            reads,
            heap,
            learned: Vec::new(alloc),
        })
    }

    /// The divisor. It allocates nothing.
    pub fn divisor(&self) -> &'a Poly<R, M>
        ensures modulus { result.now.modulus ≡ self.now.modulus }
        ensures terms { result.now.list ≡ self.now.divisor }
    {
        self.divisor
    }

    /// The monomial of the first row, and None exactly where there is no row. It allocates nothing.
    pub fn first(&self) -> Option<M>
        ensures { MatchOption result (self.now.rows ≡ []) (λ m. (self.now.rows ≢ []) × M.vector m ≡ lm self.now.rows) }
    {
        if self.rows.is_empty() {
            return None;
        }
        Some(self.rows[0].mono)
    }

    /// Makes room for at least `n` more terms.
    pub fn reserve(&mut self, n: usize) -> Result<(), NoMemory>
        ensures same { self.new ≡ record self.old { spare = self.new.spare } }
        ensures room { OnOk result (n ≤ self.new.spare) }
        ensures grows { self.old.spare ≤ self.new.spare }
        ensures refused { OnErr result (self.new.spare ≡ self.old.spare) }
    {
        self.learned.reserve(n)?;
        Ok(())
    }

    /// Learns a quotient term below all terms learned. The degree of its product with the divisor's first term is at most the limit, and over the integers the norm of the learned terms times that of the divisor at most 2^127 - 1. It allocates nothing.
    pub fn learn(&mut self, term: Term<R, M>, steps: &mut Steps)
        requires room { 0 < self.old.spare }
        requires belongs { R.belongs self.old.modulus term.coef }
        requires falls { Decreasing M.order (self.old.learned ++ term_of M.vector R.value term ∷ []) }
        requires degree { degree (M.vector term.mono) + degree (lm self.old.divisor) ≤ M.LIM }
        requires fits { self.old.modulus ≡ 0 → norm (self.old.learned ++ term_of M.vector R.value term ∷ []) * norm self.old.divisor ≤ greatest_norm }
        ensures learned { self.new.learned ≡ self.old.learned ++ term_of M.vector R.value term ∷ [] }
        ensures unread { IsPermutation (self.old.unread ++ row (term_of M.vector R.value term) self.old.rows) self.new.unread }
        ensures spare { self.old.spare ≡ self.new.spare + 1 }
        ensures same { self.new ≡ record self.old { learned = self.new.learned; unread = self.new.unread; spare = self.new.spare } }
    {
        let known = self.learned.len();
        self.learned.push_reserved(term);
        let first = has_read(&self.reads, 0, known);
        insert_if::<R, M>(
            first,
            &self.rows,
            &self.learned,
            &mut self.heap,
            0,
            known,
            steps,
        );
    }

    /// The sum of all products at `top`, which are handed out with it; its coefficient may be zero. None exactly where every product was handed out. It allocates nothing.
    #[inline(always)]
    pub fn next(&mut self, steps: &mut Steps) -> Option<Term<R, M>>
        ensures sum { MatchOption
            result
            ((self.old.unread ≡ []) × self.new ≡ self.old)
            (λ t. HandOut M.order self.old self.new (term_of M.vector R.value t)) }
        ensures belongs { IfSome result (λ t. R.belongs self.old.modulus t.coef) }
    {
        match self.heap.take_top(steps) {
            None => None,
            Some(mono) => Some(sum_at(
                self.ring,
                mono,
                &self.rows,
                &self.learned,
                &mut self.reads,
                &mut self.heap,
                steps,
            )),
        }
    }
}

// the terms after the first at the places j with `j % workers == worker`
fn later_rows<R: CoeffRing, M: Monomial>(
    alloc: Global,
    terms: &[Term<R, M>],
    workers: u32,
    worker: u32,
) -> Result<Vec<Term<R, M>>, NoMemory>
    requires { worker < workers }
    ensures terms { IfOk result (λ rows. sum_of M.vector R.value rows.items ≡ every workers worker 1 (drop 1 (sum_of M.vector R.value terms.now))) }
    ensures belongs { IfOk result (λ rows. (p : ℕ) → All (λ t. R.belongs p t.coef) terms.now → All (λ t. R.belongs p t.coef) rows.items) }
{
    let mut rows = Vec::new(alloc);
    for place in 1..terms.len() {
        if place % workers as usize != worker as usize {
            continue;
        }
        rows.push(terms[place])?;
    }
    Ok(rows)
}
