//! The terms of a worker's part of a product.
ghost use Rattle.std.specs.Prelude.{◌≡◌, ◌+◌, ◌-◌, ◌*◌, ◌^◌, ◌<◌, ◌≤◌, ℕ, [], ◌∷◌, length, All, IfOk, IfSome, MatchOption};
ghost use Rattle.sdmp_laws.specs.Poly.{terms, part};
ghost use Rattle.sdmp_laws.specs.Limits.{HasRoom};
ghost use Rattle.canonical_terms.specs.View.{term_of, sum_of};
ghost use Rattle.row_merge.specs.Rows.{strided, InRange, IsCounted};
ghost use Rattle.row_merge.specs.Part.{Remaining, row_count};

use crate::rows::Rows;
use canonical_terms::{Poly, Term};
use coeff_ring::CoeffRing;
use packed_monomial::Monomial;
use sdmp_laws::NoMemory;
use std::alloc::Global;
use std::marker::Model;
use step_count::Steps;

/// The rows of one of several workers: the terms of f at the places i with i mod `workers` = `worker`, each times g.
#[derive(Drop)]
pub struct RowSet<'a, R: CoeffRing, M: Monomial> {
    pub f: &'a Poly<R, M>,
    pub g: &'a Poly<R, M>,
    pub workers: u32,
    pub worker: u32,
}

/// The merge of a worker's rows, which hands out the terms of their sum, the greatest first.
///
/// Contracts see it as the factors, the worker, the list `rest` of the terms that were not handed out, and how many products were `made` and have `entered` the heap. A term costs its products and their comparisons, and no memory.
#[derive(Drop)]
pub struct RowMerge<'a, R: CoeffRing, M: Monomial> {
    set: RowSet<'a, R, M>,
    // the terms of f that are the worker's rows
    part: Vec<Term<R, M>>,
    rows: Rows<M>,
}

impl<'a, R: CoeffRing, M: Monomial> Model for RowMerge<'a, R, M> {
    ghost use Rattle.sdmp_laws.specs.Poly.{terms};
    ghost use Rattle.canonical_terms.specs.View.{sum_of};
    ghost use Rattle.row_merge.specs.Rows.{strided, made, entered};
    ghost use Rattle.row_merge.specs.Learned.{unread};
    ghost use Rattle.row_merge.specs.Part.{Remaining, IsPart};
    ghost use Rattle.std.specs.Prelude.{length, All};

    ghost Value = { Remaining };

    ghost view = { λ m. record {
      modulus = m.set.f.now.modulus;
      f = m.set.f.now.list;
      g = m.set.g.now.list;
      workers = m.set.workers;
      worker = m.set.worker;
      rest = terms M.order m.set.f.now.modulus (unread (strided m.set.f.now.list m.set.worker m.set.workers (length m.rows.reads.items)) m.rows.reads.items m.set.g.now.list);
      made = made m.rows.reads.items;
      entered = entered m.rows.reads.items m.rows.heap;
    } };

    ghost invariant = { λ m. IsPart M.vector M.order M.VARS M.LIM m.set.f.now.modulus m.set.g.now.modulus m.set.f.now.list m.set.g.now.list m.set.workers m.set.worker (sum_of M.vector R.value m.part.items) m.rows.reads.items m.rows.heap m.rows.begun × All (λ t. R.belongs m.set.f.now.modulus t.coef) m.part.items };
}

impl<'a, R: CoeffRing, M: Monomial> RowMerge<'a, R, M> {
    /// The merge of rows of which nothing was read, whose terms it copies side by side. Only want of memory is refused, which more than 2^32 - 1 rows are.
    pub fn new(alloc: Global, set: RowSet<'a, R, M>) -> Result<RowMerge<'a, R, M>, NoMemory>
        requires worker { set.worker < set.workers }
        requires modulus { set.f.now.modulus ≡ set.g.now.modulus }
        requires room { HasRoom M.LIM set.f.now.modulus set.f.now.list set.g.now.list }
        ensures factors { IfOk result (λ m. (m.modulus ≡ set.entry.f.now.modulus) × (m.f ≡ set.entry.f.now.list) × (m.g ≡ set.entry.g.now.list)) }
        ensures workers { IfOk result (λ m. (m.workers ≡ set.entry.workers) × (m.worker ≡ set.entry.worker)) }
        ensures rest { IfOk result (λ m. m.rest ≡ terms M.order set.entry.f.now.modulus (part set.entry.f.now.list set.entry.g.now.list set.entry.workers set.entry.worker)) }
        ensures counts { IfOk result (λ m. (m.made ≡ 0) × (m.entered ≡ 0)) }
    {
        let first = set.worker as usize;
        let stride = set.workers as usize;
        let terms = set.f.terms();
        let count = terms.len().saturating_sub(first).div_ceil(stride);
        let part = strided_terms::<R, M>(alloc, terms, first, stride, count)?;
        let rows = Rows::new(alloc, count)?;
        Ok(RowMerge { set, part, rows })
    }

    /// The next term of the part's sum, and None exactly at its end. It allocates nothing.
    ///
    /// Each product is made once. For rows whose number has l binary digits, each that enters the heap costs at most l comparisons, and each that is made at most 2*l more.
    pub fn next(&mut self, steps: &mut Steps) -> Option<Term<R, M>>
        ensures factors { (self.new.modulus ≡ self.old.modulus) × (self.new.f ≡ self.old.f) × (self.new.g ≡ self.old.g) × (self.new.workers ≡ self.old.workers) × (self.new.worker ≡ self.old.worker) }
        ensures next { MatchOption
            result
            ((self.old.rest ≡ []) × (self.new.rest ≡ []))
            (λ t. self.old.rest ≡ term_of M.vector R.value t ∷ self.new.rest) }
        ensures belongs { IfSome result (λ t. R.belongs self.old.modulus t.coef) }
        ensures ends { MatchOption
            result
            ((self.new.made ≡ length (part self.old.f self.old.g self.old.workers self.old.worker)) × (self.new.entered ≡ length (part self.old.f self.old.g self.old.workers self.old.worker)))
            (λ _. self.old.made ≤ self.new.made) }
        ensures compares { (l : ℕ) →
            row_count (length self.old.f) self.old.workers self.old.worker < 2 ^ l →
            steps.new.compares + l * self.old.entered + 2 * l * self.old.made ≤ steps.old.compares + l * self.new.entered + 2 * l * self.new.made }
        ensures products { IsCounted steps.old.products (self.new.made - self.old.made) steps.new.products }
    {
        let ring = self.set.f.ring();
        let g = self.set.g.terms();
        self.rows.start::<R>(&self.part, g, steps);
        self.rows.next_term(ring, &self.part, g, steps)
    }
}

// the terms at so many places, `stride` apart
fn strided_terms<R: CoeffRing, M: Monomial>(
    alloc: Global,
    terms: &[Term<R, M>],
    first: usize,
    stride: usize,
    count: usize,
) -> Result<Vec<Term<R, M>>, NoMemory>
    requires range { InRange first stride count (length terms.now) }
    ensures terms { IfOk result (λ part. sum_of M.vector R.value part.items ≡ strided (sum_of M.vector R.value terms.now) first stride count) }
    ensures belongs { IfOk result (λ part. (p : ℕ) → All (λ t. R.belongs p t.coef) terms.now → All (λ t. R.belongs p t.coef) part.items) }
{
    let mut part = Vec::new(alloc);
    part.reserve(count)?;
    for slot in 0..count {
        part.push(terms[first + stride * slot])?;
    }
    Ok(part)
}
