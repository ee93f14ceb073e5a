//! The merge of a division.
ghost use Rattle.std.specs.Prelude.{◌≡◌, ◌≢◌, ◌+◌, ◌≤◌, ◌++◌, ◌↔◌, [], length, min, OnOk, OnErr, IsTrue, Some, None, List, All};
ghost use Rattle.sdmp_laws.specs.Poly.{Term as PlainTerm};
ghost use Rattle.sdmp_laws.specs.LongDivision.{quotient_list};
ghost use Rattle.canonical_terms.specs.View.{sum_of};
ghost use Rattle.divide_wholes.specs.Wholes.{AllUnderFront};
ghost use Rattle.quotient_row.specs.Ends.{published};
ghost use Rattle.divide_merge.specs.Names.{writer_row, IsPublishing};
ghost use Rattle.divide_merge.specs.Inside.{vector_of};
ghost use Rattle.divide_merge.specs.Merges.{IsEnding};
ghost use Rattle.dividing_rounds.specs.Runs.{run_row};
ghost use Rattle.dividing_rounds.specs.Rounds.{progress};
ghost use Rattle.divide_merge.specs.Verdicts.{Finishes};

use crate::answer::DivideAdvance;
use crate::divisor::Divisor;
use crate::mark::Mark;
use canonical_terms::{Poly, Term};
use coeff_ring::CoeffRing;
use packed_monomial::Monomial;
use quotient_row::RowWriter;
use ring_heads::Heads;
use sdmp_laws::NoMemory;
use std::marker::Model;
use term_ring::Reader;

/// The shared merge of the workers of a division.
///
/// It holds a reader for each worker's ring, at most one term and the latest mark of each, the unread part of the dividend, and the quotient and the remainder as far as they are found; and it publishes the quotient terms in its row. These, less the terms that the workers still owe, always add up to the dividend less the products of the quotient with the later terms of the divisor.
#[derive(Drop)]
pub struct DivideMerge<R: CoeffRing, M: Monomial> {
    pub(crate) coefficients: R,
    pub(crate) divisor: Divisor<M, R::E>,
    pub(crate) dividend: Poly<R, M>,
    // how many terms of the dividend are read
    pub(crate) read: usize,
    pub(crate) readers: Vec<Reader<R, M>>,
    pub(crate) marks: Vec<Mark<M>>,
    pub(crate) heads: Heads<R, M>,
    pub(crate) q: Vec<Term<R, M>>,
    pub(crate) r: Vec<Term<R, M>>,
    // over the integers the norm of q
    pub(crate) norm: u128,
    pub(crate) spare: usize,
    pub(crate) writer: RowWriter<R, M>,
    pub(crate) front: Option<M>,
    // the monomial that was processed last
    pub(crate) last: Option<M>,
    pub(crate) over: Option<DivideAdvance<R, M>>,
    // how many notes the readers have taken, up to the greatest word
    pub(crate) taken: u64,
    pub(crate) fronts: u64,
    pub(crate) processed: u64,
}

impl<R: CoeffRing, M: Monomial> Model for DivideMerge<R, M> {
    ghost use Rattle.std.specs.Prelude.{vec_capacity};
    ghost use Rattle.divide_merge.specs.Merges.{DivideView};
    ghost use Rattle.divide_merge.specs.Inside.{divide_view, IsDivideMerge};

    ghost Value = { DivideView };

    ghost view = { λ m. divide_view M.vector R.value record {
      divisor = m.divisor;
      dividend = m.dividend;
      seen = m.read;
      readers = m.readers.items;
      marks = m.marks.items;
      heads = m.heads;
      found = m.q.items;
      rest = m.r.items;
      norm = m.norm;
      spare = m.spare;
      writer = m.writer;
      front = m.front;
      last = m.last;
      over = m.over;
      taken = m.taken;
      fronts = m.fronts;
      processed = m.processed;
    } };

    ghost invariant = { λ m. IsDivideMerge M.vector R.value R.belongs M.order M.VARS M.LIM (R.characteristic m.coefficients) (vec_capacity m.q) (vec_capacity m.r) record {
      divisor = m.divisor;
      dividend = m.dividend;
      seen = m.read;
      readers = m.readers.items;
      marks = m.marks.items;
      heads = m.heads;
      found = m.q.items;
      rest = m.r.items;
      norm = m.norm;
      spare = m.spare;
      writer = m.writer;
      front = m.front;
      last = m.last;
      over = m.over;
      taken = m.taken;
      fronts = m.fronts;
      processed = m.processed;
    } };
}

impl<R: CoeffRing, M: Monomial> DivideMerge<R, M> {
    /// Makes room for at least `n` more terms, whether they go to the quotient or to the remainder. The room at least doubles where it grows.
    pub fn reserve(&mut self, n: usize) -> Result<(), NoMemory>
        ensures run { self.new.run ≡ self.old.run }
        ensures answer { self.new.answer ≡ self.old.answer }
        ensures rings { self.new.rings ≡ self.old.rings }
        ensures row { self.new.row ≡ self.old.row }
        ensures tails { self.new.tails ≡ self.old.tails }
        ensures looks { self.new.looks ≡ self.old.looks }
        ensures room { OnOk result (n ≤ self.new.spare) }
        ensures kept { self.old.spare ≤ self.new.spare }
        ensures refused { OnErr result (self.new ≡ self.old) }
    {
        if self.q.reserve(n).is_err() {
            return Err(NoMemory);
        }
        if self.r.reserve(n).is_err() {
            return Err(NoMemory);
        }
        let quotient = self.q.capacity() - self.q.len();
        let remainder = self.r.capacity() - self.r.len();
        self.spare = quotient.min(remainder);
        Ok(())
    }

    /// For how many more terms there is room: each term that is found takes one of it, whether it goes to the quotient or to the remainder.
    pub fn spare(&self) -> usize
        ensures { result ≡ self.now.spare }
    {
        self.spare
    }

    /// The terms of the quotient that are found.
    pub fn quotient(&self) -> &[Term<R, M>]
        ensures terms { sum_of M.vector R.value result.now ≡ self.now.run.state.q }
        ensures belongs { All (λ t. R.belongs self.now.run.state.division.p t.coef) result.now }
    {
        &self.q
    }

    /// How many notes were taken and published and monomials processed, up to the greatest word.
    pub fn progress(&self) -> u64
        ensures { result ≡ min (progress self.now.run) u64.MAX }
    {
        self.taken
            .saturating_add(self.q.len() as u64)
            .saturating_add(self.fronts)
            .saturating_add(self.processed)
    }

    /// Whether an advance has answered `Finished`, `NoQuotient`, `PassedBound` or `PassedTerms`.
    pub fn is_over(&self) -> bool
        ensures { IsTrue result ↔ IsTrue self.now.run.over }
    {
        self.over.is_some()
    }

    /// The present front: no later quotient term times the leading monomial of the divisor is above it. There is none exactly before the first note of the run is published.
    pub fn front(&self) -> Option<M>
        ensures front { vector_of M.vector result ≡ self.now.run.state.front }
        ensures none { result ≡ None ↔ (length self.now.run.state.q + self.now.run.fronts_count ≡ 0) }
        ensures later { (later : List PlainTerm) → self.now.run.state.q ++ later ≡ quotient_list self.now.run.state.division → AllUnderFront self.now.run.state.division (vector_of M.vector result) later }
    {
        self.front
    }

    /// Goes on with a new row, which starts after the quotient terms that are found. The present front stays. It allocates nothing.
    pub fn change_row(&mut self, writer: RowWriter<R, M>)
        requires writer { IsPublishing writer }
        requires division { (writer_row writer).name.division ≡ self.old.run.state.division }
        requires start { (writer_row writer).name.start ≡ length self.old.run.state.q }
        requires nothing { published writer ≡ [] }
        ensures run { self.new.run ≡ run_row self.old.run }
        ensures row { self.new.row ≡ writer_row writer }
        ensures answer { self.new.answer ≡ self.old.answer }
        ensures spare { self.new.spare ≡ self.old.spare }
        ensures rings { self.new.rings ≡ self.old.rings }
        ensures tails { self.new.tails ≡ self.old.tails }
        ensures looks { self.new.looks ≡ self.old.looks }
    {
        self.writer = writer;
    }

    /// Quotient and remainder, once the merge has finished.
    pub fn finish(self) -> (Poly<R, M>, Poly<R, M>)
        requires { self.answer ≡ Some Finishes }
        ensures quotient_modulus { result.0.modulus ≡ self.run.state.division.p }
        ensures remainder_modulus { result.1.modulus ≡ self.run.state.division.p }
        ensures quotient { result.0.list ≡ self.run.state.q }
        ensures remainder { result.1.list ≡ self.run.state.r }
        ensures right { IsEnding self.run.state.division result.0.list result.1.list }
    {
        let DivideMerge {
            coefficients,
            divisor: _,
            dividend: _dividend,
            read: _,
            readers: _readers,
            marks: _marks,
            heads: _heads,
            q,
            r,
            norm: _,
            spare: _,
            writer: _writer,
            front: _,
            last: _,
            over: _,
            taken: _,
            fronts: _,
            processed: _,
        } = self;
        (
            Poly::from_ordered(coefficients, q),
            Poly::from_ordered(coefficients, r),
        )
    }
}

fn is_send<T: Send>() {}

// threads hand a merge on to each other through a turnstile
fn merge_is_sent<R: CoeffRing, M: Monomial>() {
    is_send::<DivideMerge<R, M>>();
}
