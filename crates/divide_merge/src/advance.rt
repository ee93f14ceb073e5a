//! How a merge of a division advances.
ghost use Rattle.std.specs.Prelude.{◌≡◌, ◌<◌, ℤ, map, Some, None, slice_index_or};
ghost use Rattle.canonical_terms.specs.View.{term_of};
ghost use Rattle.term_ring.specs.Names.{RingName, ring_name};
ghost use Rattle.dividing_rounds.specs.Found.{read_coef, Fits, term_at};
ghost use Rattle.dividing_rounds.specs.Stalls.{IsGreatestRead};
ghost use Rattle.divide_merge.specs.Names.{row_identity};
ghost use Rattle.divide_merge.specs.Inside.{vector_of, answer_of};
ghost use Rattle.divide_merge.specs.Merges.{IsSound, IsCause, Grows, verdict_of, AllStarved};
ghost use Rattle.divide_merge.specs.Reached.{divide_reached, Follows};
ghost use Rattle.divide_merge.specs.Reading.{IsReadNext, next_mono};
ghost use Rattle.divide_merge.specs.Verdicts.{Verdict, NoneStuck, IsFirstStuck, IsPresentAt, kept_of};
ghost use Rattle.divide_merge.specs.Steps.{Fills, IsLeftAlone, IsAskedAll, Turns};

use crate::answer::{DivideAdvance, DivideAdvanceOf};
use crate::mark::Next;
use crate::merge::DivideMerge;
use canonical_terms::{Term, TermOf};
use coeff_ring::CoeffRing;
use divide_core::{DivideFault, find, with_term};
use packed_monomial::Monomial;
use quotient_row::Row;
use sdmp_laws::Mode;
use step_count::Steps;
use term_ring::Ring;

impl<R: CoeffRing, M: Monomial> DivideMerge<R, M> {
    /// Takes notes of the worker until it has a head or its ring is empty.
    fn fill_one(&mut self, worker: usize, ring: &Ring<R, M>, steps: &mut Steps)
        requires going { self.old.answer ≡ None }
        requires sound { IsSound M.LIM self.old }
        requires worker { worker < self.old.run.state.workers }
        requires ring { (d : RingName) → slice_index_or self.old.rings worker d ≡ ring_name ring.now }
        ensures sound { IsSound M.LIM self.new }
        ensures fills { Fills self.old self.new }
        ensures others { IsLeftAlone self.old self.new worker }
        ensures asked { IsAskedAll self.old self.new worker }
    {
        while self.is_missing(worker) {
            if !self.take_note(worker, ring, steps) {
                return;
            }
        }
    }

    /// Takes notes of each worker until it has a head or its ring is empty.
    fn fill(&mut self, rings: &[Ring<R, M>], steps: &mut Steps)
        requires going { self.old.answer ≡ None }
        requires sound { IsSound M.LIM self.old }
        requires rings { self.old.rings ≡ map ring_name rings.now }
        ensures sound { IsSound M.LIM self.new }
        ensures fills { Fills self.old self.new }
        ensures asked { AllStarved self.old self.new }
    {
        for worker in 0..rings.len() {
            self.fill_one(worker, &rings[worker], steps);
        }
    }

    /// The answer where this worker has to be waited for: the front that is due is published before.
    fn block(
        &mut self,
        worker: u32,
        next: Option<M>,
        row: &Row<R, M>,
        steps: &mut Steps,
    ) -> DivideAdvance<R, M>
        requires going { self.old.answer ≡ None }
        requires sound { IsSound M.LIM self.old }
        requires row { self.old.row ≡ row_identity row.now }
        requires next { IsGreatestRead self.old.run.state (vector_of M.vector next) }
        requires stuck { IsFirstStuck self.old.run.state (vector_of M.vector next) worker }
        ensures sound { IsSound M.LIM self.new }
        ensures turns { Turns self.old self.new (Some (verdict_of M.vector R.value result)) }
    {
        let Some(bound) = self.due_bound(next, steps) else {
            return DivideAdvanceOf::Blocked(worker);
        };
        if self.is_row_full() {
            return DivideAdvanceOf::RowFull;
        }
        self.publish_front(bound, row, steps);
        DivideAdvanceOf::Blocked(worker)
    }

    /// Gives the term to the remainder, or answers why it can't.
    fn spill(
        &mut self,
        next: Next<M>,
        term: Term<R, M>,
        steps: &mut Steps,
    ) -> Option<DivideAdvance<R, M>>
        requires going { self.old.answer ≡ None }
        requires sound { IsSound M.LIM self.old }
        requires next { IsReadNext M.vector self.old.run.state next }
        requires present { IsPresentAt self.old.run.state (M.vector next.mono) }
        requires none { (u : ℤ) → Fits self.old.run.state (M.vector next.mono) u → ⊥ }
        requires mono { term.mono ≡ next.mono }
        requires belongs { R.belongs self.old.run.state.division.p term.coef }
        requires value { R.value term.coef ≡ read_coef self.old.run.state (M.vector next.mono) }
        ensures sound { IsSound M.LIM self.new }
        ensures turns { Turns self.old self.new (answer_of M.vector R.value result) }
    {
        match self.divisor.mode {
            Mode::Exact => Some(self.end(DivideAdvanceOf::NoQuotient { at: next.mono })),
            Mode::Remainder => {
                if self.spare == 0 {
                    return Some(DivideAdvanceOf::OutFull);
                }
                self.keep_term(next, term, steps);
                None
            }
        }
    }

    /// Publishes the quotient term, or answers why it can't.
    fn add_term(
        &mut self,
        next: Next<M>,
        term: Term<R, M>,
        row: &Row<R, M>,
        steps: &mut Steps,
    ) -> Option<DivideAdvance<R, M>>
        requires going { self.old.answer ≡ None }
        requires sound { IsSound M.LIM self.old }
        requires row { self.old.row ≡ row_identity row.now }
        requires next { IsReadNext M.vector self.old.run.state next }
        requires present { IsPresentAt self.old.run.state (M.vector next.mono) }
        requires fits { Fits self.old.run.state (M.vector next.mono) (R.value term.coef) }
        requires mono { term_of M.vector R.value term ≡ term_at self.old.run.state (M.vector next.mono) (R.value term.coef) }
        requires belongs { R.belongs self.old.run.state.division.p term.coef }
        ensures sound { IsSound M.LIM self.new }
        ensures turns { Turns self.old self.new (answer_of M.vector R.value result) }
    {
        let size = self.coefficients.size(term.coef);
        let count = self.q.len() + 1;
        let norm = match with_term(self.divisor.norms, self.norm, count, size) {
            Ok(norm) => norm,
            Err(fault) => match fault {
                DivideFault::CoefficientBound => {
                    return Some(self.end(DivideAdvanceOf::PassedBound { term }));
                }
                _ => return Some(self.end(DivideAdvanceOf::PassedTerms { term })),
            },
        };
        if self.is_row_full() {
            return Some(DivideAdvanceOf::RowFull);
        }
        if self.spare == 0 {
            return Some(DivideAdvanceOf::OutFull);
        }
        self.find_term(next, term, norm, row, steps);
        None
    }

    /// Processes the monomial that is read next, or answers why it can't. Its coefficient is final.
    fn settle(
        &mut self,
        next: Next<M>,
        row: &Row<R, M>,
        steps: &mut Steps,
    ) -> Option<DivideAdvance<R, M>>
        requires going { self.old.answer ≡ None }
        requires sound { IsSound M.LIM self.old }
        requires row { self.old.row ≡ row_identity row.now }
        requires next { IsReadNext M.vector self.old.run.state next }
        requires heard { NoneStuck self.old.run.state (Some (M.vector next.mono)) }
        ensures sound { IsSound M.LIM self.new }
        ensures turns { Turns self.old self.new (answer_of M.vector R.value result) }
    {
        let coef = self.coefficient(next, steps);
        if self.coefficients.is_zero(coef) {
            self.pass(next, steps);
            return None;
        }
        let term = TermOf {
            mono: next.mono,
            coef,
        };
        match find(self.coefficients, self.divisor.lead, term, steps) {
            Some(found) => self.add_term(next, found, row, steps),
            None => self.spill(next, term, steps),
        }
    }

    /// One turn, after all notes were taken: what is read next is processed, or the merge answers.
    fn turn(&mut self, row: &Row<R, M>, steps: &mut Steps) -> Option<DivideAdvance<R, M>>
        requires going { self.old.answer ≡ None }
        requires sound { IsSound M.LIM self.old }
        requires row { self.old.row ≡ row_identity row.now }
        ensures sound { IsSound M.LIM self.new }
        ensures turns { Turns self.old self.new (answer_of M.vector R.value result) }
    {
        let next = self.next_read(steps);
        let mono = mono_of(next);
        if let Some(worker) = self.first_stuck(mono, steps) {
            return Some(self.block(worker, mono, row, steps));
        }
        match next {
            None => Some(self.end(DivideAdvanceOf::Finished)),
            Some(next) => self.settle(next, row, steps),
        }
    }

    /// The answer that the merge is over with, or else the one that it comes to.
    pub(crate) fn answer(
        &mut self,
        rings: &[Ring<R, M>],
        row: &Row<R, M>,
        steps: &mut Steps,
    ) -> DivideAdvance<R, M>
        requires sound { IsSound M.LIM self.old }
        requires rings { self.old.rings ≡ map ring_name rings.now }
        requires row { self.old.row ≡ row_identity row.now }
        ensures grows { Grows self.old self.new }
        ensures follows { Follows (divide_reached self.old) (divide_reached self.new) }
        ensures cause { IsCause self.old self.new (verdict_of M.vector R.value result) }
        ensures answer { self.new.answer ≡ kept_of (verdict_of M.vector R.value result) }
        ensures again { (x : Verdict) → self.old.answer ≡ Some x → self.new ≡ self.old }
    {
        match self.over {
            Some(answer) => answer,
            None => self.run(rings, row, steps),
        }
    }

    /// Takes notes and finds terms, until one of the answers has its cause.
    fn run(
        &mut self,
        rings: &[Ring<R, M>],
        row: &Row<R, M>,
        steps: &mut Steps,
    ) -> DivideAdvance<R, M>
        requires going { self.old.answer ≡ None }
        requires sound { IsSound M.LIM self.old }
        requires rings { self.old.rings ≡ map ring_name rings.now }
        requires row { self.old.row ≡ row_identity row.now }
        ensures sound { IsSound M.LIM self.new }
        ensures grows { Grows self.old self.new }
        ensures follows { Follows (divide_reached self.old) (divide_reached self.new) }
        ensures cause { IsCause self.old self.new (verdict_of M.vector R.value result) }
        ensures answer { self.new.answer ≡ kept_of (verdict_of M.vector R.value result) }
    {
        loop {
            self.fill(rings, steps);
            if let Some(answer) = self.turn(row, steps) {
                return answer;
            }
        }
    }
}

// the monomial that is read next, where there is one
fn mono_of<M: Copy>(next: Option<Next<M>>) -> Option<M>
    ensures { result ≡ next_mono next }
{
    match next {
        None => None,
        Some(next) => Some(next.mono),
    }
}
