//! How a merge advances.
ghost use Rattle.std.specs.Prelude.{◌≡◌, ◌≢◌, ◌<◌, ℕ, [], map, slice_index_or, IsTrue, false};
ghost use Rattle.whole_laws.specs.Wholes.{head_terms};
ghost use Rattle.term_ring.specs.Names.{RingName, notes_count, ring_name};
ghost use Rattle.global_heap.specs.Merges.{IsWanting, IsServed, AllServed, IsStarved, FoundEmpty, IsCause, Grows, TakesNote, Looks, Emits, IsSound, Fills};

use crate::answer::Advance;
use crate::merge::Merge;
use coeff_ring::CoeffRing;
use packed_monomial::Monomial;
use step_count::Steps;
use term_ring::{NoteOf, Ring};

impl<R: CoeffRing, M: Monomial> Merge<R, M> {
    /// Whether the worker has neither a head nor its end.
    fn wants(&self, worker: usize) -> bool
        requires { worker < self.now.state.workers }
        ensures yes { IsTrue result → IsWanting self.now.state worker }
        ensures no { result ≡ false → IsServed self.now.state worker }
    {
        self.heads.is_missing(worker)
    }

    /// Whether a head is left.
    fn has_head(&self) -> bool
        ensures yes { IsTrue result → head_terms self.now.state.heads ≢ [] }
        ensures no { result ≡ false → head_terms self.now.state.heads ≡ [] }
    {
        !self.heads.is_empty()
    }

    /// Takes the next note of a worker that wants one, if its ring has one.
    fn take_note(&mut self, worker: usize, ring: &Ring<R, M>, steps: &mut Steps) -> bool
        requires worker { worker < self.old.state.workers }
        requires wanting { IsWanting self.old.state worker }
        requires ring { (d : RingName) → slice_index_or self.old.rings worker d ≡ ring_name ring.now }
        ensures sound { IsSound M.LIM self.new }
        ensures looks { Looks self.old self.new worker }
        ensures took { IsTrue result → TakesNote self.old self.new worker }
        ensures same { result ≡ false → self.new.state ≡ self.old.state }
        ensures dry { result ≡ false → IsStarved self.new worker }
        ensures empty { result ≡ false → FoundEmpty self.old self.new worker }
    {
        let Ok(note) = self.readers[worker].pop(ring) else {
            return false;
        };
        self.taken += 1;
        match note {
            NoteOf::Term(term) => self.heads.put(worker, term, steps),
            NoteOf::End => self.heads.end(worker),
            NoteOf::Mark { .. } => unreachable!(),
        }
        true
    }

    /// Asks each worker that wants a note once, and tells the first that still wants one.
    fn fill(&mut self, rings: &[Ring<R, M>], steps: &mut Steps) -> Option<u32>
        requires sound { IsSound M.LIM self.old }
        requires rings { self.old.rings ≡ map ring_name rings.now }
        ensures sound { IsSound M.LIM self.new }
        ensures fills { Fills self.old self.new self.old.state.workers result }
    {
        let mut starved = None;
        for worker in 0..rings.len() {
            if !self.wants(worker) {
                continue;
            }
            if self.take_note(worker, &rings[worker], steps) {
                continue;
            }
            if starved.is_none() {
                starved = Some(worker as u32);
            }
        }
        starved
    }

    /// Sums the heads at the greatest monomial, and emits the sum unless it is zero.
    fn emit(&mut self, steps: &mut Steps)
        requires served { AllServed self.old.state }
        requires some { head_terms self.old.state.heads ≢ [] }
        requires room { 0 < self.old.spare }
        ensures sound { IsSound M.LIM self.new }
        ensures emits { Emits self.old self.new }
    {
        let Some(term) = self.heads.take_top(self.coefficients, steps) else {
            unreachable!()
        };
        if !self.coefficients.is_zero(term.coef) {
            self.out.push_reserved(term);
        }
    }

    /// Takes notes and emits terms, until one of the answers has its cause.
    pub(crate) fn run(&mut self, rings: &[Ring<R, M>], steps: &mut Steps) -> Advance
        requires sound { IsSound M.LIM self.old }
        requires rings { self.old.rings ≡ map ring_name rings.now }
        ensures sound { IsSound M.LIM self.new }
        ensures grows { Grows self.old self.new }
        ensures cause { IsCause self.old self.new result }
        ensures moved { result ≡ Advance.OutFull → 0 < self.old.spare → notes_count self.old.state.taken < notes_count self.new.state.taken }
    {
        loop {
            if let Some(worker) = self.fill(rings, steps) {
                return Advance::NeedsRing(worker);
            }
            if !self.has_head() {
                return Advance::Done;
            }
            if self.spare() == 0 {
                return Advance::OutFull;
            }
            self.emit(steps);
        }
    }
}
