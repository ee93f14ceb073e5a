//! How a dividing worker hands out its products and sends their sums and its marks.
ghost use Rattle.std.specs.Prelude.{◌≡◌, ◌≢◌, ◌<◌, ◌∷◌, [], length, None, IfOk, IfErr, IsTrue, false};
ghost use Rattle.canonical_terms.specs.View.{term_of};
ghost use Rattle.term_ring.specs.Names.{ring_name};
ghost use Rattle.divide_workers.specs.Fronts.{plain_front};
ghost use Rattle.divide_workers.specs.Inside.{mark_of};
ghost use Rattle.divide_workers.specs.Steps.{IsAllHeld, HoldsBack, IsFrontier, MayHand, HandsOut, IsMarkOf, Pushes, Refuses};

use crate::front::{Front, is_past};
use crate::mark::{Mark, is_same};
use crate::sender::Sender;
use canonical_terms::Term;
use coeff_ring::CoeffRing;
use packed_monomial::Monomial;
use step_count::Steps;
use term_ring::{Full, NoteOf, Ring};

impl<R: CoeffRing, M: Monomial> Sender<'_, R, M> {
    /// The front times the first row: what a monomial times the leading one of the divisor has to be past. None where nothing that the worker holds is past it, as with a front of a degree above the limit.
    pub fn frontier(&self) -> Option<Front<M>>
        ensures { IsFrontier self.now (plain_front M.vector result) }
    {
        let front = self.front?;
        let first = self.rows.first()?;
        if front.mono.degree() > M::limit() {
            return None;
        }
        Some(Front {
            mono: front.mono.times(first),
            is_strict: front.is_strict,
        })
    }

    // whether the greatest product may be handed out
    #[inline(always)]
    fn may_hand(&self, frontier: Option<Front<M>>, steps: &mut Steps) -> bool
        requires { IsFrontier self.now (plain_front M.vector frontier) }
        ensures yes { IsTrue result → MayHand self.now }
        ensures no { result ≡ false → IsAllHeld self.now }
        ensures some { IsTrue result → frontier ≢ None }
    {
        let Some(frontier) = frontier else {
            return false;
        };
        match self.rows.top() {
            None => false,
            Some(top) => is_past(top, self.lead, frontier, steps),
        }
    }

    // hands out the greatest products, and keeps their sum unless it is zero
    #[inline(always)]
    fn hand_out(&mut self, steps: &mut Steps)
        requires may { MayHand self.old }
        requires kept { self.old.state.kept ≡ [] }
        ensures hands { HandsOut self.old self.new }
        ensures fewer { length self.new.state.unread < length self.old.state.unread }
    {
        let Some(sum) = self.rows.next(steps) else {
            unreachable!()
        };
        if !self.coefficients.is_zero(sum.coef) {
            self.kept = Some(sum);
        }
    }

    /// Hands out products until it keeps a term to send, or may hand out no more.
    #[inline(always)]
    pub fn keep_next(&mut self, frontier: Option<Front<M>>, steps: &mut Steps) -> bool
        requires { IsFrontier self.old (plain_front M.vector frontier) }
        ensures hands { HandsOut self.old self.new }
        ensures frontier { IsFrontier self.new (plain_front M.vector frontier) }
        ensures kept { IsTrue result → self.new.state.kept ≢ [] }
        ensures fewer { IsTrue result → self.old.state.kept ≡ [] → length self.new.state.unread < length self.old.state.unread }
        ensures held { result ≡ false → HoldsBack self.new }
    {
        self.whole();
        loop {
            if self.kept.is_some() {
                return true;
            }
            if !self.may_hand(frontier, steps) {
                return false;
            }
            self.hand_out(steps);
        }
    }

    /// Sends the term that it keeps; where it keeps none, the mark of what it knows, unless its latest mark says that.
    #[inline(always)]
    pub fn push(&mut self, ring: &Ring<R, M>, steps: &mut Steps) -> Result<(), Full>
        requires ring { ring_name ring.now ≡ self.old.ring }
        ensures sent { IfOk result (λ _. Pushes self.old self.new) }
        ensures refused { IfErr result (λ _. Refuses self.old self.new) }
    {
        match self.kept {
            Some(term) => self.push_term(ring, term),
            None => self.push_mark(ring, steps),
        }
    }

    // sends the term that is kept
    #[inline(always)]
    fn push_term(&mut self, ring: &Ring<R, M>, term: Term<R, M>) -> Result<(), Full>
        requires ring { ring_name ring.now ≡ self.old.ring }
        requires kept { self.old.state.kept ≡ term_of M.vector R.value term ∷ [] }
        requires belongs { R.belongs self.old.state.division.p term.coef }
        ensures sent { IfOk result (λ _. Pushes self.old self.new) }
        ensures refused { IfErr result (λ _. Refuses self.old self.new) }
    {
        self.writer.push(ring, NoteOf::Term(term))?;
        self.kept = None;
        Ok(())
    }

    // the mark of what it knows
    fn mark(&self) -> Mark<M>
        ensures { IsMarkOf self.now (mark_of M.vector result) }
    {
        Mark {
            known: self.known(),
            top: self.rows.top(),
        }
    }

    // sends a mark that tells something new
    fn push_mark(&mut self, ring: &Ring<R, M>, steps: &mut Steps) -> Result<(), Full>
        requires ring { ring_name ring.now ≡ self.old.ring }
        requires kept { self.old.state.kept ≡ [] }
        ensures sent { IfOk result (λ _. Pushes self.old self.new) }
        ensures refused { IfErr result (λ _. Refuses self.old self.new) }
    {
        let mark = self.mark();
        if is_same(mark, self.marked, steps) {
            return Ok(());
        }
        let note = NoteOf::Mark {
            known: mark.known,
            top: mark.top,
        };
        self.writer.push(ring, note)?;
        self.marked = mark;
        Ok(())
    }
}
