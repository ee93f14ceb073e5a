//! The steps of a merge of a division: each changes what it holds, and keeps its whole.
ghost use Rattle.std.specs.Prelude.{◌≡◌, ◌+◌, ◌<◌, ◌≤◌, ◌^◌, ℕ, IsTrue, Some, None, All, length, pos, cond, false, true, ◌++◌, ◌∷◌, [], slice_index_or, ◌↔◌};
ghost use Rattle.sdmp_laws.specs.Poly.{norm as norm_of, AllBelow};
ghost use Rattle.canonical_terms.specs.View.{term_of};
ghost use Rattle.whole_laws.specs.Wholes.{head_of_worker, head_terms, clear_at};
ghost use Rattle.term_ring.specs.Names.{RingName, ring_name};
ghost use Rattle.ring_heads.specs.Heads.{plain_heads, HeadBelongs, IsTopOf, TopFits};
ghost use Rattle.dividing_rounds.specs.Found.{read_coef, IsQuotientAt, IsRestAt};
ghost use Rattle.dividing_rounds.specs.Stalls.{IsDue};
ghost use Rattle.divide_merge.specs.Names.{row_identity};
ghost use Rattle.divide_merge.specs.Inside.{NotEnded};
ghost use Rattle.divide_merge.specs.Merges.{IsSound, IsStarved, FoundEmpty, taken_of, verdict_of, free_places};
ghost use Rattle.divide_merge.specs.Reading.{IsReadNext};
ghost use Rattle.divide_merge.specs.Verdicts.{NoneStuck, IsVerdict, IsFinal};
ghost use Rattle.divide_merge.specs.Steps.{Looks, TakesNote, PassesOver, FindsTerm, KeepsTerm, PublishesFront, EndsWith};

use crate::answer::DivideAdvance;
use crate::lower::lowered;
use crate::mark::{Mark, Next};
use crate::merge::DivideMerge;
use canonical_terms::Term;
use coeff_ring::CoeffRing;
use packed_monomial::Monomial;
use quotient_row::{Row, RowNoteOf};
use ring_heads::Heads;
use step_count::Steps;
use term_ring::{NoteOf, Ring};

impl<R: CoeffRing, M: Monomial> DivideMerge<R, M> {
    /// Whether the worker has no head.
    pub(crate) fn is_missing(&self, worker: usize) -> bool
        requires { worker < self.now.run.state.workers }
        ensures { IsTrue result ↔ head_of_worker self.now.run.state.heads worker ≡ None }
    {
        self.heads.is_missing(worker)
    }

    /// Whether the row has no place left.
    pub(crate) fn is_row_full(&self) -> bool
        ensures { IsTrue result ↔ free_places self.now ≡ 0 }
    {
        self.writer.is_full()
    }

    /// Takes the next note of a worker that has no head, if its ring has one.
    pub(crate) fn take_note(&mut self, worker: usize, ring: &Ring<R, M>, steps: &mut Steps) -> bool
        requires going { self.old.answer ≡ None }
        requires worker { worker < self.old.run.state.workers }
        requires missing { head_of_worker self.old.run.state.heads worker ≡ None }
        requires ring { (d : RingName) → slice_index_or self.old.rings worker d ≡ ring_name ring.now }
        ensures sound { IsSound M.LIM self.new }
        ensures looks { Looks self.old self.new worker }
        ensures took { IsTrue result → TakesNote self.old self.new worker }
        ensures few { IsTrue result → length (taken_of self.new worker) ≤ 2 ^ 63 }
        ensures same { result ≡ false → self.new.run ≡ self.old.run }
        ensures dry { result ≡ false → IsStarved self.new worker }
        ensures empty { result ≡ false → FoundEmpty self.old self.new worker }
    {
        let Ok(note) = self.readers[worker].pop(ring) else {
            return false;
        };
        self.taken = self.taken.saturating_add(1);
        match note {
            NoteOf::Term(term) => self.heads.put(worker, term, steps),
            NoteOf::Mark { known, top } => self.marks[worker] = Mark { known, top },
            NoteOf::End => unreachable!(),
        }
        true
    }

    /// Publishes the front at this bound, as low as it may be.
    pub(crate) fn publish_front(&mut self, bound: M, row: &Row<R, M>, steps: &mut Steps)
        requires going { self.old.answer ≡ None }
        requires row { self.old.row ≡ row_identity row.now }
        requires due { IsDue self.old.run.state (M.vector bound) }
        requires place { 0 < free_places self.old }
        ensures sound { IsSound M.LIM self.new }
        ensures publishes { PublishesFront self.old self.new (M.vector bound) }
    {
        let front = lowered(self.divisor.lead.term.mono, bound, steps);
        if self.writer.publish(row, RowNoteOf::Front(front)).is_err() {
            unreachable!()
        }
        self.front = Some(front);
        self.fronts += 1;
    }

    /// Processes a monomial whose coefficient is zero.
    pub(crate) fn pass(&mut self, next: Next<M>, steps: &mut Steps)
        requires going { self.old.answer ≡ None }
        requires next { IsReadNext M.vector self.old.run.state next }
        requires heard { NoneStuck self.old.run.state (Some (M.vector next.mono)) }
        requires zero { read_coef self.old.run.state (M.vector next.mono) ≡ pos 0 }
        ensures sound { IsSound M.LIM self.new }
        ensures passes { PassesOver self.old self.new (M.vector next.mono) }
    {
        clear_heads(self.coefficients, next, &mut self.heads, steps);
        self.read = read_after(self.read, next);
        self.last = Some(next.mono);
        self.processed += 1;
    }

    /// Publishes a quotient term, with which the quotient has this norm, and processes the monomial at which it was found.
    pub(crate) fn find_term(
        &mut self,
        next: Next<M>,
        term: Term<R, M>,
        norm: u128,
        row: &Row<R, M>,
        steps: &mut Steps,
    )
        requires going { self.old.answer ≡ None }
        requires row { self.old.row ≡ row_identity row.now }
        requires next { IsReadNext M.vector self.old.run.state next }
        requires heard { NoneStuck self.old.run.state (Some (M.vector next.mono)) }
        requires found { IsQuotientAt self.old.run.state (M.vector next.mono) (term_of M.vector R.value term) }
        requires belongs { R.belongs self.old.run.state.division.p term.coef }
        requires norm { self.old.run.state.division.p ≡ 0 → norm ≡ norm_of (self.old.run.state.q ++ term_of M.vector R.value term ∷ []) }
        requires place { 0 < free_places self.old }
        requires room { 0 < self.old.spare }
        ensures sound { IsSound M.LIM self.new }
        ensures finds { FindsTerm self.old self.new (M.vector next.mono) (term_of M.vector R.value term) }
    {
        if self.writer.publish(row, RowNoteOf::Term(term)).is_err() {
            unreachable!()
        }
        clear_heads(self.coefficients, next, &mut self.heads, steps);
        self.read = read_after(self.read, next);
        self.last = Some(next.mono);
        self.processed += 1;
        self.q.push_reserved(term);
        self.norm = norm;
        self.front = Some(next.mono);
        self.spare -= 1;
    }

    /// Gives the term at the monomial that is read next to the remainder, and processes the monomial.
    pub(crate) fn keep_term(&mut self, next: Next<M>, term: Term<R, M>, steps: &mut Steps)
        requires going { self.old.answer ≡ None }
        requires next { IsReadNext M.vector self.old.run.state next }
        requires heard { NoneStuck self.old.run.state (Some (M.vector next.mono)) }
        requires rest { IsRestAt self.old.run.state (M.vector next.mono) }
        requires mono { term.mono ≡ next.mono }
        requires belongs { R.belongs self.old.run.state.division.p term.coef }
        requires value { R.value term.coef ≡ read_coef self.old.run.state (M.vector next.mono) }
        requires room { 0 < self.old.spare }
        ensures sound { IsSound M.LIM self.new }
        ensures keeps { KeepsTerm self.old self.new (M.vector next.mono) }
    {
        clear_heads(self.coefficients, next, &mut self.heads, steps);
        self.read = read_after(self.read, next);
        self.last = Some(next.mono);
        self.processed += 1;
        self.r.push_reserved(term);
        self.spare -= 1;
    }

    /// The merge is over with this answer.
    pub(crate) fn end(&mut self, answer: DivideAdvance<R, M>) -> DivideAdvance<R, M>
        requires going { self.old.answer ≡ None }
        requires last { IsFinal (verdict_of M.vector R.value answer) }
        requires cause { IsVerdict self.old.run.state (free_places self.old) self.old.spare (verdict_of M.vector R.value answer) }
        ensures sound { IsSound M.LIM self.new }
        ensures ends { EndsWith self.old self.new (verdict_of M.vector R.value answer) }
        ensures answer { result ≡ answer }
    {
        self.over = Some(answer);
        answer
    }
}

// takes away the heads at the monomial that is read next
fn clear_heads<R: CoeffRing, M: Monomial>(
    coefficients: R,
    next: Next<M>,
    heads: &mut Heads<R, M>,
    steps: &mut Steps,
)
    requires belongs { All (HeadBelongs (R.belongs (R.characteristic coefficients))) heads.old }
    requires bound { R.characteristic coefficients ≡ 0 → next.headed ≡ true → TopFits M.order (plain_heads M.vector R.value heads.old) }
    requires there { next.headed ≡ true → IsTopOf M.order (plain_heads M.vector R.value heads.old) (M.vector next.mono) }
    requires absent { next.headed ≡ false → AllBelow M.order (M.vector next.mono) (head_terms (plain_heads M.vector R.value heads.old)) }
    requires going { All NotEnded heads.old }
    ensures heads { plain_heads M.vector R.value heads.new ≡ clear_at (M.vector next.mono) (plain_heads M.vector R.value heads.old) }
    ensures long { length heads.new ≡ length heads.old }
    ensures belongs { All (HeadBelongs (R.belongs (R.characteristic coefficients))) heads.new }
    ensures going { All NotEnded heads.new }
{
    if next.headed {
        heads.take_top(coefficients, steps);
    }
}

// how many terms of the dividend are read after that monomial
fn read_after<M: Copy>(read: usize, next: Next<M>) -> usize
    requires { next.unread ≡ true → read < 2 ^ 63 }
    ensures { result ≡ cond next.unread (read + 1) read }
{
    if next.unread { read + 1 } else { read }
}
