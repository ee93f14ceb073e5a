//! How a dividing worker learns from the row.
ghost use Rattle.std.specs.Prelude.{◌≡◌, ◌<◌, ◌≤◌, ◌+◌, List, [], ◌∷◌, ◌++◌, length, max, All, slice_index_or, IsTrue, false};
ghost use Rattle.sdmp_laws.specs.Poly.{Term as PlainTerm};
ghost use Rattle.sdmp_laws.specs.LongDivision.{quotient_list};
ghost use Rattle.divide_wholes.specs.Wholes.{AllUnderFront};
ghost use Rattle.canonical_terms.specs.View.{term_of, sum_of};
ghost use Rattle.term_ring.specs.Names.{RingName, NoneBelow, ring_name};
ghost use Rattle.quotient_row.specs.Ends.{known};
ghost use Rattle.dividing_rounds.specs.Stalls.{IsLowered};
ghost use Rattle.divide_merge.specs.Names.{IsLooking, row_identity, reader_row};
ghost use Rattle.divide_merge.specs.Inside.{vector_of};
ghost use Rattle.divide_workers.specs.Fronts.{front_mono};
ghost use Rattle.divide_workers.specs.Views.{sender_of};
ghost use Rattle.divide_workers.specs.Paying.{HasRows};
ghost use Rattle.divide_workers.specs.Working.{HasRoom};
ghost use Rattle.divide_workers.specs.Steps.{Works, FindsNothing, LearnsMore, IsNextTerm, IsBegun, IsFrontOf, CatchesUp};
ghost use Rattle.divide_workers.specs.Learning.{CanLearn, LearnsOnce, CanTakeIn, TakesIn};
ghost use Rattle.divide_workers.specs.Rounds.{Meets};

use crate::front::{Front, lower};
use crate::sender::Sender;
use canonical_terms::Term;
use coeff_ring::CoeffRing;
use divide_merge::DivideMerge;
use packed_monomial::Monomial;
use quotient_row::{Row, RowNote, RowNoteOf, RowReader};
use row_merge::QuotientRows;
use step_count::Steps;
use term_ring::Ring;

// learns the term with this number in the quotient, unless it is known
fn learn_once<R: CoeffRing, M: Monomial>(
    rows: &mut QuotientRows<'_, R, M>,
    place: u64,
    term: Term<R, M>,
    steps: &mut Steps,
)
    requires { CanLearn M.vector R.value R.belongs M.order M.LIM rows.old place term }
    ensures { LearnsOnce M.vector R.value rows.old rows.new place term }
{
    if place == rows.known() {
        rows.learn(term, steps);
    }
}

// what a note of the row tells of the quotient terms to come; a term is learned, unless it is known
fn take_in<R: CoeffRing, M: Monomial>(
    rows: &mut QuotientRows<'_, R, M>,
    place: &mut u64,
    lead: M,
    note: RowNote<R, M>,
    steps: &mut Steps,
) -> Front<M>
    requires { CanTakeIn M.vector R.value R.belongs M.order M.LIM rows.old place.old lead note }
    ensures { TakesIn M.vector R.value rows.old rows.new place.old place.new lead note result }
{
    match note {
        RowNoteOf::Term(term) => {
            learn_once(rows, *place, term, steps);
            *place += 1;
            Front {
                mono: term.mono.times(lead),
                is_strict: true,
            }
        }
        RowNoteOf::Front(mono) => Front {
            mono,
            is_strict: false,
        },
    }
}

impl<R: CoeffRing, M: Monomial> Sender<'_, R, M> {
    /// Looks at the row once, and learns the note that it finds there. A term that it knows already isn't learned again.
    pub fn look(&mut self, row: &Row<R, M>, steps: &mut Steps) -> bool
        requires row { self.old.row ≡ row_identity row.now }
        requires rows { HasRows self.old.state }
        requires room { HasRoom self.old }
        ensures works { Works self.old self.new }
        ensures sender { sender_of self.new ≡ sender_of self.old }
        ensures kept { self.new.state.kept ≡ self.old.state.kept }
        ensures news { IsTrue result → length self.new.notes ≡ length self.old.notes + 1 }
        ensures places { IsTrue result → length self.new.notes ≤ self.old.row.places }
        ensures nothing { result ≡ false → FindsNothing self.old self.new }
    {
        let Ok(note) = self.reader.look(row) else {
            return false;
        };
        let news = take_in(&mut self.rows, &mut self.place, self.lead, note, steps);
        self.front = Some(lower(self.front, news, steps));
        true
    }

    /// Learns all that the row tells, until a look finds nothing.
    pub fn learn_all(&mut self, row: &Row<R, M>, steps: &mut Steps)
        requires row { self.old.row ≡ row_identity row.now }
        requires rows { HasRows self.old.state }
        requires room { HasRoom self.old }
        ensures works { Works self.old self.new }
        ensures sender { sender_of self.new ≡ sender_of self.old }
        ensures kept { self.new.state.kept ≡ self.old.state.kept }
    {
        self.whole();
        while self.look(row, steps) {}
    }

    // learns the next quotient term
    fn learn_next(&mut self, term: Term<R, M>, steps: &mut Steps)
        requires next { IsNextTerm self.old.state (term_of M.vector R.value term) }
        requires belongs { R.belongs self.old.state.division.p term.coef }
        requires spare { 0 < self.old.spare }
        ensures learns { LearnsMore self.old self.new }
        ensures known { self.new.state.known ≡ self.old.state.known ++ term_of M.vector R.value term ∷ [] }
    {
        self.rows.learn(term, steps);
        let news = Front {
            mono: term.mono.times(self.lead),
            is_strict: true,
        };
        self.front = Some(lower(self.front, news, steps));
    }

    // learns the terms of the quotient that it doesn't know
    fn learn_rest(&mut self, q: &[Term<R, M>], steps: &mut Steps)
        requires q { IsBegun self.old.state.division (sum_of M.vector R.value q.now) }
        requires belongs { All (λ t. R.belongs self.old.state.division.p t.coef) q.now }
        requires spare { length q.now ≤ length self.old.state.known + self.old.spare }
        ensures learns { LearnsMore self.old self.new }
        ensures known { length self.new.state.known ≡ max (length self.old.state.known) (length q.now) }
    {
        for k in self.rows.known() as usize..q.len() {
            self.learn_next(q[k], steps);
        }
    }

    // takes over a front, where it is lower
    fn take_front(&mut self, front: Option<M>, steps: &mut Steps)
        requires front { IsFrontOf self.old.state (vector_of M.vector front) }
        ensures learns { LearnsMore self.old self.new }
        ensures known { self.new.state ≡ self.old.state }
        ensures lowered { IsLowered self.old.state.division.ord (front_mono self.new.front) (vector_of M.vector front) }
    {
        if let Some(mono) = front {
            let news = Front {
                mono,
                is_strict: false,
            };
            self.front = Some(lower(self.front, news, steps));
        }
    }

    /// Learns the terms of the quotient that it doesn't know yet, takes over the front where that is lower, and looks at the reader's row from now on, which starts after the quotient. A worker without rows learns nothing.
    pub fn catch_up(&mut self, q: &[Term<R, M>], front: Option<M>, reader: RowReader<R, M>)
        requires q { IsBegun self.old.state.division (sum_of M.vector R.value q.now) }
        requires belongs { All (λ t. R.belongs self.old.state.division.p t.coef) q.now }
        requires front { (later : List PlainTerm) → sum_of M.vector R.value q.now ++ later ≡ quotient_list self.old.state.division → AllUnderFront self.old.state.division (vector_of M.vector front) later }
        requires looking { IsLooking reader }
        requires row { (reader_row reader).name ≡ record { division = self.old.state.division; start = length q.now } }
        requires nothing { known reader ≡ [] }
        requires spare { HasRows self.old.state → length q.now ≤ length self.old.state.known + self.old.spare }
        ensures { CatchesUp (reader_row reader) (length q.now) (vector_of M.vector front) self.old self.new }
    {
        if self.has_rows() {
            let mut steps = Steps::new();
            self.learn_rest(q, &mut steps);
            self.take_front(front, &mut steps);
        }
        self.place = q.len() as u64;
        self.reader = reader;
    }

    /// Lets its ends of the ring and of the row meet those of the merge.
    pub fn meet(&mut self, ring: &Ring<R, M>, row: &Row<R, M>, merge: &mut DivideMerge<R, M>)
        requires worker { self.old.state.worker < merge.old.run.state.workers }
        requires ring { (ring_name ring.now ≡ self.old.ring) × ((d : RingName) → slice_index_or merge.old.rings self.old.state.worker d ≡ self.old.ring) }
        requires row { merge.old.row ≡ row_identity row.now }
        requires reader { self.old.row ≡ row_identity row.now }
        ensures meets { Meets merge.new self.old self.new }
        ensures run { merge.new.run ≡ merge.old.run }
        ensures rings { merge.new.rings ≡ merge.old.rings }
        ensures row { merge.new.row ≡ merge.old.row }
        ensures spare { merge.new.spare ≡ merge.old.spare }
        ensures tails { NoneBelow merge.old.tails merge.new.tails }
    {
        merge.meet(ring, row, self.worker, &mut self.writer, &mut self.reader);
    }
}
