//! A worker of a division.

ghost use Rattle.std.specs.Prelude.{◌≡◌, ◌≤◌, ◌+◌, map, length, [], Some, None};
ghost use Rattle.whole_laws.specs.Notes.{QuotientScript, Carry, divisor_rows};
ghost use Rattle.turnstile.specs.Passes.{made_with, HasPass};
ghost use Rattle.term_ring.specs.Ends.{sent};
ghost use Rattle.term_ring.specs.Names.{NoneBelow, ring_name, writer_name, IsWriting};
ghost use Rattle.term_ring.specs.Sending.{IsAmong};
ghost use Rattle.quotient_row.specs.Ends.{IsNew, known};
ghost use Rattle.divide_merge.specs.Names.{IsFit, IsLooking, row_identity, reader_row};
ghost use Rattle.divide_merge.specs.Reached.{divide_name};
ghost use Rattle.divide_workers.specs.Views.{sender_of, script_workers};
ghost use Rattle.divide_workers.specs.Inside.{view_of};
ghost use Rattle.divide_workers.specs.Paying.{HasRows, IsFewSent};
ghost use Rattle.divide_workers.specs.Working.{IsWorking, HasRoom};
ghost use Rattle.divide_workers.specs.Steps.{Works, CatchesUp};
ghost use Rattle.divide_workers.specs.Stops.{HasName, IsStop};
ghost use Rattle.divide_workers.specs.Rounds.{Meets};

use crate::ended::Ended;
use crate::part::Part;
use crate::shared::Shared;
use crate::stop::DivideStop;
use coeff_ring::CoeffRing;
use divide_merge::DivideMerge;
use packed_monomial::Monomial;
use quotient_row::{Row, RowReader};
use row_merge::QuotientRows;
use term_ring::{Ring, Writer};
use turnstile::{Gate, Pass, Turnstile};

/// A worker of a division: what it learns and sends and how far it has come, and its pass of the turnstile around the merge.
#[derive(Drop)]
pub struct DivideWorker<'a, R: CoeffRing, M: Monomial> {
    pub(crate) part: Part<'a, R, M>,
    pub(crate) pass: Option<Pass<DivideMerge<R, M>>>,
}

impl<'a, R: CoeffRing, M: Monomial> DivideWorker<'a, R, M> {
    /// A worker that has learned and sent nothing, from rows that have learned nothing, the writer of a ring with their script, and a reader of the division's first row. It allocates nothing.
    ///
    /// The worker keeps the pass, and no public call gives it back. Its rows count their comparisons and products for themselves, and nobody reads the counts.
    pub fn new(
        worker: u32,
        rows: QuotientRows<'a, R, M>,
        writer: Writer<R, M>,
        reader: RowReader<R, M>,
        pass: Pass<DivideMerge<R, M>>,
    ) -> DivideWorker<'a, R, M>
        requires writing { IsWriting writer }
        requires looking { IsLooking reader }
        requires script { (writer_name writer).script ≡ QuotientScript (reader_row reader).name.division (script_workers (writer_name writer).script) worker }
        requires fit { IsFit M.LIM (reader_row reader).name.division }
        requires order { (reader_row reader).name.division.ord ≡ M.order }
        requires variables { (reader_row reader).name.division.n ≡ M.VARS }
        requires modulus { rows.modulus ≡ (reader_row reader).name.division.p }
        requires divisor { rows.divisor ≡ (reader_row reader).name.division.g }
        requires rows { rows.rows ≡ divisor_rows rows.divisor (script_workers (writer_name writer).script) worker }
        requires start { (reader_row reader).name.start ≡ 0 }
        requires learned { (rows.learned ≡ []) × (rows.unread ≡ []) }
        requires sent { sent writer ≡ [] }
        requires known { IsNew reader }
        ensures sender { result.part.sender ≡ view_of M.vector R.value worker rows.entry writer reader None None }
        ensures pass { result.pass ≡ Some pass }
    {
        DivideWorker {
            part: Part::new(worker, rows, writer, reader),
            pass: Some(pass),
        }
    }

    /// What always holds of a worker. What it knows begins the quotient's terms, and its products that it hasn't handed out, with the term that it keeps and those that it sent, add up to the products of that with its rows; each product handed out is past its front, which no quotient term that it doesn't know passes; and each note that it sent is paid for by a term learned or a product handed out. The call does nothing.
    pub fn whole(&self)
        ensures working { IsWorking M.LIM self.now.part.sender }
        ensures order { self.now.part.sender.state.division.ord ≡ M.order }
        ensures variables { self.now.part.sender.state.division.n ≡ M.VARS }
        ensures few { IsFewSent self.now.part.sender.state }
    {
        self.part.whole();
    }

    /// Learns from the row and sends the terms of the worker's list that no later quotient term changes, and marks that tell what it knows, until the ring is full or the row tells nothing more.
    ///
    /// It first arrives at the gate, once, under its number. A worker without a part of the divisor ends then, since it owes nothing. Whenever the ring is full, or all is sent that may be, the worker waits in turns: it tries the turnstile once, advances the merge once where it is let in, and pushes or looks once more; where that is in vain it yields its thread a few times. It goes on for as many turns as its patience bounds, and for at least `PATIENCE` where it was never let in, and ends at once where the merge can do no more in this round. A term that a full ring refused is kept for the next call, and a mark is made anew. It allocates nothing.
    pub fn advance<G: Gate>(
        &mut self,
        rings: &[Ring<R, M>],
        row: &Row<R, M>,
        turnstile: &Turnstile<DivideMerge<R, M>>,
        gate: &G,
    ) -> DivideStop<R, M>
        requires pass { HasPass turnstile.now self.old.pass }
        requires name { HasName (made_with turnstile.now) (map ring_name rings.now) (row_identity row.now) }
        requires ring { IsAmong (map ring_name rings.now) (sender_of self.old.part.sender) }
        requires row { self.old.part.sender.row ≡ row_identity row.now }
        requires room { HasRoom self.old.part.sender }
        ensures pass { HasPass turnstile.now self.new.pass }
        ensures works { Works self.old.part.sender self.new.part.sender }
        ensures carried { Carry self.new.part.sender.ring.script self.new.part.sender.state.sent }
        ensures stop { IsStop (divide_name (made_with turnstile.now)) self.old.part.sender self.new.part.sender self.old.pass self.new.pass result }
    {
        let Some(pass) = &mut self.pass else {
            unreachable!()
        };
        let ended = Ended::new();
        let shared = Shared {
            rings,
            row,
            turnstile,
            ended: &ended,
        };
        let stop = self.part.advance(&shared, pass, gate);
        self.part.whole();
        stop
    }

    /// Lets the worker's writer meet the merge's reader of its ring, and its reader of the row the merge's writer: the merge finds what the worker has sent, the worker the room that the merge has made and what this has published. It takes no note, tries no turnstile and allocates nothing.
    pub fn meet(&mut self, rings: &[Ring<R, M>], row: &Row<R, M>, merge: &mut DivideMerge<R, M>)
        requires rings { merge.old.rings ≡ map ring_name rings.now }
        requires row { merge.old.row ≡ row_identity row.now }
        requires ring { IsAmong (map ring_name rings.now) (sender_of self.old.part.sender) }
        requires reader { self.old.part.sender.row ≡ row_identity row.now }
        ensures meets { Meets merge.new self.old.part.sender self.new.part.sender }
        ensures pass { self.new.pass ≡ self.old.pass }
        ensures run { merge.new.run ≡ merge.old.run }
        ensures rings { merge.new.rings ≡ merge.old.rings }
        ensures row { merge.new.row ≡ merge.old.row }
        ensures spare { merge.new.spare ≡ merge.old.spare }
        ensures tails { NoneBelow merge.old.tails merge.new.tails }
    {
        self.part.meet(rings, row, merge);
    }

    /// Goes on with a new row of the merge: learns the quotient terms that it doesn't know, takes over the merge's front where that is lower, and has the reader from now on. It allocates nothing.
    pub fn catch_up(&mut self, merge: &DivideMerge<R, M>, reader: RowReader<R, M>)
        requires division { merge.now.run.state.division ≡ self.old.part.sender.state.division }
        requires looking { IsLooking reader }
        requires row { (reader_row reader).name ≡ record { division = self.old.part.sender.state.division; start = length merge.now.run.state.q } }
        requires nothing { known reader ≡ [] }
        requires spare { HasRows self.old.part.sender.state → length merge.now.run.state.q ≤ length self.old.part.sender.state.known + self.old.part.sender.spare }
        ensures catches_up { CatchesUp (reader_row reader) (length merge.now.run.state.q) merge.now.run.state.front self.old.part.sender self.new.part.sender }
        ensures pass { self.new.pass ≡ self.old.pass }
    {
        merge.whole();
        self.part.catch_up(merge.quotient(), merge.front(), reader);
    }
}
