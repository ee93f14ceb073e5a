//! A worker of a product.
ghost use Rattle.std.specs.Prelude.{◌≡◌, ◌≤◌, ℕ, map, [], Some};
ghost use Rattle.whole_laws.specs.Notes.{Carry, script_list};
ghost use Rattle.turnstile.specs.Passes.{made_with, HasPass};
ghost use Rattle.term_ring.specs.Ends.{sent, head_seen, full_looks};
ghost use Rattle.term_ring.specs.Names.{NoneBelow, ring_name, writer_name, IsWriting};
ghost use Rattle.term_ring.specs.Sending.{Sends, IsAmong, HasMet};
ghost use Rattle.mul_workers.specs.Inside.{script_of_rows};
ghost use Rattle.mul_workers.specs.Workers.{IsStop};

use crate::part::Part;
use crate::stop::Stop;
use coeff_ring::CoeffRing;
use global_heap::Merge;
use packed_monomial::Monomial;
use row_merge::RowMerge;
use term_ring::{Ring, Writer};
use turnstile::{Gate, MOST_TURNS, Pass, Patience, Turnstile};

/// A worker of a product: what it sends and how far it has come, and its pass of the turnstile around the merge.
#[derive(Drop)]
pub struct MulWorker<'a, R: CoeffRing, M: Monomial> {
    pub(crate) part: Part<'a, R, M>,
    pub(crate) pass: Option<Pass<Merge<R, M>>>,
}

impl<'a, R: CoeffRing, M: Monomial> MulWorker<'a, R, M> {
    /// A worker that has sent nothing, from rows of which nothing was handed out and the writer of a ring with their script. It allocates nothing.
    ///
    /// The worker keeps the pass, and no public call gives it back. It waits as for a ring of 64 places or more. Its rows count their comparisons and products for themselves, and nobody reads the counts.
    pub fn new(
        worker: u32,
        rows: RowMerge<'a, R, M>,
        writer: Writer<R, M>,
        pass: Pass<Merge<R, M>>,
    ) -> MulWorker<'a, R, M>
        requires worker { worker ≡ rows.worker }
        requires writing { IsWriting writer }
        requires script { (writer_name writer).script ≡ script_of_rows M.order M.VARS rows }
        requires rest { rows.rest ≡ script_list (script_of_rows M.order M.VARS rows) }
        requires sent { sent writer ≡ [] }
        ensures sender { result.part.sender ≡ record { ring = writer_name writer; worker = worker; sent = []; head = head_seen writer; full_looks = full_looks writer } }
        ensures pass { result.pass ≡ Some pass }
    {
        MulWorker {
            part: Part::new(worker, rows, writer, Patience::new(MOST_TURNS)),
            pass: Some(pass),
        }
    }

    /// Sends the terms of the worker's part in order, and then its end, until the end is sent or the ring is full.
    ///
    /// It first arrives at the gate, once, under its number. Whenever the ring is full the worker waits in turns: it tries the turnstile once, advances the merge once where it is let in, and pushes once more; where the ring is still full it yields its thread a few times. It goes on for as many turns as its patience bounds, and for at least `PATIENCE` where it was never let in, and ends at once where the merge has no room. If no push goes through the call ends, and its note is kept for the next call. The answers of the merge's earlier advances in the call are dropped. It allocates nothing.
    pub fn advance<G: Gate>(
        &mut self,
        rings: &[Ring<R, M>],
        turnstile: &Turnstile<Merge<R, M>>,
        gate: &G,
    ) -> Stop<R, M>
        requires pass { HasPass turnstile.now self.old.pass }
        requires rings { (made_with turnstile.now).rings ≡ map ring_name rings.now }
        requires ring { IsAmong (map ring_name rings.now) self.old.part.sender }
        ensures pass { HasPass turnstile.now self.new.pass }
        ensures sends { Sends self.old.part.sender self.new.part.sender }
        ensures carried { Carry self.new.part.sender.ring.script self.new.part.sender.sent }
        ensures stop { IsStop (map ring_name rings.now) self.old.part.sender self.new.part.sender self.old.pass self.new.pass result }
    {
        let Some(pass) = &mut self.pass else {
            unreachable!()
        };
        self.part.advance(rings, turnstile, pass, gate)
    }

    /// Lets the writer of the worker and the merge's reader of its ring meet, so that the merge finds what the worker has sent, and the worker the room that the merge has made. It takes no note, tries no turnstile and allocates nothing.
    pub fn meet(&mut self, rings: &[Ring<R, M>], merge: &mut Merge<R, M>)
        requires rings { merge.old.rings ≡ map ring_name rings.now }
        requires ring { IsAmong (map ring_name rings.now) self.old.part.sender }
        ensures sends { Sends self.old.part.sender self.new.part.sender }
        ensures sent { self.new.part.sender.sent ≡ self.old.part.sender.sent }
        ensures pass { self.new.pass ≡ self.old.pass }
        ensures state { merge.new.state ≡ merge.old.state }
        ensures rings { merge.new.rings ≡ merge.old.rings }
        ensures spare { merge.new.spare ≡ merge.old.spare }
        ensures tails { NoneBelow merge.old.tails merge.new.tails }
        ensures met { HasMet merge.new.state.taken merge.new.tails self.new.part.sender }
    {
        self.part.meet(rings, merge);
    }
}
