//! A worker's part of a product: what it sends, and how it waits where its ring is full.
ghost use Rattle.std.specs.Prelude.{◌≡◌, ◌≤◌, ℕ, map, [], Some};
ghost use Rattle.whole_laws.specs.Notes.{Carry, script_list};
ghost use Rattle.turnstile.specs.Passes.{made_with, IsPassOf, IsOutside, HasPass};
ghost use Rattle.term_ring.specs.Ends.{sent, head_seen, full_looks};
ghost use Rattle.term_ring.specs.Names.{NoneBelow, ring_name, writer_name, IsWriting};
ghost use Rattle.term_ring.specs.Sending.{Sends, IsAmong, HasMet};
ghost use Rattle.mul_workers.specs.Inside.{script_of_rows};
ghost use Rattle.mul_workers.specs.Workers.{IsStop};
ghost use Rattle.mul_workers.specs.Rounds.{Moves};

use crate::sender::Sender;
use crate::stop::Stop;
use crate::waiting::wait;
use coeff_ring::CoeffRing;
use global_heap::Merge;
use packed_monomial::Monomial;
use row_merge::RowMerge;
use step_count::Steps;
use term_ring::{Full, Ring, Writer};
use turnstile::{Gate, Member, Pass, Patience, Turnstile};

/// A worker without its pass: a member of a round around the merge has that beside it.
pub(crate) type Worker<'a, R, M> = Member<Part<'a, R, M>, Merge<R, M>>;

/// What a worker sends and how far it has come, and how long it waits where its ring is full.
#[derive(Drop)]
pub struct Part<'a, R: CoeffRing, M: Monomial> {
    pub(crate) sender: Sender<'a, R, M>,
    patience: Patience,
    filling: Filling,
}

// Words that nobody reads: workers stand side by side, and a line of the cache that one writes at each note is to hold no word of the next.
#[derive(Drop)]
struct Filling {
    _words: [u64; 16],
}

impl Filling {
    fn new() -> Filling {
        Filling { _words: [0; 16] }
    }
}

impl<'a, R: CoeffRing, M: Monomial> Part<'a, R, M> {
    /// Nothing is sent yet.
    pub fn new(
        worker: u32,
        rows: RowMerge<'a, R, M>,
        writer: Writer<R, M>,
        patience: Patience,
    ) -> Part<'a, R, M>
        requires worker { worker ≡ rows.worker }
        requires writing { IsWriting writer }
        requires script { (writer_name writer).script ≡ script_of_rows M.order M.VARS rows }
        requires rest { rows.rest ≡ script_list (script_of_rows M.order M.VARS rows) }
        requires sent { sent writer ≡ [] }
        ensures sender { result.sender ≡ record { ring = writer_name writer; worker = worker; sent = []; head = head_seen writer; full_looks = full_looks writer } }
    {
        Part {
            sender: Sender::new(worker, rows, writer),
            patience,
            filling: Filling::new(),
        }
    }

    /// Arrives at the gate, and sends until the end is sent, or the ring stays full while the worker waits.
    pub fn advance<G: Gate>(
        &mut self,
        rings: &[Ring<R, M>],
        turnstile: &Turnstile<Merge<R, M>>,
        pass: &mut Pass<Merge<R, M>>,
        gate: &G,
    ) -> Stop<R, M>
        requires pass { IsPassOf turnstile.now pass.old × IsOutside pass.old }
        requires rings { (made_with turnstile.now).rings ≡ map ring_name rings.now }
        requires ring { IsAmong (map ring_name rings.now) self.old.sender }
        ensures pass { IsPassOf turnstile.now pass.new × IsOutside pass.new }
        ensures sends { Sends self.old.sender self.new.sender }
        ensures carried { Carry self.new.sender.ring.script self.new.sender.sent }
        ensures stop { IsStop (map ring_name rings.now) self.old.sender self.new.sender (Some pass.old) (Some pass.new) result }
    {
        let worker = self.sender.worker();
        gate.arrive(worker);
        let ring = &rings[worker as usize];
        work(
            ring,
            rings,
            turnstile,
            &mut self.sender,
            pass,
            &mut self.patience,
            &mut Steps::new(),
        )
    }

    /// Lets the writer and the merge's reader of its ring meet.
    pub fn meet(&mut self, rings: &[Ring<R, M>], merge: &mut Merge<R, M>)
        requires rings { merge.old.rings ≡ map ring_name rings.now }
        requires ring { IsAmong (map ring_name rings.now) self.old.sender }
        ensures sends { Sends self.old.sender self.new.sender }
        ensures sent { self.new.sender.sent ≡ self.old.sender.sent }
        ensures state { merge.new.state ≡ merge.old.state }
        ensures rings { merge.new.rings ≡ merge.old.rings }
        ensures spare { merge.new.spare ≡ merge.old.spare }
        ensures tails { NoneBelow merge.old.tails merge.new.tails }
        ensures met { HasMet merge.new.state.taken merge.new.tails self.new.sender }
    {
        merge.whole();
        let worker = self.sender.worker();
        let ring = &rings[worker as usize];
        self.sender.meet(ring, merge);
    }
}

/// The worker advances with the pass that it has.
pub(crate) fn advance<R: CoeffRing, M: Monomial, G: Gate>(
    worker: &mut Worker<'_, R, M>,
    rings: &[Ring<R, M>],
    turnstile: &Turnstile<Merge<R, M>>,
    gate: &G,
) -> Stop<R, M>
    requires pass { HasPass turnstile.now worker.old.pass }
    requires rings { (made_with turnstile.now).rings ≡ map ring_name rings.now }
    requires ring { IsAmong (map ring_name rings.now) worker.old.worker.sender }
    ensures pass { HasPass turnstile.now worker.new.pass }
    ensures stop { Moves worker.old.worker.sender worker.new.worker.sender }
{
    let Some(pass) = &mut worker.pass else {
        unreachable!()
    };
    worker.worker.advance(rings, turnstile, pass, gate)
}

// Sends until the end is sent, or the ring stays full while the worker waits.
fn work<R: CoeffRing, M: Monomial>(
    ring: &Ring<R, M>,
    rings: &[Ring<R, M>],
    turnstile: &Turnstile<Merge<R, M>>,
    sender: &mut Sender<'_, R, M>,
    pass: &mut Pass<Merge<R, M>>,
    bound: &mut Patience,
    steps: &mut Steps,
) -> Stop<R, M>
    requires pass { IsPassOf turnstile.now pass.old × IsOutside pass.old }
    requires rings { (made_with turnstile.now).rings ≡ map ring_name rings.now }
    requires ring { ring_name ring.now ≡ sender.old.ring }
    ensures pass { IsPassOf turnstile.now pass.new × IsOutside pass.new }
    ensures sends { Sends sender.old sender.new }
    ensures carried { Carry sender.new.ring.script sender.new.sent }
    ensures stop { IsStop (map ring_name rings.now) sender.old sender.new (Some pass.old) (Some pass.new) result }
{
    loop {
        let Err(Full) = sender.send(ring, steps) else {
            return Stop::Ended;
        };
        if let Err(receipt) = wait(ring, rings, turnstile, sender, pass, bound, steps) {
            return Stop::Full(receipt);
        }
    }
}
