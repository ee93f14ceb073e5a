//! A worker's part of a division: what it learns and sends, and how it waits.
ghost use Rattle.std.specs.Prelude.{◌≡◌, ◌≢◌, ◌+◌, ◌-◌, ◌≤◌, ◌<◌, map, List, ◌++◌, All, length, [], vec_len, IfOk, IfErr, OnOk, Some, None};
ghost use Rattle.whole_laws.specs.Notes.{QuotientScript, Carry, divisor_rows};
ghost use Rattle.turnstile.specs.Passes.{made_with, IsPassOf, IsOutside, HasPass, entries, busy, patience};
ghost use Rattle.term_ring.specs.Ends.{sent, head_seen, full_looks};
ghost use Rattle.term_ring.specs.Names.{NoneBelow, ring_name, writer_name, IsWriting};
ghost use Rattle.term_ring.specs.Sending.{IsAmong, IsRefused, WasRefused, HasMet};
ghost use Rattle.quotient_row.specs.Ends.{IsNew, known};
ghost use Rattle.sdmp_laws.specs.Poly.{Term as PlainTerm};
ghost use Rattle.sdmp_laws.specs.LongDivision.{quotient_list};
ghost use Rattle.divide_wholes.specs.Wholes.{AllUnderFront};
ghost use Rattle.canonical_terms.specs.View.{sum_of};
ghost use Rattle.divide_merge.specs.Inside.{vector_of};
ghost use Rattle.divide_merge.specs.Names.{IsFit, IsLooking, row_identity, reader_row};
ghost use Rattle.divide_merge.specs.Reached.{divide_name};
ghost use Rattle.divide_workers.specs.Views.{sender_of, script_workers};
ghost use Rattle.divide_workers.specs.Inside.{view_of};
ghost use Rattle.divide_workers.specs.Paying.{HasRows, IsFewSent};
ghost use Rattle.divide_workers.specs.Working.{IsWorking, HasRoom};
ghost use Rattle.divide_workers.specs.Steps.{Works, HoldsBack, Pushes, Refuses, IsBegun, CatchesUp};
ghost use Rattle.divide_workers.specs.Stops.{HasName, IsReceipt, IsStop};
ghost use Rattle.divide_workers.specs.Rounds.{Moves, Meets};

use crate::sender::Sender;
use crate::shared::Shared;
use crate::stop::DivideStop;
use crate::waiting::{wait_for_news, wait_for_room};
use canonical_terms::Term;
use coeff_ring::CoeffRing;
use divide_merge::{DivideAdvanced, DivideMerge};
use packed_monomial::Monomial;
use quotient_row::{Row, RowReader};
use row_merge::QuotientRows;
use sdmp_laws::NoMemory;
use step_count::Steps;
use term_ring::{Full, Ring, Writer};
use turnstile::{Gate, MOST_TURNS, Member, Pass, Patience};

/// A worker without its pass: a member of a round around the merge has that beside it.
pub(crate) type Worker<'a, R, M> = Member<Part<'a, R, M>, DivideMerge<R, M>>;

/// What a worker learns and sends and how far it has come, and how long it waits for room and for news.
#[derive(Drop)]
pub struct Part<'a, R: CoeffRing, M: Monomial> {
    pub(crate) sender: Sender<'a, R, M>,
    room: Patience,
    news: Patience,
    filling: Filling,
}

// Words that nobody reads: workers stand side by side, and a line of the cache that one writes at each note is to hold no word of the next.
#[derive(Drop)]
struct Filling {
    _words: [u64; 16],
}

impl Filling {
    fn new() -> Filling {
        Filling { _words: [0; 16] }
    }
}

impl<'a, R: CoeffRing, M: Monomial> Part<'a, R, M> {
    /// Nothing is learned or sent yet.
    pub fn new(
        worker: u32,
        rows: QuotientRows<'a, R, M>,
        writer: Writer<R, M>,
        reader: RowReader<R, M>,
    ) -> Part<'a, R, M>
        requires writing { IsWriting writer }
        requires looking { IsLooking reader }
        requires script { (writer_name writer).script ≡ QuotientScript (reader_row reader).name.division (script_workers (writer_name writer).script) worker }
        requires fit { IsFit M.LIM (reader_row reader).name.division }
        requires order { (reader_row reader).name.division.ord ≡ M.order }
        requires variables { (reader_row reader).name.division.n ≡ M.VARS }
        requires modulus { rows.modulus ≡ (reader_row reader).name.division.p }
        requires divisor { rows.divisor ≡ (reader_row reader).name.division.g }
        requires rows { rows.rows ≡ divisor_rows rows.divisor (script_workers (writer_name writer).script) worker }
        requires start { (reader_row reader).name.start ≡ 0 }
        requires learned { (rows.learned ≡ []) × (rows.unread ≡ []) }
        requires sent { sent writer ≡ [] }
        requires known { IsNew reader }
        ensures { result.sender ≡ view_of M.vector R.value worker rows.entry writer reader None None }
    {
        Part {
            sender: Sender::new(worker, rows, writer, reader),
            room: Patience::new(MOST_TURNS),
            news: Patience::new(MOST_TURNS),
            filling: Filling::new(),
        }
    }

    /// What always holds of it. The call does nothing.
    pub fn whole(&self)
        ensures working { IsWorking M.LIM self.now.sender }
        ensures order { self.now.sender.state.division.ord ≡ M.order }
        ensures variables { self.now.sender.state.division.n ≡ M.VARS }
        ensures few { IsFewSent self.now.sender.state }
    {
        self.sender.whole();
    }

    /// Arrives at the gate, and learns and sends until the ring stays full or no news comes while the worker waits. A worker without rows ends at once.
    pub fn advance<G: Gate>(
        &mut self,
        shared: &Shared<'_, R, M>,
        pass: &mut Pass<DivideMerge<R, M>>,
        gate: &G,
    ) -> DivideStop<R, M>
        requires pass { IsPassOf shared.now.turnstile.now pass.old × IsOutside pass.old }
        requires name { HasName (made_with shared.now.turnstile.now) (map ring_name shared.now.rings.now) (row_identity shared.now.row.now) }
        requires ring { IsAmong (map ring_name shared.now.rings.now) (sender_of self.old.sender) }
        requires row { self.old.sender.row ≡ row_identity shared.now.row.now }
        requires room { HasRoom self.old.sender }
        ensures pass { IsPassOf shared.now.turnstile.now pass.new × IsOutside pass.new }
        ensures works { Works self.old.sender self.new.sender }
        ensures stop { IsStop (divide_name (made_with shared.now.turnstile.now)) self.old.sender self.new.sender (Some pass.old) (Some pass.new) result }
    {
        self.whole();
        let worker = self.sender.worker();
        gate.arrive(worker);
        if !self.sender.has_rows() {
            return DivideStop::Waiting {
                known: self.sender.known(),
                merged: None,
            };
        }
        let ring = &shared.rings[worker as usize];
        let stop = self.work(shared, ring, pass, &mut Steps::new());
        shared.ended.tell();
        stop
    }

    // Learns and sends until the ring stays full, or no news comes.
    fn work(
        &mut self,
        shared: &Shared<'_, R, M>,
        ring: &Ring<R, M>,
        pass: &mut Pass<DivideMerge<R, M>>,
        steps: &mut Steps,
    ) -> DivideStop<R, M>
        requires pass { IsPassOf shared.now.turnstile.now pass.old × IsOutside pass.old }
        requires name { HasName (made_with shared.now.turnstile.now) (map ring_name shared.now.rings.now) (row_identity shared.now.row.now) }
        requires ring { ring_name ring.now ≡ self.old.sender.ring }
        requires row { self.old.sender.row ≡ row_identity shared.now.row.now }
        requires room { HasRoom self.old.sender }
        requires rows { HasRows self.old.sender.state }
        ensures pass { IsPassOf shared.now.turnstile.now pass.new × IsOutside pass.new }
        ensures works { Works self.old.sender self.new.sender }
        ensures stop { IsStop (divide_name (made_with shared.now.turnstile.now)) self.old.sender self.new.sender (Some pass.old) (Some pass.new) result }
    {
        self.whole();
        loop {
            self.sender.learn_all(shared.row, steps);
            if let Err(receipt) = self.send(shared, ring, pass, steps) {
                return DivideStop::Full(receipt);
            }
            if self.sender.look(shared.row, steps) {
                continue;
            }
            if let Err(receipt) = self.push(shared, ring, pass, steps) {
                return DivideStop::Full(receipt);
            }
            if let Err(merged) = wait_for_news(
                shared,
                &mut self.sender,
                pass,
                &mut self.news,
                steps,
            ) {
                let known = self.sender.known();
                return DivideStop::Waiting { known, merged };
            }
        }
    }

    // Sends all that is past the frontier.
    fn send(
        &mut self,
        shared: &Shared<'_, R, M>,
        ring: &Ring<R, M>,
        pass: &mut Pass<DivideMerge<R, M>>,
        steps: &mut Steps,
    ) -> Result<(), Option<DivideAdvanced<R, M>>>
        requires pass { IsPassOf shared.now.turnstile.now pass.old × IsOutside pass.old }
        requires name { HasName (made_with shared.now.turnstile.now) (map ring_name shared.now.rings.now) (row_identity shared.now.row.now) }
        requires ring { ring_name ring.now ≡ self.old.sender.ring }
        ensures pass { IsPassOf shared.now.turnstile.now pass.new × IsOutside pass.new }
        ensures entries { entries pass.old ≤ entries pass.new }
        ensures busy { busy pass.old ≤ busy pass.new }
        ensures works { Works self.old.sender self.new.sender }
        ensures row { (self.new.sender.notes ≡ self.old.sender.notes) × (self.new.sender.row ≡ self.old.sender.row) }
        ensures held { IfOk result (λ _. HoldsBack self.new.sender) }
        ensures refused { IfErr result (λ _. IsRefused (sender_of self.new.sender) × WasRefused (sender_of self.old.sender) (sender_of self.new.sender)) }
        ensures receipt { IfErr result (λ r. IsReceipt (divide_name (made_with shared.now.turnstile.now)) patience pass.old pass.new r) }
    {
        self.whole();
        let frontier = self.sender.frontier();
        while self.sender.keep_next(frontier, steps) {
            self.push(shared, ring, pass, steps)?;
        }
        Ok(())
    }

    // Sends what is next, and waits where the ring is full.
    fn push(
        &mut self,
        shared: &Shared<'_, R, M>,
        ring: &Ring<R, M>,
        pass: &mut Pass<DivideMerge<R, M>>,
        steps: &mut Steps,
    ) -> Result<(), Option<DivideAdvanced<R, M>>>
        requires pass { IsPassOf shared.now.turnstile.now pass.old × IsOutside pass.old }
        requires name { HasName (made_with shared.now.turnstile.now) (map ring_name shared.now.rings.now) (row_identity shared.now.row.now) }
        requires ring { ring_name ring.now ≡ self.old.sender.ring }
        ensures pass { IsPassOf shared.now.turnstile.now pass.new × IsOutside pass.new }
        ensures entries { entries pass.old ≤ entries pass.new }
        ensures busy { busy pass.old ≤ busy pass.new }
        ensures sent { IfOk result (λ _. Pushes self.old.sender self.new.sender) }
        ensures refused { IfErr result (λ _. Refuses self.old.sender self.new.sender) }
        ensures receipt { IfErr result (λ r. IsReceipt (divide_name (made_with shared.now.turnstile.now)) patience pass.old pass.new r) }
    {
        let Err(Full) = self.sender.push(ring, steps) else {
            return Ok(());
        };
        wait_for_room(shared, ring, &mut self.sender, pass, &mut self.room, steps)
    }

    /// Lets the worker's ends of its ring and of the row meet those of the merge.
    pub fn meet(&mut self, rings: &[Ring<R, M>], row: &Row<R, M>, merge: &mut DivideMerge<R, M>)
        requires rings { merge.old.rings ≡ map ring_name rings.now }
        requires row { merge.old.row ≡ row_identity row.now }
        requires ring { IsAmong (map ring_name rings.now) (sender_of self.old.sender) }
        requires reader { self.old.sender.row ≡ row_identity row.now }
        ensures meets { Meets merge.new self.old.sender self.new.sender }
        ensures run { merge.new.run ≡ merge.old.run }
        ensures rings { merge.new.rings ≡ merge.old.rings }
        ensures row { merge.new.row ≡ merge.old.row }
        ensures spare { merge.new.spare ≡ merge.old.spare }
        ensures tails { NoneBelow merge.old.tails merge.new.tails }
    {
        merge.whole();
        let ring = &rings[self.sender.worker() as usize];
        self.sender.meet(ring, row, merge);
    }

    /// How many quotient terms it knows.
    pub fn known(&self) -> u32
        ensures { result ≡ length self.now.sender.state.known }
    {
        self.sender.known()
    }

    /// Makes room for `n` more quotient terms, where it has rows.
    pub fn reserve(&mut self, n: usize) -> Result<(), NoMemory>
        ensures same { self.new.sender ≡ record self.old.sender { spare = self.new.sender.spare } }
        ensures room { OnOk result (HasRows self.old.sender.state → n ≤ self.new.sender.spare) }
    {
        self.sender.reserve(n)
    }

    /// Goes on with a new row, after the terms of `q` and below the front.
    pub fn catch_up(&mut self, q: &[Term<R, M>], front: Option<M>, reader: RowReader<R, M>)
        requires q { IsBegun self.old.sender.state.division (sum_of M.vector R.value q.now) }
        requires belongs { All (λ t. R.belongs self.old.sender.state.division.p t.coef) q.now }
        requires front { (later : List PlainTerm) → sum_of M.vector R.value q.now ++ later ≡ quotient_list self.old.sender.state.division → AllUnderFront self.old.sender.state.division (vector_of M.vector front) later }
        requires looking { IsLooking reader }
        requires row { (reader_row reader).name ≡ record { division = self.old.sender.state.division; start = length q.now } }
        requires nothing { known reader ≡ [] }
        requires spare { HasRows self.old.sender.state → length q.now ≤ length self.old.sender.state.known + self.old.sender.spare }
        ensures { CatchesUp (reader_row reader) (length q.now) (vector_of M.vector front) self.old.sender self.new.sender }
    {
        self.sender.catch_up(q, front, reader);
    }
}

/// The worker advances with the pass that it has.
pub(crate) fn advance<R: CoeffRing, M: Monomial, G: Gate>(
    worker: &mut Worker<'_, R, M>,
    shared: &Shared<'_, R, M>,
    gate: &G,
) -> DivideStop<R, M>
    requires pass { HasPass shared.now.turnstile.now worker.old.pass }
    requires name { HasName (made_with shared.now.turnstile.now) (map ring_name shared.now.rings.now) (row_identity shared.now.row.now) }
    requires ring { IsAmong (map ring_name shared.now.rings.now) (sender_of worker.old.worker.sender) }
    requires row { worker.old.worker.sender.row ≡ row_identity shared.now.row.now }
    requires room { HasRoom worker.old.worker.sender }
    ensures pass { HasPass shared.now.turnstile.now worker.new.pass }
    ensures moves { Moves worker.old.worker.sender worker.new.worker.sender }
{
    let Some(pass) = &mut worker.pass else {
        unreachable!()
    };
    worker.worker.advance(shared, pass, gate)
}
