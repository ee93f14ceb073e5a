//! What a worker sends, and how far it has come.
ghost use Rattle.std.specs.Prelude.{◌≡◌, ◌+◌, ◌<◌, ◌≤◌, ℕ, List, [], length, slice_index_or, IfOk, IfErr, IsTrue, false, Option};
ghost use Rattle.sdmp_laws.specs.Poly.{Term};
ghost use Rattle.whole_laws.specs.Notes.{NoEnd, Carry, script_list};
ghost use Rattle.term_ring.specs.Spelling.{Belongs, note_of};
ghost use Rattle.term_ring.specs.Ends.{sent, head_seen, full_looks};
ghost use Rattle.term_ring.specs.Names.{RingName, NoneBelow, ring_name, writer_name, IsWriting};
ghost use Rattle.term_ring.specs.Sending.{IsSentWhole, IsRefused, Sends, WasRefused, HasMet, is_end};
ghost use Rattle.mul_workers.specs.Inside.{script_of_rows, IsNextNote, IsUnsent, KeptBelongs};

use coeff_ring::CoeffRing;
use global_heap::Merge;
use packed_monomial::Monomial;
use row_merge::RowMerge;
use std::marker::Model;
use step_count::Steps;
use term_ring::{Full, Note, NoteOf, Ring, Writer};

/// A worker's rows, the writer of its ring, and the note that a full ring refused.
///
/// Contracts see its ring, its number, the notes that it sent, the head that its writer saw last, and how often it found no room there.
#[derive(Drop)]
pub struct Sender<'a, R: CoeffRing, M: Monomial> {
    worker: u32,
    rows: RowMerge<'a, R, M>,
    writer: Writer<R, M>,
    kept: Option<Note<R, M>>,
    has_ended: bool,
}

impl<'a, R: CoeffRing, M: Monomial> Model for Sender<'a, R, M> {
    ghost use Rattle.term_ring.specs.Sending.{SenderView, sender_view};
    ghost use Rattle.mul_workers.specs.Inside.{IsSender};

    ghost Value = { SenderView };

    ghost view = { λ s. sender_view M.vector R.value s.worker s.writer };

    ghost invariant = { λ s. IsSender M.vector R.value R.belongs M.order M.VARS s.rows s.writer s.kept s.has_ended s.worker };
}

// the note that was kept, or else the next of the rows, and the end after the last
#[inline(always)]
fn next_note<R: CoeffRing, M: Monomial>(
    kept: Option<Note<R, M>>,
    rows: &mut RowMerge<'_, R, M>,
    steps: &mut Steps,
) -> Note<R, M>
    ensures factors { (rows.new.modulus ≡ rows.old.modulus) × (rows.new.f ≡ rows.old.f) × (rows.new.g ≡ rows.old.g) × (rows.new.workers ≡ rows.old.workers) × (rows.new.worker ≡ rows.old.worker) }
    ensures next { (unsent : List Term) → IsUnsent M.vector R.value unsent kept rows.old.rest → IsNextNote unsent (note_of M.vector R.value result) rows.new.rest }
    ensures belongs { KeptBelongs (R.belongs rows.old.modulus) kept → Belongs (R.belongs rows.old.modulus) result }
{
    if let Some(note) = kept {
        return note;
    }
    match rows.next(steps) {
        Some(term) => NoteOf::Term(term),
        None => NoteOf::End,
    }
}

#[inline(always)]
fn is_end<M, E>(note: &NoteOf<M, E>) -> bool
    ensures { result ≡ is_end note.now }
{
    match note {
        NoteOf::Term(_) => false,
        NoteOf::Mark { .. } => false,
        NoteOf::End => true,
    }
}

impl<'a, R: CoeffRing, M: Monomial> Sender<'a, R, M> {
    pub fn new(worker: u32, rows: RowMerge<'a, R, M>, writer: Writer<R, M>) -> Sender<'a, R, M>
        requires worker { worker ≡ rows.worker }
        requires writing { IsWriting writer }
        requires script { (writer_name writer).script ≡ script_of_rows M.order M.VARS rows }
        requires rest { rows.rest ≡ script_list (script_of_rows M.order M.VARS rows) }
        requires sent { sent writer ≡ [] }
        ensures { result ≡ record { ring = writer_name writer; worker = worker; sent = []; head = head_seen writer; full_looks = full_looks writer } }
    {
        Sender {
            worker,
            rows,
            writer,
            kept: None,
            has_ended: false,
        }
    }

    /// The worker's number.
    pub fn worker(&self) -> u32
        ensures { result ≡ self.now.worker }
    {
        self.worker
    }

    /// Whether the end is sent.
    #[inline(always)]
    pub fn has_ended(&self) -> bool
        ensures yes { IsTrue result → IsSentWhole self.now }
        ensures no { result ≡ false → NoEnd self.now.sent }
        ensures carried { Carry self.now.ring.script self.now.sent }
    {
        self.has_ended
    }

    /// Sends the next note, or keeps it where the ring is full.
    #[inline(always)]
    pub fn push(&mut self, ring: &Ring<R, M>, steps: &mut Steps) -> Result<(), Full>
        requires ring { ring_name ring.now ≡ self.old.ring }
        requires clear { NoEnd self.old.sent }
        ensures sends { Sends self.old self.new }
        ensures carried { Carry self.new.ring.script self.new.sent }
        ensures unrefused { IfOk result (λ _. self.new.full_looks ≡ self.old.full_looks) }
        ensures more { IfOk result (λ _. length self.new.sent ≡ length self.old.sent + 1) }
        ensures within { length self.new.sent ≤ length (script_list self.new.ring.script) + 1 }
        ensures kept { IfErr result (λ _. self.new.sent ≡ self.old.sent) }
        ensures refused { IfErr result (λ _. IsRefused self.new × WasRefused self.old self.new) }
    {
        let note = next_note(self.kept, &mut self.rows, steps);
        match self.writer.push(ring, note) {
            Ok(()) => {
                self.kept = None;
                self.has_ended = is_end(&note);
                Ok(())
            }
            Err(Full) => {
                self.kept = Some(note);
                Err(Full)
            }
        }
    }

    /// Sends all notes up to the end, or until the ring is full.
    pub fn send(&mut self, ring: &Ring<R, M>, steps: &mut Steps) -> Result<(), Full>
        requires ring { ring_name ring.now ≡ self.old.ring }
        ensures sends { Sends self.old self.new }
        ensures carried { Carry self.new.ring.script self.new.sent }
        ensures looks { self.old.full_looks ≤ self.new.full_looks }
        ensures whole { IfOk result (λ _. IsSentWhole self.new) }
        ensures clear { IfErr result (λ _. NoEnd self.new.sent) }
        ensures refused { IfErr result (λ _. IsRefused self.new × WasRefused self.old self.new) }
    {
        while !self.has_ended() {
            self.push(ring, steps)?;
        }
        Ok(())
    }

    /// Lets the writer and the merge's reader of its ring meet.
    pub fn meet(&mut self, ring: &Ring<R, M>, merge: &mut Merge<R, M>)
        requires worker { self.old.worker < merge.old.state.workers }
        requires ring { ring_name ring.now ≡ self.old.ring }
        requires name { (d : RingName) → slice_index_or merge.old.rings self.old.worker d ≡ self.old.ring }
        ensures sends { Sends self.old self.new }
        ensures sent { self.new.sent ≡ self.old.sent }
        ensures state { merge.new.state ≡ merge.old.state }
        ensures rings { merge.new.rings ≡ merge.old.rings }
        ensures spare { merge.new.spare ≡ merge.old.spare }
        ensures tails { NoneBelow merge.old.tails merge.new.tails }
        ensures met { HasMet merge.new.state.taken merge.new.tails self.new }
    {
        merge.meet(ring, self.worker, &mut self.writer);
    }
}
