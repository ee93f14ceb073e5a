//! What the sending end of a ring does.
ghost use Rattle.std.specs.Prelude.{◌≡◌, ◌+◌, ◌%◌, ◌^◌, ◌<◌, ◌≤◌, [], ◌∷◌, ◌++◌, length, IfOk, IfErr};
ghost use Rattle.std.specs.Bool.{OnTrue, OnFalse};
ghost use mathlib.Core.List.{IsPrefix};
ghost use Rattle.term_ring.specs.Carried.{Fits, Carries};
ghost use Rattle.term_ring.specs.Rule.{LeavesNoRoom, RisesWhere};
ghost use Rattle.term_ring.specs.Ends.{IsWriterOf, IsReaderOf, script_in, places_of, table_of, sent, taken, head_seen, full_looks, tail_seen, empty_looks, told_sent};
ghost use Rattle.term_ring.specs.declared.view.Kind.TheVariants.{Writing};

use crate::note::{Note, to_words};
use crate::ring::{Full, HEAD, NOTES, Reader, Ring, TAIL, Writer, next_slot};
use crate::steps::{Copy, LookAtHead, Peek, Put, RingView, Send, Tell};
use atomic_table::Seat;
use coeff_ring::CoeffRing;
use packed_monomial::Monomial;

// spells the next note in its place; a word that stands there already is left, since a store takes far longer than a load
fn write_note<R: CoeffRing, M: Monomial>(
    ring: &Ring<R, M>,
    seat: &mut Seat<(), RingView<R, M>>,
    slot: u64,
    bits: &[u64; 5],
)
    requires table { (seat.old.table_id ≡ table_of ring.now) × (seat.old.me.0.places ≡ places_of ring.now) }
    requires writing { (seat.old.me.0.kind ≡ Writing) × (seat.old.me.0.words ≡ []) }
    requires slot { (0 < places_of ring.now) × (places_of ring.now < 2 ^ 32) × (slot ≡ length seat.old.me.0.notes % places_of ring.now) }
    requires free { length seat.old.me.0.notes < seat.old.me.0.seen + places_of ring.now }
    ensures { (seat.new.table_id ≡ seat.old.table_id) × (seat.new.id ≡ seat.old.id) × (seat.new.me ≡ (record seat.old.me.0 { words = bits.now }, seat.old.me.1)) }
{
    let shared = &ring.table.shared;
    let base = NOTES + 5 * slot as usize;
    for k in 0..5 {
        let word = bits[k];
        if shared.load::<Peek>(seat, base + k) == word {
            continue;
        }
        shared.store::<Put>(seat, base + k, word);
    }
}

// whether the note with this number may be sent, by this head
fn may_send(head: u64, places: u64, number: u64) -> bool
    requires { (number ≤ head + places) × (number ≤ 2 ^ 63) × (head + places < 2 ^ 64) }
    ensures room { OnTrue result ((number < head + places) × (number < 2 ^ 63)) }
    ensures full { OnFalse result (LeavesNoRoom head places number) }
{
    number < head + places && number < 1 << 63
}

impl<R: CoeffRing, M: Monomial> Writer<R, M> {
    // whether there is room for a next note; it loads the head where the one seen last leaves none
    fn has_room(&mut self, ring: &Ring<R, M>) -> bool
        requires { IsWriterOf ring.now self.old }
        ensures of { IsWriterOf ring.now self.new }
        ensures sent { sent self.new ≡ sent self.old }
        ensures head { head_seen self.old ≤ head_seen self.new }
        ensures room { OnTrue result ((length (sent self.new) < head_seen self.new + places_of ring.now) × (length (sent self.new) < 2 ^ 63) × (full_looks self.new ≡ full_looks self.old)) }
        ensures full { OnFalse result (LeavesNoRoom (head_seen self.new) (places_of ring.now) (length (sent self.new)) × (full_looks self.new ≡ full_looks self.old + 1)) }
    {
        let end = &mut self.end;
        if may_send(end.seen, end.places, end.number) {
            return true;
        }
        end.seen = ring.table.shared.load::<LookAtHead>(&mut end.seat, HEAD);
        may_send(end.seen, end.places, end.number)
    }

    /// Sends the note. It is refused exactly where, at a load of the head by this call, each place holds a note that wasn't taken, or where 2^63 notes were sent; then nothing is sent. Where the head that it saw last leaves room it doesn't load the head. It allocates nothing.
    pub fn push(&mut self, ring: &Ring<R, M>, note: Note<R, M>) -> Result<(), Full>
        requires of { IsWriterOf ring.now self.old }
        requires fits { Fits R.belongs (script_in ring.now) note }
        requires carries { Carries M.vector R.value (script_in ring.now) (sent self.old ++ note ∷ []) }
        ensures of { IsWriterOf ring.now self.new }
        ensures head { head_seen self.old ≤ head_seen self.new }
        ensures sent { IfOk result (λ _. sent self.new ≡ sent self.old ++ note ∷ []) }
        ensures room { IfOk result (λ _. length (sent self.old) < head_seen self.new + places_of ring.now) }
        ensures unrefused { IfOk result (λ _. full_looks self.new ≡ full_looks self.old) }
        ensures kept { IfErr result (λ _. sent self.new ≡ sent self.old) }
        ensures full { IfErr result (λ _. LeavesNoRoom (head_seen self.new) (places_of ring.now) (length (sent self.old))) }
        ensures refused { IfErr result (λ _. full_looks self.new ≡ full_looks self.old + 1) }
    {
        if !self.has_room(ring) {
            return Err(Full);
        }
        let end = &mut self.end;
        let bits = to_words(&ring.scalars.coefficients(), note);
        write_note(ring, &mut end.seat, end.slot, &bits);
        ring.table
            .shared
            .store::<Send<R, M>>(&mut end.seat, TAIL, end.number + 1);
        end.slot = next_slot(end.slot, end.places, end.number);
        end.number += 1;
        Ok(())
    }

    /// From here on the writer has seen all that the reader had taken, so a later push is refused only where so many more were sent as there are places. It allocates nothing.
    pub fn meet(&mut self, ring: &Ring<R, M>, reader: &mut Reader<R, M>)
        requires writer { IsWriterOf ring.now self.old }
        requires reader { IsReaderOf ring.now reader.old }
        ensures of { IsWriterOf ring.now self.new }
        ensures reader { IsReaderOf ring.now reader.new }
        ensures reader_taken { taken reader.new ≡ taken reader.old }
        ensures reader_tail { (tail_seen reader.new ≡ tail_seen reader.old) × (empty_looks reader.new ≡ empty_looks reader.old) }
        ensures reader_told { told_sent reader.new ≡ told_sent reader.old }
        ensures sent { sent self.new ≡ sent self.old }
        ensures head { head_seen self.old ≤ head_seen self.new }
        ensures full { RisesWhere (LeavesNoRoom (head_seen self.new) (places_of ring.now) (length (sent self.new))) (full_looks self.old) (full_looks self.new) }
        ensures seen { length (taken reader.new) ≤ head_seen self.new }
        ensures taken { IsPrefix (taken reader.new) (sent self.new) }
    {
        let shared = &ring.table.shared;
        let copy = shared.split_seat::<Copy>(&mut reader.end.seat);
        let end = &mut self.end;
        shared.join_seat::<Tell>(&mut end.seat, copy);
        end.seen = shared.load::<LookAtHead>(&mut end.seat, HEAD);
    }
}
