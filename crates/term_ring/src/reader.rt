//! What the taking end of a ring does.
ghost use Rattle.std.specs.Prelude.{◌≡◌, ◌+◌, ◌%◌, ◌^◌, ◌<◌, ◌≤◌, [], ◌∷◌, ◌++◌, length, IfOk, IfErr};
ghost use Rattle.std.specs.Bool.{OnTrue, OnFalse};
ghost use mathlib.Core.List.{IsPrefix};
ghost use Rattle.term_ring.specs.Carried.{Fits, Carries};
ghost use Rattle.term_ring.specs.Rule.{LeavesNoRoom, RisesWhere};
ghost use Rattle.term_ring.specs.Views.{Comparable};
ghost use Rattle.term_ring.specs.Ends.{IsWriterOf, IsReaderOf, script_in, places_of, table_of, sent, taken, head_seen, full_looks, tail_seen, empty_looks, told_sent};
ghost use Rattle.term_ring.specs.declared.view.Kind.TheVariants.{Reading};

use crate::note::{Note, from_words};
use crate::ring::{Empty, HEAD, NOTES, Reader, Ring, TAIL, Writer, next_slot};
use crate::steps::{Copy, LookAtTail, Peek, RingView, Take, Tell};
use atomic_table::Seat;
use coeff_ring::CoeffRing;
use packed_monomial::Monomial;

// loads the words of the next note from its place
fn read_note<R: CoeffRing, M: Monomial>(
    ring: &Ring<R, M>,
    seat: &mut Seat<(), RingView<R, M>>,
    slot: u64,
) -> [u64; 5]
    requires table { (seat.old.table_id ≡ table_of ring.now) × (seat.old.me.0.places ≡ places_of ring.now) }
    requires reading { (seat.old.me.0.kind ≡ Reading) × (seat.old.me.0.words ≡ []) }
    requires slot { (0 < places_of ring.now) × (places_of ring.now < 2 ^ 32) × (slot ≡ length seat.old.me.0.notes % places_of ring.now) }
    requires ahead { length seat.old.me.0.notes < seat.old.me.0.seen }
    ensures { (seat.new.table_id ≡ seat.old.table_id) × (seat.new.id ≡ seat.old.id) × (seat.new.me ≡ (record seat.old.me.0 { words = result }, seat.old.me.1)) }
{
    let base = NOTES + 5 * slot as usize;
    let mut bits = [0u64; 5];
    for k in 0..5 {
        bits[k] = ring.table.shared.load::<Peek>(seat, base + k);
    }
    bits
}

impl<R: CoeffRing, M: Monomial> Reader<R, M> {
    // whether there is a next note; it loads the tail where the one seen last tells of none
    fn has_note(&mut self, ring: &Ring<R, M>) -> bool
        requires { IsReaderOf ring.now self.old }
        ensures of { IsReaderOf ring.now self.new }
        ensures taken { taken self.new ≡ taken self.old }
        ensures tail { tail_seen self.old ≤ tail_seen self.new }
        ensures told { told_sent self.new ≡ told_sent self.old }
        ensures note { OnTrue result ((length (taken self.new) < tail_seen self.new) × (empty_looks self.new ≡ empty_looks self.old)) }
        ensures none { OnFalse result ((tail_seen self.new ≡ length (taken self.new)) × (empty_looks self.new ≡ empty_looks self.old + 1) × Comparable (taken self.new) (told_sent self.new)) }
    {
        let end = &mut self.end;
        if end.number < end.seen {
            return true;
        }
        end.seen = ring.table.shared.load::<LookAtTail>(&mut end.seat, TAIL);
        end.number < end.seen
    }

    /// Takes the next note. There is none exactly where, at a load of the tail by this call, each note that was sent is taken. Where the tail that it saw last tells of a note it doesn't load the tail. It allocates nothing.
    pub fn pop(&mut self, ring: &Ring<R, M>) -> Result<Note<R, M>, Empty>
        requires { IsReaderOf ring.now self.old }
        ensures of { IsReaderOf ring.now self.new }
        ensures tail { tail_seen self.old ≤ tail_seen self.new }
        ensures told { told_sent self.new ≡ told_sent self.old }
        ensures next { Comparable (taken self.new) (told_sent self.old) }
        ensures taken { IfOk result (λ n. taken self.new ≡ taken self.old ++ n ∷ []) }
        ensures found { IfOk result (λ _. length (taken self.old) < tail_seen self.new) }
        ensures unrefused { IfOk result (λ _. empty_looks self.new ≡ empty_looks self.old) }
        ensures fits { IfOk result (λ n. Fits R.belongs (script_in ring.now) n) }
        ensures carries { IfOk result (λ _. Carries M.vector R.value (script_in ring.now) (taken self.new)) }
        ensures few { IfOk result (λ _. length (taken self.new) ≤ 2 ^ 63) }
        ensures kept { IfErr result (λ _. taken self.new ≡ taken self.old) }
        ensures empty { IfErr result (λ _. tail_seen self.new ≡ length (taken self.old)) }
        ensures refused { IfErr result (λ _. empty_looks self.new ≡ empty_looks self.old + 1) }
    {
        if !self.has_note(ring) {
            return Err(Empty);
        }
        let end = &mut self.end;
        let bits = read_note(ring, &mut end.seat, end.slot);
        ring.table
            .shared
            .store::<Take<R, M>>(&mut end.seat, HEAD, end.number + 1);
        end.slot = next_slot(end.slot, end.places, end.number);
        end.number += 1;
        Ok(from_words(&ring.scalars.coefficients(), &bits))
    }

    /// From here on the reader has seen all that the writer had sent, so a later pop finds a note until those are taken, and the writer has seen all that the reader had taken. It allocates nothing.
    pub fn meet(&mut self, ring: &Ring<R, M>, writer: &mut Writer<R, M>)
        requires reader { IsReaderOf ring.now self.old }
        requires writer { IsWriterOf ring.now writer.old }
        ensures of { IsReaderOf ring.now self.new }
        ensures writer { IsWriterOf ring.now writer.new }
        ensures sent { sent writer.new ≡ sent writer.old }
        ensures head { head_seen writer.old ≤ head_seen writer.new }
        ensures full { RisesWhere (LeavesNoRoom (head_seen writer.new) (places_of ring.now) (length (sent writer.new))) (full_looks writer.old) (full_looks writer.new) }
        ensures head_seen { length (taken self.new) ≤ head_seen writer.new }
        ensures taken { taken self.new ≡ taken self.old }
        ensures tail { tail_seen self.old ≤ tail_seen self.new }
        ensures empty { RisesWhere (tail_seen self.new ≡ length (taken self.new)) (empty_looks self.old) (empty_looks self.new) }
        ensures tail_seen { length (sent writer.new) ≤ tail_seen self.new }
        ensures told { told_sent self.new ≡ sent writer.new }
        ensures prefix { IsPrefix (taken self.new) (sent writer.new) }
    {
        writer.meet(ring, self);
        let shared = &ring.table.shared;
        let copy = shared.split_seat::<Copy>(&mut writer.end.seat);
        let end = &mut self.end;
        shared.join_seat::<Tell>(&mut end.seat, copy);
        end.seen = shared.load::<LookAtTail>(&mut end.seat, TAIL);
    }
}
