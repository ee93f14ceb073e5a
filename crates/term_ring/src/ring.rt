//! A ring and its two ends.
ghost use Rattle.std.specs.Prelude.{◌≡◌, ◌+◌, ◌*◌, ◌%◌, ◌^◌, ◌<◌, ◌≤◌, [], length, Some};
ghost use Rattle.term_ring.specs.Plain.{modulus_of};
ghost use Rattle.term_ring.specs.Rule.{words_of_ring};

use crate::note::Note;
use crate::scalars::Scalars;
use crate::script::Plan;
use crate::steps::{Key, RingRule, RingView};
use crate::view::{Kind, View};
use atomic_table::{Seat, Table};
use coeff_ring::CoeffRing;
use packed_monomial::Monomial;
use std::alloc::Global;
use std::snapshot::Snapshot;

// the words of the table: the head and the tail, each in a pair of lines of the cache of its own, and the first word of the places of notes; the words between are not used
pub(crate) const HEAD: usize = 0;

pub(crate) const TAIL: usize = 16;

pub(crate) const NOTES: usize = 32;

/// Each place held a note that wasn't taken when the push loaded the head.
#[derive(Debug, Drop, Clone, Copy, PartialEq, Eq)]
pub struct Full;

/// Each note that was sent when the pop loaded the tail is taken.
#[derive(Debug, Drop, Clone, Copy, PartialEq, Eq)]
pub struct Empty;

/// The places of a ring, shared by reference between its writer and its reader.
#[derive(Drop)]
pub struct Ring<R: CoeffRing, M: Monomial> {
    pub(crate) table: Table<(), RingView<R, M>, Key<R, M>, RingRule<R, M>, Global>,
    pub(crate) scalars: Scalars<R>,
    ghost sized: { table.shared.table_id.words ≡ words_of_ring table.shared.key.places },
    ghost over: { scalars ≡ modulus_of table.shared.key.script.value },
}

/// What an end keeps: its seat at the table, its script, the number and the place of its next note, and the head or the tail of the other end as it saw it last.
#[derive(Drop)]
pub struct End<N, C> {
    pub(crate) seat: Seat<(), View<Kind, N, C>>,
    pub(crate) script: Snapshot<C>,
    pub(crate) places: u64,
    pub(crate) number: u64,
    pub(crate) slot: u64,
    pub(crate) seen: u64,
    ghost held: { seat.me.1 ≡ [] },
    ghost scripted: { (seat.me.0.subject ≡ Some script.value) × (seat.me.0.places ≡ places) },
    ghost some_place: { (0 < places) × (places < 2 ^ 32) },
    ghost counted: { (length seat.me.0.notes ≡ number) × (number ≤ 2 ^ 63) },
    ghost placed: { slot ≡ number % places },
    ghost looked: { seat.me.0.seen ≡ seen },
    ghost near: { (number ≤ seen + places) × (seen ≤ number + places) × (seen ≤ 2 ^ 63) },
    ghost between: { seat.me.0.words ≡ [] },
}

/// The end that sends. Contracts see in it the notes sent, the head that it saw last, and how often it loaded the head and found no room.
#[derive(Drop)]
pub struct Writer<R: CoeffRing, M: Monomial> {
    pub(crate) end: End<Note<R, M>, Plan<R, M>>,
}

/// The end that takes. Contracts see in it the notes taken, the tail that it saw last, and how often it loaded the tail and found no note.
#[derive(Drop)]
pub struct Reader<R: CoeffRing, M: Monomial> {
    pub(crate) end: End<Note<R, M>, Plan<R, M>>,
}

// the place after this one, where the places go round
pub(crate) fn next_slot(slot: u64, places: u64, number: u64) -> u64
    requires slot { (0 < places) × (slot ≡ number % places) }
    requires number { number + 1 < 2 ^ 64 }
    ensures { result ≡ (number + 1) % places }
{
    let _ = number;
    if slot + 1 == places { 0 } else { slot + 1 }
}

fn is_send<T: Send>() {}

fn is_shared<T: Send + Sync>() {}

// a ring is shared by two threads, each with one of its ends
fn ring_is_shared<R: CoeffRing, M: Monomial>() {
    is_shared::<Ring<R, M>>();
    is_send::<Writer<R, M>>();
    is_send::<Reader<R, M>>();
}
