//! A row and its ends.
ghost use Rattle.std.specs.Prelude.{◌≡◌, ◌+◌, ◌*◌, ◌^◌, ◌<◌, ◌≤◌, [], length, Some};

use crate::kind::Kind;
use crate::name::Name;
use crate::note::RowNote;
use crate::steps::{Key, RowRule, RowView};
use atomic_table::{Seat, Table};
use coeff_ring::CoeffRing;
use packed_monomial::Monomial;
use std::alloc::Global;
use std::snapshot::Snapshot;
use term_ring::{Scalars, View};

/// As many notes are published as there are places.
#[derive(Debug, Drop, Clone, Copy, PartialEq, Eq)]
pub struct RowFull;

/// Each note that was published when the look loaded the count is known.
#[derive(Debug, Drop, Clone, Copy, PartialEq, Eq)]
pub struct Nothing;

/// The places of a row, shared by reference among its writer and its readers.
#[derive(Drop)]
pub struct Row<R: CoeffRing, M: Monomial> {
    pub(crate) table: Table<(), RowView<R, M>, Key<R, M>, RowRule<R, M>, Global>,
    pub(crate) scalars: Scalars<R>,
    ghost sized: { table.shared.table_id.words ≡ 1 + 5 * table.shared.key.places },
    ghost over: { scalars ≡ table.shared.key.name.value.division.p },
}

/// What an end keeps: its seat at the table, the row's name, and the number of its next note.
#[derive(Drop)]
pub struct End<N, C> {
    pub(crate) seat: Seat<(), View<Kind, N, C>>,
    pub(crate) name: Snapshot<C>,
    pub(crate) places: u64,
    pub(crate) number: u64,
    ghost held: { seat.me.1 ≡ [] },
    ghost named: { (seat.me.0.subject ≡ Some name.value) × (seat.me.0.places ≡ places) × (places < 2 ^ 32) },
    ghost counted: { (length seat.me.0.notes ≡ number) × (number ≤ places) },
    ghost between: { seat.me.0.words ≡ [] },
}

/// The end that publishes. Contracts see in it the notes published.
#[derive(Drop)]
pub struct RowWriter<R: CoeffRing, M: Monomial> {
    pub(crate) end: End<RowNote<R, M>, Name<R, M>>,
}

/// An end that looks. Contracts see in it the notes that it knows, the count that it saw last, and how often it loaded the count.
#[derive(Drop)]
pub struct RowReader<R: CoeffRing, M: Monomial> {
    pub(crate) end: End<RowNote<R, M>, Name<R, M>>,
}

fn is_send<T: Send>() {}

fn is_shared<T: Send + Sync>() {}

// a row is shared by threads that each hold an end
fn row_is_shared<R: CoeffRing, M: Monomial>() {
    is_shared::<Row<R, M>>();
    is_send::<RowWriter<R, M>>();
    is_send::<RowReader<R, M>>();
}
