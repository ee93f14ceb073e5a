//! The rule of the table, and what each kind of step on it tells.
ghost use Rattle.quotient_row.specs.Spelling.{words_of};
ghost use Rattle.quotient_row.specs.Legal.{Fits, Legal};
ghost use Rattle.quotient_row.specs.Rule.{IsRow};
ghost use Rattle.quotient_row.specs.Steps.{first, spent, fresh, copied, Puts, Checks, LooksAtCount, Learns};
ghost use Rattle.term_ring.specs.Views.{told, Peeks, Sends};

use crate::kind::Kind;
use crate::name::Name;
use crate::note::RowNote;
use atomic_table::{Join, Play, Split, TableRule};
use coeff_ring::CoeffRing;
use packed_monomial::Monomial;
use std::marker::PhantomData;
use std::snapshot::Snapshot;
use term_ring::View;

/// What a seat of a row's table knows.
pub(crate) type RowView<R, M> = View<Kind, RowNote<R, M>, Name<R, M>>;

/// What the table is told when it is made.
#[derive(Drop)]
pub struct Key<R: CoeffRing, M: Monomial> {
    pub name: Snapshot<Name<R, M>>,
    pub places: u64,
}

/// The rule: the count is the number published, and the published notes stand in their places.
pub struct RowRule<R, M> {
    marker: PhantomData<(R, M)>,
}

impl<R: CoeffRing, M: Monomial> TableRule<(), RowView<R, M>, Key<R, M>> for RowRule<R, M> {
    ghost holds = { λ key. IsRow (words_of M.words R.words) (Fits R.belongs) (Legal M.vector R.value) key.name.value key.places };

    ghost first = { λ key. first key.name.value key.places };
}

/// A store of a word of the next note.
pub(crate) struct Put;

impl<N, C> Play<(), View<Kind, N, C>> for Put {
    ghost then = { Puts };
}

/// A store of the count: the note is published.
pub(crate) struct Publish<R, M> {
    marker: PhantomData<(R, M)>,
}

impl<R: CoeffRing, M: Monomial> Play<(), RowView<R, M>> for Publish<R, M> {
    ghost then = { Sends (words_of M.words R.words) (Fits R.belongs) };
}

/// A load of the count by the writer, which changes nothing of its view.
pub(crate) struct Check;

impl<N, C> Play<(), View<Kind, N, C>> for Check {
    ghost then = { Checks };
}

/// A load of the count by a reader.
pub(crate) struct LookAtCount;

impl<N, C> Play<(), View<Kind, N, C>> for LookAtCount {
    ghost then = { LooksAtCount };
}

/// A load of one of the first four words of the next note.
pub(crate) struct Peek;

impl<N, C> Play<(), View<Kind, N, C>> for Peek {
    ghost then = { Peeks };
}

/// A load of the fifth word: the note is known.
pub(crate) struct Learn<R, M> {
    marker: PhantomData<(R, M)>,
}

impl<R: CoeffRing, M: Monomial> Play<(), RowView<R, M>> for Learn<R, M> {
    ghost then = { Learns (words_of M.words R.words) (Fits R.belongs) (Legal M.vector R.value) };
}

/// A split of the writer's seat: a new reader, which knows nothing.
pub(crate) struct NewReader;

impl<N, C> Split<View<Kind, N, C>> for NewReader {
    ghost left = { λ v. v };

    ghost right = { fresh };
}

/// A split of an end's seat: the new one has a copy of what it published or knows.
pub(crate) struct Copy;

impl<N, C> Split<View<Kind, N, C>> for Copy {
    ghost left = { λ v. v };

    ghost right = { copied };
}

/// A join of a copy into the other end's seat, which is told of its list.
pub(crate) struct Tell;

impl<N, C> Join<View<Kind, N, C>> for Tell {
    ghost both = { told };

    ghost spent = { spent };
}
