//! The rule of the table, and what each kind of step on it tells.
ghost use Rattle.term_ring.specs.Spelling.{words_of};
ghost use Rattle.term_ring.specs.Carried.{Fits, Carries};
ghost use Rattle.term_ring.specs.Rule.{IsRing};
ghost use Rattle.term_ring.specs.Steps.{first, spent, writing, reading, copied, LooksAtHead, Puts, LooksAtTail, Takes};
ghost use Rattle.term_ring.specs.Views.{told, Peeks, Sends};

use crate::note::Note;
use crate::script::Plan;
use crate::view::{Kind, View};
use atomic_table::{Join, Play, Split, TableRule};
use coeff_ring::CoeffRing;
use packed_monomial::Monomial;
use std::marker::PhantomData;
use std::snapshot::Snapshot;

/// What a seat of a ring's table knows.
pub(crate) type RingView<R, M> = View<Kind, Note<R, M>, Plan<R, M>>;

/// What the table is told when it is made.
#[derive(Drop)]
pub struct Key<R: CoeffRing, M: Monomial> {
    pub script: Snapshot<Plan<R, M>>,
    pub places: u64,
}

/// The rule: the head is the number taken, the tail the number sent, and the notes between stand in their places.
pub struct RingRule<R, M> {
    marker: PhantomData<(R, M)>,
}

impl<R: CoeffRing, M: Monomial> TableRule<(), RingView<R, M>, Key<R, M>> for RingRule<R, M> {
    ghost holds = { λ key. IsRing (words_of M.words R.words) (Fits R.belongs) (Carries M.vector R.value) key.script.value key.places };

    ghost first = { λ key. first key.script.value key.places };
}

/// A load of the head by the writer.
pub(crate) struct LookAtHead;

impl<N, C> Play<(), View<Kind, N, C>> for LookAtHead {
    ghost then = { LooksAtHead };
}

/// A store over the word that the writer loaded last.
pub(crate) struct Put;

impl<N, C> Play<(), View<Kind, N, C>> for Put {
    ghost then = { Puts };
}

/// A store of the tail: the note is sent.
pub(crate) struct Send<R, M> {
    marker: PhantomData<(R, M)>,
}

impl<R: CoeffRing, M: Monomial> Play<(), RingView<R, M>> for Send<R, M> {
    ghost then = { Sends (words_of M.words R.words) (Fits R.belongs) };
}

/// A load of the tail by the reader.
pub(crate) struct LookAtTail;

impl<N, C> Play<(), View<Kind, N, C>> for LookAtTail {
    ghost then = { LooksAtTail };
}

/// A load of a word of the next place, by either end.
pub(crate) struct Peek;

impl<N, C> Play<(), View<Kind, N, C>> for Peek {
    ghost then = { Peeks };
}

/// A store of the head: the note is taken.
pub(crate) struct Take<R, M> {
    marker: PhantomData<(R, M)>,
}

impl<R: CoeffRing, M: Monomial> Play<(), RingView<R, M>> for Take<R, M> {
    ghost then = { Takes (words_of M.words R.words) (Fits R.belongs) (Carries M.vector R.value) };
}

/// A split of the table's first seat: it becomes the writer's, and the new one is the reader's.
pub(crate) struct Part;

impl<N, C> Split<View<Kind, N, C>> for Part {
    ghost left = { writing };

    ghost right = { reading };
}

/// A split of an end's seat: the new one has a copy of what it sent or took.
pub(crate) struct Copy;

impl<N, C> Split<View<Kind, N, C>> for Copy {
    ghost left = { λ v. v };

    ghost right = { copied };
}

/// A join of a copy into the other end's seat, which is told of its list.
pub(crate) struct Tell;

impl<N, C> Join<View<Kind, N, C>> for Tell {
    ghost both = { told };

    ghost spent = { spent };
}
