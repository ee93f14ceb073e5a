//! The rule of the table, and what each kind of step on it tells.
ghost use Rattle.turnstile.specs.Turns.{Stays, Kept, owner, spent, gave, fresh, took_back, Tried, Left};

use crate::named::Named;
use crate::view::View;
use atomic_table::{Join, Play, Split, TableRule};
use std::marker::PhantomData;
use std::snapshot::Snapshot;

/// The rule: the flag is the number of passes inside, and while it is 0 the value is at home.
pub struct Turns<T> {
    marker: PhantomData<T>,
}

impl<T: Named> TableRule<Option<T>, View<T>, Snapshot<T>> for Turns<T> {
    ghost holds = { λ key. Kept (Stays T.name T.reached T.follows T.whole key.value) };

    ghost first = { λ key. owner key.value };
}

/// A compare and exchange of the flag, 0 to 1, by a pass: where it found 0, the value comes into its hands.
pub struct Enter<T> {
    marker: PhantomData<T>,
}

impl<T: Named> Play<Option<T>, View<T>> for Enter<T> {
    ghost then = { λ _ m n w. Tried (Stays T.name T.reached T.follows T.whole) m n w };
}

/// A store of 0 into the flag, by the pass that is inside: the slot is home again.
pub struct Leave;

impl<T> Play<Option<T>, View<T>> for Leave {
    ghost then = { λ _ m _ w. Left m w };
}

/// A split of the turnstile's own seat: a new pass.
pub struct Give;

impl<T> Split<View<T>> for Give {
    ghost left = { gave };

    ghost right = { fresh };
}

/// A join into the turnstile's own seat: a pass is given back.
pub struct Return;

impl<T> Join<View<T>> for Return {
    ghost both = { λ v _. took_back v };

    ghost spent = { spent };
}
