//! The turnstile's own seat, in a type that threads may share.
ghost use Rattle.std.specs.Prelude.{◌≡◌};
ghost use base.Fml.{ftrue};

use atomic_table::Seat;
use std::marker::Model;

/// The first seat of a turnstile's table. A reference to it reads nothing and makes no step, so it may be shared.
pub struct Own<S, V> {
    pub(crate) seat: Seat<S, V>,
}

impl<S, V> Model for Own<S, V> {
    ghost also_owns = { λ _. ftrue };
}

impl<S, V> Own<S, V> {
    pub(crate) fn new(seat: Seat<S, V>) -> Own<S, V>
        ensures { result.seat ≡ seat }
    {
        Own { seat }
    }

    pub(crate) fn into_seat(self) -> Seat<S, V>
        ensures { result ≡ self.seat }
    {
        let Own { seat } = self;
        seat
    }
}

impl<S, V> Drop for Own<S, V> {
    fn drop(self) {
        drop(self.into_seat());
    }
}

unsafe impl<S: Send, V> Send for Own<S, V> {}

unsafe impl<S: Send, V> Sync for Own<S, V> {}
