//! The turnstile and its passes.
ghost use Rattle.std.specs.Prelude.{◌≡◌, IsSome};
ghost use Rattle.std.specs.Option.{ForSome};
ghost use Rattle.turnstile.specs.Own.{IsOwn};

use crate::named::Named;
use crate::own::Own;
use crate::steps::Turns;
use crate::view::View;
use atomic_table::{Seat, Table};
use std::alloc::Global;
use std::snapshot::Snapshot;

/// The turnstile was held when its flag was tried.
#[derive(Clone, Copy, Debug, PartialEq, Eq, Drop)]
pub struct Busy;

/// There was no memory for a turnstile. The value comes back.
#[derive(Drop)]
pub struct Refused<T> {
    pub value: T,
}

/// A value that one pass at a time takes out and puts back, shared by reference among threads.
///
/// Whatever comes out has the name of the value with which the turnstile was made, follows it, and is whole (`Named`).
#[derive(Drop)]
pub struct Turnstile<T: Named> {
    pub(crate) table: Table<Option<T>, View<T>, Snapshot<T>, Turns<T>, Global>,
    pub(crate) own: Option<Own<Option<T>, View<T>>>,
    ghost sized: { (table.shared.table_id.words ≡ 1) × (table.shared.table_id.slots ≡ 1) },
    ghost has: { IsSome own },
    ghost owned: { ForSome own (λ o. IsOwn table.shared.table_id table.shared.key.value o) },
}

/// One worker's leave to try. It has no bytes; contracts see in it whether it is inside, how often it came in, and how many of its tries found the turnstile held.
#[derive(Drop)]
pub struct Pass<T> {
    pub(crate) seat: Seat<Option<T>, View<T>>,
}

fn is_send<T: Send>() {}

fn is_shared<T: Send + Sync>() {}

// a turnstile is shared by threads that each hold a pass
fn turnstile_is_shared<T: Named + Send>() {
    is_shared::<Turnstile<T>>();
    is_send::<Pass<T>>();
}
