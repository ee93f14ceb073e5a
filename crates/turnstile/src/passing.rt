//! The way through a turnstile: in, out, and the value back at the end.
ghost use Rattle.std.specs.Prelude.{◌≡◌, ◌+◌, ◌<◌, ◌≤◌, IfOk, IfErr, IfSome, IfNone, All, vec_len, [], ◌∷◌, Some};
ghost use Rattle.turnstile.specs.Turns.{Stays};
ghost use Rattle.turnstile.specs.Passes.{made_with, passes_out, table_of, IsPassOf, IsOutside, IsInside, entries, busy};

use crate::named::Named;
use crate::own::Own;
use crate::steps::{Enter, Give, Leave, Return};
use crate::turn::{Busy, Pass, Refused, Turnstile};
use atomic_table::Table;
use std::alloc::Global;
use std::snapshot::Snapshot;
use std::thread;

/// How often at least a worker that finds the turnstile held each time tries it before it gives up.
pub const PATIENCE: u64 = 64;

impl<T: Named> Turnstile<T> {
    /// A turnstile with the value inside its slot and no passes. Its one refusal is want of memory, and it hands the value back.
    pub fn new(alloc: Global, value: T) -> Result<Turnstile<T>, Refused<T>>
        requires { T.whole value }
        ensures made { IfOk result (λ t. made_with t ≡ value) }
        ensures passes { IfOk result (λ t. passes_out t ≡ 0) }
        ensures refused { IfErr result (λ r. r.value ≡ value) }
    {
        let key = Snapshot::of(&value);
        let Ok(mut slots) = Vec::with_capacity(alloc, 1) else {
            return Err(Refused { value });
        };
        slots.push_reserved(Some(value));
        match Table::new(alloc, &[0], slots, &key) {
            Ok((table, seat)) => Ok(Turnstile {
                table,
                own: Some(Own::new(seat)),
            }),
            Err(refused) => Err(Refused {
                value: only(refused.slots),
            }),
        }
    }

    /// A new pass, outside. It allocates nothing.
    pub fn pass(&mut self) -> Pass<T>
        ensures made { made_with self.new ≡ made_with self.old }
        ensures table { table_of self.new ≡ table_of self.old }
        ensures passes { passes_out self.new ≡ passes_out self.old + 1 }
        ensures of { IsPassOf self.new result }
        ensures outside { IsOutside result }
        ensures entries { entries result ≡ 0 }
        ensures busy { busy result ≡ 0 }
    {
        let Some(own) = self.own.take() else {
            unreachable!()
        };
        let mut first = own.into_seat();
        let table = &self.table;
        let seat = table.shared.split_seat::<Give>(&mut first);
        self.own = Some(Own::new(first));
        Pass { seat }
    }

    /// Tries the flag once. Where it was free the value comes out and the pass is inside; `Busy` comes exactly where it was held. The pass counts which of the two it found.
    pub fn try_enter(&self, pass: &mut Pass<T>) -> Result<T, Busy>
        requires of { IsPassOf self.now pass.old }
        requires outside { IsOutside pass.old }
        ensures of { IsPassOf self.now pass.new }
        ensures value { IfOk result (λ v. Stays T.name T.reached T.follows T.whole (made_with self.now) v) }
        ensures inside { IfOk result (λ _. IsInside pass.new) }
        ensures entered { IfOk result (λ _. (entries pass.new ≡ entries pass.old + 1) × (busy pass.new ≡ busy pass.old)) }
        ensures outside { IfErr result (λ _. IsOutside pass.new) }
        ensures found_held { IfErr result (λ _. (entries pass.new ≡ entries pass.old) × (busy pass.new ≡ busy pass.old + 1)) }
    {
        let shared = &self.table.shared;
        let found = shared.compare_exchange::<Enter<T>>(&mut pass.seat, 0, 0, 1);
        if found != 0 {
            return Err(Busy);
        }
        Ok(shared.exchange(&mut pass.seat, 0, None).unwrap())
    }

    /// Tries the flag until it is free, at most so many times, and yields the thread after each try that found it held. `None` comes exactly where each try did.
    pub fn enter_within(&self, pass: &mut Pass<T>, tries: u64) -> Option<T>
        requires of { IsPassOf self.now pass.old }
        requires outside { IsOutside pass.old }
        ensures of { IsPassOf self.now pass.new }
        ensures value { IfSome result (λ v. Stays T.name T.reached T.follows T.whole (made_with self.now) v) }
        ensures inside { IfSome result (λ _. IsInside pass.new) }
        ensures entered { IfSome result (λ _. entries pass.new ≡ entries pass.old + 1) }
        ensures found_free { IfSome result (λ _. (busy pass.old ≤ busy pass.new) × (busy pass.new < busy pass.old + tries)) }
        ensures outside { IfNone result (IsOutside pass.new) }
        ensures stayed { IfNone result (entries pass.new ≡ entries pass.old) }
        ensures found_held { IfNone result (busy pass.new ≡ busy pass.old + tries) }
    {
        for _ in 0..tries {
            if let Ok(value) = self.try_enter(pass) {
                return Some(value);
            }
            thread::yield_now();
        }
        None
    }

    /// Puts a value back, and the pass is outside again.
    pub fn leave(&self, pass: &mut Pass<T>, value: T)
        requires of { IsPassOf self.now pass.old }
        requires inside { IsInside pass.old }
        requires value { Stays T.name T.reached T.follows T.whole (made_with self.now) value }
        ensures of { IsPassOf self.now pass.new }
        ensures outside { IsOutside pass.new }
        ensures entries { entries pass.new ≡ entries pass.old }
        ensures busy { busy pass.new ≡ busy pass.old }
    {
        let shared = &self.table.shared;
        let old = shared.exchange(&mut pass.seat, 0, Some(value));
        let None = old else { unreachable!() };
        shared.store::<Leave>(&mut pass.seat, 0, 0);
    }

    /// The value, where all passes come back and none is inside.
    pub fn into_value(self, passes: Vec<Pass<T>>) -> T
        requires all { vec_len passes ≡ passes_out self }
        requires each { All (λ p. IsPassOf self p × IsOutside p) passes.items }
        ensures { Stays T.name T.reached T.follows T.whole (made_with self) result }
    {
        let Turnstile { table, own } = self;
        let Some(own) = own else { unreachable!() };
        let mut first = own.into_seat();
        let mut rest = passes;
        while let Some(pass) = rest.pop() {
            let Pass { seat } = pass;
            table.shared.join_seat::<Return>(&mut first, seat);
        }
        let mut closed = table.close_with(first);
        let value = closed.take(0);
        closed.free();
        value.unwrap()
    }
}

// the value of the one slot
fn only<T>(mut slots: Vec<Option<T>>) -> T
    requires { (v : T) × (slots.items ≡ Some v ∷ []) }
    ensures { slots.items ≡ Some result ∷ [] }
{
    let Some(slot) = slots.pop() else {
        unreachable!()
    };
    slots.destroy_empty();
    slot.unwrap()
}
