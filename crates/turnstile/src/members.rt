//! Workers that each have a pass while they work around one value.
ghost use Rattle.std.specs.Prelude.{◌≡◌, ◌≤◌, All, length, vec_len, vec_capacity};
ghost use Rattle.turnstile.specs.Turns.{Stays};
ghost use Rattle.turnstile.specs.Passes.{made_with, passes_out, IsPassOf, IsOutside, HasPass, SameTeam};

use crate::named::Named;
use crate::turn::{Pass, Turnstile};

/// A worker, and its pass while it works around a value.
#[derive(Drop)]
pub struct Member<W, T> {
    pub worker: W,
    pub pass: Option<Pass<T>>,
}

/// Gives each member a new pass, in place of the one that it had. It allocates nothing.
pub fn hand_out<T: Named, W>(turnstile: &mut Turnstile<T>, members: &mut [Member<W, T>])
    requires { passes_out turnstile.old ≡ 0 }
    ensures made { made_with turnstile.new ≡ made_with turnstile.old }
    ensures out { passes_out turnstile.new ≡ length members.old }
    ensures workers { SameTeam members.old members.new }
    ensures have { All (λ m. HasPass turnstile.new m.pass) members.new }
{
    for member in 0..members.len() {
        let pass = turnstile.pass();
        members[member].pass = Some(pass);
    }
}

// the passes of all members
fn collect<T: Named, W>(
    turnstile: &Turnstile<T>,
    members: &mut [Member<W, T>],
    passes: &mut Vec<Pass<T>>,
)
    requires room { (vec_len passes.old ≡ 0) × (length members.old ≤ vec_capacity passes.old) }
    requires have { All (λ m. HasPass turnstile.now m.pass) members.old }
    ensures count { vec_len passes.new ≡ length members.old }
    ensures each { All (λ p. IsPassOf turnstile.now p × IsOutside p) passes.new.items }
    ensures workers { SameTeam members.old members.new }
{
    for member in 0..members.len() {
        let Some(pass) = members[member].pass.take() else {
            unreachable!()
        };
        passes.push_reserved(pass);
    }
}

/// The value, where the members have all passes. These are laid into the empty vector, which has room for them; it allocates nothing.
pub fn take_back<T: Named, W>(
    turnstile: Turnstile<T>,
    members: &mut [Member<W, T>],
    passes: Vec<Pass<T>>,
) -> T
    requires all { length members.old ≡ passes_out turnstile }
    requires have { All (λ m. HasPass turnstile m.pass) members.old }
    requires room { (vec_len passes ≡ 0) × (length members.old ≤ vec_capacity passes) }
    ensures value { Stays T.name T.reached T.follows T.whole (made_with turnstile) result }
    ensures workers { SameTeam members.old members.new }
{
    let mut passes = passes;
    collect(&turnstile, members, &mut passes);
    turnstile.into_value(passes)
}
