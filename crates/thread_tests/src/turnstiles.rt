//! One pass at a time takes out the value of a turnstile, and a worker's patience grows where it helped.
ghost use Rattle.std.specs.Prelude.{ℕ, ◌≡◌, ◌<◌, ◌≤◌, length, vec_len, vec_capacity};
ghost use Rattle.std.proofs.Common.{le_refl};
ghost use Rattle.turnstile.specs.Passes.{passes_out, HasPass};

use std::test::Fail;
use turnstile::{
    Busy, Member, Named, PATIENCE, Pass, Patience, Turnstile, hand_out, rest, take_back,
};

#[derive(Drop)]
struct Counter {
    of: u8,
    count: u64,
}

impl Named for Counter {
    ghost naming = { ℕ };

    ghost reaching = { ℕ };

    ghost name = { λ c. c.of };

    ghost reached = { λ c. c.count };

    ghost follows = { λ a b. a ≤ b };

    ghost whole = { λ c. 0 < c.count };

    ghost follows_itself = { λ r. le_refl r };
}

#[test]
fn one_pass_at_a_time(rt: HostRuntime) -> Result<(), Fail> {
    let Ok(mut turnstile) = Turnstile::new(rt.alloc(), Counter { of: 7, count: 1 }) else {
        panic!(rt; "no memory")
    };
    let mut first = turnstile.pass();
    let mut second = turnstile.pass();
    let Ok(mut value) = turnstile.try_enter(&mut first) else {
        panic!(rt; "it was free")
    };
    let held = turnstile.try_enter(&mut second);
    let Err(Busy) = held else {
        panic!(rt; "it was held")
    };
    let held = turnstile.enter_within(&mut second, 2);
    let None = held else {
        panic!(rt; "it was held")
    };
    value.count = value.count.saturating_add(1);
    turnstile.leave(&mut first, value);
    let Some(value) = turnstile.enter_within(&mut second, PATIENCE) else {
        panic!(rt; "it was free again")
    };
    assert!(rt; value.of == 7 && value.count == 2);
    turnstile.leave(&mut second, value);
    let mut passes = Vec::with_capacity(rt.alloc(), 2)?;
    passes.push_reserved(first);
    passes.push_reserved(second);
    let value = turnstile.into_value(passes);
    assert!(rt; value.of == 7 && value.count == 2);
    Ok(())
}

// the member comes in and counts one more, unless the turnstile is held
fn count_one(turnstile: &Turnstile<Counter>, member: &mut Member<u8, Counter>)
    requires { HasPass turnstile.now member.old.pass }
    ensures { HasPass turnstile.now member.new.pass }
{
    let Some(pass) = &mut member.pass else {
        unreachable!()
    };
    let Ok(mut value) = turnstile.try_enter(pass) else {
        return;
    };
    value.count = value.count.saturating_add(1);
    turnstile.leave(pass, value);
}

// the value after each member has come in
fn round(
    turnstile: Turnstile<Counter>,
    members: &mut [Member<u8, Counter>],
    passes: Vec<Pass<Counter>>,
) -> Counter
    requires none { passes_out turnstile ≡ 0 }
    requires room { (vec_len passes ≡ 0) × (length members.old ≤ vec_capacity passes) }
{
    let mut turnstile = turnstile;
    hand_out(&mut turnstile, members);
    for i in 0..members.len() {
        count_one(&turnstile, &mut members[i]);
    }
    take_back(turnstile, members, passes)
}

#[test]
fn members_have_passes_for_a_round(rt: HostRuntime) -> Result<(), Fail> {
    let Ok(turnstile) = Turnstile::new(rt.alloc(), Counter { of: 7, count: 1 }) else {
        panic!(rt; "no memory")
    };
    let mut members = Vec::new(rt.alloc());
    for worker in 0..3u8 {
        members.push(Member { worker, pass: None })?;
    }
    let passes = Vec::with_capacity(rt.alloc(), members.len())?;
    let value = round(turnstile, members.as_mut_slice(), passes);
    assert!(rt; value.of == 7 && value.count == 4);
    let mut count = 0u8;
    for member in &members {
        assert!(rt; member.worker == count && member.pass.is_none());
        count = count.saturating_add(1);
    }
    assert_eq!(rt; count, 3);
    Ok(())
}

#[test]
fn waits_longer_where_it_helped(rt: HostRuntime) {
    let mut patience = Patience::new(100);
    assert!(rt; patience.is_over(64) && !patience.is_over(63));
    rest(0);
    patience.helped();
    assert!(rt; patience.is_over(100) && !patience.is_over(99));
    rest(1);
    patience.in_vain();
    assert!(rt; patience.is_over(50) && !patience.is_over(49));
}
