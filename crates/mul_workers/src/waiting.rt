//! How a worker waits whose ring is full.
ghost use Rattle.std.specs.Prelude.{◌≡◌, ◌+◌, ◌<◌, ◌≤◌, map, length, IfOk, IfErr, IsTrue};
ghost use Rattle.whole_laws.specs.Notes.{NoEnd, Carry, script_list};
ghost use Rattle.turnstile.specs.Passes.{made_with, IsPassOf, IsOutside, entries, busy, patience};
ghost use Rattle.term_ring.specs.Names.{ring_name};
ghost use Rattle.term_ring.specs.Sending.{Sends, IsRefused};
ghost use Rattle.mul_workers.specs.Workers.{IsReceipt, TriesOnce, MayGiveUp};

use crate::sender::Sender;
use coeff_ring::CoeffRing;
use global_heap::{Advance, Advanced, Merge};
use packed_monomial::Monomial;
use step_count::Steps;
use term_ring::Ring;
use turnstile::{MOST_TURNS, PATIENCE, Pass, Patience, Turnstile, rest};

// With fewer places nearly every note is handed over by a yield, which beside other work gives a whole slice of the processor away.
const FEW_PLACES: u32 = 64;

/// The patience of a worker whose ring has so many places: where these are few it waits for one turn.
pub(crate) fn patience_for(places: u32) -> Patience {
    if places < FEW_PLACES {
        Patience::new(1)
    } else {
        Patience::new(MOST_TURNS)
    }
}

/// Waits in turns until a push goes through, or gives up with the receipt of the last advance.
pub(crate) fn wait<R: CoeffRing, M: Monomial>(
    ring: &Ring<R, M>,
    rings: &[Ring<R, M>],
    turnstile: &Turnstile<Merge<R, M>>,
    sender: &mut Sender<'_, R, M>,
    pass: &mut Pass<Merge<R, M>>,
    bound: &mut Patience,
    steps: &mut Steps,
) -> Result<(), Option<Advanced<R, M>>>
    requires pass { IsPassOf turnstile.now pass.old × IsOutside pass.old }
    requires rings { (made_with turnstile.now).rings ≡ map ring_name rings.now }
    requires ring { ring_name ring.now ≡ sender.old.ring }
    requires clear { NoEnd sender.old.sent }
    requires refused { IsRefused sender.old }
    requires carried { Carry sender.old.ring.script sender.old.sent }
    ensures pass { IsPassOf turnstile.now pass.new × IsOutside pass.new }
    ensures entries { entries pass.old ≤ entries pass.new }
    ensures busy { busy pass.old ≤ busy pass.new }
    ensures sends { Sends sender.old sender.new }
    ensures carried { Carry sender.new.ring.script sender.new.sent }
    ensures looks { sender.old.full_looks ≤ sender.new.full_looks }
    ensures more { IfOk result (λ _. length sender.new.sent ≡ length sender.old.sent + 1) }
    ensures within { IfOk result (λ _. length sender.new.sent ≤ length (script_list sender.new.ring.script) + 1) }
    ensures clear { IfErr result (λ _. NoEnd sender.new.sent) }
    ensures refused { IfErr result (λ _. IsRefused sender.new) }
    ensures receipt { IfErr result (λ r. IsReceipt (map ring_name rings.now) patience pass.old pass.new r) }
{
    let mut receipt = None;
    for turn in 0..MOST_TURNS {
        advance_merge(rings, turnstile, pass, &mut receipt, steps);
        if let Ok(()) = sender.push(ring, steps) {
            if turn > 0 {
                bound.helped();
            }
            return Ok(());
        }
        if is_enough(turn + 1, bound, &receipt) {
            bound.in_vain();
            return Err(receipt);
        }
        rest(turn);
    }
    Err(receipt)
}

// Whether a worker that waited so many turns gives up: where the merge has no room, or where its patience is over, but with no receipt not before so many tries as `PATIENCE`.
fn is_enough<R: CoeffRing, M: Monomial>(
    turns: u64,
    bound: &Patience,
    receipt: &Option<Advanced<R, M>>,
) -> bool
    ensures { IsTrue result → MayGiveUp turns receipt.now }
{
    match receipt {
        Some(last) => bound.is_over(turns) || matches!(last.answer(), Advance::OutFull),
        None => bound.is_over(turns) && turns >= PATIENCE,
    }
}

// Tries the turnstile once, and where it is let in advances the merge once, and keeps the receipt.
fn advance_merge<R: CoeffRing, M: Monomial>(
    rings: &[Ring<R, M>],
    turnstile: &Turnstile<Merge<R, M>>,
    pass: &mut Pass<Merge<R, M>>,
    receipt: &mut Option<Advanced<R, M>>,
    steps: &mut Steps,
)
    requires pass { IsPassOf turnstile.now pass.old × IsOutside pass.old }
    requires rings { (made_with turnstile.now).rings ≡ map ring_name rings.now }
    ensures pass { IsPassOf turnstile.now pass.new × IsOutside pass.new }
    ensures entries { entries pass.old ≤ entries pass.new }
    ensures busy { busy pass.old ≤ busy pass.new }
    ensures receipt { TriesOnce (map ring_name rings.now) pass.old pass.new receipt.old receipt.new }
{
    if let Ok(mut merge) = turnstile.try_enter(pass) {
        let last = merge.advance(rings, steps);
        merge.whole();
        turnstile.leave(pass, merge);
        *receipt = Some(last);
    }
}
