//! How a dividing worker waits, for room in its ring or for news of the row.

ghost use Rattle.std.specs.Prelude.{◌≡◌, ◌+◌, ◌<◌, ◌≤◌, map, length, IfOk, IfErr, IsTrue};
ghost use Rattle.turnstile.specs.Passes.{made_with, IsPassOf, IsOutside, entries, busy, patience};
ghost use Rattle.term_ring.specs.Names.{ring_name};
ghost use Rattle.term_ring.specs.Sending.{IsRefused};
ghost use Rattle.divide_merge.specs.Names.{row_identity};
ghost use Rattle.divide_merge.specs.Reached.{divide_name};
ghost use Rattle.divide_workers.specs.Views.{sender_of};
ghost use Rattle.divide_workers.specs.Paying.{HasRows};
ghost use Rattle.divide_workers.specs.Working.{HasRoom};
ghost use Rattle.divide_workers.specs.Steps.{Works, Pushes};
ghost use Rattle.divide_workers.specs.Stops.{HasName, StaysRefused, StaysUntold, IsReceipt, TriesOnce, MayGiveUp};

use crate::ended::Ended;
use crate::sender::Sender;
use crate::shared::Shared;
use coeff_ring::CoeffRing;
use divide_merge::{DivideAdvanceOf, DivideAdvanced, DivideMerge};
use packed_monomial::Monomial;
use step_count::Steps;
use term_ring::Ring;
use turnstile::{MOST_TURNS, PATIENCE, Pass, Patience, rest};

// Where another worker has ended its call, what this one waits for may need a note of that one: it waits for no more turns than these.
const LAST_TURNS: u64 = 16;

/// Waits in turns until a push goes through, or gives up with the receipt of the last advance.
pub(crate) fn wait_for_room<R: CoeffRing, M: Monomial>(
    shared: &Shared<'_, R, M>,
    ring: &Ring<R, M>,
    sender: &mut Sender<'_, R, M>,
    pass: &mut Pass<DivideMerge<R, M>>,
    bound: &mut Patience,
    steps: &mut Steps,
) -> Result<(), Option<DivideAdvanced<R, M>>>
    requires pass { IsPassOf shared.now.turnstile.now pass.old × IsOutside pass.old }
    requires name { HasName (made_with shared.now.turnstile.now) (map ring_name shared.now.rings.now) (row_identity shared.now.row.now) }
    requires ring { ring_name ring.now ≡ sender.old.ring }
    requires refused { IsRefused (sender_of sender.old) }
    ensures pass { IsPassOf shared.now.turnstile.now pass.new × IsOutside pass.new }
    ensures entries { entries pass.old ≤ entries pass.new }
    ensures busy { busy pass.old ≤ busy pass.new }
    ensures works { Works sender.old sender.new }
    ensures sent { IfOk result (λ _. Pushes sender.old sender.new) }
    ensures refused { IfErr result (λ _. StaysRefused sender.old sender.new) }
    ensures receipt { IfErr result (λ r. IsReceipt (divide_name (made_with shared.now.turnstile.now)) patience pass.old pass.new r) }
{
    sender.whole();
    let mut receipt = None;
    for turn in 0..MOST_TURNS {
        advance_merge(shared, pass, &mut receipt, steps);
        if let Ok(()) = sender.push(ring, steps) {
            if turn > 0 {
                bound.helped();
            }
            return Ok(());
        }
        if is_enough(turn + 1, bound, shared.ended, &receipt) {
            bound.in_vain();
            return Err(receipt);
        }
        rest(turn);
    }
    Err(receipt)
}

/// Waits in turns until a look finds a note, or gives up with the receipt of the last advance.
pub(crate) fn wait_for_news<R: CoeffRing, M: Monomial>(
    shared: &Shared<'_, R, M>,
    sender: &mut Sender<'_, R, M>,
    pass: &mut Pass<DivideMerge<R, M>>,
    bound: &mut Patience,
    steps: &mut Steps,
) -> Result<(), Option<DivideAdvanced<R, M>>>
    requires pass { IsPassOf shared.now.turnstile.now pass.old × IsOutside pass.old }
    requires name { HasName (made_with shared.now.turnstile.now) (map ring_name shared.now.rings.now) (row_identity shared.now.row.now) }
    requires row { sender.old.row ≡ row_identity shared.now.row.now }
    requires rows { HasRows sender.old.state }
    requires room { HasRoom sender.old }
    requires untold { sender.old.count ≡ length sender.old.notes }
    ensures pass { IsPassOf shared.now.turnstile.now pass.new × IsOutside pass.new }
    ensures entries { entries pass.old ≤ entries pass.new }
    ensures busy { busy pass.old ≤ busy pass.new }
    ensures works { Works sender.old sender.new }
    ensures sender { sender_of sender.new ≡ sender_of sender.old }
    ensures news { IfOk result (λ _. length sender.old.notes < length sender.new.notes) }
    ensures places { IfOk result (λ _. length sender.new.notes ≤ sender.old.row.places) }
    ensures kept { IfOk result (λ _. sender.new.state.kept ≡ sender.old.state.kept) }
    ensures untold { IfErr result (λ _. StaysUntold sender.old sender.new) }
    ensures receipt { IfErr result (λ r. IsReceipt (divide_name (made_with shared.now.turnstile.now)) patience pass.old pass.new r) }
{
    sender.whole();
    let mut receipt = None;
    for turn in 0..MOST_TURNS {
        advance_merge(shared, pass, &mut receipt, steps);
        if sender.look(shared.row, steps) {
            if turn > 0 {
                bound.helped();
            }
            return Ok(());
        }
        if is_enough(turn + 1, bound, shared.ended, &receipt) {
            bound.in_vain();
            return Err(receipt);
        }
        rest(turn);
    }
    Err(receipt)
}

// Whether a worker that waited so many turns gives up: where the merge can do no more in this round, or where its patience is over, but with no receipt not before so many tries as `PATIENCE`.
fn is_enough<R: CoeffRing, M: Monomial>(
    turns: u64,
    bound: &Patience,
    ended: &Ended,
    receipt: &Option<DivideAdvanced<R, M>>,
) -> bool
    ensures { IsTrue result → MayGiveUp turns receipt.now }
{
    let is_over = bound.is_over(turns) || (turns >= LAST_TURNS && ended.is_told());
    match receipt {
        Some(last) => is_over || !matches!(last.answer(), DivideAdvanceOf::Blocked(_)),
        None => is_over && turns >= PATIENCE,
    }
}

// Tries the turnstile once, and where it is let in advances the merge once, and keeps the receipt.
fn advance_merge<R: CoeffRing, M: Monomial>(
    shared: &Shared<'_, R, M>,
    pass: &mut Pass<DivideMerge<R, M>>,
    receipt: &mut Option<DivideAdvanced<R, M>>,
    steps: &mut Steps,
)
    requires pass { IsPassOf shared.now.turnstile.now pass.old × IsOutside pass.old }
    requires name { HasName (made_with shared.now.turnstile.now) (map ring_name shared.now.rings.now) (row_identity shared.now.row.now) }
    ensures pass { IsPassOf shared.now.turnstile.now pass.new × IsOutside pass.new }
    ensures entries { entries pass.old ≤ entries pass.new }
    ensures busy { busy pass.old ≤ busy pass.new }
    ensures receipt { TriesOnce (divide_name (made_with shared.now.turnstile.now)) pass.old pass.new receipt.old receipt.new }
{
    if let Ok(mut merge) = shared.turnstile.try_enter(pass) {
        let last = merge.advance(shared.rings, shared.row, steps);
        merge.whole();
        shared.turnstile.leave(pass, merge);
        *receipt = Some(last);
    }
}
