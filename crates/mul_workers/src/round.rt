//! A round: the workers advance beside each other, and then the merge.
ghost use Rattle.std.specs.Prelude.{◌≡◌, ◌<◌, ℕ, All, map, IfOk};
ghost use Rattle.turnstile.specs.Passes.{made_with, HasPass};
ghost use Rattle.term_ring.specs.Names.{NoneBelow, notes_count, ring_name};
ghost use Rattle.global_heap.specs.Merges.{IsSound};
ghost use Rattle.global_heap.specs.Reached.{merge_reached};
ghost use Rattle.term_ring.specs.Sending.{IsAmong};
ghost use Rattle.mul_workers.specs.Rounds.{AreMembers, IsTeam, Moves, AllMove, AllMeet, HaveMet, IsSettledBy, IsRound};

use crate::part::{Worker, advance};
use coeff_ring::CoeffRing;
use global_heap::{Advanced, Merge};
use packed_monomial::Monomial;
use sdmp_laws::NoMemory;
use std::alloc::Global;
use std::thread;
use std::thread::Threads;
use step_count::Steps;
use term_ring::Ring;
use turnstile::{Gate, Turnstile, hand_out, take_back};

// each worker advances once, in so many threads at most
fn advance_all<T: Threads + Sync, R: CoeffRing, M: Monomial, G: Gate>(
    threads: &T,
    rings: &[Ring<R, M>],
    turnstile: &Turnstile<Merge<R, M>>,
    workers: &mut [Worker<'_, R, M>],
    most: usize,
    gate: &G,
)
    requires rings { (made_with turnstile.now).rings ≡ map ring_name rings.now }
    requires have { All (λ w. HasPass turnstile.now w.pass × IsAmong (map ring_name rings.now) w.worker.sender) workers.old }
    ensures have { All (λ w. HasPass turnstile.now w.pass) workers.new }
    ensures moves { AllMove (map (λ w. w.worker.sender) workers.old) (map (λ w. w.worker.sender) workers.new) }
{
    let count = workers.len();
    if count > 0 {
        let each = |_: usize, worker: &mut Worker<'_, R, M>|
            requires { HasPass turnstile.now worker.now.pass × ((made_with turnstile.now).rings ≡ map ring_name rings.now) × IsAmong (map ring_name rings.now) worker.now.worker.sender }
            ensures { HasPass turnstile.entry.now worker.exit.now.pass × Moves worker.entry.now.worker.sender worker.exit.now.worker.sender }
        {
            advance(worker, rings, turnstile, gate);
        };
        thread::for_each_mut(threads, workers, most.max(1), &each);
    }
}

// each worker and the merge meet
fn meet_all<R: CoeffRing, M: Monomial>(
    rings: &[Ring<R, M>],
    workers: &mut [Worker<'_, R, M>],
    merge: &mut Merge<R, M>,
)
    requires rings { merge.old.rings ≡ map ring_name rings.now }
    requires members { AreMembers merge.old.rings (map (λ w. w.worker.sender) workers.old) }
    ensures state { merge.new.state ≡ merge.old.state }
    ensures rings { merge.new.rings ≡ merge.old.rings }
    ensures spare { merge.new.spare ≡ merge.old.spare }
    ensures tails { NoneBelow merge.old.tails merge.new.tails }
    ensures meet { AllMeet merge.new (map (λ w. w.worker.sender) workers.old) (map (λ w. w.worker.sender) workers.new) }
{
    for worker in 0..workers.len() {
        workers[worker].worker.meet(rings, merge);
    }
}

// the merge after each worker has advanced around it, in so many threads at most
fn around<T: Threads + Sync, R: CoeffRing, M: Monomial, G: Gate>(
    threads: &T,
    alloc: Global,
    merge: Merge<R, M>,
    rings: &[Ring<R, M>],
    workers: &mut [Worker<'_, R, M>],
    most: usize,
    gate: &G,
) -> Result<Merge<R, M>, NoMemory>
    requires rings { merge.rings ≡ map ring_name rings.now }
    requires members { AreMembers merge.rings (map (λ w. w.worker.sender) workers.old) }
    ensures rings { IfOk result (λ m. m.rings ≡ merge.rings) }
    ensures reached { IfOk result (λ m. NoneBelow (merge_reached merge) (merge_reached m)) }
    ensures moves { IfOk result (λ _. AllMove (map (λ w. w.worker.sender) workers.old) (map (λ w. w.worker.sender) workers.new)) }
{
    let Ok(passes) = Vec::with_capacity(alloc, workers.len()) else {
        return Err(NoMemory);
    };
    merge.whole();
    let Ok(mut turnstile) = Turnstile::new(alloc, merge) else {
        return Err(NoMemory);
    };
    hand_out(&mut turnstile, workers);
    advance_all(threads, rings, &turnstile, workers, most, gate);
    Ok(take_back(turnstile, workers, passes))
}

// the workers meet the merge, it advances, and they meet again
fn settle<R: CoeffRing, M: Monomial>(
    rings: &[Ring<R, M>],
    workers: &mut [Worker<'_, R, M>],
    merge: &mut Merge<R, M>,
) -> Advanced<R, M>
    requires rings { merge.old.rings ≡ map ring_name rings.now }
    requires members { AreMembers merge.old.rings (map (λ w. w.worker.sender) workers.old) }
    requires room { 0 < merge.old.spare }
    ensures sound { IsSound M.LIM merge.new }
    ensures rings { merge.new.rings ≡ merge.old.rings }
    ensures reached { NoneBelow (merge_reached merge.old) (merge_reached merge.new) }
    ensures team { IsTeam merge.new (map (λ w. w.worker.sender) workers.new) }
    ensures met { HaveMet merge.new (map (λ w. w.worker.sender) workers.new) }
    ensures settled { IsSettledBy merge.old (map (λ w. w.worker.sender) workers.old) merge.new result.answer }
    ensures receipt { (result.merge.value.state ≡ merge.new.state) × (result.notes ≡ notes_count merge.new.state.taken) }
{
    merge.whole();
    meet_all(rings, workers, merge);
    let last = merge.advance(rings, &mut Steps::new());
    merge.whole();
    meet_all(rings, workers, merge);
    merge.whole();
    last
}

/// One round: each worker advances once around the merge, in at most `most` threads; then the merge advances once, between two meetings with all workers. A round that does not end with the merge done takes notes. The one refusal is want of memory.
pub(crate) fn round<T: Threads + Sync, R: CoeffRing, M: Monomial, G: Gate>(
    threads: &T,
    alloc: Global,
    merge: Merge<R, M>,
    rings: &[Ring<R, M>],
    workers: &mut [Worker<'_, R, M>],
    most: usize,
    gate: &G,
) -> Result<(Merge<R, M>, Advanced<R, M>), NoMemory>
    requires rings { merge.rings ≡ map ring_name rings.now }
    requires team { IsTeam merge (map (λ w. w.worker.sender) workers.old) }
    ensures sound { IfOk result (λ r. IsSound M.LIM r.0) }
    ensures rings { IfOk result (λ r. r.0.rings ≡ merge.rings) }
    ensures team { IfOk result (λ r. IsTeam r.0 (map (λ w. w.worker.sender) workers.new)) }
    ensures met { IfOk result (λ r. HaveMet r.0 (map (λ w. w.worker.sender) workers.new)) }
    ensures round { IfOk result (λ r. IsRound merge r.0 r.1.answer) }
    ensures receipt { IfOk result (λ r. (r.1.merge.value.state ≡ r.0.state) × (r.1.notes ≡ notes_count r.0.state.taken)) }
{
    let mut merge = around(threads, alloc, merge, rings, workers, most, gate)?;
    merge.reserve(1)?;
    let last = settle(rings, workers, &mut merge);
    Ok((merge, last))
}
