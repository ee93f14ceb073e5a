//! A round: the workers advance beside each other, and then the merge.

ghost use Rattle.std.specs.Prelude.{◌≡◌, ◌<◌, ℕ, All, map, length, IfOk};
ghost use Rattle.turnstile.specs.Passes.{made_with, HasPass};
ghost use Rattle.term_ring.specs.Names.{NoneBelow, ring_name};
ghost use Rattle.term_ring.specs.Sending.{IsAmong};
ghost use Rattle.divide_merge.specs.Names.{row_identity};
ghost use Rattle.divide_merge.specs.Merges.{IsSound, verdict_of};
ghost use Rattle.divide_merge.specs.Reached.{divide_reached, Follows};
ghost use Rattle.divide_workers.specs.Views.{sender_of};
ghost use Rattle.divide_workers.specs.Working.{HasRoom};
ghost use Rattle.divide_workers.specs.Stops.{HasName};
ghost use Rattle.divide_workers.specs.Rounds.{AreMembers, AreWorkers, IsWorker, IsTeam, HasPlace, Moves, AllMove, AllMeet, Settles, IsRound};

use crate::ended::Ended;
use crate::part::{Worker, advance};
use crate::sender::Sender;
use crate::shared::Shared;
use coeff_ring::CoeffRing;
use divide_merge::{DivideAdvanced, DivideMerge};
use packed_monomial::Monomial;
use quotient_row::Row;
use sdmp_laws::NoMemory;
use std::alloc::Global;
use std::thread;
use std::thread::Threads;
use step_count::Steps;
use term_ring::Ring;
use turnstile::{Gate, Turnstile, hand_out, take_back};

// each worker advances once, in a thread of its own
fn advance_all<T: Threads + Sync, R: CoeffRing, M: Monomial, G: Gate>(
    threads: &T,
    shared: &Shared<'_, R, M>,
    workers: &mut [Worker<'_, R, M>],
    gate: &G,
)
    requires name { HasName (made_with shared.now.turnstile.now) (map ring_name shared.now.rings.now) (row_identity shared.now.row.now) }
    requires have { All (λ w. HasPass shared.now.turnstile.now w.pass × IsAmong (map ring_name shared.now.rings.now) (sender_of w.worker.sender) × (w.worker.sender.row ≡ row_identity shared.now.row.now) × HasRoom w.worker.sender) workers.old }
    ensures have { All (λ w. HasPass shared.now.turnstile.now w.pass) workers.new }
    ensures moves { AllMove (map (λ w. w.worker.sender) workers.old) (map (λ w. w.worker.sender) workers.new) }
{
    let count = workers.len();
    if count > 0 {
        let each = |_: usize, worker: &mut Worker<'_, R, M>|
            requires { HasPass shared.now.turnstile.now worker.now.pass × HasName (made_with shared.now.turnstile.now) (map ring_name shared.now.rings.now) (row_identity shared.now.row.now) × IsAmong (map ring_name shared.now.rings.now) (sender_of worker.now.worker.sender) × (worker.now.worker.sender.row ≡ row_identity shared.now.row.now) × HasRoom worker.now.worker.sender }
            ensures { HasPass shared.entry.now.turnstile.now worker.exit.now.pass × Moves worker.entry.now.worker.sender worker.exit.now.worker.sender }
        {
            advance(worker, shared, gate);
        };
        thread::for_each_mut(threads, workers, count, &each);
    }
}

// what always holds of a worker; the call does nothing
fn whole<R: CoeffRing, M: Monomial>(sender: &Sender<'_, R, M>)
    ensures { IsWorker M.LIM sender.now }
{
    let _place = sender.place;
}

// each worker and the merge meet
fn meet_all<R: CoeffRing, M: Monomial>(
    rings: &[Ring<R, M>],
    row: &Row<R, M>,
    workers: &mut [Worker<'_, R, M>],
    merge: &mut DivideMerge<R, M>,
)
    requires rings { merge.old.rings ≡ map ring_name rings.now }
    requires row { merge.old.row ≡ row_identity row.now }
    requires members { AreMembers merge.old.rings merge.old.row (map (λ w. w.worker.sender) workers.old) }
    ensures run { merge.new.run ≡ merge.old.run }
    ensures rings { merge.new.rings ≡ merge.old.rings }
    ensures row { merge.new.row ≡ merge.old.row }
    ensures spare { merge.new.spare ≡ merge.old.spare }
    ensures tails { NoneBelow merge.old.tails merge.new.tails }
    ensures meet { AllMeet merge.new (map (λ w. w.worker.sender) workers.old) (map (λ w. w.worker.sender) workers.new) }
    ensures workers { AreWorkers M.LIM (map (λ w. w.worker.sender) workers.new) }
{
    for worker in 0..workers.len() {
        let part = &mut workers[worker].worker;
        part.meet(rings, row, merge);
        whole(&part.sender);
    }
}

// the merge after each worker has advanced around it
fn around<T: Threads + Sync, R: CoeffRing, M: Monomial, G: Gate>(
    threads: &T,
    alloc: Global,
    merge: DivideMerge<R, M>,
    rings: &[Ring<R, M>],
    row: &Row<R, M>,
    workers: &mut [Worker<'_, R, M>],
    gate: &G,
) -> Result<DivideMerge<R, M>, NoMemory>
    requires rings { merge.rings ≡ map ring_name rings.now }
    requires row { merge.row ≡ row_identity row.now }
    requires team { IsTeam merge (map (λ w. w.worker.sender) workers.old) }
    ensures rings { IfOk result (λ m. m.rings ≡ merge.rings) }
    ensures row { IfOk result (λ m. m.row ≡ merge.row) }
    ensures reached { IfOk result (λ m. Follows (divide_reached merge) (divide_reached m)) }
    ensures moves { IfOk result (λ _. AllMove (map (λ w. w.worker.sender) workers.old) (map (λ w. w.worker.sender) workers.new)) }
{
    let Ok(passes) = Vec::with_capacity(alloc, workers.len()) else {
        return Err(NoMemory);
    };
    merge.whole();
    let Ok(mut turnstile) = Turnstile::new(alloc, merge) else {
        return Err(NoMemory);
    };
    hand_out(&mut turnstile, workers);
    let ended = Ended::new();
    let shared = Shared {
        rings,
        row,
        turnstile: &turnstile,
        ended: &ended,
    };
    advance_all(threads, &shared, workers, gate);
    Ok(take_back(turnstile, workers, passes))
}

// the workers meet the merge, it advances, and they meet again
fn settle<R: CoeffRing, M: Monomial>(
    rings: &[Ring<R, M>],
    row: &Row<R, M>,
    workers: &mut [Worker<'_, R, M>],
    merge: &mut DivideMerge<R, M>,
) -> DivideAdvanced<R, M>
    requires rings { merge.old.rings ≡ map ring_name rings.now }
    requires row { merge.old.row ≡ row_identity row.now }
    requires members { AreMembers merge.old.rings merge.old.row (map (λ w. w.worker.sender) workers.old) }
    ensures sound { IsSound M.LIM merge.new }
    ensures rings { merge.new.rings ≡ merge.old.rings }
    ensures row { merge.new.row ≡ merge.old.row }
    ensures settles { Settles M.LIM merge.old merge.new (map (λ w. w.worker.sender) workers.old) (map (λ w. w.worker.sender) workers.new) (verdict_of M.vector R.value result.answer) }
    ensures terms { result.terms ≡ length merge.new.run.state.q }
    ensures receipt { result.merge.value.run ≡ merge.new.run }
{
    meet_all(rings, row, workers, merge);
    let last = merge.advance(rings, row, &mut Steps::new());
    merge.whole();
    meet_all(rings, row, workers, merge);
    merge.whole();
    last
}

/// One round: each worker advances once around the merge; then the merge advances once, between two meetings with all workers. A round that does not end with the merge over raises its progress. The one refusal is want of memory.
pub(crate) fn round<T: Threads + Sync, R: CoeffRing, M: Monomial, G: Gate>(
    threads: &T,
    alloc: Global,
    merge: DivideMerge<R, M>,
    rings: &[Ring<R, M>],
    row: &Row<R, M>,
    workers: &mut [Worker<'_, R, M>],
    gate: &G,
) -> Result<(DivideMerge<R, M>, DivideAdvanced<R, M>), NoMemory>
    requires rings { merge.rings ≡ map ring_name rings.now }
    requires row { merge.row ≡ row_identity row.now }
    requires team { IsTeam merge (map (λ w. w.worker.sender) workers.old) }
    requires place { HasPlace merge }
    ensures rings { IfOk result (λ r. r.0.rings ≡ merge.rings) }
    ensures row { IfOk result (λ r. r.0.row ≡ merge.row) }
    ensures team { IfOk result (λ r. IsTeam r.0 (map (λ w. w.worker.sender) workers.new)) }
    ensures round { IfOk result (λ r. IsRound merge r.0 (verdict_of M.vector R.value r.1.answer)) }
    ensures terms { IfOk result (λ r. r.1.terms ≡ length r.0.run.state.q) }
    ensures receipt { IfOk result (λ r. r.1.merge.value.run ≡ r.0.run) }
{
    merge.whole();
    let mut merge = around(threads, alloc, merge, rings, row, workers, gate)?;
    merge.reserve(1)?;
    let last = settle(rings, row, workers, &mut merge);
    Ok((merge, last))
}
