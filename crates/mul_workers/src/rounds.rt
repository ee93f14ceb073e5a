//! The rounds of a product.
ghost use Rattle.std.specs.Prelude.{◌≡◌, ◌+◌, ◌≤◌, map, length, IfOk};
ghost use Rattle.whole_laws.specs.Wholes.{IsMergeDone};
ghost use Rattle.global_heap.specs.Names.{first_product, notes_total};
ghost use Rattle.global_heap.specs.Merges.{IsSound};
ghost use Rattle.term_ring.specs.Names.{ring_name};
ghost use Rattle.mul_workers.specs.Rounds.{IsTeam};

use crate::part::Worker;
use crate::round::round;
use coeff_ring::CoeffRing;
use global_heap::{Advance, Advanced, Merge};
use packed_monomial::Monomial;
use sdmp_laws::NoMemory;
use std::alloc::Global;
use std::thread::Threads;
use term_ring::Ring;
use turnstile::Gate;

/// A merge that is done, the receipt of its last advance, and the number of rounds.
#[derive(Drop)]
pub(crate) struct Finished<R: CoeffRing, M: Monomial> {
    pub(crate) merge: Merge<R, M>,
    pub(crate) last: Advanced<R, M>,
    pub(crate) rounds: u64,
}

/// Rounds until the merge is done, each of which begins with room for at least `room` terms. The workers advance in at most `most` threads.
pub(crate) fn finish<T: Threads + Sync, R: CoeffRing, M: Monomial, G: Gate>(
    threads: &T,
    alloc: Global,
    merge: Merge<R, M>,
    rings: &[Ring<R, M>],
    workers: &mut [Worker<'_, R, M>],
    room: usize,
    most: usize,
    gate: &G,
) -> Result<Finished<R, M>, NoMemory>
    requires rings { merge.rings ≡ map ring_name rings.now }
    requires team { IsTeam merge (map (λ w. w.worker.sender) workers.old) }
    ensures sound { IfOk result (λ e. IsSound M.LIM e.merge) }
    ensures done { IfOk result (λ e. IsMergeDone e.merge.state) }
    ensures rings { IfOk result (λ e. e.merge.rings ≡ merge.rings) }
    ensures answer { IfOk result (λ e. e.last.answer ≡ Advance.Done) }
    ensures receipt { IfOk result (λ e. e.last.merge.value.state ≡ e.merge.state) }
    ensures notes { IfOk result (λ e. e.last.notes ≡ notes_total (first_product merge.rings) (length merge.rings)) }
    ensures rounds { IfOk result (λ e. e.rounds ≤ 1 + notes_total (first_product merge.rings) (length merge.rings)) }
{
    merge.whole();
    let mut merge = merge;
    let mut rounds = 0u64;
    loop {
        merge.reserve(room)?;
        let (next, last) = round(threads, alloc, merge, rings, workers, most, gate)?;
        merge = next;
        rounds += 1;
        if let Advance::Done = last.answer() {
            return Ok(Finished {
                merge,
                last,
                rounds,
            });
        }
    }
}
