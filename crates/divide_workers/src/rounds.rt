//! The rounds of a division.

ghost use Rattle.std.specs.Prelude.{◌≡◌, ◌+◌, ◌*◌, ◌^◌, ◌<◌, ◌≤◌, length, min, max, map, All, [], vec_len, IfOk, Some};
ghost use Rattle.division_laws.specs.Outcome.{division_of};
ghost use Rattle.term_ring.specs.Names.{ring_name};
ghost use Rattle.quotient_row.specs.Ends.{known};
ghost use Rattle.dividing_rounds.specs.Runs.{run_row};
ghost use Rattle.dividing_rounds.specs.Rounds.{progress};
ghost use Rattle.divide_merge.specs.Names.{IsLooking, row_identity, reader_row};
ghost use Rattle.divide_merge.specs.Merges.{verdict_of};
ghost use Rattle.divide_workers.specs.Paying.{HasRows};
ghost use Rattle.divide_workers.specs.Working.{IsWorking};
ghost use Rattle.divide_workers.specs.Rounds.{IsTeam, HasPlace, AllMakeRoom, AllCatchUp, next_of, rounds_bound};

use crate::part::Worker;
use crate::round::round;
use crate::team::Job;
use canonical_terms::Term;
use coeff_ring::CoeffRing;
use divide_merge::{DivideAdvanceOf, DivideAdvanced, DivideMerge};
use packed_monomial::Monomial;
use quotient_row::{Row, RowReader};
use sdmp_laws::NoMemory;
use std::alloc::Global;
use std::thread::Threads;
use term_ring::Ring;
use turnstile::Gate;

// no row has more places, unless the first has
const MOST_PLACES: u32 = 1 << 16;

/// A merge that is over, the receipt of its last advance, and the number of rounds.
#[derive(Drop)]
pub(crate) struct Finished<R: CoeffRing, M: Monomial> {
    pub(crate) merge: DivideMerge<R, M>,
    pub(crate) last: DivideAdvanced<R, M>,
    pub(crate) rounds: u64,
}

// how a round goes on
enum Next {
    Over,
    Row,
    Round,
}

fn next_after<R: CoeffRing, M: Monomial>(last: &DivideAdvanced<R, M>) -> Next
    ensures { result ≡ next_of (verdict_of M.vector R.value last.now.answer) }
{
    match last.answer() {
        DivideAdvanceOf::Finished => Next::Over,
        DivideAdvanceOf::NoQuotient { .. } => Next::Over,
        DivideAdvanceOf::PassedBound { .. } => Next::Over,
        DivideAdvanceOf::PassedTerms { .. } => Next::Over,
        DivideAdvanceOf::Blocked(_) => Next::Round,
        DivideAdvanceOf::RowFull => Next::Row,
        DivideAdvanceOf::OutFull => Next::Round,
    }
}

// twice the places of a row that was full, up to the most
fn more_places(places: u32) -> u32
    ensures { result ≡ max places (min (2 * places) (2 ^ 16)) }
{
    places.saturating_mul(2).min(MOST_PLACES).max(places)
}

// room for all terms of the quotient and so many more, of which the worker knows some
fn make_room<R: CoeffRing, M: Monomial>(
    workers: &mut [Worker<'_, R, M>],
    found: usize,
    places: u32,
) -> Result<(), NoMemory>
    requires few { found < 2 ^ 32 }
    ensures { IfOk result (λ _. AllMakeRoom found places (map (λ w. w.worker.sender) workers.old) (map (λ w. w.worker.sender) workers.new)) }
{
    for worker in 0..workers.len() {
        let part = &mut workers[worker].worker;
        let missing = found.saturating_sub(part.known() as usize);
        part.reserve(missing + places as usize)?;
    }
    Ok(())
}

// each worker goes on with a reader of the merge's new row
fn catch_up_all<R: CoeffRing, M: Monomial>(
    merge: &DivideMerge<R, M>,
    workers: &mut [Worker<'_, R, M>],
    readers: Vec<RowReader<R, M>>,
)
    requires new { merge.now.run.state.start ≡ length merge.now.run.state.q }
    requires readers { All (λ r. IsLooking r × (reader_row r ≡ merge.now.row) × (known r ≡ [])) readers.items }
    requires count { vec_len readers ≡ length workers.old }
    requires division { All (λ w. w.worker.sender.state.division ≡ merge.now.run.state.division) workers.old }
    requires room { All (λ w. HasRows w.worker.sender.state → length merge.now.run.state.q ≤ length w.worker.sender.state.known + w.worker.sender.spare) workers.old }
    ensures { AllCatchUp merge.now.row (length merge.now.run.state.q) merge.now.run.state.front (map (λ w. w.worker.sender) workers.old) (map (λ w. w.worker.sender) workers.new) }
{
    merge.whole();
    let front = merge.front();
    let mut readers = readers;
    for worker in 0..workers.len() {
        let Some(reader) = readers.pop() else {
            unreachable!()
        };
        workers[worker]
            .worker
            .catch_up(merge.quotient(), front, reader);
    }
}

// what always holds of each
fn all_whole<R: CoeffRing, M: Monomial>(workers: &[Worker<'_, R, M>])
    ensures { All (λ w. IsWorking M.LIM w.worker.sender) workers.now }
{
    for worker in workers {
        worker.worker.whole();
    }
}

// a new row of so many places, with which the merge and all workers go on
fn change_row<R: CoeffRing, M: Monomial>(
    alloc: Global,
    job: &Job<'_, R, M>,
    merge: &mut DivideMerge<R, M>,
    workers: &mut [Worker<'_, R, M>],
    places: u32,
) -> Result<Row<R, M>, NoMemory>
    requires moduli { job.now.f.now.modulus ≡ job.now.g.now.modulus }
    requires division { merge.old.run.state.division ≡ division_of job.now.mode M.order M.VARS job.now.f.now job.now.g.now }
    requires team { IsTeam merge.old (map (λ w. w.worker.sender) workers.old) }
    ensures run { IfOk result (λ _. merge.new.run ≡ run_row merge.old.run) }
    ensures rings { IfOk result (λ _. merge.new.rings ≡ merge.old.rings) }
    ensures row { IfOk result (λ row. merge.new.row ≡ row_identity row) }
    ensures places { IfOk result (λ _. merge.new.row.places ≡ places) }
    ensures team { IfOk result (λ _. IsTeam merge.new (map (λ w. w.worker.sender) workers.new)) }
{
    merge.whole();
    all_whole(workers);
    let found = merge.quotient().len();
    let (row, writer, readers) = Row::new(
        alloc,
        job.g.ring(),
        job.f,
        job.g,
        job.mode,
        found as u32,
        places,
        workers.len() as u32,
    )?;
    make_room(workers, found, places)?;
    merge.change_row(writer);
    catch_up_all(merge, workers, readers);
    Ok(row)
}

/// Rounds until the merge is over, each of which begins with room for at least `room` terms, and for at least as many as the quotient has by then, since the remainder's room bounds a round too.
pub(crate) fn finish<T: Threads + Sync, R: CoeffRing, M: Monomial, G: Gate>(
    threads: &T,
    alloc: Global,
    job: &Job<'_, R, M>,
    merge: DivideMerge<R, M>,
    row: Row<R, M>,
    rings: &[Ring<R, M>],
    workers: &mut [Worker<'_, R, M>],
    places: u32,
    room: usize,
    gate: &G,
) -> Result<Finished<R, M>, NoMemory>
    requires moduli { job.now.f.now.modulus ≡ job.now.g.now.modulus }
    requires division { merge.run.state.division ≡ division_of job.now.mode M.order M.VARS job.now.f.now job.now.g.now }
    requires rings { merge.rings ≡ map ring_name rings.now }
    requires row { merge.row ≡ row_identity row }
    requires team { IsTeam merge (map (λ w. w.worker.sender) workers.old) }
    requires places { (0 < places) × HasPlace merge }
    requires begun { progress merge.run ≡ 0 }
    ensures answer { IfOk result (λ e. e.merge.answer ≡ Some (verdict_of M.vector R.value e.last.answer)) }
    ensures rings { IfOk result (λ e. e.merge.rings ≡ merge.rings) }
    ensures rounds { IfOk result (λ e. e.rounds ≤ rounds_bound merge.run.state.division merge.run.state.workers) }
    ensures terms { IfOk result (λ e. e.last.terms ≡ length e.merge.run.state.q) }
    ensures receipt { IfOk result (λ e. e.last.merge.value.run ≡ e.merge.run) }
{
    merge.whole();
    let mut merge = merge;
    let mut row = row;
    let mut places = places;
    let mut rounds = 0u64;
    loop {
        merge.whole();
        all_whole(workers);
        merge.reserve(room.max(merge.quotient().len()))?;
        let (next, last) = round(threads, alloc, merge, rings, &row, workers, gate)?;
        merge = next;
        merge.whole();
        rounds = rounds.saturating_add(1);
        match next_after(&last) {
            Next::Over => {
                return Ok(Finished {
                    merge,
                    last,
                    rounds,
                });
            }
            Next::Row => {
                places = more_places(places);
                row = change_row(alloc, job, &mut merge, workers, places)?;
            }
            Next::Round => {}
        }
    }
}
