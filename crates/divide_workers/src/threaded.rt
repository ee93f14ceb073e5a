//! The division of two polynomials by workers.

ghost use Rattle.std.specs.Prelude.{◌≡◌, ◌≢◌, ◌+◌, ◌^◌, ◌<◌, ◌≤◌, ◌⊎◌, ◌↔◌, [], length, Some, IfOk, IsTrue, MatchResult};
ghost use Rattle.sdmp_laws.specs.LongDivision.{quotient_list};
ghost use Rattle.sdmp_laws.specs.Ring.{IsUnit};
ghost use Rattle.sdmp_laws.specs.Poly.{lc};
ghost use Rattle.division_laws.specs.Outcome.{division_of};
ghost use Rattle.divide_core.specs.Answer.{IsAnswer, IsRefusal};
ghost use Rattle.divide_merge.specs.Merges.{IsDone, IsSound, verdict_of};
ghost use Rattle.divide_workers.specs.Rounds.{rounds_bound};

use crate::divided::Divided;
use crate::rounds::{Finished, finish};
use crate::team::{Job, Team};
use canonical_terms::Poly;
use coeff_ring::CoeffRing;
use divide_core::{DivideFault, Division};
use divide_merge::{DivideAdvanceOf, DivideMerge};
use packed_monomial::Monomial;
use sdmp_laws::Mode;
use std::alloc::Global;
use std::thread::Threads;
use turnstile::Gate;

// an operand has fewer terms
const TERMS: usize = 1 << 30;

// the first round has room for no fewer terms, and for no more
const LEAST_ROOM: usize = 1 << 11;

const MOST_ROOM: usize = 1 << 20;

// The first round has room for 64 times the terms of both operands, within these bounds: memory that isn't written isn't taken, and each want of room ends the advances of all workers.
fn first_room(dividend: usize, divisor: usize) -> usize
    requires { 1 + dividend + divisor < 2 ^ 58 }
    ensures { 0 < result × result ≤ 2 ^ 20 }
{
    (64 * (1 + dividend + divisor)).clamp(LEAST_ROOM, MOST_ROOM)
}

// whether a unit is asked for and the leading coefficient of the divisor is none
fn is_refused<R: CoeffRing>(ring: R, mode: Mode, lead: R::E) -> bool
    requires { R.belongs (R.characteristic ring) lead }
    ensures { IsTrue result ↔ (((mode ≡ Mode.Remainder) ⊎ (R.characteristic ring ≢ 0)) × (IsUnit (R.characteristic ring) (R.value lead) → ⊥)) }
{
    if ring.inverse(lead).is_some() {
        return false;
    }
    match mode {
        Mode::Exact => ring.modulus() != 0,
        Mode::Remainder => true,
    }
}

// the division of operands that it is defined for
fn divided<T: Threads + Sync, R: CoeffRing, M: Monomial, G: Gate>(
    threads: &T,
    alloc: Global,
    job: &Job<'_, R, M>,
    workers: u32,
    places: u32,
    gate: &G,
) -> Result<Divided<R, M>, DivideFault>
    requires moduli { job.now.f.now.modulus ≡ job.now.g.now.modulus }
    requires nonzero { job.now.g.now.list ≢ [] }
    requires unit { (((job.now.mode ≡ Mode.Remainder) ⊎ (job.now.f.now.modulus ≢ 0)) × (IsUnit job.now.f.now.modulus (lc job.now.g.now.list) → ⊥)) → ⊥ }
    requires workers { 0 < workers }
    requires places { 0 < places }
    ensures answer { MatchResult
        result
        (λ a. IsAnswer (division_of job.now.mode M.order M.VARS job.now.f.now job.now.g.now) a.answer)
        (λ fault. IsRefusal (division_of job.now.mode M.order M.VARS job.now.f.now job.now.g.now) fault) }
    ensures rounds { IfOk result (λ a. a.rounds ≤ rounds_bound (division_of job.now.mode M.order M.VARS job.now.f.now job.now.g.now) workers) }
    ensures done { IfOk result (λ a. IsDone a.last.answer) }
    ensures terms { IfOk result (λ a. a.last.terms ≡ length (quotient_list (division_of job.now.mode M.order M.VARS job.now.f.now job.now.g.now))) }
    ensures receipt { IfOk result (λ a. (a.last.merge.value.run.state.division ≡ division_of job.now.mode M.order M.VARS job.now.f.now job.now.g.now) × (a.last.merge.value.run.state.workers ≡ workers)) }
{
    let dividend = job.f.terms().len();
    let divisor = job.g.terms().len();
    if dividend >= TERMS || divisor >= TERMS {
        return Err(DivideFault::NoMemory);
    }
    let Team {
        rings,
        readers,
        workers: mut team,
        row,
        publisher,
    } = Team::new(alloc, job, workers, places)?;
    let merge = DivideMerge::new(alloc, job.f, job.g, job.mode, readers, publisher)?;
    let finished = finish(
        threads,
        alloc,
        job,
        merge,
        row,
        rings.as_slice(),
        team.as_mut_slice(),
        places,
        first_room(dividend, divisor),
        gate,
    )?;
    finished.merge.whole();
    answer(finished, job.mode)
}

// what a merge that is over says
fn answer<R: CoeffRing, M: Monomial>(
    finished: Finished<R, M>,
    mode: Mode,
) -> Result<Divided<R, M>, DivideFault>
    requires sound { IsSound M.LIM finished.merge }
    requires answer { finished.merge.answer ≡ Some (verdict_of M.vector R.value finished.last.answer) }
    requires mode { finished.merge.run.state.division.mode ≡ mode }
    ensures answer { MatchResult
        result
        (λ a. IsAnswer finished.merge.run.state.division a.answer)
        (λ fault. IsRefusal finished.merge.run.state.division fault) }
    ensures found { IfOk result (λ _. finished.merge.run.state.q ≡ quotient_list finished.merge.run.state.division) }
    ensures rounds { IfOk result (λ a. a.rounds ≡ finished.rounds) }
    ensures done { IfOk result (λ a. IsDone a.last.answer) }
    ensures last { IfOk result (λ a. a.last ≡ finished.last) }
{
    let Finished {
        merge,
        last,
        rounds,
    } = finished;
    let answer = match last.answer() {
        DivideAdvanceOf::Finished => {
            let (q, r) = merge.finish();
            match mode {
                Mode::Exact => Division::Quotient(q),
                Mode::Remainder => Division::Remainder { q, r },
            }
        }
        DivideAdvanceOf::NoQuotient { .. } => Division::NoQuotient,
        DivideAdvanceOf::PassedBound { .. } => return Err(DivideFault::CoefficientBound),
        DivideAdvanceOf::PassedTerms { .. } => return Err(DivideFault::TermBound),
        DivideAdvanceOf::Blocked(_) => unreachable!(),
        DivideAdvanceOf::RowFull => unreachable!(),
        DivideAdvanceOf::OutFull => unreachable!(),
    };
    Ok(Divided {
        answer,
        rounds,
        last,
    })
}

/// Divides `f` by `g` by so many workers, from 1 to 64 in the program, whose rings have so many places, at least 1.
///
/// Worker `w` merges the products of the quotient terms with the terms of `g` at the places `j` from 1 on with `j % workers == w`, and sends them through its ring, each as soon as no later quotient term can change it; whichever worker waits advances the one merge of all rings, which finds the next terms of the quotient and publishes them in a row that all workers read. The work goes in rounds. In each the workers advance beside each other, where threads can be made, until each waits in vain; then the calling thread advances the merge, between two meetings of the ends of each ring and of the row. Where the row is full the next one has twice its places, up to 65536. Each round but the last finds, takes or publishes something, which bounds their number.
///
/// The refusals are those of a division on the calling thread, `divide_alone` of `divide_core`; more than 2^30 - 1 terms of an operand are want of memory.
pub fn divide<T: Threads + Sync, R: CoeffRing, M: Monomial, G: Gate>(
    threads: &T,
    alloc: Global,
    f: &Poly<R, M>,
    g: &Poly<R, M>,
    mode: Mode,
    workers: u32,
    places: u32,
    gate: &G,
) -> Result<Divided<R, M>, DivideFault>
    requires modulus { f.now.modulus ≡ g.now.modulus }
    requires workers { 0 < workers }
    requires places { 0 < places }
    ensures answer { MatchResult
        result
        (λ a. IsAnswer (division_of mode M.order M.VARS f.now g.now) a.answer)
        (λ fault. IsRefusal (division_of mode M.order M.VARS f.now g.now) fault) }
    ensures rounds { IfOk result (λ a. a.rounds ≤ rounds_bound (division_of mode M.order M.VARS f.now g.now) workers) }
    ensures done { IfOk result (λ a. IsDone a.last.answer) }
    ensures terms { IfOk result (λ a. a.last.terms ≡ length (quotient_list (division_of mode M.order M.VARS f.now g.now))) }
    ensures receipt { IfOk result (λ a. (a.last.merge.value.run.state.division ≡ division_of mode M.order M.VARS f.now g.now) × (a.last.merge.value.run.state.workers ≡ workers)) }
{
    let divisor = g.terms();
    if divisor.is_empty() {
        return Err(DivideFault::ZeroDivisor);
    }
    if is_refused(g.ring(), mode, divisor[0].coef) {
        return Err(DivideFault::NotUnit);
    }
    divided(threads, alloc, &Job { f, g, mode }, workers, places, gate)
}
