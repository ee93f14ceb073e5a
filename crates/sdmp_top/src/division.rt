//! Divisions by workers.
ghost use Rattle.std.specs.Prelude.{◌≡◌, ◌<◌, ◌≤◌, ◌∷◌, [], IfOk, IfErr, IfSome, MatchOption, MatchResult, OnOk, OnErr};
ghost use Rattle.sdmp_laws.specs.Division.{Division as DivisionOf};
ghost use Rattle.sdmp_laws.specs.declared.Mode.TheVariants.{Exact, Remainder};
ghost use Rattle.division_laws.specs.Outcome.{division, division_of, IsOutcome, HasQuotient, HasNoQuotient, HasRemainder};
ghost use Rattle.divide_core.specs.Answer.{IsAnswer, IsRefusal};
ghost use Rattle.calc_session.specs.Quotient.{IsUndivided};
ghost use Rattle.sdmp_top.specs.Work.{MakesDivision, IsTallied, tally_of};

use crate::ends::Ends;
use crate::workers::Workers;
use calc_session::LineFault;
use canonical_terms::Poly;
use coeff_ring::CoeffRing;
use divide_core::{DivideFault, Division};
use divide_workers::{Divided, divide};
use packed_monomial::Monomial;
use sdmp_laws::Mode;
use std::alloc::Global;
use std::thread::Threads;
use turnstile::Gate;

// a worker is worth its start with so many rows
const WORKER_ROWS: usize = 8;

// How many of the workers divide by a divisor of so many terms. Each is to have some eight rows, which are the divisor's terms after the first; but where there are two workers, two divide.
fn dividing_workers(workers: u32, divisor: usize) -> u32
    requires { 0 < workers }
    ensures some { 0 < result }
    ensures within { result ≤ workers }
{
    let worth = (divisor / WORKER_ROWS).max(2);
    if worth < workers as usize {
        worth as u32
    } else {
        workers
    }
}

// the answer of a division of two polynomials of one modulus, which is counted
fn divided<T: Threads + Sync, G: Gate, R: CoeffRing, M: Monomial>(
    alloc: Global,
    by: &Workers<'_, T, G>,
    ends: &mut Ends,
    f: &Poly<R, M>,
    g: &Poly<R, M>,
    mode: Mode,
) -> Result<Division<R, M>, DivideFault>
    requires moduli { f.now.modulus ≡ g.now.modulus }
    ensures answer { MatchResult
        result
        (λ answer. IsAnswer (division_of mode M.order M.VARS f.now g.now) answer)
        (λ fault. IsRefusal (division_of mode M.order M.VARS f.now g.now) fault) }
    ensures tallied { OnOk result (IsTallied by.now.workers (MakesDivision (division_of mode M.order M.VARS f.now g.now) ∷ []) (tally_of ends.old) (tally_of ends.new)) }
    ensures same { OnErr result (tally_of ends.new ≡ tally_of ends.old) }
{
    let workers = dividing_workers(by.workers, g.terms().len());
    match divide(by.threads, alloc, f, g, mode, workers, by.places, by.gate) {
        Ok(Divided { answer, last, .. }) => {
            ends.divisions.add(last);
            Ok(answer)
        }
        Err(fault) => Err(fault),
    }
}

/// A quotient, and what it leaves of the dividend.
#[derive(Drop)]
pub struct Parts<P> {
    pub quotient: P,
    pub remainder: P,
}

/// The exact quotient of two polynomials of one modulus, and None exactly where there is none. The division is counted where it is not refused.
pub fn quotient<T: Threads + Sync, G: Gate, R: CoeffRing, M: Monomial>(
    alloc: Global,
    by: &Workers<'_, T, G>,
    ends: &mut Ends,
    f: &Poly<R, M>,
    g: &Poly<R, M>,
) -> Result<Option<Poly<R, M>>, LineFault>
    requires moduli { f.now.modulus ≡ g.now.modulus }
    ensures modulus { IfOk result (λ answer. IfSome answer (λ q. q.modulus ≡ f.now.modulus)) }
    ensures quotient { let d = division Exact M.order M.VARS f.now.modulus f.now.list g.now.list in
        IfOk result (λ answer. MatchOption answer (IsOutcome d HasNoQuotient) (λ q. IsOutcome d (HasQuotient q.list))) }
    ensures refused { IfErr result (λ fault. IsUndivided (division Exact M.order M.VARS f.now.modulus f.now.list g.now.list) fault) }
    ensures tallied { OnOk result (IsTallied by.now.workers (MakesDivision (division Exact M.order M.VARS f.now.modulus f.now.list g.now.list) ∷ []) (tally_of ends.old) (tally_of ends.new)) }
    ensures same { OnErr result (tally_of ends.new ≡ tally_of ends.old) }
{
    match divided(alloc, by, ends, f, g, Mode::Exact) {
        Ok(Division::Quotient(q)) => Ok(Some(q)),
        Ok(Division::NoQuotient) => Ok(None),
        Ok(Division::Remainder { .. }) => unreachable!(),
        Err(fault) => Err(fault_of(fault)),
    }
}

/// The quotient and the remainder of two polynomials of one modulus. The division is counted where it is not refused.
pub fn remainder<T: Threads + Sync, G: Gate, R: CoeffRing, M: Monomial>(
    alloc: Global,
    by: &Workers<'_, T, G>,
    ends: &mut Ends,
    f: &Poly<R, M>,
    g: &Poly<R, M>,
) -> Result<Parts<Poly<R, M>>, LineFault>
    requires moduli { f.now.modulus ≡ g.now.modulus }
    ensures modulus { IfOk result (λ h. (h.quotient.modulus ≡ f.now.modulus) × (h.remainder.modulus ≡ f.now.modulus)) }
    ensures remainder { IfOk
        result
        (λ h. IsOutcome (division Remainder M.order M.VARS f.now.modulus f.now.list g.now.list) (HasRemainder h.quotient.list h.remainder.list)) }
    ensures refused { IfErr result (λ fault. IsUndivided (division Remainder M.order M.VARS f.now.modulus f.now.list g.now.list) fault) }
    ensures tallied { OnOk result (IsTallied by.now.workers (MakesDivision (division Remainder M.order M.VARS f.now.modulus f.now.list g.now.list) ∷ []) (tally_of ends.old) (tally_of ends.new)) }
    ensures same { OnErr result (tally_of ends.new ≡ tally_of ends.old) }
{
    match divided(alloc, by, ends, f, g, Mode::Remainder) {
        Ok(Division::Remainder { q, r }) => Ok(Parts {
            quotient: q,
            remainder: r,
        }),
        Ok(Division::Quotient(_)) => unreachable!(),
        Ok(Division::NoQuotient) => unreachable!(),
        Err(fault) => Err(fault_of(fault)),
    }
}

fn fault_of(fault: DivideFault) -> LineFault
    ensures { (d : DivisionOf) → IsRefusal d fault → IsUndivided d result }
{
    match fault {
        DivideFault::ZeroDivisor => LineFault::ZeroDivisor,
        DivideFault::NotUnit => LineFault::NotUnit,
        DivideFault::CoefficientBound => LineFault::CoefficientBound,
        DivideFault::TermBound => LineFault::TermBound,
        DivideFault::NoMemory => LineFault::NoMemory,
    }
}
