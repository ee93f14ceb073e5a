//! What a division by workers answers, beside what it is to answer.
ghost use Rattle.std.specs.Prelude.{◌<◌};

use crate::polys::{Plane, Power, is_same, poly};
use canonical_terms::Poly;
use coeff_ring::CoeffRing;
use divide_core::{DivideFault, Division};
use divide_merge::DivideAdvanceOf;
use divide_workers::{Divided, divide};
use sdmp_laws::Mode;
use std::alloc::Global;
use std::test::Fail;
use std::thread::Threads;
use turnstile::Gate;

/// A division, and what it is to answer.
#[derive(Clone, Copy, Drop)]
pub struct Case<'a> {
    pub f: &'a [Power],
    pub g: &'a [Power],
    pub mode: Mode,
    pub answer: Answer<'a>,
}

#[derive(Clone, Copy, Drop)]
pub enum Answer<'a> {
    Quotient(&'a [Power]),
    /// There is none, which shows after so many terms of a quotient.
    NoQuotient(u64),
    Remainder { q: &'a [Power], r: &'a [Power] },
    Refused(DivideFault),
}

/// How the work is shared out.
#[derive(Clone, Copy, Drop)]
pub struct Team {
    pub workers: u32,
    pub places: u32,
}

/// The number of rounds of the division, and 0 where it is refused; None where it answers other than it is to.
pub fn rounds_of<T: Threads + Sync, R: CoeffRing, G: Gate>(
    rt: &T,
    alloc: Global,
    ring: R,
    case: Case<'_>,
    team: Team,
    gate: &G,
) -> Result<Option<u64>, Fail>
    requires { (0 < team.workers) × (0 < team.places) }
{
    let f = poly(alloc, ring, case.f)?;
    let g = poly(alloc, ring, case.g)?;
    match divide(
        rt,
        alloc,
        &f,
        &g,
        case.mode,
        team.workers,
        team.places,
        gate,
    ) {
        Ok(divided) => {
            let right = is_right(alloc, ring, &divided, case.answer)?;
            Ok((right && divided.rounds > 0).then_some(divided.rounds))
        }
        Err(fault) => {
            let right = matches!(case.answer, Answer::Refused(want) if want == fault);
            Ok(right.then_some(0))
        }
    }
}

// whether the answer is the wanted one, and the last advance of the merge says so too
fn is_right<R: CoeffRing>(
    alloc: Global,
    ring: R,
    divided: &Divided<R, Plane>,
    want: Answer<'_>,
) -> Result<bool, Fail> {
    let terms = divided.last.terms();
    let last = divided.last.answer();
    match &divided.answer {
        Division::Quotient(q) => {
            let Answer::Quotient(want) = want else {
                return Ok(false);
            };
            Ok(
                is_found(alloc, ring, q, want)?
                    && terms == want.len() as u64
                    && matches!(last, DivideAdvanceOf::Finished),
            )
        }
        Division::NoQuotient => {
            let Answer::NoQuotient(want) = want else {
                return Ok(false);
            };
            Ok(terms == want && matches!(last, DivideAdvanceOf::NoQuotient { .. }))
        }
        Division::Remainder { q, r } => {
            let Answer::Remainder {
                q: quotient,
                r: rest,
            } = want
            else {
                return Ok(false);
            };
            Ok(
                is_found(alloc, ring, q, quotient)?
                    && is_found(alloc, ring, r, rest)?
                    && terms == quotient.len() as u64
                    && matches!(last, DivideAdvanceOf::Finished),
            )
        }
    }
}

fn is_found<R: CoeffRing>(
    alloc: Global,
    ring: R,
    found: &Poly<R, Plane>,
    want: &[Power],
) -> Result<bool, Fail> {
    let want = poly(alloc, ring, want)?;
    Ok(is_same(found, &want))
}
