//! Divisions with known answers, by so many workers over few and many places.

use crate::answers::{Answer, Case, Team, rounds_of};
use crate::polys::Power;
use coeff_residue::Residues;
use coeff_ring::{CoeffRing, Integers};
use divide_core::DivideFault;
use sdmp_laws::Mode;
use std::alloc::Global;
use std::test::Fail;
use std::thread::Threads;
use turnstile::OpenGate;

// -2^60
const FAR: i128 = -1152921504606846976;

fn exact<'a>(f: &'a [Power], g: &'a [Power], answer: Answer<'a>) -> Case<'a> {
    Case {
        f,
        g,
        mode: Mode::Exact,
        answer,
    }
}

fn with_remainder<'a>(f: &'a [Power], g: &'a [Power], answer: Answer<'a>) -> Case<'a> {
    Case {
        f,
        g,
        mode: Mode::Remainder,
        answer,
    }
}

// the workers and places of the first team that answers other than it is to
fn wrong_team<T: Threads + Sync, R: CoeffRing>(
    rt: &T,
    alloc: Global,
    ring: R,
    case: Case<'_>,
) -> Result<Option<(u32, u32)>, Fail> {
    for workers in [1, 2, 4, 7] {
        for places in [2, 64] {
            let team = Team { workers, places };
            if rounds_of(rt, alloc, ring, case, team, &OpenGate)?.is_none() {
                return Ok(Some((workers, places)));
            }
        }
    }
    Ok(None)
}

#[test]
fn divides_integers(rt: HostRuntime) -> Result<(), Fail> {
    let quotient = Answer::Quotient;
    let bound = Answer::Refused(DivideFault::CoefficientBound);
    let cases = [
        // x^3 - 1 by x - 1
        exact(
            &[(3, 0, 1), (0, 0, -1)],
            &[(1, 0, 1), (0, 0, -1)],
            quotient(&[(2, 0, 1), (1, 0, 1), (0, 0, 1)]),
        ),
        // x^2 + 1 by x + 1 fails after two terms
        exact(
            &[(2, 0, 1), (0, 0, 1)],
            &[(1, 0, 1), (0, 0, 1)],
            Answer::NoQuotient(2),
        ),
        exact(&[(2, 0, 1)], &[(1, 0, 2)], Answer::NoQuotient(0)),
        // 4x^2 - 1 by 2x + 1
        exact(
            &[(2, 0, 4), (0, 0, -1)],
            &[(1, 0, 2), (0, 0, 1)],
            quotient(&[(1, 0, 2), (0, 0, -1)]),
        ),
        exact(&[], &[(1, 0, 1), (0, 0, -1)], quotient(&[])),
        // x^2 y + x y^2 + y^2 by x y - 1
        with_remainder(
            &[(2, 1, 1), (1, 2, 1), (0, 2, 1)],
            &[(1, 1, 1), (0, 0, -1)],
            Answer::Remainder {
                q: &[(1, 0, 1), (0, 1, 1)],
                r: &[(0, 2, 1), (1, 0, 1), (0, 1, 1)],
            },
        ),
        // the third quotient term of x^3 by x - 2^60 passes the bound, also where the division would fail later
        with_remainder(&[(3, 0, 1)], &[(1, 0, 1), (0, 0, FAR)], bound),
        exact(&[(3, 0, 1)], &[(1, 0, 1), (0, 0, FAR)], bound),
        with_remainder(
            &[(2, 0, 1)],
            &[(1, 0, 2), (0, 0, 1)],
            Answer::Refused(DivideFault::NotUnit),
        ),
        exact(&[(2, 0, 1)], &[], Answer::Refused(DivideFault::ZeroDivisor)),
    ];
    for i in 0..cases.len() {
        let wrong = wrong_team(&rt, rt.alloc(), Integers, cases[i])?;
        assert_eq!(rt; wrong, None, "case {i}");
    }
    Ok(())
}

#[test]
fn divides_residues(rt: HostRuntime) -> Result<(), Fail> {
    let ring = Residues::new(6).ok_or("a modulus")?;
    let cases = [
        // x^2 - 1 by x - 1
        exact(
            &[(2, 0, 1), (0, 0, -1)],
            &[(1, 0, 1), (0, 0, -1)],
            Answer::Quotient(&[(1, 0, 1), (0, 0, 1)]),
        ),
        exact(
            &[(2, 0, 1)],
            &[(1, 0, 2), (0, 0, 1)],
            Answer::Refused(DivideFault::NotUnit),
        ),
        // x^2 + 1 = (5x + 5)(5x + 1) + 2
        with_remainder(
            &[(2, 0, 1), (0, 0, 1)],
            &[(1, 0, 5), (0, 0, 1)],
            Answer::Remainder {
                q: &[(1, 0, 5), (0, 0, 5)],
                r: &[(0, 0, 2)],
            },
        ),
    ];
    for i in 0..cases.len() {
        let wrong = wrong_team(&rt, rt.alloc(), ring, cases[i])?;
        assert_eq!(rt; wrong, None, "case {i}");
    }
    Ok(())
}
