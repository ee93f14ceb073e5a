//! Gates that hold some of the workers change no answer.
ghost use Rattle.std.specs.Prelude.{◌<◌};

use crate::answers::{Answer, Case, Team, rounds_of};
use crate::gates::{Hold, StallGate};
use crate::powers::{falling_powers, long_case};
use coeff_ring::Integers;
use divide_core::DivideFault;
use sdmp_laws::Mode;
use std::alloc::Global;
use std::test::Fail;
use std::thread::Threads;
use turnstile::OpenGate;

const TURNS: u64 = 10_000_000;

// x^2 y + x y^2 + y^2 by x y - 1
const TWO_VARIABLES: Case<'static> = Case {
    f: &[(2, 1, 1), (1, 2, 1), (0, 2, 1)],
    g: &[(1, 1, 1), (0, 0, -1)],
    mode: Mode::Remainder,
    answer: Answer::Remainder {
        q: &[(1, 0, 1), (0, 1, 1)],
        r: &[(0, 2, 1), (1, 0, 1), (0, 1, 1)],
    },
};

// x^3 by x - 2^60
const FAR_EXACT: Case<'static> = Case {
    f: &[(3, 0, 1)],
    g: &[(1, 0, 1), (0, 0, -1152921504606846976)],
    mode: Mode::Exact,
    answer: Answer::Refused(DivideFault::CoefficientBound),
};

const FAR_REMAINDER: Case<'static> = Case {
    f: &[(3, 0, 1)],
    g: &[(1, 0, 1), (0, 0, -1152921504606846976)],
    mode: Mode::Remainder,
    answer: Answer::Refused(DivideFault::CoefficientBound),
};

// x^2 + 1 by x + 1
const NO_QUOTIENT: Case<'static> = Case {
    f: &[(2, 0, 1), (0, 0, 1)],
    g: &[(1, 0, 1), (0, 0, 1)],
    mode: Mode::Exact,
    answer: Answer::NoQuotient(2),
};

// under each gate the division answers as it is to, and where it isn't refused each worker arrives in each round
fn is_answered<T: Threads + Sync>(
    rt: &T,
    alloc: Global,
    case: Case<'_>,
    team: Team,
) -> Result<bool, Fail>
    requires { (0 < team.workers) × (0 < team.places) }
{
    if rounds_of(rt, alloc, Integers, case, team, &OpenGate)?.is_none() {
        return Ok(false);
    }
    for hold in [
        Hold::Nobody,
        Hold::Each { held: 0 },
        Hold::First { held: 0, until: 1 },
    ] {
        if team.workers == 1 && matches!(hold, Hold::First { .. }) {
            continue;
        }
        let gate = StallGate::new(alloc, hold, team.workers, TURNS)?;
        let Some(rounds) = rounds_of(rt, alloc, Integers, case, team, &gate)? else {
            return Ok(false);
        };
        if rounds > 0 && gate.arrivals() != rounds.wrapping_mul(team.workers as u64) {
            return Ok(false);
        }
    }
    Ok(true)
}

#[test]
fn no_gate_changes_an_answer_in_two_variables(rt: HostRuntime) -> Result<(), Fail> {
    for workers in [1, 2, 8] {
        for places in [2, 3] {
            let team = Team { workers, places };
            let right = is_answered(&rt, rt.alloc(), TWO_VARIABLES, team)?;
            assert!(rt; right, "{workers} workers, {places} places");
        }
    }
    Ok(())
}

#[test]
fn no_gate_changes_a_long_quotient(rt: HostRuntime) -> Result<(), Fail> {
    let quotient = falling_powers(rt.alloc(), 200)?;
    let case = long_case(quotient.as_slice());
    for workers in [1, 4, 64] {
        for places in [2, 1024] {
            let team = Team { workers, places };
            let right = is_answered(&rt, rt.alloc(), case, team)?;
            assert!(rt; right, "{workers} workers, {places} places");
        }
    }
    Ok(())
}

#[test]
fn no_gate_changes_a_refusal(rt: HostRuntime) -> Result<(), Fail> {
    for case in [FAR_EXACT, FAR_REMAINDER, NO_QUOTIENT] {
        for workers in [1, 4] {
            let team = Team { workers, places: 2 };
            let right = is_answered(&rt, rt.alloc(), case, team)?;
            assert!(rt; right, "{workers} workers");
        }
    }
    Ok(())
}

#[test]
fn workers_run_beside_each_other(rt: HostRuntime) -> Result<(), Fail> {
    let alloc = rt.alloc();
    let team = Team {
        workers: 2,
        places: 1024,
    };
    let gate = StallGate::new(alloc, Hold::All, 2, 1_000_000_000)?;
    let rounds = rounds_of(&rt, alloc, Integers, TWO_VARIABLES, team, &gate)?;
    assert!(rt; rounds.is_some() && gate.arrivals() >= 2);
    assert!(rt; !gate.is_used_up());
    Ok(())
}

// the one worker is held for another that never comes, until the turns are used up
#[test]
fn a_gate_gives_up(rt: HostRuntime) -> Result<(), Fail> {
    let alloc = rt.alloc();
    let team = Team {
        workers: 1,
        places: 2,
    };
    for hold in [
        Hold::First { held: 0, until: 1 },
        Hold::Each { held: 0 },
        Hold::All,
    ] {
        let gate = StallGate::new(alloc, hold, 2, 1_000)?;
        let rounds = rounds_of(&rt, alloc, Integers, TWO_VARIABLES, team, &gate)?;
        assert!(rt; rounds == Some(gate.arrivals()));
        assert!(rt; gate.is_used_up());
    }
    Ok(())
}
