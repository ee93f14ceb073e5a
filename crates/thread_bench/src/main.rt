//! Measures what threads cost: how many notes a second pass through a ring, what one worker takes over a merge of its rows, and what a division by workers takes over one on the calling thread.
//!
//! Its words are `ring PLACES`, `merge`, or `exact WORKERS PLACES` and `remainder WORKERS PLACES` for divisions. Standard input is a session in four variables, or for all but `ring` in one or five, over the integers, or for all but `ring` modulo a number; its first two lines after the header define the operands. Counts go to standard output, times to standard error.
#![tactic(auto)]

ghost use Rattle.std.specs.Prelude.{◌≡◌, length};

mod dividing;
mod merging;
mod operands;
mod passing;

use calc_session::{Header, RingChoice, parse_header};
use coeff_residue::Residues;
use coeff_ring::{CoeffRing, Integers};
use dividing::measure_division;
use merging::measure_merge;
use operands::operands;
use packed_monomial::{Monomial, Packed};
use passing::{Quartet, measure_ring};
use poly_text::Names;
use sdmp_laws::Mode;
use std::alloc::Global;
use std::io::{ErrorKind, Read};
use std::thread::Threads;
use std::time::Clock;
use std::{env, io};

#[derive(Clone, Copy)]
enum Measure {
    Ring { places: u32 },
    Ways(Ways),
}

// what is made in two ways
#[derive(Clone, Copy)]
enum Ways {
    Product,
    Division {
        mode: Mode,
        workers: u32,
        places: u32,
    },
}

fn main(rt: HostRuntime) -> io::Result<()> {
    let alloc = rt.alloc();
    let mut words = env::args(&rt)?.skip(1);
    let Some(measure) = wanted(words.next(), words.next(), words.next()) else {
        return Err(ErrorKind::InvalidInput.into());
    };
    let mut input = Vec::new(alloc);
    rt.stdin().read_to_end(&mut input)?;
    let Ok(
        Header {
            names,
            ring,
            body,
            ..
        },
    ) = parse_header(alloc, &input)
    else {
        return Err(ErrorKind::InvalidData.into());
    };
    match ring {
        RingChoice::Integers => match measure {
            Measure::Ring { places } => notes(&rt, alloc, places, &names, body),
            Measure::Ways(ways) => by_variables(&rt, alloc, Integers, ways, &names, body),
        },
        RingChoice::Modulus(modulus) => {
            let Some(ring) = Residues::new(modulus) else {
                return Err(ErrorKind::InvalidData.into());
            };
            let Measure::Ways(ways) = measure else {
                return Err(ErrorKind::InvalidData.into());
            };
            by_variables(&rt, alloc, ring, ways, &names, body)
        }
    }
}

// what the program's words ask for
fn wanted(first: Option<String>, second: Option<String>, third: Option<String>) -> Option<Measure> {
    match first?.as_str() {
        "ring" => Some(Measure::Ring {
            places: second?.parse().ok()?,
        }),
        "merge" => Some(Measure::Ways(Ways::Product)),
        "exact" => division(Mode::Exact, second, third),
        "remainder" => division(Mode::Remainder, second, third),
        _ => None,
    }
}

// a division by so many workers, with so many places
fn division(mode: Mode, workers: Option<String>, places: Option<String>) -> Option<Measure> {
    Some(Measure::Ways(Ways::Division {
        mode,
        workers: workers?.parse().ok()?,
        places: places?.parse().ok()?,
    }))
}

// measures the ring by the notes of the product of the factors that the body defines
fn notes<T: Threads + Sync + Clock + Print + Eprint>(
    rt: &T,
    alloc: Global,
    places: u32,
    names: &Names,
    body: &[u8],
) -> io::Result<()> {
    if names.len() != 4 {
        return Err(ErrorKind::InvalidData.into());
    }
    let Some((f, g)) = operands::<Integers, Quartet>(alloc, Integers, names, body) else {
        return Err(ErrorKind::InvalidData.into());
    };
    measure_ring(rt, alloc, &f, &g, places)
}

// measures what the body defines, in the monomials of its number of variables
fn by_variables<T: Threads + Sync + Clock + Print + Eprint, R: CoeffRing>(
    rt: &T,
    alloc: Global,
    ring: R,
    ways: Ways,
    names: &Names,
    body: &[u8],
) -> io::Result<()> {
    match names.len() {
        1 => measured::<_, R, Packed<1>>(rt, alloc, ring, ways, names, body),
        4 => measured::<_, R, Packed<4>>(rt, alloc, ring, ways, names, body),
        5 => measured::<_, R, Packed<5>>(rt, alloc, ring, ways, names, body),
        _ => Err(ErrorKind::InvalidData.into()),
    }
}

// measures what the body defines
fn measured<T: Threads + Sync + Clock + Print + Eprint, R: CoeffRing, M: Monomial>(
    rt: &T,
    alloc: Global,
    ring: R,
    ways: Ways,
    names: &Names,
    body: &[u8],
) -> io::Result<()>
    requires { length names.now ≡ M.VARS }
{
    let Some((f, g)) = operands::<R, M>(alloc, ring, names, body) else {
        return Err(ErrorKind::InvalidData.into());
    };
    match ways {
        Ways::Product => measure_merge(rt, alloc, &f, &g),
        Ways::Division {
            mode,
            workers,
            places,
        } => measure_division(rt, alloc, &f, &g, mode, workers.max(1), places.max(1)),
    }
}
