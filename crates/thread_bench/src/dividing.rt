//! A division on the calling thread, and by workers.
ghost use Rattle.std.specs.Prelude.{◌≡◌, ◌<◌};

use canonical_terms::Poly;
use coeff_ring::CoeffRing;
use divide_core::divide_alone;
use divide_workers::divide;
use packed_monomial::Monomial;
use sdmp_laws::Mode;
use std::alloc::Global;
use std::io;
use std::io::ErrorKind;
use std::thread::Threads;
use std::time::{Clock, Instant};
use turnstile::OpenGate;

const RUNS: u32 = 5;

/// Divides `f` by `g` both ways in turn, by so many workers with rings and rows of so many places. It prints the number of terms of the quotient, the least nanoseconds of each way and the rounds of the last division by workers.
pub fn measure_division<T: Threads + Sync + Clock + Print + Eprint, R: CoeffRing, M: Monomial>(
    rt: &T,
    alloc: Global,
    f: &Poly<R, M>,
    g: &Poly<R, M>,
    mode: Mode,
    workers: u32,
    places: u32,
) -> io::Result<()>
    requires moduli { f.now.modulus ≡ g.now.modulus }
    requires workers { 0 < workers }
    requires places { 0 < places }
{
    let mut terms = 0;
    let mut rounds = 0;
    let mut alone = u128::MAX;
    let mut threaded = u128::MAX;
    for _ in 0..RUNS {
        let start = Instant::now(rt)?;
        let Ok(_) = divide_alone(alloc, f, g, mode) else {
            return Err(ErrorKind::InvalidData.into());
        };
        alone = alone.min(start.elapsed(rt)?.as_nanos());
        let start = Instant::now(rt)?;
        let Ok(divided) = divide(rt, alloc, f, g, mode, workers, places, &OpenGate) else {
            return Err(ErrorKind::InvalidData.into());
        };
        threaded = threaded.min(start.elapsed(rt)?.as_nanos());
        terms = divided.last.terms();
        rounds = divided.rounds;
    }
    println!(rt; "{terms} terms")?;
    eprintln!(rt; "alone {alone} ns, workers {threaded} ns, {rounds} rounds")
}
