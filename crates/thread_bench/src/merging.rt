//! A product by one merge of its rows, and by one worker.
ghost use Rattle.std.specs.Prelude.{◌≡◌};

use bound_check::product_room;
use canonical_terms::Poly;
use coeff_ring::CoeffRing;
use mul_workers::multiply;
use packed_monomial::Monomial;
use row_merge::product;
use std::alloc::Global;
use std::io;
use std::io::ErrorKind;
use std::thread::Threads;
use std::time::{Clock, Instant};
use turnstile::OpenGate;

const RUNS: u32 = 5;

// as many as the program has by itself
const PLACES: u32 = 1024;

/// Makes the product of `f` and `g` both ways in turn. It prints the number of its terms, and the least nanoseconds of each way.
pub fn measure_merge<T: Threads + Sync + Clock + Print + Eprint, R: CoeffRing, M: Monomial>(
    rt: &T,
    alloc: Global,
    f: &Poly<R, M>,
    g: &Poly<R, M>,
) -> io::Result<()>
    requires moduli { f.now.modulus ≡ g.now.modulus }
{
    let (f, g) = by_length(f, g);
    let Ok(()) = product_room(f, g) else {
        return Err(ErrorKind::InvalidData.into());
    };
    let mut terms = 0;
    let mut merge = u128::MAX;
    let mut worker = u128::MAX;
    for _ in 0..RUNS {
        let start = Instant::now(rt)?;
        let Ok(poly) = product(alloc, f, g) else {
            return Err(ErrorKind::OutOfMemory.into());
        };
        merge = merge.min(start.elapsed(rt)?.as_nanos());
        terms = poly.terms().len();
        let start = Instant::now(rt)?;
        let Ok(_) = multiply(rt, alloc, f, g, 1, PLACES, &OpenGate) else {
            return Err(ErrorKind::OutOfMemory.into());
        };
        worker = worker.min(start.elapsed(rt)?.as_nanos());
    }
    println!(rt; "{terms} terms")?;
    eprintln!(rt; "merge {merge} ns, worker {worker} ns")
}

// that of fewer terms first, as the program has it
fn by_length<'a, R: CoeffRing, M: Monomial>(
    f: &'a Poly<R, M>,
    g: &'a Poly<R, M>,
) -> (&'a Poly<R, M>, &'a Poly<R, M>)
    requires moduli { f.now.modulus ≡ g.now.modulus }
    ensures moduli { result.0.now.modulus ≡ result.1.now.modulus }
{
    if f.terms().len() <= g.terms().len() {
        (f, g)
    } else {
        (g, f)
    }
}
