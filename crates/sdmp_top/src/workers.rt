//! Products by workers.
ghost use Rattle.std.specs.Prelude.{◌≡◌, ◌<◌, ◌≤◌, ◌∷◌, [], ℕ, List, IfOk, IfErr, OnOk, OnErr};
ghost use Rattle.sdmp_laws.specs.Poly.{Term as TermOfSum};
ghost use Rattle.mul_workers.specs.Products.{IsRefusal, product_of};
ghost use Rattle.calc_session.specs.Product.{IsProduct, IsProductRefused};
ghost use Rattle.sdmp_words.specs.Words.{AreInRange};
ghost use Rattle.sdmp_top.specs.Work.{MakesProduct, IsTallied, by_fewer_rows, tally_of};

use crate::ends::Ends;
use calc_session::LineFault;
use canonical_terms::Poly;
use coeff_ring::CoeffRing;
use mul_workers::{MulFault, Product, multiply};
use packed_monomial::Monomial;
use sdmp_words::Settings;
use std::alloc::Global;
use std::thread::Threads;
use turnstile::Gate;

/// So many workers, whose rings have so many places, with the runtime that forks threads and the gate at which each worker arrives.
#[derive(Drop)]
pub struct Workers<'a, T: Threads + Sync, G: Gate> {
    pub(crate) threads: &'a T,
    pub(crate) gate: &'a G,
    pub(crate) workers: u32,
    pub(crate) places: u32,
    ghost some: { (0 < workers) × (0 < places) },
}

impl<'a, T: Threads + Sync, G: Gate> Workers<'a, T, G> {
    /// As many workers and places as the words set.
    pub fn new(threads: &'a T, gate: &'a G, settings: Settings) -> Workers<'a, T, G>
        requires { AreInRange settings }
        ensures { result.workers ≡ settings.workers }
    {
        Workers {
            threads,
            gate,
            workers: settings.workers,
            places: settings.places,
        }
    }
}

/// The product of two polynomials of one modulus, which is counted. It is refused exactly where it would pass a bound, or for want of memory.
pub fn product<T: Threads + Sync, G: Gate, R: CoeffRing, M: Monomial>(
    alloc: Global,
    by: &Workers<'_, T, G>,
    ends: &mut Ends,
    f: &Poly<R, M>,
    g: &Poly<R, M>,
) -> Result<Poly<R, M>, LineFault>
    requires moduli { f.now.modulus ≡ g.now.modulus }
    ensures modulus { IfOk result (λ h. h.modulus ≡ f.now.modulus) }
    ensures product { IfOk result (λ h. IsProduct M.order M.LIM f.now.modulus f.now.list g.now.list h.list) }
    ensures refused { IfErr result (λ fault. IsProductRefused M.LIM f.now.modulus f.now.list g.now.list fault) }
    ensures tallied { OnOk result (IsTallied by.now.workers (MakesProduct (by_fewer_rows M.order f.now.modulus M.VARS f.now.list g.now.list) ∷ []) (tally_of ends.old) (tally_of ends.new)) }
    ensures same { OnErr result (tally_of ends.new ≡ tally_of ends.old) }
{
    // the terms of the first factor are rows, and the fewer they are the smaller are the heaps
    let left = f.terms().len();
    let right = g.terms().len();
    if left <= right {
        return product_by_rows(alloc, by, ends, f, g);
    }
    product_by_rows(alloc, by, ends, g, f)
}

// the product whose rows are the terms of f
fn product_by_rows<T: Threads + Sync, G: Gate, R: CoeffRing, M: Monomial>(
    alloc: Global,
    by: &Workers<'_, T, G>,
    ends: &mut Ends,
    f: &Poly<R, M>,
    g: &Poly<R, M>,
) -> Result<Poly<R, M>, LineFault>
    requires moduli { f.now.modulus ≡ g.now.modulus }
    ensures modulus { IfOk result (λ h. h.modulus ≡ f.now.modulus) }
    ensures product { IfOk result (λ h. IsProduct M.order M.LIM f.now.modulus f.now.list g.now.list h.list) }
    ensures refused { IfErr result (λ fault. IsProductRefused M.LIM f.now.modulus f.now.list g.now.list fault) }
    ensures tallied { OnOk result (IsTallied by.now.workers (MakesProduct (product_of M.order M.VARS f.now g.now) ∷ []) (tally_of ends.old) (tally_of ends.new)) }
    ensures same { OnErr result (tally_of ends.new ≡ tally_of ends.old) }
{
    match multiply(by.threads, alloc, f, g, by.workers, by.places, by.gate) {
        Ok(Product { poly, last, .. }) => {
            ends.products.add(last);
            Ok(poly)
        }
        Err(fault) => Err(fault_of(fault)),
    }
}

fn fault_of(fault: MulFault) -> LineFault
    ensures { (lim p : ℕ) (f g : List TermOfSum) → IsRefusal lim p f g fault → IsProductRefused lim p f g result }
{
    match fault {
        MulFault::DegreeBound { .. } => LineFault::DegreeBound,
        MulFault::CoefficientBound { .. } => LineFault::CoefficientBound,
        MulFault::NoMemory => LineFault::NoMemory,
    }
}
