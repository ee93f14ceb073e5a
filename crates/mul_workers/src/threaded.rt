//! The product of two polynomials by workers.
ghost use Rattle.std.specs.Prelude.{◌≡◌, ◌+◌, ◌^◌, ◌<◌, ◌≤◌, ℕ, List, IfOk, MatchResult};
ghost use Rattle.sdmp_laws.specs.Poly.{Term, terms, times};
ghost use Rattle.sdmp_laws.specs.Limits.{HasRoom};
ghost use Rattle.bound_check.specs.Bounds.{IsPassed};
ghost use Rattle.global_heap.specs.Names.{notes_total};
ghost use Rattle.mul_workers.specs.Products.{product_of, IsRefusal};

use crate::product::{MulFault, Product};
use crate::rounds::{Finished, finish};
use crate::team::Team;
use bound_check::{Bound, product_room};
use canonical_terms::Poly;
use coeff_ring::CoeffRing;
use global_heap::{Advance, Merge};
use packed_monomial::Monomial;
use sdmp_laws::NoMemory;
use std::alloc::Global;
use std::thread::Threads;
use turnstile::Gate;

// an operand has fewer terms
const TERMS: usize = 1 << 30;

// the first round has room for no more terms
const MOST_ROOM: usize = 1 << 20;

// So many products, one for each pair of terms, have room for the sum of all in the first round, or for 64 times the terms of both factors, or for the most.
fn first_room(left: usize, right: usize, products: usize) -> usize
    requires { 1 + left + right < 2 ^ 58 }
    ensures some { 0 < result }
    ensures few { result ≤ 2 ^ 20 }
{
    let terms = 64 * (1 + left + right);
    products.min(terms).min(MOST_ROOM).max(1)
}

// a thread is worth its start where so many products are to be made in it
const THREAD_PRODUCTS: usize = 4096;

// how many notes a worker has at most: one for each product of its rows, and the end
fn notes_of_part(left: usize, right: usize, workers: u32) -> usize
    requires workers { 0 < workers }
    ensures some { 0 < result }
{
    let rows = left.div_ceil(workers as usize);
    rows.saturating_mul(right).saturating_add(1)
}

// so many places are wanted, and no ring has more than its worker has notes
fn enough_places(places: u32, notes: usize) -> u32
    requires places { 0 < places }
    requires notes { 0 < notes }
    ensures some { 0 < result }
    ensures within { result ≤ places }
{
    if notes < places as usize {
        notes as u32
    } else {
        places
    }
}

// In how many threads the workers advance: each in its own where a ring may become full, since its worker may then wait for the others; else in as many as the products are worth, at least in two.
fn threads_for(workers: u32, products: usize, may_be_full: bool) -> usize
    requires workers { 0 < workers }
    ensures some { 0 < result }
    ensures within { result ≤ workers }
{
    let all = workers as usize;
    if may_be_full {
        return all;
    }
    (products / THREAD_PRODUCTS + 1).max(2).min(all)
}

// the product of operands with room
fn merged<T: Threads + Sync, R: CoeffRing, M: Monomial, G: Gate>(
    threads: &T,
    alloc: Global,
    f: &Poly<R, M>,
    g: &Poly<R, M>,
    workers: u32,
    places: u32,
    gate: &G,
) -> Result<Product<R, M>, NoMemory>
    requires modulus { f.now.modulus ≡ g.now.modulus }
    requires room { HasRoom M.LIM f.now.modulus f.now.list g.now.list }
    requires workers { 0 < workers }
    requires places { 0 < places }
    ensures modulus { IfOk result (λ p. p.poly.modulus ≡ f.now.modulus) }
    ensures product { IfOk result (λ p. p.poly.list ≡ terms M.order f.now.modulus (times f.now.list g.now.list)) }
    ensures rounds { IfOk result (λ p. p.rounds ≤ 1 + notes_total (product_of M.order M.VARS f.now g.now) workers) }
    ensures done { IfOk result (λ p. p.last.answer ≡ Advance.Done) }
    ensures notes { IfOk result (λ p. p.last.notes ≡ notes_total (product_of M.order M.VARS f.now g.now) workers) }
    ensures receipt { IfOk result (λ p. (p.last.merge.value.state.product ≡ product_of M.order M.VARS f.now g.now) × (p.last.merge.value.state.workers ≡ workers)) }
{
    let left = f.terms().len();
    let right = g.terms().len();
    if left >= TERMS || right >= TERMS {
        return Err(NoMemory);
    }
    let products = left.saturating_mul(right);
    let room = first_room(left, right, products);
    let notes = notes_of_part(left, right, workers);
    let most = threads_for(workers, products, notes > places as usize);
    let places = enough_places(places, notes);
    let Team {
        rings,
        readers,
        workers: mut team,
    } = Team::new(alloc, f, g, workers, places)?;
    let merge = Merge::new(alloc, f.ring(), readers)?;
    let Finished {
        merge,
        last,
        rounds,
    } = finish(
        threads,
        alloc,
        merge,
        rings.as_slice(),
        team.as_mut_slice(),
        room,
        most,
        gate,
    )?;
    Ok(Product {
        poly: merge.finish(),
        rounds,
        last,
    })
}

// the bound as a fault of a product
fn refusal(bound: Bound) -> MulFault
    ensures { (lim p : ℕ) (f g : List Term) → IsPassed lim p f g bound → IsRefusal lim p f g result }
{
    match bound {
        Bound::Degree { sum } => MulFault::DegreeBound { sum },
        Bound::Coefficient { left, right } => MulFault::CoefficientBound { left, right },
    }
}

/// The product of `f` and `g`, by so many workers, from 1 to 64 in the program, whose rings have so many places, at least 1, or as many as there are notes where these are fewer.
///
/// Worker `w` merges the products of the terms of `f` at the places `i` with `i % workers == w`, and sends them through its ring; whichever worker finds its ring full advances the one merge of all rings. Each worker has a thread of its own, but where a ring has a place for each note of its worker there are fewer threads for fewer than 4096 products of two terms a worker, and at least two. The work goes in rounds. In each the workers advance beside each other, where threads can be made, until each has sent all or its ring stays full; then the calling thread advances the merge, between two meetings of the ends of each ring. Each round but the last takes notes, so there are at most as many rounds as notes, and one more.
///
/// The refusals are those of `product_room`, before anything is started, and want of memory, which more than 2^30 - 1 terms of an operand are.
pub fn multiply<T: Threads + Sync, R: CoeffRing, M: Monomial, G: Gate>(
    threads: &T,
    alloc: Global,
    f: &Poly<R, M>,
    g: &Poly<R, M>,
    workers: u32,
    places: u32,
    gate: &G,
) -> Result<Product<R, M>, MulFault>
    requires modulus { f.now.modulus ≡ g.now.modulus }
    requires workers { 0 < workers }
    requires places { 0 < places }
    ensures modulus { IfOk result (λ p. p.poly.modulus ≡ f.now.modulus) }
    ensures product { IfOk result (λ p. p.poly.list ≡ terms M.order f.now.modulus (times f.now.list g.now.list)) }
    ensures rounds { IfOk result (λ p. p.rounds ≤ 1 + notes_total (product_of M.order M.VARS f.now g.now) workers) }
    ensures done { IfOk result (λ p. p.last.answer ≡ Advance.Done) }
    ensures notes { IfOk result (λ p. p.last.notes ≡ notes_total (product_of M.order M.VARS f.now g.now) workers) }
    ensures receipt { IfOk result (λ p. (p.last.merge.value.state.product ≡ product_of M.order M.VARS f.now g.now) × (p.last.merge.value.state.workers ≡ workers)) }
    ensures refusal { MatchResult
        result
        (λ _. HasRoom M.LIM f.now.modulus f.now.list g.now.list)
        (λ fault. IsRefusal M.LIM f.now.modulus f.now.list g.now.list fault) }
{
    if let Err(bound) = product_room(f, g) {
        return Err(refusal(bound));
    }
    match merged(threads, alloc, f, g, workers, places, gate) {
        Ok(product) => Ok(product),
        Err(NoMemory) => Err(MulFault::NoMemory),
    }
}
