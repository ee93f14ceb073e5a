//! The one worker of a product, by its own calls.
ghost use Rattle.std.specs.Prelude.{◌≡◌, ◌<◌, [], ◌∷◌, IfOk};
ghost use Rattle.sdmp_laws.specs.Limits.{HasRoom};
ghost use Rattle.whole_laws.specs.Notes.{ProductScript};
ghost use Rattle.term_ring.specs.Ends.{IsReaderOf, script_in, taken};
ghost use Rattle.term_ring.specs.Names.{ring_name};
ghost use Rattle.term_ring.specs.Sending.{IsAmong};
ghost use Rattle.turnstile.specs.Passes.{made_with, HasPass};
ghost use Rattle.mul_workers.specs.Products.{product_of};

use crate::lines::{binomial, shown};
use bound_check::product_room;
use canonical_terms::Poly;
use coeff_ring::CoeffRing;
use global_heap::{Advance, Merge};
use mul_workers::{MulWorker, Stop};
use packed_monomial::Monomial;
use row_merge::{RowMerge, RowSet};
use std::alloc::Global;
use std::test::Fail;
use step_count::Steps;
use term_ring::{Reader, Ring, Script};
use turnstile::{OpenGate, Turnstile};

const FEW_TERMS: usize = 1 << 30;

// the merge of the ring of a product's one worker
fn begin<R: CoeffRing, M: Monomial>(
    alloc: Global,
    f: &Poly<R, M>,
    g: &Poly<R, M>,
    ring: &Ring<R, M>,
    reader: Reader<R, M>,
) -> Result<Merge<R, M>, Fail>
    requires modulus { f.now.modulus ≡ g.now.modulus }
    requires room { HasRoom M.LIM f.now.modulus f.now.list g.now.list }
    requires script { script_in ring.now ≡ ProductScript (product_of M.order M.VARS f.now g.now) 1 0 }
    requires reader { IsReaderOf ring.now reader }
    requires taken { taken reader ≡ [] }
    ensures rings { IfOk result (λ m. m.rings ≡ ring_name ring.now ∷ []) }
{
    let left = f.terms().len();
    let right = g.terms().len();
    if left >= FEW_TERMS || right >= FEW_TERMS {
        return Err(Fail::from("too many terms"));
    }
    let mut readers = Vec::new(alloc);
    readers.push(reader)?;
    let merge = Merge::new(alloc, f.ring(), readers)?;
    Ok(merge)
}

// the ring of a product's one worker, a turnstile around the merge, and the worker
fn hire_one<'a, R: CoeffRing, M: Monomial>(
    alloc: Global,
    f: &'a Poly<R, M>,
    g: &'a Poly<R, M>,
    places: u32,
) -> Result<(Ring<R, M>, Turnstile<Merge<R, M>>, MulWorker<'a, R, M>), Fail>
    requires modulus { f.now.modulus ≡ g.now.modulus }
    requires places { 0 < places }
    ensures rings { IfOk result (λ t. (made_with t.1).rings ≡ ring_name t.0 ∷ []) }
    ensures pass { IfOk result (λ t. HasPass t.1 t.2.pass) }
    ensures among { IfOk result (λ t. IsAmong (ring_name t.0 ∷ []) t.2.part.sender) }
{
    product_room(f, g)?;
    let script = Script::Product {
        f,
        g,
        workers: 1,
        worker: 0,
    };
    let (ring, writer, reader) = Ring::new(alloc, f.ring(), places, &script)?;
    let set = RowSet {
        f,
        g,
        workers: 1,
        worker: 0,
    };
    let rows = RowMerge::new(alloc, set)?;
    let merge = begin(alloc, f, g, &ring, reader)?;
    merge.whole();
    let Ok(mut turnstile) = Turnstile::new(alloc, merge) else {
        return Err(Fail::from("no memory"));
    };
    let pass = turnstile.pass();
    let worker = MulWorker::new(0, rows, writer, pass);
    Ok((ring, turnstile, worker))
}

#[test]
fn one_worker_by_its_own_calls(rt: HostRuntime) -> Result<(), Fail> {
    let alloc = rt.alloc();
    let f = binomial(alloc, 1, 1, 1)?;
    let g = binomial(alloc, 1, 1, -1)?;
    let (ring, mut turnstile, mut worker) = hire_one(alloc, &f, &g, 64)?;
    let rings = [ring];
    let Stop::Ended = worker.advance(&rings, &turnstile, &OpenGate) else {
        panic!(rt; "the end is sent")
    };
    // the worker keeps its pass
    let mut pass = turnstile.pass();
    let Ok(mut merge) = turnstile.try_enter(&mut pass) else {
        panic!(rt; "the worker is outside")
    };
    worker.meet(&rings, &mut merge);
    merge.reserve(2)?;
    let last = merge.advance(&rings, &mut Steps::new());
    let Advance::Done = last.answer() else {
        panic!(rt; "the end is taken")
    };
    assert_eq!(rt; last.notes(), 3);
    let product = merge.finish();
    assert_eq!(rt; shown(&product, 0), Some((2, 1)));
    assert_eq!(rt; shown(&product, 1), Some((0, -1)));
    assert_eq!(rt; shown(&product, 2), None);
    Ok(())
}
