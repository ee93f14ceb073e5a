//! The workers of a product, each with a ring of its own.
ghost use Rattle.std.specs.Prelude.{◌≡◌, ◌<◌, [], map, All, IfOk};
ghost use Rattle.sdmp_laws.specs.Limits.{HasRoom};
ghost use Rattle.whole_laws.specs.Notes.{ProductScript};
ghost use Rattle.term_ring.specs.Ends.{IsReaderOf, script_in, places_of, taken};
ghost use Rattle.term_ring.specs.Names.{ring_name, reader_name, IsReading};
ghost use Rattle.mul_workers.specs.Rounds.{AreMembers, AreRead};
ghost use Rattle.mul_workers.specs.Products.{product_of};

use crate::part::{Part, Worker};
use crate::waiting::patience_for;
use canonical_terms::Poly;
use coeff_ring::CoeffRing;
use packed_monomial::Monomial;
use row_merge::{RowMerge, RowSet};
use sdmp_laws::NoMemory;
use std::alloc::Global;
use term_ring::{Reader, Ring, Script};
use turnstile::Member;

/// The rings of a product in the order of their workers, with the readers and the workers.
#[derive(Drop)]
pub(crate) struct Team<'a, R: CoeffRing, M: Monomial> {
    pub(crate) rings: Vec<Ring<R, M>>,
    pub(crate) readers: Vec<Reader<R, M>>,
    pub(crate) workers: Vec<Worker<'a, R, M>>,
}

// the worker of these rows, with its ring and the reader of it
fn hire<'a, R: CoeffRing, M: Monomial>(
    alloc: Global,
    set: RowSet<'a, R, M>,
    places: u32,
) -> Result<(Ring<R, M>, Reader<R, M>, Worker<'a, R, M>), NoMemory>
    requires worker { set.worker < set.workers }
    requires modulus { set.f.now.modulus ≡ set.g.now.modulus }
    requires room { HasRoom M.LIM set.f.now.modulus set.f.now.list set.g.now.list }
    requires places { 0 < places }
    ensures script { IfOk result (λ t. script_in t.0 ≡ ProductScript (product_of M.order M.VARS set.entry.f.now set.entry.g.now) set.entry.workers set.entry.worker) }
    ensures places { IfOk result (λ t. places_of t.0 ≡ places) }
    ensures reader { IfOk result (λ t. IsReaderOf t.0 t.1) }
    ensures taken { IfOk result (λ t. taken t.1 ≡ []) }
    ensures worker { IfOk result (λ t. t.2.worker.sender ≡ record { ring = ring_name t.0; worker = set.entry.worker; sent = []; head = 0; full_looks = 0 }) }
{
    let worker = set.worker;
    let script = Script::Product {
        f: set.f,
        g: set.g,
        workers: set.workers,
        worker,
    };
    let (ring, writer, reader) = Ring::new(alloc, set.f.ring(), places, &script)?;
    let rows = RowMerge::new(alloc, set)?;
    let part = Part::new(worker, rows, writer, patience_for(places));
    let member = Member {
        worker: part,
        pass: None,
    };
    Ok((ring, reader, member))
}

impl<'a, R: CoeffRing, M: Monomial> Team<'a, R, M> {
    /// So many workers of the product, with rings of so many places. Nothing is sent or taken. The one refusal is want of memory.
    pub(crate) fn new(
        alloc: Global,
        f: &'a Poly<R, M>,
        g: &'a Poly<R, M>,
        workers: u32,
        places: u32,
    ) -> Result<Team<'a, R, M>, NoMemory>
        requires modulus { f.now.modulus ≡ g.now.modulus }
        requires room { HasRoom M.LIM f.now.modulus f.now.list g.now.list }
        requires places { 0 < places }
        ensures read { IfOk result (λ t. AreRead (product_of M.order M.VARS f.now g.now) workers (map ring_name t.rings.items) (map reader_name t.readers.items)) }
        ensures reading { IfOk result (λ t. All IsReading t.readers.items) }
        ensures taken { IfOk result (λ t. All (λ r. taken r ≡ []) t.readers.items) }
        ensures members { IfOk result (λ t. AreMembers (map ring_name t.rings.items) (map (λ w. w.worker.sender) t.workers.items)) }
    {
        let count = workers as usize;
        let Ok(mut rings) = Vec::with_capacity(alloc, count) else {
            return Err(NoMemory);
        };
        let Ok(mut readers) = Vec::with_capacity(alloc, count) else {
            return Err(NoMemory);
        };
        let Ok(mut team) = Vec::with_capacity(alloc, count) else {
            return Err(NoMemory);
        };
        for worker in 0..workers {
            let set = RowSet {
                f,
                g,
                workers,
                worker,
            };
            let (ring, reader, member) = hire(alloc, set, places)?;
            rings.push_reserved(ring);
            readers.push_reserved(reader);
            team.push_reserved(member);
        }
        Ok(Team {
            rings,
            readers,
            workers: team,
        })
    }
}
