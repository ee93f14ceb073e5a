//! The workers of a division, each with a ring of its own and all with one row.
ghost use Rattle.std.specs.Prelude.{◌≡◌, ◌<◌, [], map, All, IfOk};
ghost use Rattle.whole_laws.specs.Notes.{QuotientScript};
ghost use Rattle.division_laws.specs.Outcome.{division_of};
ghost use Rattle.term_ring.specs.Ends.{IsReaderOf, script_in, places_of, taken};
ghost use Rattle.term_ring.specs.Names.{ring_name, reader_name, IsReading};
ghost use Rattle.quotient_row.specs.Ends.{IsNew, published};
ghost use Rattle.divide_merge.specs.Names.{IsFit, IsLooking, IsPublishing, row_identity, writer_row, reader_row};
ghost use Rattle.divide_workers.specs.Rounds.{AreMembers, AreRead, IsFresh};

use crate::part::{Part, Worker};
use canonical_terms::Poly;
use coeff_ring::CoeffRing;
use packed_monomial::Monomial;
use quotient_row::{Row, RowReader, RowWriter};
use row_merge::QuotientRows;
use sdmp_laws::{Mode, NoMemory};
use std::alloc::Global;
use term_ring::{Reader, Ring, Script};
use turnstile::Member;

/// What is divided, and how.
#[derive(Drop)]
pub(crate) struct Job<'a, R: CoeffRing, M: Monomial> {
    pub(crate) f: &'a Poly<R, M>,
    pub(crate) g: &'a Poly<R, M>,
    pub(crate) mode: Mode,
}

/// The rings of a division in the order of their workers, with the readers and the workers, and its first row with the writer of it.
#[derive(Drop)]
pub(crate) struct Team<'a, R: CoeffRing, M: Monomial> {
    pub(crate) rings: Vec<Ring<R, M>>,
    pub(crate) readers: Vec<Reader<R, M>>,
    pub(crate) workers: Vec<Worker<'a, R, M>>,
    pub(crate) row: Row<R, M>,
    pub(crate) publisher: RowWriter<R, M>,
}

// the worker with this number of so many, with its ring and the reader of it; its row has so many places, and so has its ring, unless it sends nothing
fn hire<'a, R: CoeffRing, M: Monomial>(
    alloc: Global,
    job: &Job<'a, R, M>,
    workers: u32,
    worker: u32,
    places: u32,
    reader: RowReader<R, M>,
) -> Result<(Ring<R, M>, Reader<R, M>, Worker<'a, R, M>), NoMemory>
    requires moduli { job.now.f.now.modulus ≡ job.now.g.now.modulus }
    requires fit { IsFit M.LIM (division_of job.now.mode M.order M.VARS job.now.f.now job.now.g.now) }
    requires worker { worker < workers }
    requires places { 0 < places }
    requires looking { IsLooking reader }
    requires nothing { IsNew reader }
    requires row { (reader_row reader).name ≡ record { division = division_of job.now.mode M.order M.VARS job.now.f.now job.now.g.now; start = 0 } }
    requires row_places { (reader_row reader).places ≡ places }
    ensures script { IfOk result (λ t. script_in t.0 ≡ QuotientScript (division_of job.now.mode M.order M.VARS job.now.f.now job.now.g.now) workers worker) }
    ensures places { IfOk result (λ t. 0 < places_of t.0) }
    ensures reader { IfOk result (λ t. IsReaderOf t.0 t.1) }
    ensures taken { IfOk result (λ t. taken t.1 ≡ []) }
    ensures number { IfOk result (λ t. t.2.worker.sender.state.worker ≡ worker) }
    ensures ring { IfOk result (λ t. t.2.worker.sender.ring ≡ ring_name t.0) }
    ensures row { IfOk result (λ t. t.2.worker.sender.row ≡ reader_row reader) }
    ensures fresh { IfOk result (λ t. IsFresh t.2.worker.sender) }
{
    let script = Script::Quotient {
        f: job.f,
        g: job.g,
        mode: job.mode,
        workers,
        worker,
    };
    let mut rows = QuotientRows::new(alloc, job.g, workers, worker)?;
    let has_rows = rows.first().is_some();
    let ring_places = if has_rows { places } else { 1 };
    let (ring, writer, taker) = Ring::new(alloc, job.g.ring(), ring_places, &script)?;
    if has_rows {
        rows.reserve(places as usize)?;
    }
    let member = Member {
        worker: Part::new(worker, rows, writer, reader),
        pass: None,
    };
    Ok((ring, taker, member))
}

impl<'a, R: CoeffRing, M: Monomial> Team<'a, R, M> {
    /// So many workers of the division, with rings and a row of so many places. Nothing is sent, taken or published. The one refusal is want of memory.
    pub(crate) fn new(
        alloc: Global,
        job: &Job<'a, R, M>,
        workers: u32,
        places: u32,
    ) -> Result<Team<'a, R, M>, NoMemory>
        requires moduli { job.now.f.now.modulus ≡ job.now.g.now.modulus }
        requires fit { IsFit M.LIM (division_of job.now.mode M.order M.VARS job.now.f.now job.now.g.now) }
        requires places { 0 < places }
        ensures read { IfOk result (λ t. AreRead (division_of job.now.mode M.order M.VARS job.now.f.now job.now.g.now) workers (map ring_name t.rings.items) (map reader_name t.readers.items)) }
        ensures reading { IfOk result (λ t. All IsReading t.readers.items) }
        ensures taken { IfOk result (λ t. All (λ r. taken r ≡ []) t.readers.items) }
        ensures publishing { IfOk result (λ t. IsPublishing t.publisher) }
        ensures publisher { IfOk result (λ t. writer_row t.publisher ≡ row_identity t.row) }
        ensures published { IfOk result (λ t. published t.publisher ≡ []) }
        ensures row { IfOk result (λ t. (row_identity t.row).name ≡ record { division = division_of job.now.mode M.order M.VARS job.now.f.now job.now.g.now; start = 0 }) }
        ensures places { IfOk result (λ t. (row_identity t.row).places ≡ places) }
        ensures members { IfOk result (λ t. AreMembers (map ring_name t.rings.items) (row_identity t.row) (map (λ w. w.worker.sender) t.workers.items)) }
        ensures fresh { IfOk result (λ t. All IsFresh (map (λ w. w.worker.sender) t.workers.items)) }
    {
        let count = workers as usize;
        let Ok(mut rings) = Vec::with_capacity(alloc, count) else {
            return Err(NoMemory);
        };
        let Ok(mut readers) = Vec::with_capacity(alloc, count) else {
            return Err(NoMemory);
        };
        let Ok(mut team) = Vec::with_capacity(alloc, count) else {
            return Err(NoMemory);
        };
        let (row, publisher, mut lookers) = Row::new(
            alloc,
            job.g.ring(),
            job.f,
            job.g,
            job.mode,
            0,
            places,
            workers,
        )?;
        for worker in 0..workers {
            let Some(looker) = lookers.pop() else {
                unreachable!()
            };
            let (ring, reader, member) = hire(alloc, job, workers, worker, places, looker)?;
            rings.push_reserved(ring);
            readers.push_reserved(reader);
            team.push_reserved(member);
        }
        Ok(Team {
            rings,
            readers,
            workers: team,
            row,
            publisher,
        })
    }
}
