//! The one worker of an exact division: its ring, the row that it reads and the merge.
ghost use Rattle.std.specs.Prelude.{◌≡◌, ◌<◌, ◌≢◌, [], ◌∷◌, IfOk};
ghost use Rattle.sdmp_laws.specs.Ring.{IsUnit};
ghost use Rattle.sdmp_laws.specs.Division.{IsAccepted};
ghost use Rattle.sdmp_laws.specs.declared.Mode.TheVariants.{Exact};
ghost use Rattle.division_laws.specs.Outcome.{division_of};
ghost use Rattle.whole_laws.specs.Notes.{QuotientScript};
ghost use Rattle.term_ring.specs.Ends.{IsWriterOf, IsReaderOf, script_in, sent, taken};
ghost use Rattle.term_ring.specs.Names.{ring_name};
ghost use Rattle.quotient_row.specs.Ends as row_ends;
ghost use Rattle.quotient_row.specs.Names.{row_name};
ghost use Rattle.dividing_rounds.specs.Runs.{run_start};
ghost use Rattle.divide_merge.specs.Names.{row_identity};

use canonical_terms::Poly;
use coeff_ring::CoeffRing;
use divide_merge::DivideMerge;
use packed_monomial::Monomial;
use quotient_row::{Row, RowReader, RowWriter};
use sdmp_laws::Mode;
use std::alloc::Global;
use std::test::Fail;
use term_ring::{Reader, Ring, Script, Writer};

const FEW_TERMS: usize = 1 << 30;

/// The ring of the one worker, with its ends.
pub fn hire<R: CoeffRing, M: Monomial>(
    alloc: Global,
    f: &Poly<R, M>,
    g: &Poly<R, M>,
    places: u32,
) -> Result<(Ring<R, M>, Writer<R, M>, Reader<R, M>), Fail>
    requires moduli { f.now.modulus ≡ g.now.modulus }
    requires places { 0 < places }
    ensures script { IfOk result (λ t. script_in t.0 ≡ QuotientScript (division_of Exact M.order M.VARS f.now g.now) 1 0) }
    ensures writer { IfOk result (λ t. IsWriterOf t.0 t.1) }
    ensures reader { IfOk result (λ t. IsReaderOf t.0 t.2) }
    ensures sent { IfOk result (λ t. sent t.1 ≡ []) }
    ensures taken { IfOk result (λ t. taken t.2 ≡ []) }
{
    let script = Script::Quotient {
        f,
        g,
        mode: Mode::Exact,
        workers: 1,
        worker: 0,
    };
    Ok(Ring::new(alloc, f.ring(), places, &script)?)
}

/// A row of so many places, after so many quotient terms, with its writer and one reader.
pub fn open_row<R: CoeffRing, M: Monomial>(
    alloc: Global,
    f: &Poly<R, M>,
    g: &Poly<R, M>,
    start: u32,
    places: u32,
) -> Result<(Row<R, M>, RowWriter<R, M>, RowReader<R, M>), Fail>
    ensures name { IfOk result (λ t. row_ends.name_of t.0 ≡ row_name M.order M.VARS f.now g.now Exact start) }
    ensures places { IfOk result (λ t. row_ends.places_of t.0 ≡ places) }
    ensures writer { IfOk result (λ t. row_ends.IsWriterOf t.0 t.1) }
    ensures published { IfOk result (λ t. row_ends.published t.1 ≡ []) }
    ensures reader { IfOk result (λ t. row_ends.IsReaderOf t.0 t.2 × row_ends.IsNew t.2) }
{
    let made = Row::new(alloc, f.ring(), f, g, Mode::Exact, start, places, 1)?;
    let (row, writer, mut readers) = made;
    let reader = readers.pop().ok_or("one reader")?;
    Ok((row, writer, reader))
}

/// The merge of the worker's ring that publishes in the first row.
pub fn begin<R: CoeffRing, M: Monomial>(
    alloc: Global,
    f: &Poly<R, M>,
    g: &Poly<R, M>,
    ring: &Ring<R, M>,
    reader: Reader<R, M>,
    row: &Row<R, M>,
    writer: RowWriter<R, M>,
) -> Result<DivideMerge<R, M>, Fail>
    requires moduli { f.now.modulus ≡ g.now.modulus }
    requires accepted { IsAccepted (division_of Exact M.order M.VARS f.now g.now) }
    requires script { script_in ring.now ≡ QuotientScript (division_of Exact M.order M.VARS f.now g.now) 1 0 }
    requires reader { IsReaderOf ring.now reader }
    requires taken { taken reader ≡ [] }
    requires row { row_ends.name_of row.now ≡ row_name M.order M.VARS f.now g.now Exact 0 }
    requires writer { row_ends.IsWriterOf row.now writer }
    requires published { row_ends.published writer ≡ [] }
    ensures run { IfOk result (λ m. m.run ≡ run_start (division_of Exact M.order M.VARS f.now g.now) 1) }
    ensures rings { IfOk result (λ m. m.rings ≡ ring_name ring.now ∷ []) }
    ensures row { IfOk result (λ m. m.row ≡ row_identity row.now) }
{
    if f.terms().len() >= FEW_TERMS || g.terms().len() >= FEW_TERMS {
        return Err(Fail::from("too many terms"));
    }
    let mut readers = Vec::new(alloc);
    readers.push(reader)?;
    Ok(DivideMerge::new(alloc, f, g, Mode::Exact, readers, writer)?)
}
