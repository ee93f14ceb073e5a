//! The one worker of x^3 - 1 by x - 1, by its own calls.
ghost use Rattle.std.specs.Prelude.{◌≡◌, ◌≤◌, ◌<◌, [], ◌∷◌, map, IfOk};
ghost use Rattle.sdmp_laws.specs.Order.{Grlex};
ghost use Rattle.sdmp_laws.specs.Division.{IsAccepted};
ghost use Rattle.sdmp_laws.specs.declared.Mode.TheVariants.{Exact};
ghost use Rattle.division_laws.specs.Outcome.{division_of};
ghost use Rattle.whole_laws.specs.Notes.{QuotientScript};
ghost use Rattle.term_ring.specs.Ends.{IsWriterOf, script_in, sent};
ghost use Rattle.term_ring.specs.Names.{ring_name};
ghost use Rattle.term_ring.specs.Sending.{IsAmong};
ghost use Rattle.quotient_row.specs.Ends as row_ends;
ghost use Rattle.quotient_row.specs.Names.{row_name};
ghost use Rattle.turnstile.specs.Passes.{made_with, HasPass, IsPassOf, IsOutside};
ghost use Rattle.divide_merge.specs.Names.{IsLooking, first_division, reader_row, row_identity};
ghost use Rattle.divide_merge.specs.Reached.{divide_name};
ghost use Rattle.divide_workers.specs.Views.{sender_of};
ghost use Rattle.divide_workers.specs.Working.{HasRoom};

use crate::alone::{begin, hire, open_row};
use crate::lines::{Line, binomial};
use canonical_terms::Poly;
use coeff_ring::{CoeffRing, Integers};
use divide_merge::{DivideAdvanceOf, DivideMerge};
use divide_workers::{DivideStop, DivideWorker};
use packed_monomial::Monomial;
use quotient_row::{Row, RowReader};
use row_merge::QuotientRows;
use std::alloc::Global;
use std::test::Fail;
use step_count::Steps;
use term_ring::{Ring, Writer};
use turnstile::{OpenGate, Pass, Turnstile};

// of the second row
const PLACES: u32 = 8;

// a merge that goes on with a second row, and what its one worker has
#[derive(Drop)]
struct Stage {
    merge: DivideMerge<Integers, Line>,
    ring: Ring<Integers, Line>,
    writer: Writer<Integers, Line>,
    // of the first row
    first: RowReader<Integers, Line>,
    row: Row<Integers, Line>,
    // of the second row
    second: RowReader<Integers, Line>,
}

// the merge found the first quotient term, which has the one place of the first row
fn begin_again(
    alloc: Global,
    f: &Poly<Integers, Line>,
    g: &Poly<Integers, Line>,
) -> Result<Stage, Fail>
    requires moduli { f.now.modulus ≡ g.now.modulus }
    requires accepted { IsAccepted (division_of Exact Grlex 1 f.now g.now) }
    ensures rings { IfOk result (λ s. s.merge.rings ≡ ring_name s.ring ∷ []) }
    ensures row { IfOk result (λ s. s.merge.row ≡ row_identity s.row) }
    ensures script { IfOk result (λ s. script_in s.ring ≡ QuotientScript (division_of Exact Grlex 1 f.now g.now) 1 0) }
    ensures writer { IfOk result (λ s. IsWriterOf s.ring s.writer) }
    ensures sent { IfOk result (λ s. sent s.writer ≡ []) }
    ensures looking { IfOk result (λ s. IsLooking s.first × row_ends.IsNew s.first) }
    ensures first { IfOk result (λ s. (reader_row s.first).name ≡ row_name Grlex 1 f.now g.now Exact 0) }
    ensures name { IfOk result (λ s. row_ends.name_of s.row ≡ row_name Grlex 1 f.now g.now Exact 1) }
    ensures places { IfOk result (λ s. row_ends.places_of s.row ≡ PLACES) }
    ensures second { IfOk result (λ s. row_ends.IsReaderOf s.row s.second × row_ends.IsNew s.second) }
{
    let (ring, writer, taker) = hire(alloc, f, g, 64)?;
    let (first_row, publisher, first) = open_row(alloc, f, g, 0, 1)?;
    let mut merge = begin(alloc, f, g, &ring, taker, &first_row, publisher)?;
    merge.reserve(4)?;
    let rings = std::slice::from_ref(&ring);
    let full = merge.advance(rings, &first_row, &mut Steps::new());
    if full.terms() != 1 {
        return Err(Fail::from("one place"));
    }
    let (row, publisher, second) = open_row(alloc, f, g, 1, PLACES)?;
    merge.whole();
    merge.change_row(publisher);
    Ok(Stage {
        merge,
        ring,
        writer,
        first,
        row,
        second,
    })
}

// a turnstile around the merge with a pass, and a worker that has learned nothing and has another
fn employ<'a, R: CoeffRing, M: Monomial>(
    alloc: Global,
    f: &Poly<R, M>,
    g: &'a Poly<R, M>,
    merge: DivideMerge<R, M>,
    ring: &Ring<R, M>,
    writer: Writer<R, M>,
    reader: RowReader<R, M>,
) -> Result<
    (
        Turnstile<DivideMerge<R, M>>,
        Pass<DivideMerge<R, M>>,
        DivideWorker<'a, R, M>,
    ),
    Fail,
>
    requires moduli { f.now.modulus ≡ g.now.modulus }
    requires rings { merge.rings ≡ ring_name ring.now ∷ [] }
    requires script { script_in ring.now ≡ QuotientScript (division_of Exact M.order M.VARS f.now g.now) 1 0 }
    requires writer { IsWriterOf ring.now writer }
    requires sent { sent writer ≡ [] }
    requires looking { IsLooking reader × row_ends.IsNew reader }
    requires row { (reader_row reader).name ≡ row_name M.order M.VARS f.now g.now Exact 0 }
    ensures name { IfOk result (λ t. divide_name (made_with t.0) ≡ divide_name merge) }
    ensures visitor { IfOk result (λ t. IsPassOf t.0 t.1 × IsOutside t.1) }
    ensures pass { IfOk result (λ t. HasPass t.0 t.2.pass) }
    ensures division { IfOk result (λ t. t.2.part.sender.state.division ≡ division_of Exact M.order M.VARS f.now g.now) }
    ensures among { IfOk result (λ t. IsAmong (ring_name ring.now ∷ []) (sender_of t.2.part.sender)) }
    ensures learned { IfOk result (λ t. t.2.part.sender.state.known ≡ []) }
    ensures room { IfOk result (λ t. PLACES < t.2.part.sender.spare) }
{
    merge.whole();
    let mut rows = QuotientRows::new(alloc, g, 1, 0)?;
    rows.reserve(PLACES as usize + 1)?;
    let Ok(mut turnstile) = Turnstile::new(alloc, merge) else {
        return Err(Fail::from("no memory"));
    };
    let visitor = turnstile.pass();
    let pass = turnstile.pass();
    let worker = DivideWorker::new(0, rows, writer, reader, pass);
    Ok((turnstile, visitor, worker))
}

// the worker goes on with a row of the merge that starts after one term
fn go_on<R: CoeffRing, M: Monomial>(
    turnstile: &Turnstile<DivideMerge<R, M>>,
    visitor: &mut Pass<DivideMerge<R, M>>,
    worker: &mut DivideWorker<'_, R, M>,
    reader: RowReader<R, M>,
) -> Result<(), Fail>
    requires visitor { IsPassOf turnstile.now visitor.old × IsOutside visitor.old }
    requires division { first_division (made_with turnstile.now).rings ≡ worker.old.part.sender.state.division }
    requires looking { IsLooking reader × row_ends.IsNew reader }
    requires row { (reader_row reader).name ≡ record { division = worker.old.part.sender.state.division; start = 1 } }
    requires learned { worker.old.part.sender.state.known ≡ [] }
    requires room { (reader_row reader).places < worker.old.part.sender.spare }
    ensures visitor { IfOk result (λ _. IsPassOf turnstile.now visitor.new × IsOutside visitor.new) }
    ensures pass { IfOk result (λ _. worker.new.pass ≡ worker.old.pass) }
    ensures sender { IfOk result (λ _. sender_of worker.new.part.sender ≡ sender_of worker.old.part.sender) }
    ensures row { IfOk result (λ _. worker.new.part.sender.row ≡ reader_row reader) }
    ensures room { IfOk result (λ _. HasRoom worker.new.part.sender) }
{
    let Ok(merge) = turnstile.try_enter(visitor) else {
        return Err(Fail::from("nobody is inside"));
    };
    if merge.quotient().len() != 1 {
        return Err(Fail::from("one term"));
    }
    worker.catch_up(&merge, reader);
    turnstile.leave(visitor, merge);
    Ok(())
}

// the quotient of a merge that has finished, after it has met the worker
fn quotient_of<R: CoeffRing, M: Monomial>(
    rings: &[Ring<R, M>],
    row: &Row<R, M>,
    merge: DivideMerge<R, M>,
    worker: &mut DivideWorker<'_, R, M>,
) -> Result<Poly<R, M>, Fail>
    requires rings { merge.rings ≡ map ring_name rings.now }
    requires row { merge.row ≡ row_identity row.now }
    requires ring { IsAmong (map ring_name rings.now) (sender_of worker.old.part.sender) }
    requires reader { worker.old.part.sender.row ≡ row_identity row.now }
{
    let mut merge = merge;
    worker.meet(rings, row, &mut merge);
    let last = merge.advance(rings, row, &mut Steps::new());
    let DivideAdvanceOf::Finished = last.answer() else {
        return Err(Fail::from("all is found"));
    };
    let (quotient, _remainder) = merge.finish();
    Ok(quotient)
}

#[test]
fn one_worker_by_its_own_calls(rt: HostRuntime) -> Result<(), Fail> {
    let alloc = rt.alloc();
    let f = binomial(alloc, 1, 3, -1)?;
    let g = binomial(alloc, 1, 1, -1)?;
    let stage = begin_again(alloc, &f, &g)?;
    let (merge, ring) = (stage.merge, stage.ring);
    let (turnstile, mut visitor, mut worker) = employ(
        alloc,
        &f,
        &g,
        merge,
        &ring,
        stage.writer,
        stage.first,
    )?;
    go_on(&turnstile, &mut visitor, &mut worker, stage.second)?;

    let (rings, row) = ([ring], stage.row);
    let stop = worker.advance(&rings, &row, &turnstile, &OpenGate);
    let DivideStop::Waiting {
        known: 3,
        merged: Some(last),
    } = stop
    else {
        panic!(rt; "all is sent")
    };
    assert!(rt; matches!(last.answer(), DivideAdvanceOf::Finished));
    worker.whole();

    let Ok(merge) = turnstile.try_enter(&mut visitor) else {
        panic!(rt; "the worker is outside")
    };
    let quotient = quotient_of(&rings, &row, merge, &mut worker)?;
    let terms = quotient.terms();
    assert_eq!(rt; terms.len(), 3);
    for place in 0..terms.len() {
        let term = terms[place];
        assert_eq!(rt; term.mono.exponent(0) as usize, 2 - place);
        assert_eq!(rt; term.coef, 1);
    }
    Ok(())
}
