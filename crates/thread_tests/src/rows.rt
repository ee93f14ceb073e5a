//! A published row: its readers know what its writer published, beside each other.
ghost use Rattle.std.specs.Prelude.{◌≡◌, ◌≤◌, [], length, take, All, IfOk, unsigned_abs};
ghost use Rattle.sdmp_laws.specs.Limits.{greatest_norm};
ghost use Rattle.packed_monomial.specs.Packing.{vector_of};
ghost use Rattle.divide_wholes.specs.Row.{RowCarry};
ghost use Rattle.quotient_row.specs.Spelling.{Belongs, notes_of};
ghost use Rattle.quotient_row.specs.Legal.{Fits, Legal};
ghost use Rattle.quotient_row.specs.Ends.{IsWriterOf, IsReaderOf, IsNew, name_of, published};
ghost use Rattle.thread_tests.specs.Examples.{square_less_one};

use crate::lines::{Line, binomial};
use canonical_terms::TermOf;
use coeff_ring::{CoeffRing, Integers};
use packed_monomial::Monomial;
use quotient_row::{Nothing, Row, RowNote, RowNoteOf, RowReader, RowWriter};
use sdmp_laws::Mode;
use std::alloc::{AllocError, Global};
use std::test::Fail;
use std::thread;
use std::thread::Threads;

type Notes = Vec<RowNote<Integers, Line>>;

// publishes the notes from this one on until one is refused, and gives the number of those that are published
fn publish_from<R: CoeffRing, M: Monomial>(
    writer: &mut RowWriter<R, M>,
    row: &Row<R, M>,
    list: &[RowNote<R, M>],
    from: usize,
) -> usize
    requires of { IsWriterOf row.now writer.old }
    requires fits { All (Fits R.belongs (name_of row.now)) list.now }
    requires legal { Legal M.vector R.value (name_of row.now) list.now }
    requires from { from ≤ length list.now }
    requires published { published writer.old ≡ take from list.now }
    ensures of { IsWriterOf row.now writer.new }
    ensures some { result ≤ length list.now }
    ensures published { published writer.new ≡ take result list.now }
{
    for i in from..list.len() {
        if writer.publish(row, list[i]).is_err() {
            return i;
        }
    }
    list.len()
}

// looks until so many notes are known, unless it takes too many turns
fn look_all<R: CoeffRing, M: Monomial>(
    alloc: Global,
    reader: RowReader<R, M>,
    row: &Row<R, M>,
    want: usize,
    turns: u64,
) -> Result<Vec<RowNote<R, M>>, AllocError>
    requires { IsReaderOf row.now reader }
{
    let mut reader = reader;
    let mut out = Vec::new(alloc);
    for _ in 0..turns {
        if out.len() == want {
            break;
        }
        let Ok(note) = reader.look(row) else {
            thread::yield_now();
            continue;
        };
        out.push(note)?;
    }
    Ok(out)
}

// each reader looks in a thread of its own
fn look_each<T: Threads + Sync>(
    rt: &T,
    alloc: Global,
    row: &Row<Integers, Line>,
    readers: Vec<RowReader<Integers, Line>>,
    want: usize,
) -> Result<Vec<Result<Notes, AllocError>>, AllocError>
    requires { All (IsReaderOf row.now) readers.items }
{
    let each = move |reader: RowReader<Integers, Line>| -> Result<Notes, AllocError>
        requires { IsReaderOf row.now reader }
    { look_all(alloc, reader, row, want, 1_000_000_000) };
    thread::map_vec(rt, readers, &each)
}

// a writer and its readers beside each other
fn across<T: Threads + Sync>(
    rt: &T,
    alloc: Global,
    row: &Row<Integers, Line>,
    writer: RowWriter<Integers, Line>,
    readers: Vec<RowReader<Integers, Line>>,
    list: &[RowNote<Integers, Line>],
) -> (usize, Result<Vec<Result<Notes, AllocError>>, AllocError>)
    requires writer { IsWriterOf row.now writer }
    requires none { published writer ≡ [] }
    requires readers { All (IsReaderOf row.now) readers.items }
    requires fits { All (Fits (λ _ a. unsigned_abs a ≤ greatest_norm) (name_of row.now)) list.now }
    requires legal { Legal (λ m. vector_of 1 m.word) (λ a. a) (name_of row.now) list.now }
{
    let want = list.len();
    let mut writer = writer;
    thread::join(
        rt,
        move || -> usize
            requires of { IsWriterOf row.now writer }
            requires none { published writer ≡ [] }
            requires fits { All (Fits (λ _ a. unsigned_abs a ≤ greatest_norm) (name_of row.now)) list.now }
            requires legal { Legal (λ m. vector_of 1 m.word) (λ a. a) (name_of row.now) list.now }
        { publish_from(&mut writer, row, list, 0) },
        move || -> Result<Vec<Result<Notes, AllocError>>, AllocError>
            requires { All (IsReaderOf row.now) readers.items }
        { look_each(rt, alloc, row, readers, want) },
    )
}

// fronts that fall from x^301 to x^2, and then the quotient terms x and 1 of x^2 - 1 by x - 1
fn falling_list(alloc: Global) -> Result<Notes, Fail>
    ensures fits { IfOk result (λ v. All (Belongs (λ a. unsigned_abs a ≤ greatest_norm)) v.items) }
    ensures legal { IfOk result (λ v. RowCarry square_less_one 0 (notes_of (λ m. vector_of 1 m.word) (λ a. a) v.items)) }
{
    let one = Line::pack(&[1])?;
    let zero = Line::pack(&[0])?;
    let mut out = Vec::new(alloc);
    for k in 0..300u32 {
        let front = Line::pack(&[301 - k])?;
        out.push(RowNoteOf::Front(front))?;
    }
    out.push(RowNoteOf::Term(TermOf { mono: one, coef: 1 }))?;
    out.push(RowNoteOf::Term(TermOf {
        mono: zero,
        coef: 1,
    }))?;
    Ok(out)
}

#[test]
fn full_at_the_second_term(rt: HostRuntime) -> Result<(), Fail> {
    let alloc = rt.alloc();
    let one = Line::pack(&[1])?;
    let zero = Line::pack(&[0])?;
    let f = binomial(alloc, 1, 2, -1)?;
    let g = binomial(alloc, 1, 1, -1)?;
    let made = Row::new(alloc, Integers, &f, &g, Mode::Exact, 0, 1, 1)?;
    let (row, mut writer, mut readers) = made;
    let Some(mut reader) = readers.pop() else {
        panic!(rt; "one reader")
    };
    let list = [
        RowNoteOf::Term(TermOf { mono: one, coef: 1 }),
        RowNoteOf::Term(TermOf {
            mono: zero,
            coef: 1,
        }),
    ];
    assert!(rt; !writer.is_full());
    let published = publish_from(&mut writer, &row, &list, 0);
    assert!(rt; published == 1 && writer.is_full());
    let Ok(RowNoteOf::Term(t)) = reader.look(&row) else {
        panic!(rt; "the first term")
    };
    assert!(rt; t.mono.exponent(0) == 1 && t.coef == 1);
    let Err(Nothing) = reader.look(&row) else {
        panic!(rt; "nothing after the one place")
    };
    reader.meet(&row, &mut writer);
    writer.meet(&row, &mut reader);
    Ok(())
}

#[test]
fn three_readers_beside_the_writer(rt: HostRuntime) -> Result<(), Fail> {
    let alloc = rt.alloc();
    let f = binomial(alloc, 1, 2, -1)?;
    let g = binomial(alloc, 1, 1, -1)?;
    let made = Row::new(alloc, Integers, &f, &g, Mode::Exact, 0, 302, 3)?;
    let (row, writer, readers) = made;
    let list = falling_list(alloc)?;
    let (sent, looked) = across(&rt, alloc, &row, writer, readers, &list);
    let looked = looked?;
    assert!(rt; sent == 302 && looked.len() == 3);
    for notes in looked {
        let notes = notes?;
        assert!(rt; notes.len() == 302);
        for i in 0..300 {
            let RowNoteOf::Front(front) = notes[i] else {
                panic!(rt; "a front")
            };
            assert!(rt; front.exponent(0) as usize == 301 - i);
        }
        for i in 0..2 {
            let RowNoteOf::Term(t) = notes[300 + i] else {
                panic!(rt; "a term")
            };
            assert!(rt; t.mono.exponent(0) as usize == 1 - i && t.coef == 1);
        }
    }
    Ok(())
}
