//! The notes of a ring come out as they went in, through few places and between two threads.
ghost use Rattle.std.specs.Prelude.{◌≡◌, ◌≤◌, [], length, take, All, IfOk, unsigned_abs};
ghost use Rattle.term_ring.specs.Carried.{Fits, Carries, whole};
ghost use Rattle.term_ring.specs.Ends.{IsWriterOf, IsReaderOf, script_in, sent};
ghost use Rattle.sdmp_laws.specs.Order.{degree};
ghost use Rattle.sdmp_laws.specs.Limits.{greatest_norm};
ghost use Rattle.packed_monomial.specs.Packing.{vector_of, limit_of};

use crate::lines::{Line, binomial};
use crate::squares::{first_notes, hire};
use canonical_terms::{Poly, Term, TermOf};
use coeff_ring::{CoeffRing, Integers};
use packed_monomial::{DegreeBound, Monomial};
use std::alloc::{AllocError, Global};
use std::test::Fail;
use std::thread;
use std::thread::Threads;
use term_ring::{Empty, Note, NoteOf, Reader, Ring, Script, Writer};

// all terms, and the end
fn whole_list<R: CoeffRing, M: Monomial>(
    alloc: Global,
    terms: &[Term<R, M>],
) -> Result<Vec<Note<R, M>>, AllocError>
    ensures { IfOk result (λ v. v.items ≡ whole terms.now) }
{
    let mut out = Vec::new(alloc);
    for i in 0..terms.len() {
        out.push(NoteOf::Term(terms[i]))?;
    }
    out.push(NoteOf::End)?;
    Ok(out)
}

/// Pushes the notes from this one on until a push is refused, and gives the number of those that were sent.
pub fn push_from<R: CoeffRing, M: Monomial>(
    writer: &mut Writer<R, M>,
    ring: &Ring<R, M>,
    list: &[Note<R, M>],
    from: usize,
) -> usize
    requires of { IsWriterOf ring.now writer.old }
    requires fits { All (Fits R.belongs (script_in ring.now)) list.now }
    requires carries { Carries M.vector R.value (script_in ring.now) list.now }
    requires from { from ≤ length list.now }
    requires sent { sent writer.old ≡ take from list.now }
    ensures of { IsWriterOf ring.now writer.new }
    ensures some { result ≤ length list.now }
    ensures sent { sent writer.new ≡ take result list.now }
{
    for i in from..list.len() {
        if writer.push(ring, list[i]).is_err() {
            return i;
        }
    }
    list.len()
}

// sends the notes, unless it takes too many turns
fn send_all<R: CoeffRing, M: Monomial>(
    writer: Writer<R, M>,
    ring: &Ring<R, M>,
    list: &[Note<R, M>],
    turns: u64,
) -> bool
    requires of { IsWriterOf ring.now writer }
    requires none { sent writer ≡ [] }
    requires fits { All (Fits R.belongs (script_in ring.now)) list.now }
    requires carries { Carries M.vector R.value (script_in ring.now) list.now }
{
    let mut writer = writer;
    let mut sent = 0;
    for _ in 0..turns {
        sent = push_from(&mut writer, ring, list, sent);
        if sent == list.len() {
            return true;
        }
        thread::yield_now();
    }
    false
}

// takes so many notes, unless it takes too many turns
fn take_all<R: CoeffRing, M: Monomial>(
    alloc: Global,
    reader: Reader<R, M>,
    ring: &Ring<R, M>,
    want: usize,
    turns: u64,
) -> Result<Vec<Note<R, M>>, AllocError>
    requires { IsReaderOf ring.now reader }
{
    let mut reader = reader;
    let mut out = Vec::new(alloc);
    for _ in 0..turns {
        if out.len() == want {
            break;
        }
        let Ok(note) = reader.pop(ring) else {
            thread::yield_now();
            continue;
        };
        out.push(note)?;
    }
    Ok(out)
}

// a writer and a reader beside each other
fn across<T: Threads + Sync>(
    rt: &T,
    alloc: Global,
    ring: &Ring<Integers, Line>,
    writer: Writer<Integers, Line>,
    reader: Reader<Integers, Line>,
    list: &[Note<Integers, Line>],
) -> (bool, Result<Vec<Note<Integers, Line>>, AllocError>)
    requires writer { IsWriterOf ring.now writer }
    requires none { sent writer ≡ [] }
    requires reader { IsReaderOf ring.now reader }
    requires fits { All (Fits (λ _ a. unsigned_abs a ≤ greatest_norm) (script_in ring.now)) list.now }
    requires carries { Carries (λ m. vector_of 1 m.word) (λ a. a) (script_in ring.now) list.now }
{
    let want = list.len();
    thread::join(
        rt,
        move || -> bool
            requires of { IsWriterOf ring.now writer }
            requires none { sent writer ≡ [] }
            requires fits { All (Fits (λ _ a. unsigned_abs a ≤ greatest_norm) (script_in ring.now)) list.now }
            requires carries { Carries (λ m. vector_of 1 m.word) (λ a. a) (script_in ring.now) list.now }
        { send_all(writer, ring, list, 1_000_000_000) },
        move || -> Result<Vec<Note<Integers, Line>>, AllocError>
            requires { IsReaderOf ring.now reader }
        { take_all(alloc, reader, ring, want, 1_000_000_000) },
    )
}

// the term at this place in the square of x^200 + .. + 1
fn square_term(place: u32) -> Result<Term<Integers, Line>, DegreeBound>
    requires { place ≤ 400 }
    ensures belongs { IfOk result (λ t. unsigned_abs t.coef ≤ greatest_norm) }
    ensures degree { IfOk result (λ t. degree (vector_of 1 t.mono.word) ≤ limit_of 1) }
{
    let mono = Line::pack(&[400 - place])?;
    let least = place.min(400 - place);
    Ok(TermOf {
        mono,
        coef: least as i128 + 1,
    })
}

// the terms of the square
fn square(alloc: Global) -> Result<Vec<Term<Integers, Line>>, Fail>
    ensures belongs { IfOk result (λ v. All (λ t. unsigned_abs t.coef ≤ greatest_norm) v.items) }
    ensures degrees { IfOk result (λ v. All (λ t. degree (vector_of 1 t.mono.word) ≤ limit_of 1) v.items) }
{
    let mut out = Vec::new(alloc);
    for i in 0..401u32 {
        let term = square_term(i)?;
        out.push(term)?;
    }
    Ok(out)
}

#[test]
fn full_at_the_third_push(rt: HostRuntime) -> Result<(), Fail> {
    let alloc = rt.alloc();
    let f = binomial(alloc, 1, 1, 1)?;
    let g = binomial(alloc, 1, 1, -1)?;
    let (ring, mut writer, mut reader) = hire(alloc, &f, &g, 0, 2)?;
    let list = first_notes(&ring)?;
    let sent = push_from(&mut writer, &ring, &list, 0);
    assert_eq!(rt; sent, 2);
    let Ok(NoteOf::Term(t)) = reader.pop(&ring) else {
        panic!(rt; "the first term")
    };
    assert!(rt; t.mono.exponent(0) == 2 && t.coef == 1);
    let Ok(NoteOf::Term(t)) = reader.pop(&ring) else {
        panic!(rt; "the second term")
    };
    assert!(rt; t.mono.exponent(0) == 1 && t.coef == -1);
    let sent = push_from(&mut writer, &ring, &list, sent);
    assert_eq!(rt; sent, 3);
    let Ok(NoteOf::End) = reader.pop(&ring) else {
        panic!(rt; "the end")
    };
    let Err(Empty) = reader.pop(&ring) else {
        panic!(rt; "nothing after the end")
    };
    reader.meet(&ring, &mut writer);
    writer.meet(&ring, &mut reader);
    Ok(())
}

#[test]
fn two_threads_over_two_places(rt: HostRuntime) -> Result<(), Fail> {
    let alloc = rt.alloc();
    let zero = Line::pack(&[0])?;
    let unit = [TermOf {
        mono: zero,
        coef: 1,
    }];
    let f = Poly::<Integers, Line>::from_terms(alloc, Integers, square(alloc)?)?;
    let g = Poly::<Integers, Line>::from_terms(alloc, Integers, unit.to_vec(alloc)?)?;
    let script = Script::Product {
        f: &f,
        g: &g,
        workers: 1,
        worker: 0,
    };
    let made = Ring::new(alloc, Integers, 2, &script)?;
    let (ring, writer, reader) = made;
    let list = whole_list::<Integers, Line>(alloc, f.terms())?;
    let (all, taken) = across(&rt, alloc, &ring, writer, reader, &list);
    let taken = taken?;
    assert!(rt; all && taken.len() == 402);
    for i in 0..401 {
        let NoteOf::Term(t) = taken[i] else {
            panic!(rt; "a term")
        };
        let least = i.min(400 - i);
        assert!(rt; t.mono.exponent(0) as usize == 400 - i && t.coef == least as i128 + 1);
    }
    assert!(rt; matches!(taken[401], NoteOf::End));
    Ok(())
}
