//! The notes of a product pass from one thread to another.
ghost use Rattle.std.specs.Prelude.{◌≡◌, ◌≤◌, [], All, IfOk, unsigned_abs};
ghost use Rattle.sdmp_laws.specs.Limits.{greatest_norm};
ghost use Rattle.packed_monomial.specs.Packing.{vector_of};
ghost use Rattle.term_ring.specs.Carried.{Fits, Carries, whole};
ghost use Rattle.term_ring.specs.Ends.{IsWriterOf, IsReaderOf, script_in, sent};

use bound_check::product_room;
use canonical_terms::{Poly, Term};
use coeff_ring::{CoeffRing, Integers};
use packed_monomial::{Monomial, Packed};
use row_merge::product;
use std::alloc::{AllocError, Global};
use std::io::ErrorKind;
use std::thread::Threads;
use std::time::{Clock, Instant};
use std::{io, thread};
use term_ring::{Note, NoteOf, Reader, Ring, Script, Writer};

/// The monomials of the notes.
pub type Quartet = Packed<4>;

/// Sends what the one worker of a product of `f` and `g` sends through a ring of so many places. It prints how many notes were sent and taken, and how many were taken a second.
pub fn measure_ring<T: Threads + Sync + Clock + Print + Eprint>(
    rt: &T,
    alloc: Global,
    f: &Poly<Integers, Quartet>,
    g: &Poly<Integers, Quartet>,
    places: u32,
) -> io::Result<()>
    requires moduli { f.now.modulus ≡ g.now.modulus }
{
    let Ok(()) = product_room(f, g) else {
        return Err(ErrorKind::InvalidData.into());
    };
    let Ok(poly) = product(alloc, f, g) else {
        return Err(ErrorKind::OutOfMemory.into());
    };
    let notes = notes_of::<Integers, Quartet>(alloc, poly.terms())?;
    let script = Script::Product {
        f,
        g,
        workers: 1,
        worker: 0,
    };
    let Ok(made) = Ring::new(alloc, f.ring(), places.max(1), &script) else {
        return Err(ErrorKind::OutOfMemory.into());
    };
    let (ring, writer, reader) = made;
    let start = Instant::now(rt)?;
    let (sent, taken) = across(rt, &ring, writer, reader, &notes);
    let nanos = start.elapsed(rt)?.as_nanos().max(1);
    println!(rt; "{sent} notes sent, {taken} taken")?;
    let rate = taken as u128 * 1_000_000_000 / nanos;
    eprintln!(rt; "{rate} notes a second")
}

// the terms, and then the end
fn notes_of<R: CoeffRing, M: Monomial>(
    alloc: Global,
    terms: &[Term<R, M>],
) -> Result<Vec<Note<R, M>>, AllocError>
    ensures { IfOk result (λ v. v.items ≡ whole terms.now) }
{
    let mut notes = Vec::with_capacity(alloc, terms.len())?;
    for i in 0..terms.len() {
        notes.push(NoteOf::Term(terms[i]))?;
    }
    notes.push(NoteOf::End)?;
    Ok(notes)
}

// a writer and a reader beside each other, and the numbers of notes sent and taken
fn across<T: Threads + Sync>(
    rt: &T,
    ring: &Ring<Integers, Quartet>,
    writer: Writer<Integers, Quartet>,
    reader: Reader<Integers, Quartet>,
    notes: &[Note<Integers, Quartet>],
) -> (usize, usize)
    requires writer { IsWriterOf ring.now writer }
    requires none { sent writer ≡ [] }
    requires reader { IsReaderOf ring.now reader }
    requires fits { All (Fits (λ _ a. unsigned_abs a ≤ greatest_norm) (script_in ring.now)) notes.now }
    requires carries { Carries (λ m. vector_of 4 m.word) (λ a. a) (script_in ring.now) notes.now }
{
    let want = notes.len();
    thread::join(
        rt,
        move || -> usize
            requires of { IsWriterOf ring.now writer }
            requires none { sent writer ≡ [] }
            requires fits { All (Fits (λ _ a. unsigned_abs a ≤ greatest_norm) (script_in ring.now)) notes.now }
            requires carries { Carries (λ m. vector_of 4 m.word) (λ a. a) (script_in ring.now) notes.now }
        { send_all(writer, ring, notes) },
        move || -> usize
            requires { IsReaderOf ring.now reader }
        { take_all(reader, ring, want) },
    )
}

// sends the notes, and gives the number of those that were sent
fn send_all<R: CoeffRing, M: Monomial>(
    writer: Writer<R, M>,
    ring: &Ring<R, M>,
    notes: &[Note<R, M>],
) -> usize
    requires of { IsWriterOf ring.now writer }
    requires none { sent writer ≡ [] }
    requires fits { All (Fits R.belongs (script_in ring.now)) notes.now }
    requires carries { Carries M.vector R.value (script_in ring.now) notes.now }
{
    let mut writer = writer;
    let mut sent = 0;
    for _ in 0..u64::MAX {
        if sent == notes.len() {
            break;
        }
        match writer.push(ring, notes[sent]) {
            Ok(()) => sent += 1,
            Err(_) => thread::yield_now(),
        }
    }
    sent
}

// takes so many notes, and gives the number of those that were taken
fn take_all<R: CoeffRing, M: Monomial>(
    reader: Reader<R, M>,
    ring: &Ring<R, M>,
    want: usize,
) -> usize
    requires { IsReaderOf ring.now reader }
{
    let mut reader = reader;
    let mut taken = 0;
    for _ in 0..u64::MAX {
        if taken >= want {
            break;
        }
        if reader.pop(ring).is_ok() {
            taken += 1;
        } else {
            thread::yield_now();
        }
    }
    taken
}
