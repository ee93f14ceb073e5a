//! The product of x + 1 and x - 1 by two workers: the ring of each, and what it sends.
ghost use Rattle.std.specs.Prelude.{◌≡◌, ◌≤◌, ◌<◌, [], All, IfOk, pos, negsuc, unsigned_abs};
ghost use Rattle.sdmp_laws.specs.Limits.{greatest_norm};
ghost use Rattle.packed_monomial.specs.Packing.{vector_of};
ghost use Rattle.whole_laws.specs.Notes.{ProductScript};
ghost use Rattle.term_ring.specs.Carried.{Fits, Carries};
ghost use Rattle.term_ring.specs.Ends.{IsWriterOf, IsReaderOf, script_in, sent, taken};
ghost use Rattle.global_heap.specs.Examples.{squares};
ghost use Rattle.thread_tests.specs.Examples.{two_terms};

use crate::lines::Line;
use canonical_terms::{Poly, TermOf};
use coeff_ring::Integers;
use packed_monomial::{DegreeBound, Monomial};
use std::alloc::Global;
use std::test::Fail;
use term_ring::{Note, NoteOf, Reader, Ring, Script, Writer};

/// The ring of one of the two workers, of so many places, with its ends.
pub fn hire(
    alloc: Global,
    f: &Poly<Integers, Line>,
    g: &Poly<Integers, Line>,
    worker: u32,
    places: u32,
) -> Result<
    (
        Ring<Integers, Line>,
        Writer<Integers, Line>,
        Reader<Integers, Line>,
    ),
    Fail,
>
    requires modulus { f.now.modulus ≡ 0 }
    requires f { f.now.list ≡ two_terms (pos 1) 1 (pos 1) }
    requires g { g.now.list ≡ two_terms (pos 1) 1 (negsuc 0) }
    requires places { 0 < places }
    ensures script { IfOk result (λ t. script_in t.0 ≡ ProductScript squares 2 worker) }
    ensures writer { IfOk result (λ t. IsWriterOf t.0 t.1) }
    ensures reader { IfOk result (λ t. IsReaderOf t.0 t.2) }
    ensures sent { IfOk result (λ t. sent t.1 ≡ []) }
    ensures taken { IfOk result (λ t. taken t.2 ≡ []) }
{
    let script = Script::Product {
        f,
        g,
        workers: 2,
        worker,
    };
    let made = Ring::new(alloc, Integers, places, &script)?;
    Ok(made)
}

/// What the first worker sends: x^2, -x and the end.
pub fn first_notes(ring: &Ring<Integers, Line>) -> Result<[Note<Integers, Line>; 3], DegreeBound>
    requires { script_in ring.now ≡ ProductScript squares 2 0 }
    ensures fits { IfOk result (λ l. All (Fits (λ _ a. unsigned_abs a ≤ greatest_norm) (script_in ring.now)) l) }
    ensures carries { IfOk result (λ l. Carries (λ m. vector_of 1 m.word) (λ a. a) (script_in ring.now) l) }
{
    let two = Line::pack(&[2])?;
    let one = Line::pack(&[1])?;
    Ok([
        NoteOf::Term(TermOf { mono: two, coef: 1 }),
        NoteOf::Term(TermOf {
            mono: one,
            coef: -1,
        }),
        NoteOf::End,
    ])
}

/// What the second worker sends: x, -1 and the end.
pub fn second_notes(ring: &Ring<Integers, Line>) -> Result<[Note<Integers, Line>; 3], DegreeBound>
    requires { script_in ring.now ≡ ProductScript squares 2 1 }
    ensures fits { IfOk result (λ l. All (Fits (λ _ a. unsigned_abs a ≤ greatest_norm) (script_in ring.now)) l) }
    ensures carries { IfOk result (λ l. Carries (λ m. vector_of 1 m.word) (λ a. a) (script_in ring.now) l) }
{
    let one = Line::pack(&[1])?;
    let zero = Line::pack(&[0])?;
    Ok([
        NoteOf::Term(TermOf { mono: one, coef: 1 }),
        NoteOf::Term(TermOf {
            mono: zero,
            coef: -1,
        }),
        NoteOf::End,
    ])
}
