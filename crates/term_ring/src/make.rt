//! How a ring is made.
ghost use Rattle.std.specs.Prelude.{◌≡◌, ◌<◌, ◌≤◌, [], IfOk};
ghost use Rattle.term_ring.specs.Plain.{modulus_of};
ghost use Rattle.term_ring.specs.Scripts.{script_of};
ghost use Rattle.term_ring.specs.Ends.{IsWriterOf, IsReaderOf, script_in, places_of, sent, taken, head_seen, full_looks, tail_seen, empty_looks, told_sent};

use crate::ring::{End, NOTES, Reader, Ring, Writer};
use crate::scalars::Scalars;
use crate::script::{Plan, Script};
use crate::steps::{Key, Part};
use atomic_table::Table;
use coeff_ring::CoeffRing;
use packed_monomial::Monomial;
use sdmp_laws::NoMemory;
use std::alloc::Global;
use std::snapshot::Snapshot;

impl<R: CoeffRing, M: Monomial> Ring<R, M> {
    /// A ring of so many places, at least 1, for the notes of the script, with its writer and its reader. Nothing is sent. The one refusal is want of memory.
    pub fn new(
        alloc: Global,
        coefficients: R,
        places: u32,
        script: &Script<'_, R, M>,
    ) -> Result<(Ring<R, M>, Writer<R, M>, Reader<R, M>), NoMemory>
        requires places { 0 < places }
        requires coefficients { R.characteristic coefficients ≡ modulus_of (script_of M.order M.VARS script.now) }
        ensures script { IfOk result (λ t. script_in t.0 ≡ script_of M.order M.VARS script.now) }
        ensures places { IfOk result (λ t. places_of t.0 ≡ places) }
        ensures writer { IfOk result (λ t. IsWriterOf t.0 t.1) }
        ensures reader { IfOk result (λ t. IsReaderOf t.0 t.2) }
        ensures sent { IfOk result (λ t. sent t.1 ≡ []) }
        ensures taken { IfOk result (λ t. taken t.2 ≡ []) }
        ensures head { IfOk result (λ t. (head_seen t.1 ≡ 0) × (full_looks t.1 ≡ 0)) }
        ensures tail { IfOk result (λ t. (tail_seen t.2 ≡ 0) × (empty_looks t.2 ≡ 0)) }
        ensures told { IfOk result (λ t. told_sent t.2 ≡ []) }
    {
        let plan = Plan::of(script);
        let key = Key {
            script: Snapshot::of(&plan),
            places: places as u64,
        };
        let Ok(words) = Vec::from_elem(alloc, 0u64, NOTES + 5 * places as usize) else {
            return Err(NoMemory);
        };
        let Ok(made) = Table::of_words(alloc, words.as_slice(), &key) else {
            return Err(NoMemory);
        };
        let (table, mut first) = made;
        let other = table.shared.split_seat::<Part>(&mut first);
        let writer = Writer {
            end: End {
                seat: first,
                script: Snapshot::of(&plan),
                places: places as u64,
                number: 0,
                slot: 0,
                seen: 0,
            },
        };
        let reader = Reader {
            end: End {
                seat: other,
                script: Snapshot::of(&plan),
                places: places as u64,
                number: 0,
                slot: 0,
                seen: 0,
            },
        };
        let ring = Ring {
            table,
            scalars: Scalars::new(coefficients),
        };
        Ok((ring, writer, reader))
    }
}
