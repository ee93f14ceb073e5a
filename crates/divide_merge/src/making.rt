//! How a merge of a division is made.
ghost use Rattle.std.specs.Prelude.{◌≡◌, ◌<◌, ◌^◌, [], map, length, vec_len, IfOk, MatchOption, All};
ghost use Rattle.sdmp_laws.specs.Division.{IsAccepted};
ghost use Rattle.division_laws.specs.Outcome.{division_of};
ghost use Rattle.term_ring.specs.Ends.{taken, tail_seen, empty_looks};
ghost use Rattle.term_ring.specs.Names.{reader_name, IsReading};
ghost use Rattle.quotient_row.specs.Ends.{published};
ghost use Rattle.divide_merge.specs.Names.{HasScripts, writer_row, IsPublishing};
ghost use Rattle.dividing_rounds.specs.Runs.{run_start};

use crate::divisor::divisor_of;
use crate::mark::Mark;
use crate::merge::DivideMerge;
use canonical_terms::Poly;
use coeff_ring::CoeffRing;
use packed_monomial::Monomial;
use quotient_row::RowWriter;
use ring_heads::Heads;
use sdmp_laws::{Mode, NoMemory};
use std::alloc::Global;
use term_ring::Reader;

impl<R: CoeffRing, M: Monomial> DivideMerge<R, M> {
    /// A merge of the readers of all workers of one division, in the order of their numbers, and of the writer of its first row, before anything is taken or published. It copies the terms of `f`. There is no room for terms yet. The one refusal is want of memory.
    pub fn new(
        alloc: Global,
        f: &Poly<R, M>,
        g: &Poly<R, M>,
        mode: Mode,
        readers: Vec<Reader<R, M>>,
        writer: RowWriter<R, M>,
    ) -> Result<DivideMerge<R, M>, NoMemory>
        requires moduli { f.now.modulus ≡ g.now.modulus }
        requires accepted { IsAccepted (division_of mode M.order M.VARS f.now g.now) }
        requires few_dividend { length f.now.list < 2 ^ 30 }
        requires few_divisor { length g.now.list < 2 ^ 30 }
        requires some { 0 < vec_len readers }
        requires few { vec_len readers < 2 ^ 32 }
        requires scripts { HasScripts (division_of mode M.order M.VARS f.now g.now) (map reader_name readers.items) }
        requires reading { All IsReading readers.items }
        requires nothing { All (λ r. taken r ≡ []) readers.items }
        requires publishing { IsPublishing writer }
        requires row { (writer_row writer).name ≡ record { division = division_of mode M.order M.VARS f.now g.now; start = 0 } }
        requires unpublished { published writer ≡ [] }
        ensures run { IfOk result (λ m. m.run ≡ run_start (division_of mode M.order M.VARS f.now g.now) (vec_len readers)) }
        ensures answer { IfOk result (λ m. m.answer ≡ None) }
        ensures rings { IfOk result (λ m. m.rings ≡ map reader_name readers.items) }
        ensures row { IfOk result (λ m. m.row ≡ writer_row writer) }
        ensures tails { IfOk result (λ m. m.tails ≡ map tail_seen readers.items) }
        ensures looks { IfOk result (λ m. m.looks ≡ map empty_looks readers.items) }
        ensures spare { IfOk result (λ m. m.spare ≡ 0) }
    {
        let coefficients = g.ring();
        let divisor = divisor_of(f, g, mode);
        let dividend = f.copy(alloc)?;
        let heads = Heads::new(alloc, readers.len() as u32)?;
        let none = Mark {
            known: 0,
            top: None,
        };
        let marks = Vec::from_elem(alloc, none, readers.len())?;
        Ok(DivideMerge {
            coefficients,
            divisor,
            dividend,
            read: 0,
            readers,
            marks,
            heads,
            q: Vec::new(alloc),
            r: Vec::new(alloc),
            norm: 0,
            spare: 0,
            writer,
            front: None,
            last: None,
            over: None,
            taken: 0,
            fronts: 0,
            processed: 0,
        })
    }
}
