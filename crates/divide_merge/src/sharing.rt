//! The calls of a merge of a division that has begun, and what is known of it while it is shared.
ghost use Rattle.std.specs.Prelude.{◌≡◌, ◌≤◌, ◌<◌, ℕ, map, length, slice_index_or, Some};
ghost use mathlib.Core.List.{IsPrefix};
ghost use Rattle.term_ring.specs.Carried.{Carries};
ghost use Rattle.term_ring.specs.Spelling.{notes_of};
ghost use Rattle.term_ring.specs.Ends.{IsWriterOf, script_in, sent, head_seen};
ghost use Rattle.term_ring.specs.Names.{RingName, NoneBelow, ring_name};
ghost use Rattle.quotient_row.specs.Ends as row_ends;
ghost use Rattle.quotient_row.specs.Spelling as row_notes;
ghost use Rattle.divide_merge.specs.Names.{row_identity};
ghost use Rattle.divide_merge.specs.Verdicts.{Verdict, kept_of};
ghost use Rattle.divide_merge.specs.Merges.{IsSound, IsCause, Grows, IsOwed, taken_of, verdict_of};
ghost use Rattle.divide_merge.specs.Reached.{DivideName, DivideReach, divide_name, divide_reached, Follows, Follows-itself};

use crate::merge::DivideMerge;
use crate::receipt::DivideAdvanced;
use coeff_ring::CoeffRing;
use packed_monomial::Monomial;
use quotient_row::{Row, RowReader};
use std::snapshot::Snapshot;
use step_count::Steps;
use term_ring::{Ring, Writer};
use turnstile::Named;

impl<R: CoeffRing, M: Monomial> Named for DivideMerge<R, M> {
    ghost naming = { DivideName };

    ghost reaching = { DivideReach };

    ghost name = { divide_name };

    ghost reached = { divide_reached };

    ghost follows = { Follows };

    ghost whole = { IsSound M.LIM };

    ghost follows_itself = { Follows-itself };
}

impl<R: CoeffRing, M: Monomial> DivideMerge<R, M> {
    /// What always holds of a merge, whoever has it. The call does nothing.
    pub fn whole(&self)
        ensures sound { IsSound M.LIM self.now }
        ensures order { self.now.run.state.division.ord ≡ M.order }
        ensures variables { self.now.run.state.division.n ≡ M.VARS }
    {
        let _read = self.read;
    }

    /// Takes notes from the rings, which are those of the readers in order, finds the next terms of the quotient and of the remainder, and publishes the quotient terms, until
    /// all is read and no worker owes a product (`Finished`),
    /// no quotient term takes away a coefficient of an exact division (`NoQuotient`),
    /// the next quotient term passes a bound (`PassedBound`, `PassedTerms`),
    /// a worker without a head has to tell more, and its ring is empty (`Blocked`, the first such worker; a front that is due is published before),
    /// a front or a quotient term is due for which the row has no place (`RowFull`), or
    /// a term is due for which there is no room (`OutFull`).
    ///
    /// A merge that is over gives the answer again that it ended with. It allocates nothing.
    pub fn advance(
        &mut self,
        rings: &[Ring<R, M>],
        row: &Row<R, M>,
        steps: &mut Steps,
    ) -> DivideAdvanced<R, M>
        requires rings { self.old.rings ≡ map ring_name rings.now }
        requires row { self.old.row ≡ row_identity row.now }
        ensures grows { Grows self.old self.new }
        ensures reached { Follows (divide_reached self.old) (divide_reached self.new) }
        ensures cause { IsCause self.old self.new (verdict_of M.vector R.value result.answer) }
        ensures over { self.new.answer ≡ kept_of (verdict_of M.vector R.value result.answer) }
        ensures again { (x : Verdict) → self.old.answer ≡ Some x → self.new ≡ self.old }
        ensures terms { result.terms ≡ length self.new.run.state.q }
        ensures receipt { result.merge.value ≡ self.new }
    {
        self.whole();
        let answer = self.answer(rings, row, steps);
        DivideAdvanced {
            answer,
            terms: self.q.len() as u64,
            merge: Snapshot::of(self),
        }
    }

    /// Lets the reader of the worker and its writer meet, so that what the writer had sent is found by later advances, and room that the reader had made is found by later pushes; and lets the worker's reader of the row meet the row's writer, so that what is published is found by later looks. It allocates nothing.
    pub fn meet(
        &mut self,
        ring: &Ring<R, M>,
        row: &Row<R, M>,
        worker: u32,
        writer: &mut Writer<R, M>,
        reader: &mut RowReader<R, M>,
    )
        requires worker { worker < self.old.run.state.workers }
        requires ring { (d : RingName) → slice_index_or self.old.rings worker d ≡ ring_name ring.now }
        requires row { self.old.row ≡ row_identity row.now }
        requires writer { IsWriterOf ring.now writer.old }
        requires reader { row_ends.IsReaderOf row.now reader.old }
        ensures run { self.new.run ≡ self.old.run }
        ensures answer { self.new.answer ≡ self.old.answer }
        ensures spare { self.new.spare ≡ self.old.spare }
        ensures rings { self.new.rings ≡ self.old.rings }
        ensures row { self.new.row ≡ self.old.row }
        ensures tails { NoneBelow self.old.tails self.new.tails }
        ensures writer { IsWriterOf ring.now writer.new }
        ensures sent { sent writer.new ≡ sent writer.old }
        ensures head { head_seen writer.old ≤ head_seen writer.new }
        ensures prefix { IsPrefix (taken_of self.new worker) (notes_of M.vector R.value (sent writer.new)) }
        ensures reader_seen { length (sent writer.new) ≤ slice_index_or self.new.tails worker 0 }
        ensures writer_seen { length (taken_of self.new worker) ≤ head_seen writer.new }
        ensures owed { Carries M.vector R.value (script_in ring.now) (sent writer.new) → IsOwed self.new worker (notes_of M.vector R.value (sent writer.new)) }
        ensures reader { row_ends.IsReaderOf row.now reader.new }
        ensures known { row_ends.known reader.new ≡ row_ends.known reader.old }
        ensures count { row_ends.count_seen reader.old ≤ row_ends.count_seen reader.new }
        ensures seen { length self.new.run.notes ≤ row_ends.count_seen reader.new }
        ensures told { row_notes.notes_of M.vector R.value (row_ends.told_published reader.new) ≡ self.new.run.notes }
        ensures published { IsPrefix (row_notes.notes_of M.vector R.value (row_ends.known reader.new)) self.new.run.notes }
    {
        self.readers[worker as usize].meet(ring, writer);
        reader.meet(row, &mut self.writer);
    }
}
