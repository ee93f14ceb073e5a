//! The calls of a merge that has begun, and what is known of it while it is shared.
ghost use Rattle.std.specs.Prelude.{◌≡◌, ◌+◌, ◌<◌, ◌≤◌, ℕ, List, ◌++◌, map, length, slice_index_or};
ghost use mathlib.Core.List.{IsPrefix};
ghost use Rattle.sdmp_laws.specs.Poly.{Term};
ghost use Rattle.whole_laws.specs.Wholes.{MergeWhole};
ghost use Rattle.term_ring.specs.Carried.{Carries};
ghost use Rattle.term_ring.specs.Spelling.{notes_of};
ghost use Rattle.term_ring.specs.Ends.{IsWriterOf, script_in, sent, head_seen};
ghost use Rattle.term_ring.specs.Names.{RingName, NoneBelow, notes_count, ring_name, NoneBelow-itself};
ghost use Rattle.global_heap.specs.Merges.{IsCause, IsSound, IsOwed, taken_of};
ghost use Rattle.global_heap.specs.Reached.{merge_name, merge_reached};

use crate::answer::Advance;
use crate::merge::Merge;
use crate::receipt::Advanced;
use coeff_ring::CoeffRing;
use packed_monomial::Monomial;
use std::snapshot::Snapshot;
use step_count::Steps;
use term_ring::{Ring, Writer};
use turnstile::Named;

impl<R: CoeffRing, M: Monomial> Named for Merge<R, M> {
    ghost naming = { List RingName };

    ghost reaching = { List ℕ };

    ghost name = { merge_name };

    ghost reached = { merge_reached };

    ghost follows = { NoneBelow };

    ghost whole = { IsSound M.LIM };

    ghost follows_itself = { NoneBelow-itself };
}

impl<R: CoeffRing, M: Monomial> Merge<R, M> {
    /// What always holds of a merge, whoever has it: what it emitted, its heads, and what the workers owe after the notes that were taken add up to the product; what it emitted begins the product's list of terms; and a head is the last term that its reader took. The call does nothing.
    pub fn whole(&self)
        ensures whole { MergeWhole self.now.state }
        ensures sound { IsSound M.LIM self.now }
        ensures order { self.now.state.product.ord ≡ M.order }
        ensures variables { self.now.state.product.n ≡ M.VARS }
    {
        let _taken = self.taken;
    }

    /// Takes notes from the rings, which are those of the readers in order, and emits terms, until
    /// each end was taken and no head is left (`Done`),
    /// a worker that has neither a head nor its end has an empty ring (`NeedsRing`, the first such worker), or
    /// the next term has no room (`OutFull`).
    ///
    /// A term is emitted only when each worker has a head or has ended, so its coefficient is final. It allocates nothing.
    pub fn advance(&mut self, rings: &[Ring<R, M>], steps: &mut Steps) -> Advanced<R, M>
        requires rings { self.old.rings ≡ map ring_name rings.now }
        ensures rings { self.new.rings ≡ self.old.rings }
        ensures taken { (w : ℕ) → IsPrefix (taken_of self.old w) (taken_of self.new w) }
        ensures reached { NoneBelow (merge_reached self.old) (merge_reached self.new) }
        ensures emitted { (more : List Term) × (self.new.state.out ≡ self.old.state.out ++ more) × (self.new.spare + length more ≡ self.old.spare) }
        ensures tails { NoneBelow self.old.tails self.new.tails }
        ensures looks { NoneBelow self.old.looks self.new.looks }
        ensures cause { IsCause self.old self.new result.answer }
        ensures moved { result.answer ≡ Advance.OutFull → 0 < self.old.spare → notes_count self.old.state.taken < notes_count self.new.state.taken }
        ensures notes { result.notes ≡ notes_count self.new.state.taken }
        ensures receipt { result.merge.value ≡ self.new }
    {
        self.whole();
        let answer = self.run(rings, steps);
        Advanced {
            answer,
            notes: self.taken(),
            merge: Snapshot::of(self),
        }
    }

    /// Lets the reader of the worker and its writer meet, so that what the writer had sent is found by later advances, and room that the reader had made is found by later pushes. It allocates nothing.
    pub fn meet(&mut self, ring: &Ring<R, M>, worker: u32, writer: &mut Writer<R, M>)
        requires worker { worker < self.old.state.workers }
        requires ring { (d : RingName) → slice_index_or self.old.rings worker d ≡ ring_name ring.now }
        requires writer { IsWriterOf ring.now writer.old }
        ensures state { self.new.state ≡ self.old.state }
        ensures rings { self.new.rings ≡ self.old.rings }
        ensures spare { self.new.spare ≡ self.old.spare }
        ensures tails { NoneBelow self.old.tails self.new.tails }
        ensures writer { IsWriterOf ring.now writer.new }
        ensures sent { sent writer.new ≡ sent writer.old }
        ensures head { head_seen writer.old ≤ head_seen writer.new }
        ensures prefix { IsPrefix (taken_of self.new worker) (notes_of M.vector R.value (sent writer.new)) }
        ensures reader_seen { length (sent writer.new) ≤ slice_index_or self.new.tails worker 0 }
        ensures writer_seen { length (taken_of self.new worker) ≤ head_seen writer.new }
        ensures owed { Carries M.vector R.value (script_in ring.now) (sent writer.new) → IsOwed self.new worker (notes_of M.vector R.value (sent writer.new)) }
    {
        self.readers[worker as usize].meet(ring, writer);
    }
}
