//! The merge.
ghost use Rattle.std.specs.Prelude.{◌≡◌, ◌<◌, ◌≤◌, ◌^◌, ◌↔◌, [], map, replicate, length, vec_len, IfOk, OnOk, OnErr, IsTrue, All};
ghost use Rattle.sdmp_laws.specs.Poly.{terms, times};
ghost use Rattle.whole_laws.specs.Wholes.{merge_start, IsMergeDone};
ghost use Rattle.term_ring.specs.Ends.{taken, tail_seen, empty_looks};
ghost use Rattle.term_ring.specs.Names.{reader_name, IsReading, notes_count};
ghost use Rattle.global_heap.specs.Names.{first_product, HasScripts, IsFit};

use canonical_terms::{Poly, Term};
use coeff_ring::CoeffRing;
use packed_monomial::Monomial;
use ring_heads::Heads;
use sdmp_laws::NoMemory;
use std::alloc::Global;
use std::marker::Model;
use term_ring::Reader;

/// The shared merge of the workers of a product.
///
/// It holds a reader for each worker's ring, at most one term of each, which is the last that was taken, and the terms that it has emitted. These, with the terms that the workers still owe, always add up to the product, and what is emitted begins the product's list of terms.
#[derive(Drop)]
pub struct Merge<R: CoeffRing, M: Monomial> {
    pub(crate) coefficients: R,
    pub(crate) readers: Vec<Reader<R, M>>,
    pub(crate) heads: Heads<R, M>,
    pub(crate) out: Vec<Term<R, M>>,
    // how many notes the readers have taken
    pub(crate) taken: u64,
}

impl<R: CoeffRing, M: Monomial> Model for Merge<R, M> {
    ghost use Rattle.std.specs.Prelude.{◌-◌, vec_len, vec_capacity};
    ghost use Rattle.global_heap.specs.Merges.{MergeView};
    ghost use Rattle.global_heap.specs.Inside.{merge_view, IsMerge};

    ghost Value = { MergeView };

    ghost view = { λ m. merge_view M.vector R.value m.readers.items m.heads m.out.items (vec_capacity m.out - vec_len m.out) };

    ghost invariant = { λ m. IsMerge M.vector R.value R.belongs M.order M.VARS M.LIM (R.characteristic m.coefficients) m.readers.items m.heads m.out.items m.taken };
}

impl<R: CoeffRing, M: Monomial> Merge<R, M> {
    /// A merge of the readers of all workers of one product, in the order of their numbers, before anything is taken. There is no room for terms yet. The one refusal is want of memory.
    pub fn new(
        alloc: Global,
        coefficients: R,
        readers: Vec<Reader<R, M>>,
    ) -> Result<Merge<R, M>, NoMemory>
        requires some { 0 < vec_len readers }
        requires few { vec_len readers < 2 ^ 32 }
        requires scripts { HasScripts (first_product (map reader_name readers.items)) (map reader_name readers.items) }
        requires fit { IsFit M.LIM (first_product (map reader_name readers.items)) }
        requires order { (first_product (map reader_name readers.items)).ord ≡ M.order }
        requires variables { (first_product (map reader_name readers.items)).n ≡ M.VARS }
        requires modulus { (first_product (map reader_name readers.items)).p ≡ R.characteristic coefficients }
        requires reading { All IsReading readers.items }
        requires nothing { All (λ r. taken r ≡ []) readers.items }
        ensures state { IfOk result (λ m. m.state ≡ merge_start (first_product (map reader_name readers.items)) (vec_len readers)) }
        ensures rings { IfOk result (λ m. m.rings ≡ map reader_name readers.items) }
        ensures tails { IfOk result (λ m. m.tails ≡ map tail_seen readers.items) }
        ensures looks { IfOk result (λ m. m.looks ≡ map empty_looks readers.items) }
        ensures spare { IfOk result (λ m. m.spare ≡ 0) }
    {
        let Ok(heads) = Heads::new(alloc, readers.len() as u32) else {
            return Err(NoMemory);
        };
        Ok(Merge {
            coefficients,
            readers,
            heads,
            out: Vec::new(alloc),
            taken: 0,
        })
    }

    /// Makes room for at least `n` more terms. The room at least doubles where it grows.
    pub fn reserve(&mut self, n: usize) -> Result<(), NoMemory>
        ensures state { self.new.state ≡ self.old.state }
        ensures rings { self.new.rings ≡ self.old.rings }
        ensures tails { self.new.tails ≡ self.old.tails }
        ensures looks { self.new.looks ≡ self.old.looks }
        ensures room { OnOk result (n ≤ self.new.spare) }
        ensures kept { self.old.spare ≤ self.new.spare }
        ensures refused { OnErr result (self.new ≡ self.old) }
    {
        if self.out.reserve(n).is_err() {
            return Err(NoMemory);
        }
        Ok(())
    }

    /// For how many more terms there is room.
    pub fn spare(&self) -> usize
        ensures { result ≡ self.now.spare }
    {
        self.out.capacity() - self.out.len()
    }

    /// How many notes all readers have taken.
    pub fn taken(&self) -> u64
        ensures { result ≡ notes_count self.now.state.taken }
    {
        self.taken
    }

    /// Whether each end was taken and no head is left.
    pub fn is_done(&self) -> bool
        ensures { IsTrue result ↔ IsMergeDone self.now.state }
    {
        self.heads.all_ended()
    }

    /// The product, once the merge is done.
    pub fn finish(self) -> Poly<R, M>
        requires { IsMergeDone self.state }
        ensures modulus { result.modulus ≡ self.state.product.p }
        ensures product { result.list ≡ terms M.order self.state.product.p (times self.state.product.f self.state.product.g) }
    {
        let Merge {
            coefficients,
            readers: _readers,
            heads: _heads,
            out,
            taken: _,
        } = self;
        Poly::from_ordered(coefficients, out)
    }
}

fn is_send<T: Send>() {}

// threads hand a merge on to each other through a turnstile
fn merge_is_sent<R: CoeffRing, M: Monomial>() {
    is_send::<Merge<R, M>>();
}
