//! The receipt of an advance, and the tally of receipts.
ghost use Rattle.std.specs.Prelude.{◌≡◌, ◌+◌, min};

use crate::answer::Advance;
use crate::merge::Merge;
use coeff_ring::CoeffRing;
use packed_monomial::Monomial;
use std::snapshot::Snapshot;

/// The receipt of one advance. Only `Merge::advance` makes one, and it can't be copied.
///
/// Contracts see in it the merge as it stood when that advance ended, and so which product it is of.
#[derive(Drop)]
pub struct Advanced<R: CoeffRing, M: Monomial> {
    pub(crate) answer: Advance,
    pub(crate) notes: u64,
    pub(crate) merge: Snapshot<Merge<R, M>>,
}

impl<R: CoeffRing, M: Monomial> Advanced<R, M> {
    /// Why the advance ended.
    pub fn answer(&self) -> Advance
        ensures { result ≡ self.now.answer }
    {
        self.answer
    }

    /// How many notes all readers of the merge had taken when it ended.
    pub fn notes(&self) -> u64
        ensures { result ≡ self.now.notes }
    {
        self.notes
    }
}

/// How many merges were done, and how many notes they took. Both counts stop at their last value.
#[derive(Drop)]
pub struct MergeTally {
    products: u64,
    notes: u64,
}

impl MergeTally {
    pub fn new() -> MergeTally
        ensures products { result.products ≡ 0 }
        ensures notes { result.notes ≡ 0 }
    {
        MergeTally {
            products: 0,
            notes: 0,
        }
    }

    /// How many merges were done.
    pub fn products(&self) -> u64
        ensures { result ≡ self.now.products }
    {
        self.products
    }

    /// How many notes they took.
    pub fn notes(&self) -> u64
        ensures { result ≡ self.now.notes }
    {
        self.notes
    }

    /// Counts one more merge, of which this is the last receipt.
    pub fn add<R: CoeffRing, M: Monomial>(&mut self, last: Advanced<R, M>)
        requires { last.answer ≡ Advance.Done }
        ensures products { self.new.products ≡ min (self.old.products + 1) u64.MAX }
        ensures notes { self.new.notes ≡ min (self.old.notes + last.notes) u64.MAX }
    {
        self.products = self.products.saturating_add(1);
        self.notes = self.notes.saturating_add(last.notes);
    }
}
