//! The receipt of an advance of a division's merge, and the tally of receipts.
ghost use Rattle.std.specs.Prelude.{◌≡◌, ◌+◌, min};
ghost use Rattle.divide_merge.specs.Merges.{IsDone};

use crate::answer::DivideAdvance;
use crate::merge::DivideMerge;
use coeff_ring::CoeffRing;
use packed_monomial::Monomial;
use std::snapshot::Snapshot;

/// The receipt of one advance. Only `DivideMerge::advance` makes one, and it can't be copied.
///
/// Contracts see in it the merge as it stood when that advance ended, and so which division it is of.
#[derive(Drop)]
pub struct DivideAdvanced<R: CoeffRing, M: Monomial> {
    pub(crate) answer: DivideAdvance<R, M>,
    pub(crate) terms: u64,
    pub(crate) merge: Snapshot<DivideMerge<R, M>>,
}

impl<R: CoeffRing, M: Monomial> DivideAdvanced<R, M> {
    /// Why the advance ended.
    pub fn answer(&self) -> DivideAdvance<R, M>
        ensures { result ≡ self.now.answer }
    {
        self.answer
    }

    /// How many quotient terms the merge had found when it ended.
    pub fn terms(&self) -> u64
        ensures { result ≡ self.now.terms }
    {
        self.terms
    }
}

/// How many divisions were done, and how many quotient terms they found. Both counts stop at their last value.
#[derive(Drop)]
pub struct DivideTally {
    divisions: u64,
    terms: u64,
}

impl DivideTally {
    pub fn new() -> DivideTally
        ensures divisions { result.divisions ≡ 0 }
        ensures terms { result.terms ≡ 0 }
    {
        DivideTally {
            divisions: 0,
            terms: 0,
        }
    }

    /// How many divisions were done.
    pub fn divisions(&self) -> u64
        ensures { result ≡ self.now.divisions }
    {
        self.divisions
    }

    /// How many quotient terms they found.
    pub fn terms(&self) -> u64
        ensures { result ≡ self.now.terms }
    {
        self.terms
    }

    /// Counts one more division, of which this is the last receipt.
    pub fn add<R: CoeffRing, M: Monomial>(&mut self, last: DivideAdvanced<R, M>)
        requires { IsDone last.answer }
        ensures divisions { self.new.divisions ≡ min (self.old.divisions + 1) u64.MAX }
        ensures terms { self.new.terms ≡ min (self.old.terms + last.terms) u64.MAX }
    {
        self.divisions = self.divisions.saturating_add(1);
        self.terms = self.terms.saturating_add(last.terms);
    }
}
