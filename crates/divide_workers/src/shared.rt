//! What the workers of a round share.

use crate::ended::Ended;
use coeff_ring::CoeffRing;
use divide_merge::DivideMerge;
use packed_monomial::Monomial;
use quotient_row::Row;
use term_ring::Ring;
use turnstile::Turnstile;

/// The rings of all workers in order, the row, the turnstile around the merge, and whether a worker has ended.
#[derive(Drop)]
pub(crate) struct Shared<'r, R: CoeffRing, M: Monomial> {
    pub(crate) rings: &'r [Ring<R, M>],
    pub(crate) row: &'r Row<R, M>,
    pub(crate) turnstile: &'r Turnstile<DivideMerge<R, M>>,
    pub(crate) ended: &'r Ended,
}
