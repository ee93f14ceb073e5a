//! The answer of a division by workers.

use coeff_ring::CoeffRing;
use divide_core::Division;
use divide_merge::DivideAdvanced;
use packed_monomial::Monomial;

/// The answer of a division, the number of rounds that it took, and the receipt of the merge's last advance.
#[derive(Drop)]
pub struct Divided<R: CoeffRing, M: Monomial> {
    pub answer: Division<R, M>,
    pub rounds: u64,
    pub last: DivideAdvanced<R, M>,
}
