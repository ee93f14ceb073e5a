//! A product by workers, and why there is none.

use canonical_terms::Poly;
use coeff_ring::CoeffRing;
use global_heap::Advanced;
use packed_monomial::Monomial;

/// A product, the number of rounds that it took, and the receipt of the merge's last advance.
#[derive(Drop)]
pub struct Product<R: CoeffRing, M: Monomial> {
    pub poly: Poly<R, M>,
    pub rounds: u64,
    pub last: Advanced<R, M>,
}

/// Why there is no product: the sum of the degrees is above the monomials' limit, or over the integers the product of the norms `left` and `right` is above 2^127 - 1, or memory is wanting.
#[derive(Clone, Copy, Debug, PartialEq, Eq, Drop)]
pub enum MulFault {
    DegreeBound { sum: u64 },
    CoefficientBound { left: u128, right: u128 },
    NoMemory,
}
