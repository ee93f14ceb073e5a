//! How an advance of a worker ends.

use coeff_ring::CoeffRing;
use global_heap::Advanced;
use packed_monomial::Monomial;

/// The worker's end is sent, or its last push found the ring full. Then comes the receipt of the merge's last advance by this worker in the call, or none, where the turnstile was held at each of so many tries as `PATIENCE`.
#[derive(Drop)]
pub enum Stop<R: CoeffRing, M: Monomial> {
    Ended,
    Full(Option<Advanced<R, M>>),
}
