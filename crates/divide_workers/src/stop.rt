//! How an advance of a dividing worker ends.

use coeff_ring::CoeffRing;
use divide_merge::DivideAdvanced;
use packed_monomial::Monomial;

/// The worker's last push found its ring full, or its last look found no note of the row that it doesn't know, and nothing that it knows may be sent before there is one.
///
/// Then comes the receipt of the merge's last advance by this worker in its last wait, or none, where the turnstile was held at each of so many tries as `PATIENCE`. A worker without a part of the divisor waits for nothing: it ends at once, with none.
#[derive(Drop)]
pub enum DivideStop<R: CoeffRing, M: Monomial> {
    Full(Option<DivideAdvanced<R, M>>),
    Waiting {
        known: u32,
        merged: Option<DivideAdvanced<R, M>>,
    },
}
