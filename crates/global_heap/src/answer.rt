//! The answers of a merge.

/// Why an advance of a merge ended.
#[derive(Clone, Copy, Debug, PartialEq, Eq, Drop)]
pub enum Advance {
    /// The end of each ring was taken, and all terms are emitted.
    Done,
    /// The worker with this number has neither a head nor its end, and its ring was empty.
    NeedsRing(u32),
    /// The next term has no room.
    OutFull,
}
