//! What a merge keeps of a worker's marks, and of the monomial that it reads next.

/// What the latest mark of a worker says: how many quotient terms the worker knows, and the greatest monomial of the known products that it hasn't sent.
#[derive(Clone, Copy)]
pub struct Mark<M> {
    pub known: u32,
    pub top: Option<M>,
}

/// The monomial that is read next, and whether an unread term and whether a head stands there.
#[derive(Clone, Copy)]
pub struct Next<M> {
    pub mono: M,
    pub unread: bool,
    pub headed: bool,
}
