//! What a seat of the table knows.

/// The view of one seat, for contracts alone: no value of it is made.
pub struct View<T> {
    /// The value with which the turnstile was made. Nothing in a view that is spent.
    pub made: Option<T>,
    /// Of the turnstile's own seat: how many passes are out.
    pub out: u64,
    pub is_pass: bool,
    pub inside: bool,
    pub entries: u64,
    /// How many tries found the turnstile held.
    pub busy: u64,
}
