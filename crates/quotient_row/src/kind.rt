//! The kinds of seats of a row's table.

/// Whose seat it is.
pub enum Kind {
    /// A seat that was joined: nothing is said of it.
    Spent,
    Publishing,
    Looking,
    /// It has a copy of what was published or known.
    Copied,
}
