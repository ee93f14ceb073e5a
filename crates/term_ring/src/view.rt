//! What a seat of the table knows.
use std::collections::LinkedList;

/// Whose seat it is.
pub enum Kind {
    /// A seat that was joined: nothing is said of it.
    Spent,
    /// The table's first seat, before the reader's is split off.
    First,
    Writing,
    Reading,
    /// It has a copy of what was sent.
    SentCopy,
    /// It has a copy of what was taken.
    TakenCopy,
}

/// The view of one seat, for contracts alone: no value of it is made. The table of a ring and that of a row have it, each with its own kinds of seats.
pub struct View<K, N, C> {
    pub kind: K,
    /// What the notes are of: the script of a ring, or what a row is for.
    pub subject: Option<C>,
    pub places: u64,
    /// What the end sent or took, or the copy.
    pub notes: LinkedList<N>,
    /// The other end's word, as the end saw it last.
    pub seen: u64,
    /// A count of the end's loads of that word: of those in vain by an end of a ring, which found no room or no note, and of all by a reader of a row.
    pub looks: u64,
    /// The first words of the next place, as far as the writer knows or has stored them, or the reader has read them.
    pub words: LinkedList<u64>,
    /// What the other end had sent, or taken, when the two last met.
    pub told: LinkedList<N>,
}
