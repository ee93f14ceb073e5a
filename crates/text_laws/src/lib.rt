//! Polynomial text: its grammar, what it denotes, the canonical text of a polynomial, and the laws over them.
//!
//! A law is a function without argument or value: its contract is the law.
#![tactic(auto)]

ghost use Rattle.text_laws.specs.Laws.{AutomatonAccepts, AutomatonLives, OneTree, OnePlace, OneReading, DenotesIs, TextReads, ReadingIsCanonical};

/// What a byte of a text may be: a space or a tab, a digit, a letter or `_`, `+` or `-`, `*`, `^`, or none of these.
#[derive(Clone, Copy, PartialEq, Eq, Debug)]
pub enum ByteClass {
    Blank,
    Digit,
    Letter,
    Sign,
    Star,
    Caret,
    Other,
}

/// What stands before a place of a text: nothing but blanks, a sign, a number, a number and blanks, a star, a name, a name and blanks, a caret, or bytes that begin no text. Blanks after a sign, a star or a caret make no difference.
#[derive(Clone, Copy, PartialEq, Eq, Debug)]
pub enum State {
    Start,
    Term,
    Number,
    NumberEnd,
    Power,
    Name,
    NameEnd,
    Exponent,
    Dead,
}

/// Why a text is no polynomial; `at` is the place of a byte, counted from 0. The first that holds is meant, in this order.
#[derive(Clone, Copy, PartialEq, Eq, Debug, Drop)]
pub enum TextFault {
    /// The text isn't in the grammar. The bytes before `at` begin a text, and with the byte at `at` they don't, or the text ends there too early.
    Syntax { at: u64 },
    /// A name is no variable's; its first byte stands at `at`.
    UnknownName { at: u64 },
    /// The exponents written in a term add up to more than the monomials' limit; its first byte, without its sign, stands at `at`.
    DegreeBound { at: u64 },
    /// Over the integers the numbers up to and with the term at `at` add up to more than 2^127 - 1, where a term without a number counts 1; modulo a number the number of the term at `at` is above that.
    CoefficientBound { at: u64 },
    /// Memory is wanting.
    NoMemory,
}

/// The automaton accepts exactly the texts, and it lives on exactly what begins a text.
pub fn automaton_follows_grammar()
    ensures accepts { AutomatonAccepts }
    ensures lives { AutomatonLives }
{}

/// A text is the spelling of one tree, bytes have one place of a syntax fault, and they denote one thing at the most.
pub fn one_reading()
    ensures tree { OneTree }
    ensures place { OnePlace }
    ensures reading { OneReading }
{}

/// What the function computes is what the grammar's relation says, and nothing else is: bytes denote one thing.
pub fn denotes_is_denoted()
    ensures { DenotesIs }
{}

/// The canonical text of a polynomial is read as that polynomial.
pub fn text_reads()
    ensures { TextReads }
{}

/// What is read is a polynomial within the limits.
pub fn reading_is_canonical()
    ensures { ReadingIsCanonical }
{}
