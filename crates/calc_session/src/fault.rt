//! What is wrong with a line.

/// What is wrong with a line. A `column` counts the bytes of the line from 1.
#[derive(Clone, Copy, Debug, PartialEq, Eq, Drop)]
pub enum LineFault {
    /// The first line that isn't skipped doesn't begin with `vars`, or there is none.
    VarsExpected,
    /// There are no variables, or more than `poly_text` takes names.
    VariableCount,
    /// The word is no name.
    BadName,
    /// The name stands for something else in a session.
    ReservedName,
    /// The variable stands further left as well.
    RepeatedName,
    /// The second line that isn't skipped is neither `ring Z` nor `ring mod` and a word, or there is none.
    RingExpected,
    /// The modulus isn't of digits alone, or not from 2 to 2^64 - 1.
    BadModulus,
    /// The third line that isn't skipped begins with `order` and holds no `=`, and isn't `order` and the word of one order.
    BadOrder,
    /// The name of a definition is a variable's.
    VariableName,
    /// The text isn't in the grammar.
    Syntax { column: u64 },
    /// A name in the text is no variable's.
    UnknownNameAt { column: u64 },
    /// The exponents of a term of the text add up to more than the limit on degrees.
    DegreeBoundAt { column: u64 },
    /// The numbers of the text pass the limit on coefficients.
    CoefficientBoundAt { column: u64 },
    /// The first word is no command.
    UnknownCommand,
    /// A command takes another number of names.
    ArgumentCount,
    /// A name isn't defined.
    UnknownName,
    /// The degrees of the factors add up to more than the limit on degrees.
    DegreeBound,
    /// The norms pass the limit on coefficients.
    CoefficientBound,
    /// A quotient has too many terms.
    TermBound,
    /// The divisor is zero.
    ZeroDivisor,
    /// The leading coefficient of the divisor has no inverse.
    NotUnit,
    /// Memory is wanting.
    NoMemory,
}
