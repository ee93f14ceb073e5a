/// Which of two monomials is the greater: always the one of the greater degree.
#[derive(Clone, Copy, Debug, PartialEq, Eq)]
pub enum Order {
    /// Of two monomials of one degree, the one with the greater exponent at the first variable at which they differ.
    Grlex,
}
