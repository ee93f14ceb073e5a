//! The answers of a merge of a division.

use canonical_terms::TermOf;
use coeff_ring::CoeffRing;

/// Why an advance of a merge of a division ended. It is named by the type of the coefficients, since a type that holds an associated type cannot be `Copy`.
///
/// After the first four the merge is over.
#[derive(Clone, Copy)]
pub enum DivideAdvanceOf<M, E> {
    /// All is read, and no worker holds or owes a product: quotient and remainder are found.
    Finished,
    /// In an exact division no quotient term takes away the coefficient at this monomial.
    NoQuotient { at: M },
    /// Over the integers the quotient with this term passes the bound on norms.
    PassedBound { term: TermOf<M, E> },
    /// The quotient with this term has as many terms as no quotient may have.
    PassedTerms { term: TermOf<M, E> },
    /// The worker with this number is to tell more, and its ring was empty.
    Blocked(u32),
    /// A term or a front is due for which the row has no place.
    RowFull,
    /// A term of the quotient or of the remainder is due for which there is no room.
    OutFull,
}

/// Why an advance of a merge ended, over the ring `R` in the monomials `M`.
pub type DivideAdvance<R, M> = DivideAdvanceOf<M, <R as CoeffRing>::E>;
