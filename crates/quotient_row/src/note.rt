//! Notes of a row, and the five words that spell one.
ghost use Rattle.std.specs.Prelude.{◌≡◌};
ghost use Rattle.quotient_row.specs.Spelling.{words_of, Belongs};

use canonical_terms::TermOf;
use coeff_ring::CoeffRing;
use packed_monomial::Monomial;

/// What is published: the next quotient term, or a front, a monomial that no later quotient term times the leading monomial of the divisor is above. It is named by the type of the coefficients, since a type that holds an associated type cannot be `Copy`.
#[derive(Clone, Copy)]
pub enum RowNoteOf<M, E> {
    Term(TermOf<M, E>),
    Front(M),
}

/// A note of a row over the ring `R` in the monomials `M`.
pub type RowNote<R, M> = RowNoteOf<M, <R as CoeffRing>::E>;

// the five words: the kind, the monomial and the coefficient
pub(crate) fn to_words<R: CoeffRing, M: Monomial>(coefficients: &R, note: RowNote<R, M>) -> [u64; 5]
    requires { Belongs (R.belongs (R.characteristic coefficients.now)) note }
    ensures { result ≡ words_of M.words R.words note }
{
    match note {
        RowNoteOf::Term(t) => {
            let m = t.mono.to_words();
            let c = coefficients.to_words(t.coef);
            [1, m[0], m[1], c[0], c[1]]
        }
        RowNoteOf::Front(front) => {
            let m = front.to_words();
            [5, m[0], m[1], 0, 0]
        }
    }
}

// the note that the words spell, where they spell one
pub(crate) fn from_words<R: CoeffRing, M: Monomial>(
    coefficients: &R,
    bits: &[u64; 5],
) -> RowNote<R, M>
    requires { (x : _) × Belongs (R.belongs (R.characteristic coefficients.now)) x × (bits.now ≡ words_of M.words R.words x) }
    ensures { (x : _) → Belongs (R.belongs (R.characteristic coefficients.entry.now)) x → bits.entry.now ≡ words_of M.words R.words x → result ≡ x }
{
    let mono = M::from_words([bits[1], bits[2]]).unwrap();
    if bits[0] == 1 {
        let coef = coefficients.from_words([bits[3], bits[4]]).unwrap();
        RowNoteOf::Term(TermOf { mono, coef })
    } else {
        RowNoteOf::Front(mono)
    }
}
