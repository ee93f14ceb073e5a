//! Notes, and the five words that spell one.
ghost use Rattle.std.specs.Prelude.{◌≡◌};
ghost use Rattle.term_ring.specs.Spelling.{words_of, Belongs};

use canonical_terms::TermOf;
use coeff_ring::CoeffRing;
use packed_monomial::Monomial;

/// What a worker sends: the next term of its list, a mark, or the end. It is named by the type of the coefficients, since a type that holds an associated type cannot be `Copy`.
///
/// A mark says how many quotient terms its worker knows, and the greatest monomial of the known products that it hasn't sent.
#[derive(Clone, Copy)]
pub enum NoteOf<M, E> {
    Term(TermOf<M, E>),
    Mark { known: u32, top: Option<M> },
    End,
}

/// A note over the ring `R` in the monomials `M`.
pub type Note<R, M> = NoteOf<M, <R as CoeffRing>::E>;

// the five words: the kind, the monomial, and the coefficient or the number known
pub(crate) fn to_words<R: CoeffRing, M: Monomial>(coefficients: &R, note: Note<R, M>) -> [u64; 5]
    requires { Belongs (R.belongs (R.characteristic coefficients.now)) note }
    ensures { result ≡ words_of M.words R.words note }
{
    match note {
        NoteOf::Term(t) => {
            let m = t.mono.to_words();
            let c = coefficients.to_words(t.coef);
            [1, m[0], m[1], c[0], c[1]]
        }
        NoteOf::Mark { known, top: None } => [2, 0, 0, known as u64, 0],
        NoteOf::Mark {
            known,
            top: Some(top),
        } => {
            let m = top.to_words();
            [3, m[0], m[1], known as u64, 0]
        }
        NoteOf::End => [4, 0, 0, 0, 0],
    }
}

// the note that the words spell, where they spell one
pub(crate) fn from_words<R: CoeffRing, M: Monomial>(coefficients: &R, bits: &[u64; 5]) -> Note<R, M>
    requires { (x : _) × Belongs (R.belongs (R.characteristic coefficients.now)) x × (bits.now ≡ words_of M.words R.words x) }
    ensures { (x : _) → Belongs (R.belongs (R.characteristic coefficients.entry.now)) x → bits.entry.now ≡ words_of M.words R.words x → result ≡ x }
{
    let kind = bits[0];
    if kind == 1 {
        let mono = M::from_words([bits[1], bits[2]]).unwrap();
        let coef = coefficients.from_words([bits[3], bits[4]]).unwrap();
        NoteOf::Term(TermOf { mono, coef })
    } else if kind == 2 {
        NoteOf::Mark {
            known: bits[3] as u32,
            top: None,
        }
    } else if kind == 3 {
        NoteOf::Mark {
            known: bits[3] as u32,
            top: Some(M::from_words([bits[1], bits[2]]).unwrap()),
        }
    } else {
        NoteOf::End
    }
}
