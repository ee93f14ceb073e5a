//! What the rule of a row says, as laws.
ghost use Rattle.quotient_row.specs.Spelling.{words_of};
ghost use Rattle.quotient_row.specs.Legal.{Fits, Legal, TermsAreNext};
ghost use Rattle.quotient_row.specs.Moments.{AtEachMoment};

use coeff_ring::CoeffRing;
use packed_monomial::Monomial;

/// At each moment between two atomic steps the published notes are legal and stand in their places, and what each reader knows begins them.
pub fn row_at_each_moment<R: CoeffRing, M: Monomial>()
    ensures { AtEachMoment (words_of M.words R.words) (Fits R.belongs) (Legal M.vector R.value) }
{}

/// The terms among legal notes are the next quotient terms, none of them past the bound. That no later term is above the front is a law of `divide_wholes`.
pub fn row_terms_are_next()
    ensures { TermsAreNext }
{}
