//! What the rule of a ring says, as a law.
ghost use Rattle.term_ring.specs.Spelling.{words_of};
ghost use Rattle.term_ring.specs.Carried.{Fits, Carries};
ghost use Rattle.term_ring.specs.Moments.{AtEachMoment};

use coeff_ring::CoeffRing;
use packed_monomial::Monomial;

/// At each moment between two atomic steps what was sent is what was taken followed by what is inside, the notes inside stand in their places, and each end is behind the words that it has seen.
pub fn ring_at_each_moment<R: CoeffRing, M: Monomial>()
    ensures { AtEachMoment (words_of M.words R.words) (Fits R.belongs) (Carries M.vector R.value) }
{}
