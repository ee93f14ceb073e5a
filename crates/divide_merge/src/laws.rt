//! What a division's merge and its workers' rings hold together, and what its answers say, as laws.
ghost use Rattle.term_ring.specs.Spelling.{words_of};
ghost use Rattle.term_ring.specs.Carried.{Fits};
ghost use Rattle.divide_merge.specs.Moments.{DivisionAtEachMoment, DivisionWhileNobodyHolds};
ghost use Rattle.divide_merge.specs.Verdicts.{OneVerdict};

use coeff_ring::CoeffRing;
use packed_monomial::Monomial;

/// The quotient terms that a merge has found, each times the divisor's leading term, its remainder and what it hasn't read of the dividend, less its heads, the terms inside the rings of its workers and those that the workers haven't sent, add up to the dividend less the products of the quotient with the divisor's later terms. That holds in each state of the rings that their rule allows and in which each reader has taken what the merge took.
pub fn division_at_each_moment<R: CoeffRing, M: Monomial>()
    ensures { DivisionAtEachMoment (words_of M.words R.words) (Fits R.belongs) M.vector R.value M.LIM }
{}

/// In each state that the rule of a turnstile of merges allows in which no pass holds the merge, the merge is at home, and with the rings of its workers it adds up to the dividend less the products of the quotient.
pub fn division_while_nobody_holds<R: CoeffRing, M: Monomial>()
    ensures { DivisionWhileNobodyHolds (words_of M.words R.words) (Fits R.belongs) M.vector R.value M.LIM }
{}

/// The causes of a merge's answers exclude each other.
pub fn one_verdict()
    ensures { OneVerdict }
{}
