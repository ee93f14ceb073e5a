//! What a product's merge and its workers' rings hold together, as laws.
ghost use Rattle.term_ring.specs.Spelling.{words_of};
ghost use Rattle.term_ring.specs.Carried.{Fits};
ghost use Rattle.global_heap.specs.Moments.{ProductAtEachMoment, ProductWhileNobodyHolds};

use coeff_ring::CoeffRing;
use packed_monomial::Monomial;

/// The terms that a merge has emitted, its heads, the terms inside the rings of its workers and those that the workers haven't sent add up to the product, in each state of the rings that their rule allows and in which each reader has taken what the merge took.
pub fn product_at_each_moment<R: CoeffRing, M: Monomial>()
    ensures { ProductAtEachMoment (words_of M.words R.words) (Fits R.belongs) M.vector R.value M.LIM }
{}

/// In each state that the rule of a turnstile of merges allows in which no pass holds the merge, the merge is at home, and with the rings of its workers it adds up to the product.
pub fn product_while_nobody_holds<R: CoeffRing, M: Monomial>()
    ensures { ProductWhileNobodyHolds (words_of M.words R.words) (Fits R.belongs) M.vector R.value M.LIM }
{}
