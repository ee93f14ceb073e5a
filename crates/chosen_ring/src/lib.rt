//! The ring of coefficients of a session, which is chosen as it is read.
#![tactic(auto)]

ghost use Rattle.std.specs.Prelude.{◌≡◌, ◌<◌, pos};
ghost use Rattle.std.proofs.Common.{inl, inr, refl};
ghost use Rattle.coeff_ring.specs.Words.{int_words, zero_is_a_word};
ghost use Rattle.chosen_ring.specs.Elements.{IsElement, FitsRing, IsSum, sum_of};
ghost use Rattle.chosen_ring.specs.declared.ChosenRing.TheVariants.{Integers as OfIntegers, Residues as OfResidues};
ghost use Rattle.chosen_ring.specs.ElementLaws.{element_reduced, room, below_fits, integer_small, same_words};

use coeff_residue::Residues;
use coeff_ring::{CoeffRing, Integers};
use step_count::Steps;

/// The integers, or the residues modulo a number, in one type.
///
/// Code that is generic in its ring has one copy at this type, where it has two at `Integers` and at `Residues`. An element is a whole number of 128 bits in both rings, so a residue stands for itself.
#[derive(Clone, Copy)]
pub enum ChosenRing {
    Integers,
    Residues(Residues),
}

// the word of a residue
#[inline(always)]
fn residue(ring: &Residues, a: i128) -> u64
    requires { IsElement (⟦<Residues as CoeffRing>⟧.characteristic ring.now) a }
    ensures below { result < ⟦<Residues as CoeffRing>⟧.characteristic ring.now }
    ensures value { pos result ≡ a }
{
    a as u64
}

// the element that a residue is
#[inline(always)]
fn element(ring: &Residues, n: u64) -> i128
    requires { n < ⟦<Residues as CoeffRing>⟧.characteristic ring.now }
    ensures belongs { IsElement (⟦<Residues as CoeffRing>⟧.characteristic ring.now) result }
    ensures value { result ≡ pos n }
{
    n as i128
}

impl CoeffRing for ChosenRing {
    type E = i128;

    ghost characteristic = { elim [ OfIntegers ↦ 0 | OfResidues r ↦ ⟦<Residues as CoeffRing>⟧.characteristic r ] };

    ghost value = { λ a. a };

    ghost belongs = { IsElement };

    ghost fits = { FitsRing };

    ghost words = { int_words };

    ghost sum_belongs = { IsSum };

    ghost sum_value = { sum_of };

    fn modulus(&self) -> u64 {
        match self {
            ChosenRing::Integers => Integers.modulus(),
            ChosenRing::Residues(ring) => ring.modulus(),
        }
    }

    fn zero(&self) -> i128 {
        0
    }

    fn one(&self) -> i128 {
        1
    }

    fn is_zero(&self, a: i128) -> bool {
        a == 0
    }

    fn add(&self, a: i128, b: i128) -> i128 {
        match self {
            ChosenRing::Integers => Integers.add(a, b),
            ChosenRing::Residues(ring) => {
                element(ring, ring.add(residue(ring, a), residue(ring, b)))
            }
        }
    }

    fn neg(&self, a: i128) -> i128 {
        match self {
            ChosenRing::Integers => Integers.neg(a),
            ChosenRing::Residues(ring) => element(ring, ring.neg(residue(ring, a))),
        }
    }

    fn mul(&self, a: i128, b: i128, steps: &mut Steps) -> i128 {
        match self {
            ChosenRing::Integers => Integers.mul(a, b, steps),
            ChosenRing::Residues(ring) => {
                element(ring, ring.mul(residue(ring, a), residue(ring, b), steps))
            }
        }
    }

    fn no_products(&self) -> u128 {
        0
    }

    fn add_product(&self, sum: u128, a: i128, b: i128, steps: &mut Steps) -> u128 {
        match self {
            ChosenRing::Integers => Integers.add_product(sum, a, b, steps),
            ChosenRing::Residues(ring) => {
                ring.add_product(sum, residue(ring, a), residue(ring, b), steps)
            }
        }
    }

    fn total(&self, sum: u128) -> i128 {
        match self {
            ChosenRing::Integers => Integers.total(sum),
            ChosenRing::Residues(ring) => element(ring, ring.total(sum)),
        }
    }

    fn quotient(&self, a: i128, b: i128) -> Option<i128> {
        match self {
            ChosenRing::Integers => Integers.quotient(a, b),
            ChosenRing::Residues(ring) => match ring.quotient(residue(ring, a), residue(ring, b)) {
                Some(q) => Some(element(ring, q)),
                None => None,
            },
        }
    }

    fn inverse(&self, a: i128) -> Option<i128> {
        match self {
            ChosenRing::Integers => Integers.inverse(a),
            ChosenRing::Residues(ring) => match ring.inverse(residue(ring, a)) {
                Some(v) => Some(element(ring, v)),
                None => None,
            },
        }
    }

    fn from_numeral(&self, n: u128) -> Option<i128> {
        match self {
            ChosenRing::Integers => Integers.from_numeral(n),
            ChosenRing::Residues(ring) => match ring.from_numeral(n) {
                Some(a) => Some(element(ring, a)),
                None => None,
            },
        }
    }

    fn size(&self, a: i128) -> u128 {
        a.unsigned_abs()
    }

    fn is_negative(&self, a: i128) -> bool {
        a < 0
    }

    fn to_words(&self, a: i128) -> [u64; 2] {
        match self {
            ChosenRing::Integers => Integers.to_words(a),
            ChosenRing::Residues(ring) => ring.to_words(residue(ring, a)),
        }
    }

    fn from_words(&self, w: [u64; 2]) -> Option<i128> {
        match self {
            ChosenRing::Integers => Integers.from_words(w),
            ChosenRing::Residues(ring) => match ring.from_words(w) {
                Some(a) => Some(element(ring, a)),
                None => None,
            },
        }
    }

    ghost characteristic_is = { elim [ OfIntegers ↦ inl refl | OfResidues r ↦ inr r.large ] };

    ghost one_word = { elim [ OfIntegers ↦ zero_is_a_word | OfResidues r ↦ r.word ] };

    ghost reduced = { λ r a h. element_reduced _ a h };

    ghost same = { λ _ a b _ _ e. e };

    ghost has_room = { λ r n h. room _ n h };

    ghost fits_below = { λ r m n l h. below_fits _ m n l h };

    ghost size_fits = { λ r a h e. integer_small _ a h e };

    ghost two_words = { λ _ a _. refl };

    ghost spelled = { elim [ OfIntegers ↦ λ a b h i e. same_words 0 a b zero_is_a_word h i e | OfResidues r ↦ λ a b h i e. same_words _ a b r.word h i e ] };
}

#[cfg(test)]
mod tests {
    use super::*;
    use std::test::Fail;

    #[test]
    fn answers_as_the_integers(rt: HostRuntime) {
        let mut steps = Steps::new();
        let ring = ChosenRing::Integers;
        assert_eq!(rt; ring.modulus(), 0);
        assert_eq!(rt; ring.one(), 1);
        assert!(rt; ring.is_zero(ring.zero()));
        assert_eq!(rt; ring.add(-3, 5), 2);
        assert_eq!(rt; ring.neg(7), -7);
        assert_eq!(rt; ring.mul(-3, 4, &mut steps), -12);
        assert_eq!(rt;
            ring.total(ring.add_product(ring.no_products(), 5, 6, &mut steps)),
            30
        );
        assert_eq!(rt; steps.products, 2);
        assert_eq!(rt; ring.quotient(6, -3), Some(-2));
        assert_eq!(rt; ring.inverse(2), None);
        assert_eq!(rt; ring.from_numeral(10), Some(10));
        assert_eq!(rt; ring.size(-2), 2);
        assert!(rt; ring.is_negative(-2));
        assert_eq!(rt; ring.to_words(-2), [u64::MAX - 1, u64::MAX]);
        assert_eq!(rt; ring.from_words([u64::MAX - 1, u64::MAX]), Some(-2));
    }

    #[test]
    fn answers_as_the_residues(rt: HostRuntime) -> Result<(), Fail> {
        let mut steps = Steps::new();
        let ring = ChosenRing::Residues(Residues::new(6).ok_or("a modulus")?);
        assert_eq!(rt; ring.modulus(), 6);
        assert_eq!(rt; ring.one(), 1);
        assert!(rt; ring.is_zero(ring.zero()));
        assert_eq!(rt; ring.add(4, 5), 3);
        assert_eq!(rt; ring.neg(2), 4);
        assert_eq!(rt; ring.mul(4, 5, &mut steps), 2);
        assert_eq!(rt;
            ring.total(ring.add_product(ring.no_products(), 5, 5, &mut steps)),
            1
        );
        assert_eq!(rt; steps.products, 2);
        assert_eq!(rt; ring.quotient(4, 2), Some(2));
        assert_eq!(rt; ring.inverse(5), Some(5));
        assert_eq!(rt; ring.from_numeral(10), Some(4));
        assert_eq!(rt; ring.size(5), 5);
        assert!(rt; !ring.is_negative(5));
        assert_eq!(rt; ring.to_words(5), [5, 0]);
        assert_eq!(rt; ring.from_words([6, 0]), None);
        Ok(())
    }
}
