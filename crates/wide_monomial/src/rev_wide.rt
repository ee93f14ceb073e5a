//! Exponent vectors of N numbers packed into one word of 128 bits, as the sums of the first exponents.
ghost use Rattle.std.specs.Prelude.{◌≡◌};
ghost use Rattle.std.proofs.Common.{subst, ap, refl};
ghost use Rattle.wide_monomial.specs.Packing.{bits_of, limit_of, halves, halves-same, cut_is};
ghost use Rattle.wide_monomial.specs.Sums.{IsRevWide, rev_vector_of, rev_word_of};
ghost use Rattle.wide_monomial.specs.SumsFields.{length-sums_vector};
ghost use Rattle.wide_monomial.specs.SumsLaws.{sums_ordered, same_vector, HoldsSums-prop};
ghost use Rattle.wide_monomial.specs.Layouts.{layout_is};
ghost use Rattle.sdmp_laws.specs.Order.{Grevlex};

use crate::layout::WideLayout;
use crate::words::{join, split};
use packed_monomial::{DegreeBound, Monomial};
use sdmp_laws::Order;
use std::cmp::Ordering;
use step_count::Steps;

/// A monomial in `N` variables, `N` from 1 to 15, in one word of 128 bits, in graded reverse lexicographic order.
///
/// The word has N fields of 128/(N + 1) bits, rounded down, the first lowest: field i is the sum of the first i exponents, so the degree stands highest and a greater exponent further right makes the word less. No field of a product runs into its neighbour. For any other `N` the type has the one monomial 1.
#[derive(Clone, Copy, PartialEq, Eq, PartialOrd, Ord)]
pub struct RevWide<const N: usize> {
    word: u128,
    ghost packed: { IsRevWide N word },
}

impl<const N: usize> Monomial for RevWide<N> {
    const VARS: usize = N;

    ghost VARS = { N };

    const ORDER: Order = Order::Grevlex;

    ghost ORDER = { Grevlex };

    ghost LIM = { limit_of N };

    ghost order = { Grevlex };

    ghost vector = { λ m. rev_vector_of N m.word };

    ghost words = { λ m. halves m.word };

    fn limit() -> u64 {
        WideLayout::of(N).limit
    }

    fn one() -> Self {
        RevWide { word: 0 }
    }

    fn pack(exponents: &[u32]) -> Result<Self, DegreeBound> {
        let layout = WideLayout::of(N);
        let mut degree: u64 = 0;
        for e in exponents {
            degree += *e as u64;
        }
        if degree > layout.limit {
            return Err(DegreeBound { degree });
        }
        let mut word: u128 = 0;
        let mut sum: u128 = 0;
        let mut place: usize = 0;
        for e in exponents {
            sum += *e as u128;
            word += sum << place;
            place += layout.bits as usize;
        }
        Ok(RevWide { word })
    }

    fn exponent(self, i: usize) -> u32 {
        let bits = WideLayout::of(N).bits;
        let place = i * bits as usize;
        let field = (self.word >> place) & ((1 << bits) - 1);
        let before = ((self.word << bits) >> place) & ((1 << bits) - 1);
        (field - before) as u32
    }

    fn degree(self) -> u64 {
        let bits = WideLayout::of(N).bits as usize;
        (self.word >> (N * bits - bits)) as u64
    }

    fn times(self, other: Self) -> Self {
        RevWide {
            word: self.word + other.word,
        }
    }

    // a word less the same word one field up has the exponents in its fields
    fn divides(self, other: Self) -> bool {
        let layout = WideLayout::of(N);
        let guards = layout.guards >> layout.bits;
        let apart = other.word.wrapping_sub(self.word);
        let steps = apart.wrapping_sub(apart << layout.bits);
        steps.wrapping_add(guards) & guards == guards
    }

    fn over(self, divisor: Self) -> Self {
        RevWide {
            word: self.word - divisor.word,
        }
    }

    fn higher(self, other: Self, steps: &mut Steps) -> Ordering {
        steps.tick_compare();
        self.word.cmp(&other.word)
    }

    fn to_words(self) -> [u64; 2]
        ensures words { result ≡ ⟦<RevWide<N> as Monomial>⟧.words self.entry }
        ensures word { result ≡ halves (rev_word_of N (⟦<RevWide<N> as Monomial>⟧.vector self.entry)) }
    {
        split(self.word)
    }

    fn from_words(w: [u64; 2]) -> Option<Self> {
        let layout = WideLayout::of(N);
        let word = join(w);
        let mut last = 0;
        for i in 0..N {
            let field = (word >> (i * layout.bits as usize)) & ((1 << layout.bits) - 1);
            if field < last {
                return None;
            }
            last = field;
        }
        if word >> (N * layout.bits as usize) == 0 && last <= 2 * layout.limit as u128 {
            Some(RevWide { word })
        } else {
            None
        }
    }

    ghost told = { refl };

    ghost limit_bound = { (layout_is N).limit_bound };

    ghost vars = { λ m. length-sums_vector (bits_of N) N m.word };

    ghost degree_bound = { λ m. m.packed.1 };

    ghost ordered = { λ a b. sums_ordered (cut_is N) a.word b.word a.packed b.packed };

    ghost two_words = { λ _. refl };

    ghost same = { λ a b e.
        subst
        (λ w. (q : IsRevWide N w) → a ≡ record { word = w; packed = q })
        (same_vector (bits_of N) (limit_of N) N a.word b.word a.packed b.packed e)
        (λ q. ap (λ z. record { word = a.word; packed = z }) (HoldsSums-prop (bits_of N) (limit_of N) N a.word a.packed q))
        b.packed };

    ghost spelled = { λ a b e.
        subst
        (λ w. (q : IsRevWide N w) → a ≡ record { word = w; packed = q })
        (halves-same a.word b.word e)
        (λ q. ap (λ z. record { word = a.word; packed = z }) (HoldsSums-prop (bits_of N) (limit_of N) N a.word a.packed q))
        b.packed };
}
