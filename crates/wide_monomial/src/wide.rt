//! Exponent vectors of N numbers packed into one word of 128 bits, the degree highest.
ghost use Rattle.std.specs.Prelude.{◌≡◌};
ghost use Rattle.std.proofs.Common.{subst, ap, refl};
ghost use Rattle.wide_monomial.specs.Packing.{IsWide, vector_of, bits_of, limit_of, word_of, halves, halves-same, length-vector_of, cut_is};
ghost use Rattle.wide_monomial.specs.Layouts.{layout_is};
ghost use Rattle.packed_monomial.specs.Laws.{packed_ordered, packed_same, HoldsDegree-prop};
ghost use Rattle.sdmp_laws.specs.Order.{Grlex};

use crate::layout::WideLayout;
use crate::words::{join, split};
use packed_monomial::{DegreeBound, Monomial};
use sdmp_laws::Order;
use std::cmp::Ordering;
use step_count::Steps;

/// A monomial in `N` variables, `N` from 1 to 15, in one word of 128 bits, in graded lexicographic order.
///
/// The word has N + 1 fields of 128/(N + 1) bits, rounded down: the degree stands highest, and below it the exponents from the left. The top bit of a field is its guard, above the limit, so no field of a product runs into its neighbour. For any other `N` the type has the one monomial 1.
#[derive(Clone, Copy, PartialEq, Eq, PartialOrd, Ord)]
pub struct Wide<const N: usize> {
    word: u128,
    ghost packed: { IsWide N word },
}

impl<const N: usize> Monomial for Wide<N> {
    const VARS: usize = N;

    ghost VARS = { N };

    const ORDER: Order = Order::Grlex;

    ghost ORDER = { Grlex };

    ghost LIM = { limit_of N };

    ghost order = { Grlex };

    ghost vector = { λ m. vector_of N m.word };

    ghost words = { λ m. halves m.word };

    fn limit() -> u64 {
        WideLayout::of(N).limit
    }

    fn one() -> Self {
        Wide { word: 0 }
    }

    fn pack(exponents: &[u32]) -> Result<Self, DegreeBound> {
        let layout = WideLayout::of(N);
        let mut degree: u64 = 0;
        for e in exponents {
            degree += *e as u64;
        }
        if degree > layout.limit {
            return Err(DegreeBound { degree });
        }
        let mut word = degree as u128;
        for e in exponents {
            word = (word << layout.bits) + *e as u128;
        }
        Ok(Wide { word })
    }

    fn exponent(self, i: usize) -> u32 {
        let bits = WideLayout::of(N).bits;
        let field = self.word >> ((N - 1 - i) * bits as usize);
        (field & ((1 << bits) - 1)) as u32
    }

    fn degree(self) -> u64 {
        (self.word >> (N * WideLayout::of(N).bits as usize)) as u64
    }

    fn times(self, other: Self) -> Self {
        Wide {
            word: self.word + other.word,
        }
    }

    fn divides(self, other: Self) -> bool {
        let guards = WideLayout::of(N).guards;
        (other.word + guards - self.word) & guards == guards
    }

    fn over(self, divisor: Self) -> Self {
        Wide {
            word: self.word - divisor.word,
        }
    }

    fn higher(self, other: Self, steps: &mut Steps) -> Ordering {
        steps.tick_compare();
        self.word.cmp(&other.word)
    }

    fn to_words(self) -> [u64; 2]
        ensures words { result ≡ ⟦<Wide<N> as Monomial>⟧.words self.entry }
        ensures word { result ≡ halves (word_of N (⟦<Wide<N> as Monomial>⟧.vector self.entry)) }
    {
        split(self.word)
    }

    fn from_words(w: [u64; 2]) -> Option<Self> {
        let layout = WideLayout::of(N);
        let word = join(w);
        let mut sum = 0;
        for i in 0..N {
            sum += (word >> (i * layout.bits as usize)) & ((1 << layout.bits) - 1);
        }
        if word >> (N * layout.bits as usize) == sum && sum <= 2 * layout.limit as u128 {
            Some(Wide { word })
        } else {
            None
        }
    }

    ghost told = { refl };

    ghost limit_bound = { (layout_is N).limit_bound };

    ghost vars = { λ m. length-vector_of N m.word };

    ghost degree_bound = { λ m. m.packed.1 };

    ghost ordered = { λ a b. packed_ordered (cut_is N) a.word b.word a.packed b.packed };

    ghost two_words = { λ _. refl };

    ghost same = { λ a b e.
        subst
        (λ w. (q : IsWide N w) → a ≡ record { word = w; packed = q })
        (packed_same (bits_of N) (limit_of N) N a.word b.word a.packed b.packed e)
        (λ q. ap (λ z. record { word = a.word; packed = z }) (HoldsDegree-prop (bits_of N) (limit_of N) N a.word a.packed q))
        b.packed };

    ghost spelled = { λ a b e.
        subst
        (λ w. (q : IsWide N w) → a ≡ record { word = w; packed = q })
        (halves-same a.word b.word e)
        (λ q. ap (λ z. record { word = a.word; packed = z }) (HoldsDegree-prop (bits_of N) (limit_of N) N a.word a.packed q))
        b.packed };
}
