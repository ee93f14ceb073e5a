//! A word of 128 bits as two of 64, the low one first.
ghost use Rattle.std.specs.Prelude.{◌≡◌};
ghost use Rattle.wide_monomial.specs.Packing.{halves};

/// The two halves of a word.
#[inline(always)]
pub fn split(word: u128) -> [u64; 2]
    ensures { result ≡ halves word }
{
    [(word & 0xffff_ffff_ffff_ffff) as u64, (word >> 64) as u64]
}

/// The word whose halves these are.
#[inline(always)]
pub fn join(w: [u64; 2]) -> u128
    ensures { halves result ≡ w }
{
    (w[1] as u128) << 64 | w[0] as u128
}
