//! Sums of products of residues, which are reduced once, at their end.
ghost use Rattle.std.specs.Prelude.{◌≡◌, ◌<◌, ◌+◌, ◌*◌, ◌%◌, ◌^◌};

use crate::euclid::add_mod;

/// The sum with one more product, taken modulo `p` times 2^64. So a sum stays in two words, and its residue modulo `p` is kept.
#[inline]
pub fn add_product(sum: u128, a: u64, b: u64, p: u64) -> u128
    requires begun { sum < p * 2 ^ 64 }
    requires left { a < p }
    ensures { result ≡ (sum + a * b) % (p * 2 ^ 64) }
{
    // below p * 2^64, so its high word is a residue, with the carry of the low words in it
    let raised = a as u128 * b as u128 + (sum & LOW_WORD);
    let high = add_mod((sum >> 64) as u64, (raised >> 64) as u64, p);
    ((high as u128) << 64) + (raised & LOW_WORD)
}

const LOW_WORD: u128 = 0xffff_ffff_ffff_ffff;
