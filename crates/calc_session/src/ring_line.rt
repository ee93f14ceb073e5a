//! The line with the ring.
ghost use Rattle.std.specs.Prelude.{◌≡◌, ◌≤◌, [], ◌∷◌, Ok, Err, length};
ghost use Rattle.poly_text.specs.Words.{words_of};
ghost use Rattle.calc_session.specs.Header.{ring_of, modulus_of};

use crate::fault::LineFault;
use crate::ring::RingChoice;
use poly_text::split_word;

const MAX_MODULUS: u128 = 18_446_744_073_709_551_615;

/// The ring of a line that isn't skipped.
pub fn parse_ring(line: &[u8]) -> Result<RingChoice, LineFault>
    ensures { result ≡ ring_of (words_of line.now) }
{
    let Some((first, rest)) = split_word(line) else {
        return Err(LineFault::RingExpected);
    };
    if first != b"ring".as_slice() {
        return Err(LineFault::RingExpected);
    }
    let Some((kind, rest)) = split_word(rest) else {
        return Err(LineFault::RingExpected);
    };
    let Some((modulus, rest)) = split_word(rest) else {
        return if kind == b"Z".as_slice() {
            Ok(RingChoice::Integers)
        } else {
            Err(LineFault::RingExpected)
        };
    };
    if split_word(rest).is_some() || kind != b"mod".as_slice() {
        return Err(LineFault::RingExpected);
    }
    parse_modulus(modulus)
}

/// Digits alone, and a number from 2 up that fits 64 bits.
#[tactic(auto, using(crate::proofs::HeaderLemmas::modulus_small, crate::proofs::HeaderLemmas::modulus_big, crate::proofs::HeaderLemmas::modulus_bad), unfolding(crate::specs::Header::modulus_of))]
fn parse_modulus(word: &[u8]) -> Result<RingChoice, LineFault>
    ensures { result ≡ modulus_of word.now }
{
    let mut n = 0u64;
    for byte in word {
        if !byte.is_ascii_digit() {
            return Err(LineFault::BadModulus);
        }
        let more = u128::from(n) * 10 + u128::from(*byte - b'0');
        if more > MAX_MODULUS {
            return Err(LineFault::BadModulus);
        }
        n = more as u64;
    }
    if n < 2 {
        return Err(LineFault::BadModulus);
    }
    Ok(RingChoice::Modulus(n))
}
