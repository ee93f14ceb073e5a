//! The tokens of a text that is in the grammar.
ghost use Rattle.std.specs.Prelude.{◌≡◌, ◌≤◌, ◌<◌, ℕ, List, length, drop};
ghost use Rattle.text_laws.specs.Reading.{is_blank, is_digit, is_word};
ghost use Rattle.poly_text.specs.Tokens.{after, capped_front, raised_front, power_front};

use crate::class::{class_of_byte, is_digit_byte, is_word_byte};
use text_laws::ByteClass;

/// The place behind the blanks.
#[inline(always)]
pub fn skip_blanks(bytes: &[u8], start: usize) -> usize
    requires { start ≤ length bytes.now }
    ensures bound { result ≤ length bytes.now }
    ensures from { start ≤ result }
    ensures after { drop result bytes.now ≡ after is_blank (drop start bytes.now) }
{
    let mut i = start;
    while i < bytes.len() {
        match class_of_byte(bytes[i]) {
            ByteClass::Blank => i += 1,
            _ => return i,
        }
    }
    i
}

/// The place behind the letters and digits.
#[inline(always)]
fn skip_word(bytes: &[u8], start: usize) -> usize
    requires { start ≤ length bytes.now }
    ensures bound { result ≤ length bytes.now }
    ensures from { start ≤ result }
    ensures after { drop result bytes.now ≡ after is_word (drop start bytes.now) }
{
    let mut i = start;
    while i < bytes.len() {
        if !is_word_byte(bytes[i]) {
            return i;
        }
        i += 1;
    }
    i
}

/// The number that the digits write behind those of `number`, at most u128::MAX, and the place behind them.
fn read_more_digits(bytes: &[u8], start: usize, number: u128) -> (u128, usize)
    requires { start ≤ length bytes.now }
    ensures bound { result.1 ≤ length bytes.now }
    ensures from { start ≤ result.1 }
    ensures after { drop result.1 bytes.now ≡ after is_digit (drop start bytes.now) }
    ensures value { result.0 ≡ capped_front number (drop start bytes.now) }
{
    let mut i = start;
    let mut n = number;
    while i < bytes.len() {
        let b = bytes[i];
        if !is_digit_byte(b) {
            return (n, i);
        }
        n = n
            .saturating_mul(10)
            .saturating_add(b.saturating_sub(b'0') as u128);
        i += 1;
    }
    (n, i)
}

/// Up to this number one more digit goes into a u64.
const SHORT: u64 = 1_000_000_000_000_000_000;

/// The number that the digits write, at most u128::MAX, and the place behind them.
#[inline(always)]
pub fn read_digits(bytes: &[u8], start: usize) -> (u128, usize)
    requires { start ≤ length bytes.now }
    ensures bound { result.1 ≤ length bytes.now }
    ensures from { start ≤ result.1 }
    ensures after { drop result.1 bytes.now ≡ after is_digit (drop start bytes.now) }
    ensures value { result.0 ≡ capped_front 0 (drop start bytes.now) }
{
    let mut i = start;
    let mut n: u64 = 0;
    while i < bytes.len() && n <= SHORT {
        let b = bytes[i];
        if !is_digit_byte(b) {
            return (n as u128, i);
        }
        n = n * 10 + b.saturating_sub(b'0') as u64;
        i += 1;
    }
    read_more_digits(bytes, i, n as u128)
}

/// The exponent behind a name, at most u128::MAX, and the place behind it and its blanks.
#[inline(always)]
fn read_raised(bytes: &[u8], start: usize) -> (u128, usize)
    requires { start ≤ length bytes.now }
    ensures bound { result.1 ≤ length bytes.now }
    ensures from { start ≤ result.1 }
    ensures exponent { result.0 ≡ (raised_front (drop start bytes.now)).0 }
    ensures after { drop result.1 bytes.now ≡ (raised_front (drop start bytes.now)).1 }
{
    if start == bytes.len() {
        return (1, start);
    }
    match class_of_byte(bytes[start]) {
        ByteClass::Caret => {
            let from = skip_blanks(bytes, start + 1);
            let (exponent, end) = read_digits(bytes, from);
            let next = skip_blanks(bytes, end);
            (exponent, next)
        }
        _ => (1, start),
    }
}

/// A power as it is read: the place behind its name, its exponent, at most u128::MAX, and the place behind it.
#[derive(Clone, Copy, Debug)]
pub struct PowerRead {
    pub name_end: usize,
    pub exponent: u128,
    pub next: usize,
}

/// Reads the power that begins at the place.
#[inline(always)]
pub fn read_power(bytes: &[u8], start: usize) -> PowerRead
    requires { start ≤ length bytes.now }
    ensures bound { result.next ≤ length bytes.now }
    ensures from { start ≤ result.next }
    ensures name_bound { result.name_end ≤ length bytes.now }
    ensures name_from { start ≤ result.name_end }
    ensures name { drop result.name_end bytes.now ≡ after is_word (drop start bytes.now) }
    ensures exponent { result.exponent ≡ (power_front (drop start bytes.now)).0 }
    ensures after { drop result.next bytes.now ≡ (power_front (drop start bytes.now)).1 }
{
    let name_end = skip_word(bytes, start);
    let blanks_end = skip_blanks(bytes, name_end);
    let (exponent, next) = read_raised(bytes, blanks_end);
    PowerRead {
        name_end,
        exponent,
        next,
    }
}
