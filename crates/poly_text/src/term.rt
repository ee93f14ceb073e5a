//! One term of a text that is in the grammar.
ghost use Rattle.std.specs.Prelude.{◌≡◌, ◌≤◌, ◌++◌, ℕ, List, length, drop, IfOk};
ghost use Rattle.text_laws.specs.Grammar.{Product, IsProduct, spell_product, EndsTerm};
ghost use Rattle.text_laws.specs.Reading.{is_blank, is_digit};
ghost use Rattle.poly_text.specs.Tokens.{after, capped_front};
ghost use Rattle.poly_text.specs.Reads.{ReadsProduct};

use crate::class::class_of_byte;
use crate::factors::{UnknownName, read_factors, read_one};
use crate::names::Names;
use crate::tokens::{read_digits, skip_blanks};
use text_laws::ByteClass;

/// What was read of a term: its number, at most u128::MAX, and the place behind it.
#[derive(Clone, Copy, Debug)]
pub struct ProductRead {
    pub size: u128,
    pub next: usize,
}

/// A number and its blanks: the number, at most u128::MAX, and the place behind them.
#[inline(always)]
fn read_number(bytes: &[u8], at: usize) -> (u128, usize)
    requires { at ≤ length bytes.now }
    ensures bound { result.1 ≤ length bytes.now }
    ensures from { at ≤ result.1 }
    ensures value { result.0 ≡ capped_front 0 (drop at bytes.now) }
    ensures after { drop result.1 bytes.now ≡ after is_blank (after is_digit (drop at bytes.now)) }
{
    let (size, end) = read_digits(bytes, at);
    let next = skip_blanks(bytes, end);
    (size, next)
}

/// Reads the term that begins at the place, behind its sign, and adds its powers. A term without a number has the number 1.
#[inline(always)]
pub fn read_product(
    names: &Names,
    bytes: &[u8],
    at: usize,
    exponents: &mut [u32],
) -> Result<ProductRead, UnknownName>
    requires within { at ≤ length bytes.now }
    requires vars { length names.now ≡ length exponents.old }
    ensures bound { IfOk result (λ r. (at ≤ r.next) × (r.next ≤ length bytes.now)) }
    ensures reads { (t : Product) (rest : List ℕ) → IsProduct t → EndsTerm rest → drop at bytes.now ≡ spell_product t ++ rest
        → ReadsProduct names.now bytes.now at t rest exponents.old exponents.new result }
{
    if at == bytes.len() {
        return Err(UnknownName { at });
    }
    if let ByteClass::Digit = class_of_byte(bytes[at]) {
        let (size, end) = read_number(bytes, at);
        let next = read_factors(names, bytes, end, exponents)?;
        return Ok(ProductRead { size, next });
    }
    let end = read_one(names, bytes, at, exponents)?;
    let next = read_factors(names, bytes, end, exponents)?;
    Ok(ProductRead { size: 1, next })
}
