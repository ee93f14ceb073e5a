//! The powers of a term, added up.
ghost use Rattle.std.specs.Prelude.{◌≡◌, ◌≤◌, ◌<◌, ◌++◌, ℕ, List, length, min, drop, IfOk};
ghost use Rattle.text_laws.specs.Grammar.{Power, Factor, IsPower, AreFactors, spell_power, spell_factors, EndsPower, EndsTerm};
ghost use Rattle.text_laws.specs.Summands.{is_known, same_name};
ghost use Rattle.poly_text.specs.Exponents.{added, top};
ghost use Rattle.poly_text.specs.Reads.{AddsPower, AddsFactors};

use crate::class::class_of_byte;
use crate::names::Names;
use crate::tokens::{read_power, skip_blanks};
use text_laws::ByteClass;

/// A name that is no variable's begins at this place.
#[derive(Clone, Copy, Debug)]
pub struct UnknownName {
    pub at: usize,
}

/// Whether the words are the same. Most names are of one letter, and need no call.
#[inline(always)]
fn is_same(word: &[u8], name: &[u8]) -> bool
    ensures { result ≡ same_name word.now name.now }
{
    if let ([letter], [byte]) = (word, name) {
        return *letter == *byte;
    }
    word == name
}

/// Adds the exponent at the variable of that name, and answers whether there is one.
#[inline(always)]
fn add_power(names: &Names, name: &[u8], exponent: u32, exponents: &mut [u32]) -> bool
    requires { length names.now ≡ length exponents.old }
    ensures known { result ≡ is_known names.now name.now }
    ensures added { exponents.new ≡ added names.now name.now exponent exponents.old }
{
    for i in 0..names.len() {
        if is_same(names.word(i).as_bytes(), name) {
            exponents[i] = exponents[i].saturating_add(exponent);
            return true;
        }
    }
    false
}

/// The number, at most u32::MAX.
#[inline(always)]
fn cap_exponent(n: u128) -> u32
    ensures { result ≡ min n top }
{
    if n > u32::MAX as u128 {
        u32::MAX
    } else {
        n as u32
    }
}

/// Reads the power that stands at the place, and adds it. The answer is the place behind it.
#[inline(always)]
pub fn read_one(
    names: &Names,
    bytes: &[u8],
    at: usize,
    exponents: &mut [u32],
) -> Result<usize, UnknownName>
    requires within { at ≤ length bytes.now }
    requires vars { length names.now ≡ length exponents.old }
    ensures bound { IfOk result (λ next. (at ≤ next) × (next ≤ length bytes.now)) }
    ensures adds { (p : Power) (rest : List ℕ) → IsPower p → EndsPower rest → drop at bytes.now ≡ spell_power p ++ rest
        → AddsPower names.now bytes.now at p rest exponents.old exponents.new result }
{
    let p = read_power(bytes, at);
    let name = &bytes[at..p.name_end];
    if add_power(names, name, cap_exponent(p.exponent), exponents) {
        Ok(p.next)
    } else {
        Err(UnknownName { at })
    }
}

/// Reads the factors that begin at the place, and adds them. The answer is the place behind them.
#[inline(always)]
pub fn read_factors(
    names: &Names,
    bytes: &[u8],
    start: usize,
    exponents: &mut [u32],
) -> Result<usize, UnknownName>
    requires within { start ≤ length bytes.now }
    requires vars { length names.now ≡ length exponents.old }
    ensures bound { IfOk result (λ next. (start ≤ next) × (next ≤ length bytes.now)) }
    ensures adds { (fs : List Factor) (rest : List ℕ) → AreFactors fs → EndsTerm rest → drop start bytes.now ≡ spell_factors fs ++ rest
        → AddsFactors names.now bytes.now start fs rest exponents.old exponents.new result }
{
    let mut i = start;
    while i < bytes.len() {
        match class_of_byte(bytes[i]) {
            ByteClass::Star => {}
            _ => return Ok(i),
        }
        let at = skip_blanks(bytes, i + 1);
        i = read_one(names, bytes, at, exponents)?;
    }
    Ok(i)
}
