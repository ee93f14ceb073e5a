//! One term's text, appended.
ghost use Rattle.std.specs.Prelude.{◌≡◌, ◌+◌, ◌<◌, ◌++◌, ◌∷◌, [], is_ok, if◌then◌else◌, length, OnOk, OnErr};
ghost use Rattle.std.specs.Fmt.{decimal};
ghost use Rattle.sdmp_laws.specs.Order.{degree};
ghost use Rattle.canonical_terms.specs.View.{term_of};
ghost use Rattle.text_laws.specs.Canonical.{starred, size_text, power_text, power_texts, term_text};
ghost use Rattle.poly_text.specs.Printed.{sign_bytes, joined, Extends};

use crate::names::Names;
use canonical_terms::Term;
use coeff_ring::CoeffRing;
use itoa::Buffer;
use packed_monomial::Monomial;
use std::alloc::AllocError;

/// A digit.
#[inline(always)]
fn write_digit(out: &mut Vec<u8>, n: u64) -> Result<(), AllocError>
    requires { n < 10 }
    ensures { out.new.items ≡ (if is_ok result then out.old.items ++ (48 + n) ∷ [] else out.old.items) }
{
    out.push(b'0' + n as u8)?;
    Ok(())
}

/// A number of up to two digits.
#[inline(always)]
#[tactic(auto, using(crate::proofs::Extending::extending, crate::proofs::ShortNumbers::short_numbers))]
fn write_tens(out: &mut Vec<u8>, n: u64) -> Result<(), AllocError>
    requires { n < 100 }
    ensures ok { OnOk result (out.new.items ≡ out.old.items ++ decimal n) }
    ensures err { OnErr result (Extends out.old.items out.new.items) }
{
    if n < 10 {
        return write_digit(out, n);
    }
    write_digit(out, n / 10)?;
    write_digit(out, n % 10)
}

/// A number of up to three digits, as most exponents are.
#[inline(always)]
#[tactic(auto, using(crate::proofs::Extending::extending, crate::proofs::ShortNumbers::short_numbers))]
fn write_short(out: &mut Vec<u8>, n: u64) -> Result<(), AllocError>
    requires { n < 1000 }
    ensures ok { OnOk result (out.new.items ≡ out.old.items ++ decimal n) }
    ensures err { OnErr result (Extends out.old.items out.new.items) }
{
    if n < 100 {
        return write_tens(out, n);
    }
    write_tens(out, n / 10)?;
    write_digit(out, n % 10)
}

/// A number of any length.
fn write_long(out: &mut Vec<u8>, n: u128) -> Result<(), AllocError>
    ensures { out.new.items ≡ (if is_ok result then out.old.items ++ decimal n else out.old.items) }
{
    let mut buffer = Buffer::new();
    out.extend_from_slice(buffer.format(n).as_bytes())
}

#[inline(always)]
#[tactic(auto, using(crate::proofs::Extending::extending))]
fn write_number(out: &mut Vec<u8>, n: u128) -> Result<(), AllocError>
    ensures ok { OnOk result (out.new.items ≡ out.old.items ++ decimal n) }
    ensures err { OnErr result (Extends out.old.items out.new.items) }
{
    if n < 1000 {
        return write_short(out, n as u64);
    }
    write_long(out, n)
}

/// A name; one letter needs no call.
#[inline(always)]
fn write_name(out: &mut Vec<u8>, name: &[u8]) -> Result<(), AllocError>
    ensures { out.new.items ≡ (if is_ok result then out.old.items ++ name.now else out.old.items) }
{
    if let [letter] = name {
        out.push(*letter)?;
        return Ok(());
    }
    out.extend_from_slice(name)
}

#[inline(always)]
#[tactic(auto, using(crate::proofs::Extending::extending))]
fn write_power(out: &mut Vec<u8>, name: &[u8], exponent: u32) -> Result<(), AllocError>
    ensures ok { OnOk result (out.new.items ≡ out.old.items ++ power_text name.now exponent) }
    ensures err { OnErr result (Extends out.old.items out.new.items) }
{
    write_name(out, name)?;
    if exponent != 1 {
        out.push(b'^')?;
        write_number(out, exponent as u128)?;
    }
    Ok(())
}

/// The powers with an exponent above 0; `after` tells that a factor stands before them.
#[inline(always)]
#[tactic(auto, using(crate::proofs::Extending::extending))]
fn write_powers<M: Monomial>(
    out: &mut Vec<u8>,
    names: &Names,
    mono: M,
    after: bool,
) -> Result<(), AllocError>
    requires { length names.now ≡ M.VARS }
    ensures ok { OnOk result (out.new.items ≡ out.old.items ++ joined after (power_texts names.now (M.vector mono))) }
    ensures err { OnErr result (Extends out.old.items out.new.items) }
{
    let mut written = after;
    for i in 0..names.len() {
        let exponent = mono.exponent(i);
        if exponent == 0 {
            continue;
        }
        if written {
            out.push(b'*')?;
        }
        written = true;
        write_power(out, names.word(i).as_bytes(), exponent)?;
    }
    Ok(())
}

#[inline(always)]
#[tactic(auto, using(crate::proofs::Extending::extending))]
fn write_sign(out: &mut Vec<u8>, is_first: bool, negative: bool) -> Result<(), AllocError>
    ensures ok { OnOk result (out.new.items ≡ out.old.items ++ sign_bytes is_first negative) }
    ensures err { OnErr result (out.new.items ≡ out.old.items) }
{
    if negative {
        out.push(b'-')?;
    } else if !is_first {
        out.push(b'+')?;
    }
    Ok(())
}

#[inline(always)]
#[tactic(auto, using(crate::proofs::Extending::extending))]
fn write_factors<M: Monomial>(
    out: &mut Vec<u8>,
    names: &Names,
    size: u128,
    mono: M,
) -> Result<(), AllocError>
    requires { length names.now ≡ M.VARS }
    ensures ok { OnOk
        result
        (out.new.items
        ≡ out.old.items ++ starred (size_text size (degree (M.vector mono)) ++ power_texts names.now (M.vector mono))) }
    ensures err { OnErr result (Extends out.old.items out.new.items) }
{
    if size == 1 && mono.degree() != 0 {
        return write_powers::<M>(out, names, mono, false);
    }
    write_number(out, size)?;
    write_powers::<M>(out, names, mono, true)
}

/// Appends one term of a polynomial.
#[inline(always)]
#[tactic(auto, using(crate::proofs::Extending::extending, crate::proofs::TermParts::term_parts))]
pub fn write_term<R: CoeffRing, M: Monomial>(
    out: &mut Vec<u8>,
    names: &Names,
    is_first: bool,
    ring: R,
    term: Term<R, M>,
) -> Result<(), AllocError>
    requires vars { length names.now ≡ M.VARS }
    requires belongs { R.belongs (R.characteristic ring) term.coef }
    ensures ok { OnOk
        result
        (out.new.items
        ≡ out.old.items ++ term_text names.now is_first (term_of M.vector R.value term)) }
    ensures err { OnErr result (Extends out.old.items out.new.items) }
{
    write_sign(out, is_first, ring.is_negative(term.coef))?;
    write_factors::<M>(out, names, ring.size(term.coef), term.mono)
}
