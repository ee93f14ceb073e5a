//! The terms of a text that is in the grammar.
ghost use Rattle.std.specs.Prelude.{◌≡◌, ◌≤◌, ◌<◌, ◌+◌, ◌++◌, ℕ, List, [], length, min, drop, All, MatchOption, IfSome, IfOk, IfErr, OnOk, get_or, eqb, if◌then◌else◌, Option, Some, None};
ghost use Rattle.sdmp_laws.specs.Limits.{greatest_norm};
ghost use Rattle.sdmp_laws.specs.Order.{degree};
ghost use Rattle.sdmp_laws.specs.Ring.{red};
ghost use Rattle.canonical_terms.specs.View.{sum_of};
ghost use Rattle.text_laws.specs.Grammar.{Tree, Product, Spells, IsProduct, spell_product, EndsTerm};
ghost use Rattle.text_laws.specs.Summands.{signed, or_else, product_at};
ghost use Rattle.text_laws.specs.Reading.{is_blank};
ghost use Rattle.poly_text.specs.Tokens.{after, sign_front, cap};
ghost use Rattle.poly_text.specs.ReadsTerms.{weight, minus_front, ReadsTerm, ReadsTree, IsWithin, pushed};

use crate::class::class_of_byte;
use crate::factors::UnknownName;
use crate::names::Names;
use crate::term::read_product;
use crate::tokens::skip_blanks;
use canonical_terms::{Term, TermOf};
use coeff_ring::CoeffRing;
use packed_monomial::{MOST_VARIABLES, Monomial};
use std::alloc::Global;
use text_laws::{ByteClass, TextFault};

/// Where a term begins, behind its sign, and whether that is a minus.
#[derive(Clone, Copy, Debug)]
struct TermStart {
    at: usize,
    negative: bool,
}

/// The term behind the sign at the place.
#[inline(always)]
fn behind_sign(bytes: &[u8], at: usize) -> TermStart
    requires { at < length bytes.now }
    ensures bound { result.at ≤ length bytes.now }
    ensures behind { at < result.at }
    ensures place { drop result.at bytes.now ≡ after is_blank (drop (at + 1) bytes.now) }
    ensures sign { result.negative ≡ eqb (get_or bytes.now at 0) 45 }
{
    TermStart {
        at: skip_blanks(bytes, at + 1),
        negative: bytes[at] == b'-',
    }
}

/// The first term.
fn first_term(bytes: &[u8]) -> TermStart
    ensures bound { result.at ≤ length bytes.now }
    ensures place { drop result.at bytes.now ≡ sign_front (after is_blank bytes.now) }
    ensures sign { result.negative ≡ minus_front (after is_blank bytes.now) }
{
    let at = skip_blanks(bytes, 0);
    if at < bytes.len() {
        if let ByteClass::Sign = class_of_byte(bytes[at]) {
            return behind_sign(bytes, at);
        }
    }
    TermStart {
        at,
        negative: false,
    }
}

/// What is held against the bound: over the integers the sum of the sizes, and else the size.
#[inline(always)]
fn weight_of(modulus: u64, sum: u128, size: u128) -> u128
    ensures { result ≡ weight modulus sum size }
{
    if modulus == 0 { sum } else { size }
}

/// The coefficient of this sign and size, and None where it is out of bounds: over the integers `sum`, the sizes added up so far, counts, and else the size itself.
#[inline(always)]
fn coefficient<R: CoeffRing>(ring: R, negative: bool, size: u128, sum: u128) -> Option<R::E>
    requires { size ≤ sum }
    ensures belongs { IfSome result (λ a. R.belongs (R.characteristic ring) a) }
    ensures value { MatchOption
        result
        (greatest_norm < weight (R.characteristic ring) sum size)
        (λ a. (weight (R.characteristic ring) sum size ≤ greatest_norm) × (R.value a ≡ red (R.characteristic ring) (signed negative size))) }
{
    if weight_of(ring.modulus(), sum, size) > i128::MAX as u128 {
        return None;
    }
    let coef = ring.from_numeral(size)?;
    if negative {
        Some(ring.neg(coef))
    } else {
        Some(coef)
    }
}

/// What was read of a term: its monomial and its coefficient, each None where it is out of bounds; the sizes added up so far, at most u128::MAX; and the place behind the term.
#[derive(Clone, Copy)]
pub struct TermRead<M, E> {
    pub mono: Option<M>,
    pub coef: Option<E>,
    pub sum: u128,
    pub next: usize,
}

/// Reads the term that begins at the place, behind its sign.
#[inline(always)]
fn read_term<R: CoeffRing, M: Monomial>(
    ring: R,
    names: &Names,
    bytes: &[u8],
    start: TermStart,
    sum: u128,
) -> Result<TermRead<M, R::E>, UnknownName>
    requires within { start.at ≤ length bytes.now }
    requires vars { length names.now ≡ M.VARS }
    ensures bound { IfOk result (λ r. (start.at ≤ r.next) × (r.next ≤ length bytes.now)) }
    ensures degree { IfOk result (λ r. IfSome r.mono (λ m. degree (M.vector m) ≤ M.LIM)) }
    ensures belongs { IfOk result (λ r. IfSome r.coef (λ a. R.belongs (R.characteristic ring) a)) }
    ensures reads { (t : Product) (rest : List ℕ) (total : ℕ) → IsProduct t → EndsTerm rest → drop start.at bytes.now ≡ spell_product t ++ rest → sum ≡ min total cap
        → ReadsTerm M.vector R.value names.now (R.characteristic ring) M.LIM bytes.now (product_at start.negative start.at t) rest total result }
{
    let mut exponents = [0u32; MOST_VARIABLES];
    let vector = &mut exponents[..names.len()];
    let read = read_product(names, bytes, start.at, vector)?;
    let sum = sum.saturating_add(read.size);
    Ok(TermRead {
        mono: M::pack(vector).ok(),
        coef: coefficient(ring, start.negative, read.size, sum),
        sum,
        next: read.next,
    })
}

/// The first place, or else this one if it has a fault.
#[inline(always)]
fn first_of(first: Option<u64>, at: u64, is_fault: bool) -> Option<u64>
    ensures { result ≡ or_else first (if is_fault then Some at else None) }
{
    if first.is_none() && is_fault {
        Some(at)
    } else {
        first
    }
}

/// Appends the term, if neither part is wanting.
#[inline(always)]
fn push_term<M: Copy, E: Copy>(
    terms: &mut Vec<TermOf<M, E>>,
    mono: Option<M>,
    coef: Option<E>,
) -> Result<(), TextFault>
    ensures pushed { OnOk result (terms.new.items ≡ terms.old.items ++ pushed mono coef) }
    ensures fault { IfErr result (λ f. f ≡ TextFault.NoMemory) }
{
    if let (Some(mono), Some(coef)) = (mono, coef) {
        if terms.push(TermOf { mono, coef }).is_err() {
            return Err(TextFault::NoMemory);
        }
    }
    Ok(())
}

/// The terms, where no place has a fault: that of a degree comes before that of a coefficient.
fn within_bounds<M: Copy, E: Copy>(
    terms: Vec<TermOf<M, E>>,
    degree_at: Option<u64>,
    coefficient_at: Option<u64>,
) -> Result<Vec<TermOf<M, E>>, TextFault>
    ensures { IsWithin degree_at coefficient_at terms result }
{
    if let Some(at) = degree_at {
        return Err(TextFault::DegreeBound { at });
    }
    if let Some(at) = coefficient_at {
        return Err(TextFault::CoefficientBound { at });
    }
    Ok(terms)
}

/// Reads the terms of a text that is in the grammar, in the order of the text, or finds their first fault.
#[inline(never)]
pub fn read_terms<R: CoeffRing, M: Monomial>(
    alloc: Global,
    ring: R,
    names: &Names,
    bytes: &[u8],
) -> Result<Vec<Term<R, M>>, TextFault>
    requires vars { length names.now ≡ M.VARS }
    ensures belongs { IfOk result (λ v. All (λ t. R.belongs (R.characteristic ring) t.coef) v.items) }
    ensures degrees { IfOk result (λ v. All (λ t. degree (M.vector t.mono) ≤ M.LIM) v.items) }
    ensures reads { (t : Tree) → Spells t bytes.now → ReadsTree (λ v. sum_of M.vector R.value v.items) names.now (R.characteristic ring) M.LIM t result }
{
    let mut terms = Vec::new(alloc);
    let mut degree_at: Option<u64> = None;
    let mut coefficient_at: Option<u64> = None;
    let mut sum: u128 = 0;
    let mut start = first_term(bytes);
    loop {
        let term = match read_term::<R, M>(ring, names, bytes, start, sum) {
            Ok(term) => term,
            Err(unknown) => return Err(TextFault::UnknownName {
                at: unknown.at as u64,
            }),
        };
        sum = term.sum;
        degree_at = first_of(degree_at, start.at as u64, term.mono.is_none());
        coefficient_at = first_of(coefficient_at, start.at as u64, term.coef.is_none());
        push_term(&mut terms, term.mono, term.coef)?;
        if term.next == bytes.len() {
            break;
        }
        start = behind_sign(bytes, term.next);
    }
    within_bounds(terms, degree_at, coefficient_at)
}
