//! The greatest monomial of what is still to come: the unread terms of the dividend, less the products owed.
ghost use Rattle.std.specs.Prelude.{◌≡◌, ◌≢◌, ◌+◌, ◌≤◌, ℕ, ℤ, [], length, drop, All, MatchOption, IfSome, neg_ℤ};
ghost use Rattle.sdmp_laws.specs.Ring.{red};
ghost use Rattle.sdmp_laws.specs.Poly.{norm, Decreasing};
ghost use Rattle.sdmp_laws.specs.Limits.{greatest_norm};
ghost use Rattle.canonical_terms.specs.View.{term_of, sum_of};
ghost use Rattle.row_merge.specs.Learned.{HandOut, QuotientState};
ghost use Rattle.divide_core.specs.Dividing.{TakesNext, IsOwed, IsCompared};

use canonical_terms::{Term, TermOf};
use coeff_ring::CoeffRing;
use packed_monomial::Monomial;
use row_merge::QuotientRows;
use std::cmp::Ordering;
use step_count::Steps;

// the products at the greatest monomial, with the negative of their sum
#[inline(always)]
fn owed<R: CoeffRing, M: Monomial>(
    ring: R,
    rows: &mut QuotientRows<'_, R, M>,
    steps: &mut Steps,
) -> Option<Term<R, M>>
    requires { R.characteristic ring ≡ rows.old.modulus }
    ensures sum { MatchOption
        result
        ((rows.old.unread ≡ []) × rows.new ≡ rows.old)
        (λ t. IsOwed M.order rows.old rows.new (term_of M.vector R.value t)) }
    ensures belongs { IfSome result (λ t. R.belongs (R.characteristic ring) t.coef) }
{
    match rows.next(steps) {
        None => None,
        Some(t) => Some(TermOf {
            mono: t.mono,
            coef: ring.neg(t.coef),
        }),
    }
}

// how the next unread term, at the place `read`, compares with the greatest product owed; None exactly where there is neither
fn compared<R: CoeffRing, M: Monomial>(
    terms: &[Term<R, M>],
    read: usize,
    rows: &QuotientRows<'_, R, M>,
    steps: &mut Steps,
) -> Option<Ordering>
    requires { Decreasing M.order (sum_of M.vector R.value (drop read terms.now)) }
    ensures { MatchOption
        result
        ((drop read terms.now ≡ []) × (rows.now.unread ≡ []))
        (λ order. IsCompared M.order (sum_of M.vector R.value (drop read terms.now)) rows.now.unread order) }
{
    match rows.top() {
        None => {
            if read >= terms.len() {
                return None;
            }
            Some(Ordering::Greater)
        }
        Some(m) => {
            if read >= terms.len() {
                return Some(Ordering::Less);
            }
            Some(terms[read].mono.higher(m, steps))
        }
    }
}

/// Takes what stands at the greatest monomial of the unread terms, from the place `read` on, and of the products owed: the difference of the sums, which may be zero. None exactly where nothing is left.
#[inline(always)]
pub fn take_next<R: CoeffRing, M: Monomial>(
    ring: R,
    terms: &[Term<R, M>],
    read: &mut usize,
    rows: &mut QuotientRows<'_, R, M>,
    steps: &mut Steps,
) -> Option<Term<R, M>>
    requires modulus { R.characteristic ring ≡ rows.old.modulus }
    requires read { read.old ≤ length terms.now }
    requires falls { Decreasing M.order (sum_of M.vector R.value (drop read.old terms.now)) }
    requires belongs { All (λ t. R.belongs (R.characteristic ring) t.coef) terms.now }
    requires fits { R.characteristic ring ≡ 0 → norm (sum_of M.vector R.value (drop read.old terms.now)) + norm rows.old.unread ≤ greatest_norm }
    ensures next { MatchOption
        result
        ((drop read.old terms.now ≡ []) × (rows.old.unread ≡ []))
        (λ t. TakesNext
        M.order
        (R.characteristic ring)
        (sum_of M.vector R.value (drop read.old terms.now))
        (sum_of M.vector R.value (drop read.new terms.now))
        rows.old.unread
        rows.new.unread
        (term_of M.vector R.value t)) }
    ensures belongs { IfSome result (λ t. R.belongs (R.characteristic ring) t.coef) }
    ensures rows { rows.new ≡ record rows.old { unread = rows.new.unread } }
    ensures read { read.new ≤ length terms.now }
{
    let at = *read;
    match compared(terms, at, rows, steps) {
        None => None,
        Some(Ordering::Less) => owed(ring, rows, steps),
        Some(Ordering::Greater) => {
            *read = at + 1;
            Some(terms[at])
        }
        Some(Ordering::Equal) => {
            *read = at + 1;
            let head = terms[at];
            match owed(ring, rows, steps) {
                None => None,
                Some(product) => Some(TermOf {
                    mono: head.mono,
                    coef: ring.add(head.coef, product.coef),
                }),
            }
        }
    }
}
