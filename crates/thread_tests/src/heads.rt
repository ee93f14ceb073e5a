//! The heads of five workers, which are found by scans, and of nine, which are found by a heap.
ghost use Rattle.std.specs.Prelude.{◌≡◌, ◌≤◌, length, All, IfOk, unsigned_abs};
ghost use Rattle.ring_heads.specs.Heads.{HeadBelongs};

use crate::lines::Line;
use canonical_terms::TermOf;
use coeff_ring::Integers;
use packed_monomial::Monomial;
use ring_heads::Heads;
use std::alloc::Global;
use std::test::Fail;
use step_count::Steps;

// each worker has the term with the exponent and the coefficient at its place
fn filled(
    alloc: Global,
    pairs: &[(u32, i128)],
    steps: &mut Steps,
) -> Result<Heads<Integers, Line>, Fail>
    requires few { length pairs.now ≤ 9 }
    requires small { All (λ p. unsigned_abs p.1 ≤ 9) pairs.now }
    ensures long { IfOk result (λ h. length h ≡ length pairs.now) }
    ensures small { IfOk result (λ h. All (HeadBelongs (λ a. unsigned_abs a ≤ 9)) h) }
{
    let mut heads = Heads::new(alloc, pairs.len() as u32)?;
    for worker in 0..pairs.len() {
        let (exponent, coef) = pairs[worker];
        let mono = Line::pack(&[exponent])?;
        heads.put(worker, TermOf { mono, coef }, steps);
    }
    Ok(heads)
}

// The exponent and the coefficient of the sum at the greatest monomial, whose heads go. The calls that take nothing tell of the same.
fn take_one(heads: &mut Heads<Integers, Line>, steps: &mut Steps) -> Option<(u32, i128)>
    requires few { length heads.old ≤ 9 }
    requires small { All (HeadBelongs (λ a. unsigned_abs a ≤ 9)) heads.old }
    ensures long { length heads.new ≡ length heads.old }
    ensures small { All (HeadBelongs (λ a. unsigned_abs a ≤ 9)) heads.new }
{
    let top = heads.top(steps);
    let sum = heads.sum_at_top(Integers, steps);
    let taken = heads.take_top(Integers, steps)?;
    let sum = sum?;
    let same = top? == taken.mono && sum.mono == taken.mono && sum.coef == taken.coef;
    same.then_some((taken.mono.exponent(0), taken.coef))
}

#[test]
fn five_heads_by_scans(rt: HostRuntime) -> Result<(), Fail> {
    let mut steps = Steps::new();
    let pairs = [(3, 2), (1, 5), (3, 4), (0, -7), (1, -5)];
    let mut heads = filled(rt.alloc(), &pairs, &mut steps)?;
    assert!(rt; !heads.is_empty() && !heads.is_missing(4) && !heads.all_ended());
    assert_eq!(rt; take_one(&mut heads, &mut steps), Some((3, 6)));
    assert!(rt; heads.is_missing(0) && heads.is_missing(2) && !heads.is_missing(1));
    assert_eq!(rt; take_one(&mut heads, &mut steps), Some((1, 0)));
    assert_eq!(rt; take_one(&mut heads, &mut steps), Some((0, -7)));
    assert_eq!(rt; take_one(&mut heads, &mut steps), None);
    assert!(rt; heads.is_empty() && !heads.all_ended());
    Ok(())
}

#[test]
fn nine_heads_by_a_heap(rt: HostRuntime) -> Result<(), Fail> {
    let mut steps = Steps::new();
    let pairs = [
        (2, 1),
        (5, 2),
        (2, 3),
        (7, -1),
        (0, 4),
        (5, -2),
        (1, 9),
        (7, -8),
        (3, 6),
    ];
    let mut heads = filled(rt.alloc(), &pairs, &mut steps)?;
    for sum in [(7, -9), (5, 0), (3, 6), (2, 4), (1, 9), (0, 4)] {
        assert!(rt; !heads.is_empty());
        assert_eq!(rt; take_one(&mut heads, &mut steps), Some(sum));
    }
    assert_eq!(rt; take_one(&mut heads, &mut steps), None);
    assert!(rt; heads.is_empty() && heads.is_missing(8));
    Ok(())
}
