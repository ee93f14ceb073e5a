//! Divisors, and which polynomials are none.
use crate::lines::{Line, two_terms};
use coeff_ring::Integers;
use normal_form::{DivisorFault, Divisors};
use packed_monomial::Packed;
use std::test::Fail;

#[test]
fn takes_divisors(rt: HostRuntime) -> Result<(), Fail> {
    let alloc = rt.alloc();
    let line = two_terms(alloc, 1, 1, -1, 0)?;
    let negative = two_terms(alloc, -1, 2, 7, 0)?;
    let double = two_terms(alloc, 2, 1, 1, 0)?;
    let zero = Line::zero(alloc, Integers);
    let mut divisors = Divisors::<Integers, Packed<1>>::new(alloc, Integers);
    assert!(rt; divisors.add(&line).is_ok());
    assert!(rt; divisors.add(&negative).is_ok());
    assert_eq!(rt; divisors.len(), 2);
    assert_eq!(rt; divisors.add(&double), Err(DivisorFault::NotUnit));
    assert_eq!(rt; divisors.add(&zero), Err(DivisorFault::ZeroDivisor));
    assert_eq!(rt; divisors.len(), 2);
    Ok(())
}
