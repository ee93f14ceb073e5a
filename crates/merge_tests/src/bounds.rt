//! The bounds on products and quotients.
use bound_check::{Bound, product_room, quotient_room};
use canonical_terms::{Poly, TermOf};
use coeff_ring::Integers;
use packed_monomial::{Monomial, Packed};
use std::test::Fail;

#[test]
fn refuses_a_great_degree(rt: HostRuntime) -> Result<(), Fail> {
    let power = [TermOf {
        mono: Packed::<7>::pack(&[64, 0, 0, 0, 0, 0, 0])?,
        coef: 1,
    }];
    let f = Poly::<Integers, Packed<7>>::from_terms(
        rt.alloc(),
        Integers,
        power.to_vec(rt.alloc())?,
    )?;
    assert_eq!(rt; product_room(&f, &f), Err(Bound::Degree { sum: 128 }));
    let zero = Poly::<Integers, Packed<7>>::zero(rt.alloc(), Integers);
    assert_eq!(rt; product_room(&f, &zero), Ok(()));
    Ok(())
}

#[test]
fn keeps_to_the_bound(rt: HostRuntime) {
    assert!(rt; quotient_room(i128::MAX as u128 - 6, 2, 3));
    assert!(rt; !quotient_room(i128::MAX as u128 - 6, 7, 1));
    assert!(rt; !quotient_room(0, u128::MAX, 2));
}
