use packed_monomial::{DegreeBound, Monomial, Packed};
use std::test::Fail;

#[test]
fn packs_up_to_the_limit(rt: HostRuntime) {
    assert!(rt; Packed::<7>::pack(&[127, 0, 0, 0, 0, 0, 0]).is_ok());
    assert_eq!(rt;
        Packed::<7>::pack(&[127, 1, 0, 0, 0, 0, 0]).err(),
        Some(DegreeBound { degree: 128 })
    );
}

#[test]
fn divides_in_two_variables(rt: HostRuntime) -> Result<(), Fail> {
    let divisor = Packed::<2>::pack(&[3, 1])?;
    assert_eq!(rt; divisor.to_words(), [17592192335873, 0]);
    assert!(rt; !divisor.divides(Packed::<2>::pack(&[4, 0])?));
    assert!(rt; divisor.divides(Packed::<2>::pack(&[4, 1])?));
    Ok(())
}
