use packed_monomial::{DegreeBound, Monomial};
use std::cmp::Ordering;
use std::test::Fail;
use step_count::Steps;
use wide_monomial::{RevWide, Wide};

#[test]
fn spells_in_two_words(rt: HostRuntime) -> Result<(), Fail> {
    let m = Wide::<2>::pack(&[3, 1])?;
    assert_eq!(rt; m.to_words(), [13194139533313, 4194304]);
    assert!(rt; Wide::<2>::from_words([13194139533313, 4194304]) == Some(m));
    assert!(rt; Wide::<2>::from_words([13194139533313, 0]) == None);
    let m = RevWide::<2>::pack(&[3, 1])?;
    assert_eq!(rt; m.to_words(), [17592186044419, 0]);
    assert!(rt; RevWide::<2>::from_words([17592186044419, 0]) == Some(m));
    Ok(())
}

#[test]
fn packs_up_to_the_limit(rt: HostRuntime) {
    let most = [127, 0, 0, 0, 0, 0, 0, 0, 0, 0, 0, 0, 0, 0, 0];
    let more = [127, 1, 0, 0, 0, 0, 0, 0, 0, 0, 0, 0, 0, 0, 0];
    let bound = Some(DegreeBound { degree: 128 });
    assert!(rt; Wide::<15>::pack(&most).is_ok());
    assert_eq!(rt; Wide::<15>::pack(&more).err(), bound);
    assert!(rt; RevWide::<15>::pack(&most).is_ok());
    assert_eq!(rt; RevWide::<15>::pack(&more).err(), bound);
    assert_eq!(rt;
        Wide::<1>::pack(&[4294967295]).err(),
        Some(DegreeBound { degree: 4294967295 })
    );
}

#[test]
fn divides_by_exponents(rt: HostRuntime) -> Result<(), Fail> {
    let divisor = RevWide::<2>::pack(&[3, 1])?;
    assert!(rt; !divisor.divides(RevWide::<2>::pack(&[4, 0])?));
    assert!(rt; divisor.divides(RevWide::<2>::pack(&[4, 1])?));
    let divisor = Wide::<2>::pack(&[3, 1])?;
    assert!(rt; !divisor.divides(Wide::<2>::pack(&[4, 0])?));
    assert!(rt; divisor.divides(Wide::<2>::pack(&[4, 1])?));
    Ok(())
}

#[test]
fn reads_no_fields_that_fall(rt: HostRuntime) {
    assert!(rt; RevWide::<2>::from_words([13194139533316, 0]) == None);
}

#[test]
fn orders_are_told_apart(rt: HostRuntime) -> Result<(), Fail> {
    let mut steps = Steps::new();
    let left = Wide::<3>::pack(&[1, 0, 1])?;
    assert_eq!(rt;
        left.higher(Wide::<3>::pack(&[0, 2, 0])?, &mut steps),
        Ordering::Greater
    );
    let left = RevWide::<3>::pack(&[1, 0, 1])?;
    assert_eq!(rt;
        left.higher(RevWide::<3>::pack(&[0, 2, 0])?, &mut steps),
        Ordering::Less
    );
    assert_eq!(rt; steps.compares, 2);
    Ok(())
}

#[test]
fn multiplies_and_divides(rt: HostRuntime) -> Result<(), Fail> {
    let m = Wide::<3>::pack(&[1, 0, 2])?;
    assert_eq!(rt; Wide::<3>::limit(), 2147483647);
    assert!(rt; Wide::<3>::one() == Wide::<3>::pack(&[0, 0, 0])?);
    let square = Wide::<3>::pack(&[2, 0, 4])?;
    assert!(rt; m.times(m) == square);
    assert_eq!(rt; square.degree(), 6);
    assert_eq!(rt; square.exponent(0), 2);
    assert_eq!(rt; square.exponent(1), 0);
    assert_eq!(rt; square.exponent(2), 4);
    let back = if m.divides(square) {
        Some(square.over(m))
    } else {
        None
    };
    assert!(rt; back == Some(m));
    Ok(())
}

#[test]
fn multiplies_and_divides_sums(rt: HostRuntime) -> Result<(), Fail> {
    let m = RevWide::<3>::pack(&[1, 0, 2])?;
    assert_eq!(rt; RevWide::<3>::limit(), 2147483647);
    assert!(rt; RevWide::<3>::one() == RevWide::<3>::pack(&[0, 0, 0])?);
    let square = RevWide::<3>::pack(&[2, 0, 4])?;
    assert!(rt; m.times(m) == square);
    assert_eq!(rt; square.degree(), 6);
    assert_eq!(rt; square.exponent(0), 2);
    assert_eq!(rt; square.exponent(1), 0);
    assert_eq!(rt; square.exponent(2), 4);
    let back = if m.divides(square) {
        Some(square.over(m))
    } else {
        None
    };
    assert!(rt; back == Some(m));
    Ok(())
}
