//! The rows of x - 1 hand out their products with a learned term.
use crate::lines::two_terms;
use canonical_terms::TermOf;
use packed_monomial::{Monomial, Packed};
use row_merge::QuotientRows;
use std::test::Fail;
use step_count::Steps;

#[test]
fn hands_out_products_of_a_learned_term(rt: HostRuntime) -> Result<(), Fail> {
    let square = Packed::<1>::pack(&[2])?;
    let x = Packed::<1>::pack(&[1])?;
    let one = Packed::<1>::pack(&[0])?;
    let divisor = two_terms(rt.alloc(), 1, 1, -1, 0)?;
    let Some(1) = divisor.degree() else {
        return Err(Fail::from("another degree"));
    };
    assert_eq!(rt; divisor.norm(), 2);
    let mut steps = Steps::new();
    let mut rows = QuotientRows::new(rt.alloc(), &divisor, 1, 0)?;
    assert_eq!(rt; rows.divisor().terms().len(), 2);
    assert!(rt; rows.first() == Some(one));
    rows.reserve(1)?;
    assert!(rt; rows.spare() >= 1);
    rows.learn(
        TermOf {
            mono: square,
            coef: 1,
        },
        &mut steps,
    );
    assert_eq!(rt; rows.known(), 1);
    assert!(rt; rows.top() == Some(square));
    let term = rows.next(&mut steps).unwrap_or(TermOf { mono: x, coef: 0 });
    assert!(rt; term.mono == square);
    assert_eq!(rt; term.coef, -1);
    assert!(rt; rows.next(&mut steps).is_none());
    Ok(())
}
