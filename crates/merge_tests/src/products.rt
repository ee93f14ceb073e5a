//! The product of x + 1 and x - 1, whole and in the parts of two workers.
use crate::lines::two_terms;
use bound_check::product_room;
use coeff_ring::Integers;
use packed_monomial::{Monomial, Packed};
use row_merge::{RowMerge, RowSet, product};
use std::test::Fail;
use step_count::Steps;

// the exponent and the coefficient of the next term
fn handed(merge: &mut RowMerge<Integers, Packed<1>>, steps: &mut Steps) -> Option<(u32, i128)> {
    let term = merge.next(steps)?;
    Some((term.mono.exponent(0), term.coef))
}

#[test]
fn multiplies_whole_and_in_parts(rt: HostRuntime) -> Result<(), Fail> {
    let f = two_terms(rt.alloc(), 1, 1, 1, 0)?;
    let g = two_terms(rt.alloc(), 1, 1, -1, 0)?;
    product_room(&f, &g)?;
    let h = product(rt.alloc(), &f, &g)?;
    assert_eq!(rt; h.terms().len(), 2);
    assert_eq!(rt; h.degree(), Some(2));
    assert_eq!(rt; h.norm(), 2);
    let mut steps = Steps::new();
    let set = RowSet {
        f: &f,
        g: &g,
        workers: 2,
        worker: 0,
    };
    let mut merge = RowMerge::new(rt.alloc(), set)?;
    assert_eq!(rt; handed(&mut merge, &mut steps), Some((2, 1)));
    assert_eq!(rt; handed(&mut merge, &mut steps), Some((1, -1)));
    assert_eq!(rt; handed(&mut merge, &mut steps), None);
    let set = RowSet {
        f: &f,
        g: &g,
        workers: 2,
        worker: 1,
    };
    let mut merge = RowMerge::new(rt.alloc(), set)?;
    assert_eq!(rt; handed(&mut merge, &mut steps), Some((1, 1)));
    assert_eq!(rt; handed(&mut merge, &mut steps), Some((0, -1)));
    assert_eq!(rt; handed(&mut merge, &mut steps), None);
    assert_eq!(rt; steps.products, 4);
    Ok(())
}
