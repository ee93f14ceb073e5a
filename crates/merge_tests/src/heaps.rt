//! A heap takes all rows at the greatest monomial.
use chained_heap::ChainedHeap;
use packed_monomial::{Monomial, Packed};
use std::test::Fail;
use step_count::Steps;

#[test]
fn takes_both_squares(rt: HostRuntime) -> Result<(), Fail> {
    let mut steps = Steps::new();
    let mut heap = ChainedHeap::<Packed<1>>::with_rows(rt.alloc(), 3)?;
    let square = Packed::<1>::pack(&[2])?;
    let line = Packed::<1>::pack(&[1])?;
    heap.insert(0, square, &mut steps);
    heap.insert(1, line, &mut steps);
    heap.insert(2, square, &mut steps);
    assert!(rt; steps.compares <= 6);
    let before = steps.compares;
    assert!(rt; heap.take_top(&mut steps) == Some(square));
    assert!(rt; steps.compares <= before.saturating_add(8));
    let first = heap.pop_taken();
    let second = heap.pop_taken();
    assert!(rt; (first == Some(0) && second == Some(2)) || (first == Some(2) && second == Some(0)));
    assert!(rt; heap.pop_taken() == None);
    assert!(rt; heap.top() == Some(line));
    Ok(())
}
