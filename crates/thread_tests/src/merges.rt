//! The shared merge of a product by two workers.
ghost use Rattle.std.specs.Prelude.{◌≡◌, [], ◌∷◌, IfOk};
ghost use Rattle.whole_laws.specs.Notes.{ProductScript};
ghost use Rattle.term_ring.specs.Ends.{IsReaderOf, script_in, taken};
ghost use Rattle.term_ring.specs.Names.{ring_name};
ghost use Rattle.global_heap.specs.Examples.{squares};

use crate::lines::{Line, binomial};
use crate::rings::push_from;
use crate::squares::{first_notes, hire, second_notes};
use coeff_ring::Integers;
use global_heap::{Advance, Merge, MergeTally};
use packed_monomial::Monomial;
use std::alloc::Global;
use std::test::Fail;
use step_count::Steps;
use term_ring::{Reader, Ring};

// the merge of the readers of both
fn begin(
    alloc: Global,
    first_ring: &Ring<Integers, Line>,
    second_ring: &Ring<Integers, Line>,
    first: Reader<Integers, Line>,
    second: Reader<Integers, Line>,
) -> Result<Merge<Integers, Line>, Fail>
    requires first { IsReaderOf first_ring.now first }
    requires second { IsReaderOf second_ring.now second }
    requires first_script { script_in first_ring.now ≡ ProductScript squares 2 0 }
    requires second_script { script_in second_ring.now ≡ ProductScript squares 2 1 }
    requires first_taken { taken first ≡ [] }
    requires second_taken { taken second ≡ [] }
    ensures rings { IfOk result (λ m. m.rings ≡ ring_name first_ring.now ∷ ring_name second_ring.now ∷ []) }
{
    let mut readers = Vec::new(alloc);
    readers.push(first)?;
    readers.push(second)?;
    let merge = Merge::new(alloc, Integers, readers)?;
    Ok(merge)
}

#[test]
fn two_workers_of_the_difference_of_squares(rt: HostRuntime) -> Result<(), Fail> {
    let alloc = rt.alloc();
    let f = binomial(alloc, 1, 1, 1)?;
    let g = binomial(alloc, 1, 1, -1)?;
    let (first, mut first_writer, first_reader) = hire(alloc, &f, &g, 0, 4)?;
    let (second, mut second_writer, second_reader) = hire(alloc, &f, &g, 1, 4)?;
    let mut merge = begin(alloc, &first, &second, first_reader, second_reader)?;
    let rings = [first, second];
    let mut steps = Steps::new();

    let receipt = merge.advance(&rings, &mut steps);
    assert!(rt; matches!(receipt.answer(), Advance::NeedsRing(0)));
    assert!(rt; receipt.notes() == 0 && !merge.is_done());

    let list = first_notes(&rings[0])?;
    assert_eq!(rt; push_from(&mut first_writer, &rings[0], &list, 0), 3);
    let list = second_notes(&rings[1])?;
    assert_eq!(rt; push_from(&mut second_writer, &rings[1], &list, 0), 3);
    let receipt = merge.advance(&rings, &mut steps);
    assert!(rt; matches!(receipt.answer(), Advance::OutFull));
    assert!(rt; receipt.notes() == 2 && merge.taken() == 2 && merge.spare() == 0);

    merge.whole();
    merge.meet(&rings[0], 0, &mut first_writer);
    merge.reserve(2)?;
    assert!(rt; merge.spare() >= 2);
    let last = merge.advance(&rings, &mut steps);
    let Advance::Done = last.answer() else {
        panic!(rt; "the end")
    };
    assert!(rt; last.notes() == 6 && merge.taken() == 6);

    let mut tally = MergeTally::new();
    tally.add(last);
    assert!(rt; tally.products() == 1 && tally.notes() == 6);

    assert!(rt; merge.is_done());
    let product = merge.finish();
    let list = product.terms();
    assert!(rt; list.len() == 2);
    assert!(rt; list[0].mono.exponent(0) == 2 && list[0].coef == 1);
    assert!(rt; list[1].mono.exponent(0) == 0 && list[1].coef == -1);
    Ok(())
}
