//! The product of two polynomials, from one merge of all its rows.
ghost use Rattle.std.specs.Prelude.{◌≡◌, All, IfOk};
ghost use Rattle.sdmp_laws.specs.Poly.{terms, times};
ghost use Rattle.sdmp_laws.specs.Limits.{HasRoom};
ghost use Rattle.sdmp_laws.specs.Canonical.{IsCanonical};
ghost use Rattle.canonical_terms.specs.View.{sum_of};

use crate::merge::{RowMerge, RowSet};
use canonical_terms::{Poly, Term};
use coeff_ring::CoeffRing;
use packed_monomial::Monomial;
use sdmp_laws::NoMemory;
use std::alloc::Global;
use step_count::Steps;

/// The product of two polynomials that has room. Only want of memory is refused, which more than 2^32 - 1 terms of the shorter factor are.
///
/// Each term of the shorter factor is a row, so that the heap is small.
pub fn product<R: CoeffRing, M: Monomial>(
    alloc: Global,
    f: &Poly<R, M>,
    g: &Poly<R, M>,
) -> Result<Poly<R, M>, NoMemory>
    requires modulus { f.now.modulus ≡ g.now.modulus }
    requires room { HasRoom M.LIM f.now.modulus f.now.list g.now.list }
    ensures modulus { IfOk result (λ h. h.modulus ≡ f.now.modulus) }
    ensures terms { IfOk result (λ h. h.list ≡ terms M.order f.now.modulus (times f.now.list g.now.list)) }
{
    if f.terms().len() <= g.terms().len() {
        merged(alloc, f, g)
    } else {
        merged(alloc, g, f)
    }
}

// the product by rows of f
fn merged<R: CoeffRing, M: Monomial>(
    alloc: Global,
    f: &Poly<R, M>,
    g: &Poly<R, M>,
) -> Result<Poly<R, M>, NoMemory>
    requires modulus { f.now.modulus ≡ g.now.modulus }
    requires room { HasRoom M.LIM f.now.modulus f.now.list g.now.list }
    requires canonical { IsCanonical M.order f.now.modulus M.VARS M.LIM (terms M.order f.now.modulus (times f.now.list g.now.list)) }
    ensures modulus { IfOk result (λ h. h.modulus ≡ f.now.modulus) }
    ensures terms { IfOk result (λ h. h.list ≡ terms M.order f.now.modulus (times f.now.list g.now.list)) }
{
    let all = RowSet {
        f,
        g,
        workers: 1,
        worker: 0,
    };
    let mut merge = RowMerge::new(alloc, all)?;
    let list = all_terms(alloc, &mut merge)?;
    Ok(Poly::from_ordered(f.ring(), list))
}

// hands out all terms that are left
fn all_terms<R: CoeffRing, M: Monomial>(
    alloc: Global,
    merge: &mut RowMerge<'_, R, M>,
) -> Result<Vec<Term<R, M>>, NoMemory>
    ensures terms { IfOk result (λ list. sum_of M.vector R.value list.items ≡ merge.old.rest) }
    ensures belongs { IfOk result (λ list. All (λ t. R.belongs merge.old.modulus t.coef) list.items) }
{
    let mut list = Vec::new(alloc);
    let mut steps = Steps::new();
    while let Some(term) = merge.next(&mut steps) {
        list.push(term)?;
    }
    Ok(list)
}
