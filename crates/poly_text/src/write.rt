//! A polynomial's canonical text, appended.
ghost use Rattle.std.specs.Prelude.{◌≡◌, ◌++◌, length, All, OnOk, OnErr};
ghost use Rattle.canonical_terms.specs.View.{sum_of};
ghost use Rattle.text_laws.specs.Canonical.{text, later_text};
ghost use Rattle.poly_text.specs.Printed.{Extends};

use crate::names::Names;
use crate::print::write_term;
use canonical_terms::{Poly, Term};
use coeff_ring::CoeffRing;
use packed_monomial::Monomial;
use sdmp_laws::NoMemory;
use std::alloc::{AllocError, Global};

/// The terms behind the first one.
#[inline(never)]
#[tactic(auto, using(crate::proofs::Extending::extending))]
fn write_later<R: CoeffRing, M: Monomial>(
    out: &mut Vec<u8>,
    names: &Names,
    ring: R,
    terms: &[Term<R, M>],
) -> Result<(), AllocError>
    requires vars { length names.now ≡ M.VARS }
    requires belongs { All (λ t. R.belongs (R.characteristic ring) t.coef) terms.now }
    ensures ok { OnOk
        result
        (out.new.items
        ≡ out.old.items ++ later_text names.now (sum_of M.vector R.value terms.now)) }
    ensures err { OnErr result (Extends out.old.items out.new.items) }
{
    for t in terms {
        write_term::<R, M>(out, names, false, ring, *t)?;
    }
    Ok(())
}

#[tactic(auto, using(crate::proofs::Extending::extending))]
fn write_terms<R: CoeffRing, M: Monomial>(
    out: &mut Vec<u8>,
    names: &Names,
    ring: R,
    terms: &[Term<R, M>],
) -> Result<(), AllocError>
    requires vars { length names.now ≡ M.VARS }
    requires belongs { All (λ t. R.belongs (R.characteristic ring) t.coef) terms.now }
    ensures ok { OnOk
        result
        (out.new.items
        ≡ out.old.items ++ text names.now (sum_of M.vector R.value terms.now)) }
    ensures err { OnErr result (Extends out.old.items out.new.items) }
{
    if terms.is_empty() {
        out.push(b'0')?;
        return Ok(());
    }
    write_term::<R, M>(out, names, true, ring, terms[0])?;
    write_later::<R, M>(out, names, ring, &terms[1..])
}

/// Appends the canonical text of the polynomial, which `read_poly` reads as that polynomial. After an error `out` is as before.
pub fn write_poly<R: CoeffRing, M: Monomial>(
    _alloc: Global,
    poly: &Poly<R, M>,
    names: &Names,
    out: &mut Vec<u8>,
) -> Result<(), NoMemory>
    requires vars { length names.now ≡ M.VARS }
    ensures text { OnOk result (out.new.items ≡ out.old.items ++ text names.now poly.now.list) }
    ensures same { OnErr result (out.new.items ≡ out.old.items) }
{
    let start = out.len();
    if write_terms::<R, M>(out, names, poly.ring(), poly.terms()).is_err() {
        out.truncate(start);
        return Err(NoMemory);
    }
    Ok(())
}
