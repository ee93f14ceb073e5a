//! Reading a polynomial.
ghost use Rattle.std.specs.Prelude.{◌≡◌, ◌≢◌, length, IfOk, IfErr, Ok, Err};
ghost use Rattle.text_laws.specs.Reading.{reading};

use crate::names::Names;
use crate::syntax::syntax_fault;
use crate::terms::read_terms;
use canonical_terms::{Poly, PolyFault};
use coeff_ring::CoeffRing;
use packed_monomial::Monomial;
use std::alloc::Global;
use text_laws::TextFault;

/// Reads a polynomial, whose terms may stand in any order and repeat. It takes a pass over the bytes for the grammar, a pass for the terms, and a sort of the terms.
pub fn read_poly<R: CoeffRing, M: Monomial>(
    alloc: Global,
    ring: R,
    names: &Names,
    bytes: &[u8],
) -> Result<Poly<R, M>, TextFault>
    requires vars { length names.now ≡ M.VARS }
    ensures modulus { IfOk result (λ f. f.modulus ≡ R.characteristic ring) }
    ensures terms { IfOk result (λ f. reading M.order names.now (R.characteristic ring) M.LIM bytes.now ≡ Ok f.list) }
    ensures fault { IfErr result (λ f. f ≢ TextFault.NoMemory → reading M.order names.now (R.characteristic ring) M.LIM bytes.now ≡ Err f) }
{
    if let Some(at) = syntax_fault(bytes) {
        return Err(TextFault::Syntax { at: at as u64 });
    }
    let terms = read_terms::<R, M>(alloc, ring, names, bytes)?;
    match Poly::from_terms(alloc, ring, terms) {
        Ok(poly) => Ok(poly),
        Err(PolyFault::CoefficientBound) => unreachable!(),
        Err(PolyFault::NoMemory) => Err(TextFault::NoMemory),
    }
}
