//! What the lines of the body write.
ghost use Rattle.std.specs.Prelude.{◌≡◌, ◌++◌, ◌∷◌, [], length, codes, IfErr, OnOk, OnErr};
ghost use Rattle.text_laws.specs.Canonical.{text};

use crate::fault::LineFault;
use canonical_terms::Poly;
use coeff_ring::CoeffRing;
use packed_monomial::Monomial;
use poly_text::{Names, write_poly};
use std::alloc::Global;

/// Appends the text of a polynomial and a line feed, all or nothing. The one fault is want of memory.
pub fn write_line<R: CoeffRing, M: Monomial>(
    alloc: Global,
    poly: &Poly<R, M>,
    names: &Names,
    out: &mut Vec<u8>,
) -> Result<(), LineFault>
    requires vars { length names.now ≡ M.VARS }
    ensures ok { OnOk result (out.new.items ≡ out.old.items ++ (text names.now poly.now.list ++ 10 ∷ [])) }
    ensures fault { IfErr result (λ fault. fault ≡ LineFault.NoMemory) }
    ensures same { OnErr result (out.new.items ≡ out.old.items) }
{
    let start = out.len();
    if write_poly(alloc, poly, names, out).is_err() {
        return Err(LineFault::NoMemory);
    }
    if out.push(b'\n').is_err() {
        out.truncate(start);
        return Err(LineFault::NoMemory);
    }
    Ok(())
}

/// Writes the line of a quotient and that of its remainder into `out`, which is empty, all or nothing. The one fault is want of memory.
pub fn write_pair<R: CoeffRing, M: Monomial>(
    alloc: Global,
    quotient: &Poly<R, M>,
    remainder: &Poly<R, M>,
    names: &Names,
    out: &mut Vec<u8>,
) -> Result<(), LineFault>
    requires vars { length names.now ≡ M.VARS }
    requires empty { out.old.items ≡ [] }
    ensures ok { OnOk
        result
        (out.new.items ≡ (text names.now quotient.now.list ++ 10 ∷ []) ++ (text names.now remainder.now.list ++ 10 ∷ [])) }
    ensures fault { IfErr result (λ fault. fault ≡ LineFault.NoMemory) }
    ensures same { OnErr result (out.new.items ≡ []) }
{
    write_line(alloc, quotient, names, out)?;
    if write_line(alloc, remainder, names, out).is_err() {
        out.clear();
        return Err(LineFault::NoMemory);
    }
    Ok(())
}

/// Writes into `out`, which is empty, that there is no quotient, all or nothing. The one fault is want of memory.
pub fn write_none(out: &mut Vec<u8>) -> Result<(), LineFault>
    requires empty { out.old.items ≡ [] }
    ensures ok { OnOk result (out.new.items ≡ codes "none\n") }
    ensures fault { IfErr result (λ fault. fault ≡ LineFault.NoMemory) }
    ensures same { OnErr result (out.new.items ≡ []) }
{
    if out.extend_from_slice(b"none\n").is_err() {
        return Err(LineFault::NoMemory);
    }
    Ok(())
}
