//! The operands of what is measured.
ghost use Rattle.std.specs.Prelude.{◌≡◌, length, IfSome};

use calc_session::split_line;
use canonical_terms::Poly;
use coeff_ring::CoeffRing;
use packed_monomial::Monomial;
use poly_text::{Names, read_poly};
use std::alloc::Global;

/// The polynomials that the first two lines define.
pub fn operands<R: CoeffRing, M: Monomial>(
    alloc: Global,
    ring: R,
    names: &Names,
    body: &[u8],
) -> Option<(Poly<R, M>, Poly<R, M>)>
    requires vars { length names.now ≡ M.VARS }
    ensures moduli { IfSome result (λ p. p.0.modulus ≡ p.1.modulus) }
{
    let (first, body) = next_line(body)?;
    let (second, _) = next_line(body)?;
    let f = defined::<R, M>(alloc, ring, names, first)?;
    let g = defined::<R, M>(alloc, ring, names, second)?;
    Some((f, g))
}

fn next_line(body: &[u8]) -> Option<(&[u8], &[u8])> {
    if body.is_empty() {
        return None;
    }
    Some(split_line(body))
}

// the polynomial after the equals sign of the line
fn defined<R: CoeffRing, M: Monomial>(
    alloc: Global,
    ring: R,
    names: &Names,
    line: &[u8],
) -> Option<Poly<R, M>>
    requires vars { length names.now ≡ M.VARS }
    ensures modulus { IfSome result (λ f. f.modulus ≡ R.characteristic ring) }
{
    let equals = line.iter().position(|byte| *byte == b'=')?;
    read_poly(alloc, ring, names, &line[equals + 1..]).ok()
}
