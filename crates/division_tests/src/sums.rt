//! Powers of the sum of 1 and four variables.
ghost use Rattle.std.specs.Prelude.{◌≡◌, IfOk};

use bound_check::product_room;
use canonical_terms::{Poly, TermOf};
use coeff_ring::Integers;
use packed_monomial::{Monomial, Packed};
use row_merge::product;
use std::alloc::Global;
use std::test::Fail;

pub type Space = Packed<4>;

// 1 and the four variables
fn sum_of_variables(alloc: Global) -> Result<Poly<Integers, Space>, Fail>
    ensures { IfOk result (λ f. f.modulus ≡ 0) }
{
    let exponents = [
        [0, 0, 0, 0],
        [1, 0, 0, 0],
        [0, 1, 0, 0],
        [0, 0, 1, 0],
        [0, 0, 0, 1],
    ];
    let mut list = Vec::new(alloc);
    for i in 0..exponents.len() {
        let mono = Space::pack(&exponents[i])?;
        list.push(TermOf { mono, coef: 1 })?;
    }
    Ok(Poly::from_terms(alloc, Integers, list)?)
}

/// The product.
pub fn times(
    alloc: Global,
    f: &Poly<Integers, Space>,
    g: &Poly<Integers, Space>,
) -> Result<Poly<Integers, Space>, Fail>
    requires { f.now.modulus ≡ g.now.modulus }
    ensures { IfOk result (λ h. h.modulus ≡ f.now.modulus) }
{
    product_room(f, g)?;
    Ok(product(alloc, f, g)?)
}

/// The power of the sum, and that plus 1.
pub fn power_and_next(
    alloc: Global,
    exponent: u32,
) -> Result<(Poly<Integers, Space>, Poly<Integers, Space>), Fail>
    ensures power { IfOk result (λ t. t.0.modulus ≡ 0) }
    ensures next { IfOk result (λ t. t.1.modulus ≡ 0) }
{
    let sum = sum_of_variables(alloc)?;
    let mut power = sum_of_variables(alloc)?;
    for _ in 1..exponent {
        power = times(alloc, &power, &sum)?;
    }
    let mut list = power.terms().to_vec(alloc)?;
    list.push(TermOf {
        mono: Space::one(),
        coef: 1,
    })?;
    let next = Poly::from_terms(alloc, Integers, list)?;
    Ok((power, next))
}
