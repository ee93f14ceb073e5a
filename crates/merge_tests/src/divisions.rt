//! Divisions with known answers.
ghost use Rattle.std.specs.Prelude.{◌≡◌};

use crate::lines::{Line, two_terms};
use canonical_terms::{Poly, TermOf};
use coeff_residue::Residues;
use coeff_ring::Integers;
use divide_core::{DivideFault, Division, divide_alone};
use packed_monomial::{Monomial, Packed};
use sdmp_laws::Mode;
use std::alloc::Global;
use std::test::Fail;

// the coefficients, the greatest monomial's first
fn coefs(alloc: Global, f: &Line) -> Result<Vec<i128>, Fail> {
    let mut list = Vec::new(alloc);
    for t in f.terms() {
        list.push(t.coef)?;
    }
    Ok(list)
}

fn quotient(alloc: Global, f: &Line, g: &Line) -> Result<Option<Vec<i128>>, Fail>
    requires { f.now.modulus ≡ g.now.modulus }
{
    match divide_alone(alloc, f, g, Mode::Exact)? {
        Division::Quotient(q) => Ok(Some(coefs(alloc, &q)?)),
        Division::NoQuotient => Ok(None),
        Division::Remainder { q: _, r: _ } => Ok(None),
    }
}

#[test]
fn divides_exactly(rt: HostRuntime) -> Result<(), Fail> {
    let alloc = rt.alloc();
    // (x^3 - 1)/(x - 1)
    let cube = two_terms(alloc, 1, 3, -1, 0)?;
    let line = two_terms(alloc, 1, 1, -1, 0)?;
    assert!(rt;
        quotient(alloc, &cube, &line)?.is_some_and(|q| q.as_slice() == [1, 1, 1].as_slice())
    );
    // (x^2 + 1)/(x + 1) fails after two terms
    let square = two_terms(alloc, 1, 2, 1, 0)?;
    let sum = two_terms(alloc, 1, 1, 1, 0)?;
    assert!(rt; quotient(alloc, &square, &sum)?.is_none());
    // (4x^2 - 1)/(2x + 1)
    let squares = two_terms(alloc, 4, 2, -1, 0)?;
    let double = two_terms(alloc, 2, 1, 1, 0)?;
    assert!(rt;
        quotient(alloc, &squares, &double)?.is_some_and(|q| q.as_slice() == [2, -1].as_slice())
    );
    Ok(())
}

#[test]
fn refuses(rt: HostRuntime) -> Result<(), Fail> {
    let alloc = rt.alloc();
    let square = two_terms(alloc, 1, 2, 0, 0)?;
    let double = two_terms(alloc, 2, 1, 1, 0)?;
    let zero = Line::zero(alloc, Integers);
    assert!(rt;
        matches!(
            divide_alone(alloc, &square, &zero, Mode::Exact),
            Err(DivideFault::ZeroDivisor)
        )
    );
    assert!(rt;
        matches!(
            divide_alone(alloc, &square, &double, Mode::Remainder),
            Err(DivideFault::NotUnit)
        )
    );
    // the third quotient term of x^3 by x - 2^60 passes the bound, also where the division would fail later
    let cube = two_terms(alloc, 1, 3, 0, 0)?;
    let far = two_terms(alloc, 1, 1, -1152921504606846976, 0)?;
    assert!(rt;
        matches!(
            divide_alone(alloc, &cube, &far, Mode::Remainder),
            Err(DivideFault::CoefficientBound)
        )
    );
    assert!(rt;
        matches!(
            divide_alone(alloc, &cube, &far, Mode::Exact),
            Err(DivideFault::CoefficientBound)
        )
    );
    Ok(())
}

#[test]
fn leaves_a_remainder_of_residues(rt: HostRuntime) -> Result<(), Fail> {
    let alloc = rt.alloc();
    let ring = Residues::new(6).ok_or("modulus")?;
    let square = [
        TermOf {
            mono: Packed::<1>::pack(&[2])?,
            coef: 1u64,
        },
        TermOf {
            mono: Packed::<1>::pack(&[0])?,
            coef: 1u64,
        },
    ];
    let line = [
        TermOf {
            mono: Packed::<1>::pack(&[1])?,
            coef: 5u64,
        },
        TermOf {
            mono: Packed::<1>::pack(&[0])?,
            coef: 1u64,
        },
    ];
    let f = Poly::<Residues, Packed<1>>::from_terms(alloc, ring, square.to_vec(alloc)?)?;
    let g = Poly::<Residues, Packed<1>>::from_terms(alloc, ring, line.to_vec(alloc)?)?;
    // x^2 + 1 = (5x + 5)(5x + 1) + 2 modulo 6
    let Division::Remainder { q, r } = divide_alone(alloc, &f, &g, Mode::Remainder)? else {
        return Err(Fail::from("no remainder"));
    };
    assert_eq!(rt; q.terms().len(), 2);
    assert_eq!(rt; q.norm(), 10);
    assert_eq!(rt; r.terms().len(), 1);
    assert_eq!(rt; r.norm(), 2);
    Ok(())
}
