//! A ring of coefficients as its modulus.
ghost use Rattle.std.specs.Prelude.{◌≡◌};

use coeff_ring::CoeffRing;
use std::marker::Model;

/// A ring of coefficients. Contracts see it as its modulus, 0 for the integers.
#[derive(Drop)]
pub struct Scalars<R: CoeffRing> {
    coefficients: R,
}

impl<R: CoeffRing> Model for Scalars<R> {
    ghost use Rattle.std.specs.Prelude.{ℕ};

    ghost Value = { ℕ };

    ghost view = { λ s. R.characteristic s.coefficients };
}

impl<R: CoeffRing> Scalars<R> {
    /// The modulus of the ring of these coefficients.
    pub fn new(coefficients: R) -> Scalars<R>
        ensures { result ≡ R.characteristic coefficients }
    {
        Scalars { coefficients }
    }

    /// A value of the ring of coefficients.
    pub fn coefficients(&self) -> R
        ensures { R.characteristic result ≡ self.now }
    {
        self.coefficients
    }
}
