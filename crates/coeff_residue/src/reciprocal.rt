//! Remainders by a divisor whose reciprocal is computed once.
ghost use Rattle.std.specs.Prelude.{◌≡◌, ◌≤◌, ◌<◌, ◌+◌, ◌*◌, ◌%◌, ◌^◌, ◌⊎◌};

/// A divisor whose top bit is set, with its reciprocal: `inverse` is floor((2^128 - 1) / divisor) - 2^64.
///
/// The method is that of N. Möller and T. Granlund, "Improved division by invariant integers", IEEE Transactions on Computers 60 (2011): a quotient is estimated by one product with the reciprocal.
#[derive(Clone, Copy)]
pub struct Reciprocal {
    pub(crate) divisor: u64,
    inverse: u64,
    ghost full: { 2 ^ 63 ≤ divisor },
    ghost word: { divisor < 2 ^ 64 },
    ghost not_above: { (2 ^ 64 + inverse) * divisor < 2 ^ 128 },
    ghost not_below: { 2 ^ 128 ≤ (2 ^ 64 + inverse + 1) * divisor },
}

impl Reciprocal {
    /// The reciprocal of a divisor whose top bit is set.
    pub fn new(divisor: u64) -> Reciprocal
        requires { 2 ^ 63 ≤ divisor }
        ensures { result.divisor ≡ divisor }
    {
        let inverse = u128::MAX / divisor as u128 - (1 << 64);
        Reciprocal {
            divisor,
            inverse: inverse as u64,
        }
    }

    /// What `n` leaves on division.
    #[inline]
    pub fn remainder(self, n: u128) -> u64
        requires { n < self.divisor * 2 ^ 64 }
        ensures { result ≡ n % self.divisor }
    {
        let high = (n >> 64) as u64;
        let estimate = (self.inverse as u128 * high as u128 + n) >> 64;
        // the estimate is at most two below the quotient
        let rest = n - estimate * self.divisor as u128;
        let divisor = self.divisor as u128;
        less_one(less_one(rest, divisor), divisor) as u64
    }
}

// `rest` less the divisor, where that is no greater
#[inline(always)]
fn less_one(rest: u128, divisor: u128) -> u128
    ensures { ((rest < divisor) × (result ≡ rest)) ⊎ ((divisor ≤ rest) × (result + divisor ≡ rest)) }
{
    if rest >= divisor {
        rest - divisor
    } else {
        rest
    }
}
