ghost use Rattle.std.specs.Prelude.{◌≡◌, ◌≤◌, IfSome, length};
ghost use Rattle.sdmp_words.specs.Words.{number_in, decimal_of};

/// The number that 1 to 20 digits write, where it is from `low` to `high`.
#[tactic(auto, unfolding(crate::specs::Words::number_in))]
pub fn number_in(low: u64, high: u64, text: &[u8]) -> Option<u64>
    ensures value { result ≡ number_in low high text.now }
    ensures range { IfSome result (λ n. (low ≤ n) × (n ≤ high)) }
{
    if text.is_empty() || text.len() > 20 {
        return None;
    }
    let number = decimal(text)?;
    if u128::from(low) <= number && number <= u128::from(high) {
        Some(number as u64)
    } else {
        None
    }
}

// 20 digits may pass 64 bits
fn decimal(text: &[u8]) -> Option<u128>
    requires { length text.now ≤ 20 }
    ensures { result ≡ decimal_of text.now }
{
    let mut number = 0u128;
    for byte in text {
        if !byte.is_ascii_digit() {
            return None;
        }
        number = number * 10 + u128::from(*byte - b'0');
    }
    Some(number)
}
