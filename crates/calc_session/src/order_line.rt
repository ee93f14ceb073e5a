//! The line with the order.
ghost use Rattle.std.specs.Prelude.{◌≡◌};
ghost use Rattle.calc_session.specs.Header.{order_named as order_of_word, order_of};

use crate::fault::LineFault;
use crate::lines::find_equals;
use crate::order::Order;
use poly_text::split_word;

/// The order that a line chooses. `None` stands for a line that chooses none: one with a `=`, or whose first word isn't `order`. As the third line of a session that isn't skipped it belongs to the body.
pub fn parse_order(line: &[u8]) -> Result<Option<Order>, LineFault>
    ensures { result ≡ order_of line.now }
{
    if find_equals(line).is_some() {
        return Ok(None);
    }
    let Some((first, rest)) = split_word(line) else {
        return Ok(None);
    };
    if first != b"order".as_slice() {
        return Ok(None);
    }
    let Some((word, rest)) = split_word(rest) else {
        return Err(LineFault::BadOrder);
    };
    if split_word(rest).is_some() {
        return Err(LineFault::BadOrder);
    }
    match order_named(word) {
        Some(order) => Ok(Some(order)),
        None => Err(LineFault::BadOrder),
    }
}

#[tactic(auto, unfolding(crate::specs::Header::order_named))]
fn order_named(word: &[u8]) -> Option<Order>
    ensures { result ≡ order_of_word word.now }
{
    match word {
        b"grlex" => Some(Order::Grlex),
        _ => None,
    }
}
