//! Exponent vectors of up to 15 numbers packed into one word of 128 bits, in two orders.
#![tactic(auto)]

mod laws;
mod layout;
mod rev_wide;
mod wide;
mod words;

pub use laws::wide_layouts_fit;
pub use layout::{WIDE_LAYOUTS, WideLayout};
pub use rev_wide::RevWide;
pub use wide::Wide;
