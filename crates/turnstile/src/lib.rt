//! A try-lock of one slot: a value that one of many passes at a time takes out and puts back.
//!
//! The shared object is a table of one word and one slot. Word 0 is the flag, 0 free and 1 held. Slot 0 holds the value, or nothing while a pass is inside. No call waits: a try that finds the flag held answers `Busy`.
#![tactic(auto)]

mod gate;
mod laws;
mod members;
mod named;
mod own;
mod passing;
mod patience;
mod steps;
mod turn;
mod view;

pub use gate::{Gate, OpenGate};
pub use laws::{one_inside, value_at_home};
pub use members::{Member, hand_out, take_back};
pub use named::Named;
pub use passing::PATIENCE;
pub use patience::{MOST_TURNS, Patience, rest};
pub use turn::{Busy, Pass, Refused, Turnstile};
