//! Division by several workers, each with its part of the divisor's rows, over one shared merge.
#![tactic(auto)]

mod divided;
mod ended;
mod front;
mod learning;
mod mark;
mod part;
mod round;
mod rounds;
mod sender;
mod sending;
mod shared;
mod stop;
mod team;
mod threaded;
mod waiting;
mod worker;

pub use divided::Divided;
pub use stop::DivideStop;
pub use threaded::divide;
pub use turnstile::PATIENCE;
pub use worker::DivideWorker;
