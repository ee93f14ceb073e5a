//! Products by several workers, each with its part of the rows, over one shared merge.
#![tactic(auto)]

mod part;
mod product;
mod round;
mod rounds;
mod sender;
mod stop;
mod team;
mod threaded;
mod waiting;
mod worker;

pub use product::{MulFault, Product};
pub use stop::Stop;
pub use threaded::multiply;
pub use turnstile::PATIENCE;
pub use worker::MulWorker;
