//! Where a test may hold a worker back.

/// A place at which each worker arrives before it begins to work.
///
/// The product opens it; a test may let `arrive` return late, to try an order of steps. Every answer is the same under every gate whose `arrive` returns.
pub trait Gate: Sync {
    /// The worker with this number has arrived.
    fn arrive(&self, worker: u32);
}

/// A gate that holds nobody.
#[derive(Drop)]
pub struct OpenGate;

impl Gate for OpenGate {
    fn arrive(&self, _worker: u32) {}
}
