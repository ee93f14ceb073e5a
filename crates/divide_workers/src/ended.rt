//! What the workers of a round tell each other beside their notes.

use std::sync::atomic::{AtomicU64, Ordering};

/// Whether a worker with rows has ended its call in this round.
///
/// It decides nothing but how long the others wait: what they wait for may need a note of that worker.
#[derive(Drop)]
pub(crate) struct Ended {
    word: AtomicU64,
}

impl Ended {
    /// None has.
    pub fn new() -> Ended {
        Ended {
            word: AtomicU64::new(0),
        }
    }

    /// One has.
    pub fn tell(&self) {
        self.word.store(1, Ordering::SeqCst);
    }

    pub fn is_told(&self) -> bool {
        self.word.load(Ordering::SeqCst) != 0
    }
}
