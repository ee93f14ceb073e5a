//! A gate that counts the arrivals of each worker, and holds some of them.

use std::alloc::Global;
use std::sync::atomic::AtomicU64;
use std::sync::atomic::Ordering::SeqCst;
use std::test::Fail;
use std::thread;
use turnstile::Gate;

/// Which arrivals are held, and until when.
#[derive(Clone, Copy, Drop)]
pub enum Hold {
    /// None.
    Nobody,
    /// The first arrival of one worker, until another has arrived.
    First { held: u32, until: u32 },
    /// Each arrival of one worker, until every other has arrived as often.
    Each { held: u32 },
    /// The first arrival of every worker, until every other has arrived.
    All,
}

/// All that it holds it holds for so many turns together. Once these are used up it holds nobody.
#[derive(Drop)]
pub struct StallGate {
    hold: Hold,
    arrivals: Vec<AtomicU64>,
    turns: u64,
    used: AtomicU64,
}

impl StallGate {
    pub fn new(alloc: Global, hold: Hold, workers: u32, turns: u64) -> Result<StallGate, Fail> {
        let mut arrivals = Vec::new(alloc);
        for _ in 0..workers {
            arrivals.push(AtomicU64::new(0))?;
        }
        Ok(StallGate {
            hold,
            arrivals,
            turns,
            used: AtomicU64::new(0),
        })
    }

    /// How often all workers together have arrived.
    pub fn arrivals(&self) -> u64 {
        let mut sum = 0u64;
        for arrivals in &self.arrivals {
            sum = sum.wrapping_add(arrivals.load(SeqCst));
        }
        sum
    }

    pub fn is_used_up(&self) -> bool {
        self.used.load(SeqCst) >= self.turns
    }

    fn have_all_come(&self, times: u64) -> bool {
        for arrivals in &self.arrivals {
            if arrivals.load(SeqCst) < times {
                return false;
            }
        }
        true
    }

    fn has_come(&self, worker: u32) -> bool {
        match self.arrivals.get(worker as usize) {
            Some(arrivals) => arrivals.load(SeqCst) > 0,
            None => false,
        }
    }

    // whether this worker is held, which has arrived so many times
    fn is_held(&self, worker: u32, times: u64) -> bool {
        match self.hold {
            Hold::Nobody => false,
            Hold::First { held, until } => worker == held && times == 1 && !self.has_come(until),
            Hold::Each { held } => worker == held && !self.have_all_come(times),
            Hold::All => times == 1 && !self.have_all_come(1),
        }
    }
}

impl Gate for StallGate {
    fn arrive(&self, worker: u32) {
        let Some(mine) = self.arrivals.get(worker as usize) else {
            return;
        };
        let times = mine.fetch_add(1, SeqCst).wrapping_add(1);
        for _ in 0..self.turns {
            if !self.is_held(worker, times) || self.is_used_up() {
                return;
            }
            self.used.fetch_add(1, SeqCst);
            thread::yield_now();
        }
    }
}
