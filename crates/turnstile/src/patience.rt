//! How long a worker waits before it gives up.
ghost use Rattle.std.specs.Prelude.{◌≡◌, ◌*◌, ◌/◌, ◌<◌, ◌≤◌, ◌↔◌, min, max, IsTrue};

/// The greatest number of turns that a worker waits.
pub const MOST_TURNS: u64 = 4096;

const FIRST_TURNS: u64 = 64;

/// A bound on the turns for which a worker waits, from 1 to a most. It grows where waiting helped, and shrinks where it was in vain.
#[derive(Drop)]
pub struct Patience {
    most: u64,
    bound: u64,
    ghost some: { 0 < bound },
    ghost within: { bound ≤ most },
    ghost limit: { most ≤ 4096 },
}

impl Patience {
    /// Where `most` is 1 the worker gives up after its first turn, always.
    pub fn new(most: u64) -> Patience
        requires some { 0 < most }
        requires limit { most ≤ MOST_TURNS }
        ensures most { result.most ≡ most }
        ensures bound { result.bound ≡ min 64 most }
    {
        let bound = FIRST_TURNS.min(most);
        Patience { most, bound }
    }

    /// The bound after a wait that helped.
    pub fn helped(&mut self)
        ensures most { self.new.most ≡ self.old.most }
        ensures bound { self.new.bound ≡ min (2 * self.old.bound) self.old.most }
    {
        self.bound = (2 * self.bound).min(self.most);
    }

    /// The bound after a wait in vain.
    pub fn in_vain(&mut self)
        ensures most { self.new.most ≡ self.old.most }
        ensures bound { self.new.bound ≡ max 1 (self.old.bound / 2) }
    {
        self.bound = (self.bound / 2).max(1);
    }

    /// Whether a worker that has waited for so many turns gives up.
    pub fn is_over(&self, turn: u64) -> bool
        ensures { IsTrue result ↔ (self.now.bound ≤ turn) }
    {
        turn >= self.bound
    }
}

/// Lets other threads run, once after turn 0 and twice after each later one. More would hand the processor away for whole slices of time where other work runs beside.
pub fn rest(turn: u64) {
    for _ in 0..=turn.min(1) {
        std::thread::yield_now();
    }
}
