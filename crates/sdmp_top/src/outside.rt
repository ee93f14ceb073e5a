// The outside as the run sees it. What a source has left and what a sink holds may be told or not; how often they failed always is.
ghost use Rattle.std.specs.Prelude.{◌≡◌, ◌<◌, ◌≤◌, ℕ, Bool, true, false, List, length, take, Option, is_err, IfOk, OnOk, OnErr};
ghost use Rattle.sdmp_top.specs.Outside.{Gives, EndsAt, Appends, HasCause};

/// A read, a write or a flush went wrong.
#[derive(Clone, Copy, Debug, PartialEq, Eq, Drop)]
pub struct Failed;

/// Where the input comes from.
pub trait Source {
    /// The bytes that are left, where they are told.
    ghost left: { Self → Option (List ℕ) };

    /// How often a read has failed.
    ghost faults: { Self → ℕ };

    /// The count of faults stands at its last value.
    ghost at_last: { Self → Type 0 };

    /// Puts the next bytes into the first places of the buffer and answers how many. For a buffer that isn't empty, 0 is the end of the input.
    fn read(&mut self, into: &mut [u8]) -> Result<usize, Failed>
        ensures within { IfOk result (λ n. n ≤ length into.new) }
        ensures gives { IfOk result (λ n. Gives (left self.old) (left self.new) into.new n) }
        ensures end { IfOk result (λ n. EndsAt (left self.old) into.new n) }
        ensures kept { OnErr result (left self.new ≡ left self.old) }
        ensures cause { HasCause (faults self.old) (faults self.new) (at_last self.new) result };
}

/// Where the answers go to.
pub trait Sink {
    /// The bytes that it holds, where they are told.
    ghost held: { Self → Option (List ℕ) };

    /// How often a write or a flush has failed.
    ghost faults: { Self → ℕ };

    /// The count of faults stands at its last value.
    ghost at_last: { Self → Type 0 };

    /// Nothing was written since the last flush.
    ghost flushed: { Self → Bool };

    /// The last call was a flush that failed.
    ghost flush_failed: { Self → Bool };

    /// Takes the first bytes of a piece and answers how many, at least one where the piece isn't empty.
    fn write(&mut self, bytes: &[u8]) -> Result<usize, Failed>
        ensures within { IfOk result (λ n. n ≤ length bytes.now) }
        ensures some { IfOk result (λ n. 0 < length bytes.now → 0 < n) }
        ensures appends { IfOk result (λ n. Appends (held self.old) (held self.new) (take n bytes.now)) }
        ensures kept { OnErr result (held self.new ≡ held self.old) }
        ensures unflushed { flushed self.new ≡ false }
        ensures no_flush { flush_failed self.new ≡ false }
        ensures cause { HasCause (faults self.old) (faults self.new) (at_last self.new) result };

    /// Hands on what was written.
    fn flush(&mut self) -> Result<(), Failed>
        ensures flushed { OnOk result (flushed self.new ≡ true) }
        ensures unflushed { OnErr result (flushed self.new ≡ flushed self.old) }
        ensures failed { flush_failed self.new ≡ is_err result }
        ensures kept { held self.new ≡ held self.old }
        ensures cause { HasCause (faults self.old) (faults self.new) (at_last self.new) result };
}
