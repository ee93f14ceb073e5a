// A source and a sink that never fail.
ghost use Rattle.std.specs.Prelude.{◌≡◌, ◌+◌, ◌<◌, ◌≤◌, [], drop, take, length, min, false, true, is_err, None, Some, Ok};
ghost use Rattle.sdmp_top.specs.Outside.{HasCause, last_count};

use crate::outside::{Failed, Sink, Source};

/// A source over memory that never fails.
#[derive(Drop)]
pub struct SteadySource {
    bytes: Vec<u8>,
    at: usize,
    ghost within: { at ≤ length bytes.items },
}

impl SteadySource {
    pub fn new(bytes: Vec<u8>) -> SteadySource
        ensures { ⟦<SteadySource as Source>⟧.left result ≡ Some bytes.items }
    {
        SteadySource { bytes, at: 0 }
    }
}

impl Source for SteadySource {
    ghost left = { λ s. Some (drop s.at s.bytes.items) };

    ghost faults = { λ s. 0 };

    ghost at_last = { λ s. ⊥ };

    fn read(&mut self, into: &mut [u8]) -> Result<usize, Failed> {
        let n = copy_first(&self.bytes[self.at..], usize::MAX, into);
        self.at += n;
        Ok(n)
    }
}

/// Copies the first bytes, as many as there are and as the buffer has places, and at most `most`.
pub fn copy_first(bytes: &[u8], most: usize, into: &mut [u8]) -> usize
    ensures amount { result ≡ min (min (length bytes.now) (length into.new)) most }
    ensures copied { take result into.new ≡ take result bytes.now }
{
    let n = bytes.len().min(into.len()).min(most);
    into[..n].copy_from_slice(&bytes[..n]);
    n
}

/// A sink that never fails and keeps the number of bytes alone. It doesn't tell what it holds.
#[derive(Drop)]
pub struct CountSink {
    count: u64,
    flushed: bool,
}

impl CountSink {
    pub fn new() -> CountSink
        ensures held { ⟦<CountSink as Sink>⟧.held result ≡ None }
        ensures count { result.count ≡ 0 }
    {
        CountSink {
            count: 0,
            flushed: false,
        }
    }

    /// The number of bytes that were written.
    pub fn count(&self) -> u64
        ensures { result ≡ self.now.count }
    {
        self.count
    }

    fn add(&mut self, bytes: usize)
        ensures { self.new ≡ record { count = min (self.old.count + bytes) last_count; flushed = false } }
    {
        self.count = self.count.saturating_add(bytes as u64);
        self.flushed = false;
    }
}

impl Sink for CountSink {
    ghost held = { λ s. None };

    ghost faults = { λ s. 0 };

    ghost at_last = { λ s. ⊥ };

    ghost flushed = { λ s. s.flushed };

    ghost flush_failed = { λ s. false };

    // All bytes are taken and counted.
    fn write(&mut self, bytes: &[u8]) -> Result<usize, Failed>
        ensures whole { result ≡ Ok (length bytes.now) }
        ensures count { self.new.count ≡ min (self.old.count + length bytes.now) last_count }
        ensures unflushed { self.new.flushed ≡ false }
        ensures cause { HasCause 0 0 ⊥ result }
    {
        self.add(bytes.len());
        Ok(bytes.len())
    }

    // The count stays.
    fn flush(&mut self) -> Result<(), Failed>
        ensures count { self.new.count ≡ self.old.count }
        ensures flushed { self.new.flushed ≡ true }
        ensures failed { false ≡ is_err result }
        ensures cause { HasCause 0 0 ⊥ result }
    {
        self.flushed = true;
        Ok(())
    }
}
