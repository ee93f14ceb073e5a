// A source and a sink over memory that fail where they are told to.
ghost use Rattle.std.specs.Prelude.{◌≡◌, ◌||◌, ◌<◌, ◌≤◌, ◌-◌, [], drop, take, min, length, if◌then◌else◌, false, true, is_err, IfOk, OnErr, OnOk, Some, vec_capacity};
ghost use Rattle.sdmp_top.specs.Memory.{counted_on, finds_no_room, is_failing};
ghost use Rattle.sdmp_top.specs.Outside.{Appends, EndsAt, Gives, HasCause, Rose, last_count};

use crate::outside::{Failed, Sink, Source};
use crate::steady::copy_first;
use sdmp_laws::NoMemory;
use std::alloc::Global;

/// A source over memory that gives its bytes in pieces, and fails where it is told to.
#[derive(Drop)]
pub struct MemorySource {
    bytes: Vec<u8>,
    at: usize,
    chunk: usize,
    failing: Vec<u64>,
    calls: u64,
    faults: u64,
    ghost within: { at ≤ length bytes.items },
    ghost moves: { 0 < chunk },
}

impl MemorySource {
    /// Each read gives as many bytes as are left and find place, and at most `chunk`. The reads are numbered from 0, and those whose number is in `failing` fail.
    pub fn new(bytes: Vec<u8>, chunk: usize, failing: Vec<u64>) -> MemorySource
        requires { 0 < chunk }
        ensures left { ⟦<MemorySource as Source>⟧.left result ≡ Some bytes.items }
        ensures faults { ⟦<MemorySource as Source>⟧.faults result ≡ 0 }
        ensures chunk { result.chunk ≡ chunk }
        ensures failing { (result.calls ≡ 0) × (result.failing.items ≡ failing.items) }
    {
        MemorySource {
            bytes,
            at: 0,
            chunk,
            failing,
            calls: 0,
            faults: 0,
        }
    }

    // whether this read fails
    fn fails(&mut self) -> bool
        ensures failing { result ≡ is_failing self.old.failing.items self.old.calls }
        ensures counted { self.new ≡ record self.old { calls = counted_on self.old.calls } }
    {
        let call = self.calls;
        self.calls = call.saturating_add(1);
        self.failing.contains(&call)
    }
}

impl Source for MemorySource {
    ghost left = { λ s. Some (drop s.at s.bytes.items) };

    ghost faults = { λ s. s.faults };

    ghost at_last = { λ s. s.faults ≡ last_count };

    // Exactly the reads that are listed fail, and each that fails is one fault.
    fn read(&mut self, into: &mut [u8]) -> Result<usize, Failed>
        ensures failing { is_err result ≡ is_failing self.old.failing.items self.old.calls }
        ensures amount { IfOk result (λ n. n ≡ min (min (length self.old.bytes.items - self.old.at) (length into.new)) self.old.chunk) }
        ensures calls { self.new.calls ≡ counted_on self.old.calls }
        ensures faults { self.new.faults ≡ (if is_err result then counted_on self.old.faults else self.old.faults) }
        ensures same { (self.new.bytes ≡ self.old.bytes) × (self.new.chunk ≡ self.old.chunk) × (self.new.failing ≡ self.old.failing) }
        ensures within { IfOk result (λ n. n ≤ length into.new) }
        ensures gives { IfOk result (λ n. Gives (Some (drop self.old.at self.old.bytes.items)) (Some (drop self.new.at self.new.bytes.items)) into.new n) }
        ensures end { IfOk result (λ n. EndsAt (Some (drop self.old.at self.old.bytes.items)) into.new n) }
        ensures kept { OnErr result (drop self.new.at self.new.bytes.items ≡ drop self.old.at self.old.bytes.items) }
        ensures cause { HasCause self.old.faults self.new.faults (self.new.faults ≡ last_count) result }
    {
        if self.fails() {
            self.faults = self.faults.saturating_add(1);
            return Err(Failed);
        }
        let n = copy_first(&self.bytes[self.at..], self.chunk, into);
        self.at += n;
        Ok(n)
    }
}

/// A sink over memory that takes its bytes in pieces, up to a room, and fails where it is told to.
#[derive(Drop)]
pub struct MemorySink {
    bytes: Vec<u8>,
    room: usize,
    chunk: usize,
    failing: Vec<u64>,
    calls: u64,
    faults: u64,
    flushed: bool,
    flush_failed: bool,
    ghost within: { length bytes.items ≤ room },
    ghost reserved: { room ≤ vec_capacity bytes },
    ghost moves: { 0 < chunk },
}

impl MemorySink {
    /// Each write takes as many bytes as there are and find room, and at most `chunk`. Writes and flushes are numbered together from 0, and those whose number is in `failing` fail. A write of some bytes that finds no room left fails too.
    pub fn new(
        alloc: Global,
        room: usize,
        chunk: usize,
        failing: Vec<u64>,
    ) -> Result<MemorySink, NoMemory>
        requires { 0 < chunk }
        ensures held { IfOk result (λ sink. ⟦<MemorySink as Sink>⟧.held sink ≡ Some []) }
        ensures faults { IfOk result (λ sink. ⟦<MemorySink as Sink>⟧.faults sink ≡ 0) }
        ensures room { IfOk result (λ sink. (sink.room ≡ room) × (sink.chunk ≡ chunk)) }
        ensures failing { IfOk result (λ sink. (sink.calls ≡ 0) × (sink.failing.items ≡ failing.items)) }
    {
        let Ok(bytes) = Vec::with_capacity(alloc, room) else {
            return Err(NoMemory);
        };
        Ok(MemorySink {
            bytes,
            room,
            chunk,
            failing,
            calls: 0,
            faults: 0,
            flushed: false,
            flush_failed: false,
        })
    }

    /// What it holds.
    pub fn bytes(&self) -> &[u8]
        ensures { ⟦<MemorySink as Sink>⟧.held self.now ≡ Some result.now }
    {
        &self.bytes
    }

    // whether this write or flush fails
    fn fails(&mut self) -> bool
        ensures failing { result ≡ is_failing self.old.failing.items self.old.calls }
        ensures counted { self.new ≡ record self.old { calls = counted_on self.old.calls } }
    {
        let call = self.calls;
        self.calls = call.saturating_add(1);
        self.failing.contains(&call)
    }

    fn fail(&mut self) -> Failed
        ensures counted { self.new ≡ record self.old { faults = counted_on self.old.faults } }
        ensures later { self.old.faults ≤ self.new.faults }
        ensures rose { Rose self.old.faults self.new.faults (self.new.faults ≡ last_count) }
    {
        self.faults = self.faults.saturating_add(1);
        Failed
    }
}

impl Sink for MemorySink {
    ghost held = { λ s. Some s.bytes.items };

    ghost faults = { λ s. s.faults };

    ghost at_last = { λ s. s.faults ≡ last_count };

    ghost flushed = { λ s. s.flushed };

    ghost flush_failed = { λ s. s.flush_failed };

    // Exactly the writes fail that are listed or find no room, and each that fails is one fault.
    fn write(&mut self, bytes: &[u8]) -> Result<usize, Failed>
        ensures failing { is_err result ≡ (is_failing self.old.failing.items self.old.calls || finds_no_room (self.old.room - length self.old.bytes.items) (length bytes.now)) }
        ensures amount { IfOk result (λ n. n ≡ min (min (length bytes.now) self.old.chunk) (self.old.room - length self.old.bytes.items)) }
        ensures calls { self.new.calls ≡ counted_on self.old.calls }
        ensures faults { self.new.faults ≡ (if is_err result then counted_on self.old.faults else self.old.faults) }
        ensures same { (self.new.room ≡ self.old.room) × (self.new.chunk ≡ self.old.chunk) × (self.new.failing ≡ self.old.failing) }
        ensures within { IfOk result (λ n. n ≤ length bytes.now) }
        ensures some { IfOk result (λ n. 0 < length bytes.now → 0 < n) }
        ensures appends { IfOk result (λ n. Appends (Some self.old.bytes.items) (Some self.new.bytes.items) (take n bytes.now)) }
        ensures kept { OnErr result (self.new.bytes.items ≡ self.old.bytes.items) }
        ensures unflushed { (self.new.flushed ≡ false) × (self.new.flush_failed ≡ false) }
        ensures cause { HasCause self.old.faults self.new.faults (self.new.faults ≡ last_count) result }
    {
        self.flushed = false;
        self.flush_failed = false;
        if self.fails() {
            return Err(self.fail());
        }
        let room = self.room - self.bytes.len();
        if room == 0 && !bytes.is_empty() {
            return Err(self.fail());
        }
        let n = bytes.len().min(self.chunk).min(room);
        if self.bytes.extend_from_slice(&bytes[..n]).is_err() {
            // the room was reserved
            unreachable!();
        }
        Ok(n)
    }

    // Exactly the flushes that are listed fail, and each that fails is one fault.
    fn flush(&mut self) -> Result<(), Failed>
        ensures failing { is_err result ≡ is_failing self.old.failing.items self.old.calls }
        ensures flushed { OnOk result (self.new ≡ record self.old { calls = counted_on self.old.calls; flushed = true; flush_failed = false }) }
        ensures failed { OnErr result (self.new ≡ record self.old { calls = counted_on self.old.calls; faults = counted_on self.old.faults; flush_failed = true }) }
        ensures cause { HasCause self.old.faults self.new.faults (self.new.faults ≡ last_count) result }
    {
        self.flush_failed = self.fails();
        if self.flush_failed {
            return Err(self.fail());
        }
        self.flushed = true;
        Ok(())
    }
}

#[cfg(test)]
mod tests {
    use super::*;
    use std::test::Fail;

    #[test]
    fn fills_a_sink(rt: HostRuntime) -> Result<(), Fail> {
        let mut sink = MemorySink::new(rt.alloc(), 4, 8, Vec::new(rt.alloc()))?;
        assert_eq!(rt; sink.write(b"abcdef"), Ok(4));
        assert_eq!(rt; sink.write(b"ef"), Err(Failed));
        assert_eq!(rt; sink.faults, 1);
        assert_eq!(rt; sink.flush(), Ok(()));
        assert_eq!(rt; sink.bytes(), b"abcd".as_slice());
        Ok(())
    }

    #[test]
    fn reads_in_pieces(rt: HostRuntime) -> Result<(), Fail> {
        let failing = [1].to_vec(rt.alloc())?;
        let mut source = MemorySource::new(b"abcd".to_vec(rt.alloc())?, 3, failing);
        let mut buffer = [0u8; 8];
        assert_eq!(rt; source.read(&mut buffer), Ok(3));
        assert_eq!(rt; &buffer[..3], b"abc".as_slice());
        assert_eq!(rt; source.read(&mut buffer), Err(Failed));
        assert_eq!(rt; source.faults, 1);
        assert_eq!(rt; source.read(&mut buffer), Ok(1));
        assert_eq!(rt; buffer[0], b'd');
        assert_eq!(rt; source.read(&mut buffer), Ok(0));
        Ok(())
    }
}
