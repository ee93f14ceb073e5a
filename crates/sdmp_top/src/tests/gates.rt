//! The gates of these tests, in one type: a run is made anew for each type of gate, with all that it calls.
use crate::{Ends, MemorySink, MemorySource, Status, run};
use std::sync::atomic::AtomicU64;
use std::sync::atomic::Ordering::SeqCst;
use std::test::Fail;
use std::thread;
use turnstile::Gate;

const TURNS: u64 = 1_000_000_000;

/// Holds nobody, or the first arrival of each of two workers until the other has arrived.
#[derive(Drop)]
pub enum TestGate {
    Open,
    Pair(Pair),
}

/// Which of two workers has arrived, and whether one has given up waiting for the other.
#[derive(Drop)]
pub struct Pair {
    first: AtomicU64,
    second: AtomicU64,
    given_up: AtomicU64,
}

impl Pair {
    fn hold(&self, mine: &AtomicU64, other: &AtomicU64) {
        if mine.swap(1, SeqCst) == 1 {
            return;
        }
        for _ in 0..TURNS {
            if other.load(SeqCst) == 1 {
                return;
            }
            thread::yield_now();
        }
        self.given_up.store(1, SeqCst);
    }
}

impl Gate for TestGate {
    fn arrive(&self, worker: u32) {
        if let TestGate::Pair(pair) = self {
            if worker == 0 {
                pair.hold(&pair.first, &pair.second);
            } else {
                pair.hold(&pair.second, &pair.first);
            }
        }
    }
}

#[test]
fn two_workers_run_beside_each_other(rt: HostRuntime) -> Result<(), Fail> {
    let alloc = rt.alloc();
    let rows = [
        ("vars x y\nring Z\na = x+y\nb = x-y\nmul a b\n", "x^2-y^2\n"),
        (
            "vars x y\nring Z\na = x^2-y^2+x+y\nb = x-y+1\ndiv a b\n",
            "x+y\n",
        ),
        (
            "vars x y\nring Z\na = x^2*y+x*y^2+y^2\nb = x*y-1\nrem a b\n",
            "x+y\ny^2+x+y\n",
        ),
    ];
    for (session, text) in rows {
        let gate = TestGate::Pair(Pair {
            first: AtomicU64::new(0),
            second: AtomicU64::new(0),
            given_up: AtomicU64::new(0),
        });
        let mut source = MemorySource::new(session.as_bytes().to_vec(alloc)?, 8, Vec::new(alloc));
        let mut sink = MemorySink::new(alloc, 1_000, 4096, Vec::new(alloc))?;
        let words = [String::from_str(alloc, "--workers=2")?];
        let mut ends = Ends::new();
        let status = run(&rt, alloc, &words, &mut source, &mut sink, &gate, &mut ends);
        assert_eq!(rt; status, Status::Done, "{session}");
        assert_eq!(rt; sink.bytes(), text.as_bytes(), "{session}");
        let TestGate::Pair(pair) = gate else {
            panic!(rt; "the gate of two workers")
        };
        assert_eq!(rt; pair.first.load(SeqCst), 1, "{session}");
        assert_eq!(rt; pair.second.load(SeqCst), 1, "{session}");
        assert_eq!(rt; pair.given_up.load(SeqCst), 0, "{session}");
    }
    Ok(())
}
