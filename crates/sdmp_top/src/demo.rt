//! The demo: its answers are counted, and a summary is written in their place.
ghost use Rattle.std.specs.Prelude.{◌≡◌, ◌==◌, ◌++◌, [], false, Some, count_by, length, sum, IfOk, OnOk};
ghost use Rattle.std.specs.Fmt.{decimal};
ghost use Rattle.calc_session.specs.Session.{answers};
ghost use Rattle.calc_session.specs.Demo.{summary, demo_input as demo_input_of};
ghost use Rattle.sdmp_top.specs.Outside.{last_count};
ghost use Rattle.sdmp_top.specs.Work.{IsTallied, calculations, tally_of};
ghost use Rattle.sdmp_top.specs.Written.{demo_text};

use crate::dispatch::answer_input;
use crate::ends::Ends;
use crate::outside::{Failed, Sink};
use crate::workers::Workers;
use calc_session::{Ending, demo_input};
use itoa::Buffer;
use sdmp_laws::NoMemory;
use std::alloc::{AllocError, Global};
use std::thread::Threads;
use turnstile::Gate;

/// The summary of a demo's answers, and how they end.
#[derive(Drop)]
pub struct Summary {
    pub text: Vec<u8>,
    pub ending: Ending,
}

/// Answers the input that the seed makes, and sums the answers up.
pub fn demo_summary<T: Threads + Sync, G: Gate>(
    alloc: Global,
    by: &Workers<'_, T, G>,
    ends: &mut Ends,
    seed: u64,
) -> Result<Summary, NoMemory>
    ensures text { IfOk result (λ s. s.text.items ≡ demo_text seed) }
    ensures ending { IfOk result (λ s. s.ending ≡ (answers (demo_input_of seed)).ending) }
    ensures tallied { OnOk result (IsTallied by.now.workers (calculations (demo_input_of seed)) (tally_of ends.old) (tally_of ends.new)) }
{
    let Ok(input) = demo_input(alloc, seed) else {
        return Err(NoMemory);
    };
    let mut gathered = Gathered::new(alloc);
    let Ok(ending) = answer_input(alloc, by, ends, &input, &mut gathered) else {
        return Err(NoMemory);
    };
    let mut text = Vec::new(alloc);
    match write_summary(&mut text, seed, input.len(), &gathered.bytes) {
        Ok(()) => Ok(Summary { text, ending }),
        Err(_) => Err(NoMemory),
    }
}

// `seed S`, `input N bytes`, `answers L lines B bytes` and `sum T`, a line each
fn write_summary(
    out: &mut Vec<u8>,
    seed: u64,
    input: usize,
    answers: &[u8],
) -> Result<(), AllocError>
    ensures { OnOk result (out.new.items ≡ out.old.items ++ summary seed input answers.now) }
{
    write_field(out, "seed ", seed as u128)?;
    write_field(out, "\ninput ", input as u128)?;
    write_field(out, " bytes\nanswers ", line_feeds(answers))?;
    write_field(out, " lines ", answers.len() as u128)?;
    write_field(out, " bytes\nsum ", sum_of_bytes(answers))?;
    out.push(b'\n')?;
    Ok(())
}

fn line_feeds(bytes: &[u8]) -> u128
    ensures { result ≡ count_by (λ byte. byte == 10) bytes.now }
{
    let mut count = 0;
    for byte in bytes {
        if *byte == b'\n' {
            count += 1;
        }
    }
    count
}

fn sum_of_bytes(bytes: &[u8]) -> u128
    ensures { result ≡ sum bytes.now }
{
    let mut total = 0;
    for byte in bytes {
        total += u128::from(*byte);
    }
    total
}

fn write_field(out: &mut Vec<u8>, name: &str, n: u128) -> Result<(), AllocError>
    ensures { OnOk result (out.new.items ≡ out.old.items ++ name.now ++ decimal n) }
{
    let mut buffer = Buffer::new();
    out.extend_from_slice(name.as_bytes())?;
    out.extend_from_slice(buffer.format(n).as_bytes())
}

// A sink that keeps all that is written, and fails where memory is wanting.
#[derive(Drop)]
struct Gathered {
    bytes: Vec<u8>,
    faults: u64,
    flushed: bool,
}

impl Gathered {
    fn new(alloc: Global) -> Gathered
        ensures { ⟦<Gathered as Sink>⟧.held result ≡ Some [] }
    {
        Gathered {
            bytes: Vec::new(alloc),
            faults: 0,
            flushed: false,
        }
    }
}

impl Sink for Gathered {
    ghost held = { λ s. Some s.bytes.items };

    ghost faults = { λ s. s.faults };

    ghost at_last = { λ s. s.faults ≡ last_count };

    ghost flushed = { λ s. s.flushed };

    ghost flush_failed = { λ s. false };

    fn write(&mut self, bytes: &[u8]) -> Result<usize, Failed> {
        self.flushed = false;
        if self.bytes.extend_from_slice(bytes).is_err() {
            self.faults = self.faults.saturating_add(1);
            return Err(Failed);
        }
        Ok(bytes.len())
    }

    fn flush(&mut self) -> Result<(), Failed> {
        self.flushed = true;
        Ok(())
    }
}
