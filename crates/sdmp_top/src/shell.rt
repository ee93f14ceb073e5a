//! The whole run.
ghost use Rattle.std.specs.Prelude.{◌≡◌, ◌≢◌, ◌⊎◌, ◌<◌, ◌≤◌, ℕ, [], None, Some, true, List, length, map, string_bytes};
ghost use Rattle.calc_session.specs.Answers.{Answers, text};
ghost use Rattle.calc_session.specs.Session.{answers};
ghost use Rattle.sdmp_words.specs.Words.{settings_of};
ghost use Rattle.sdmp_words.specs.declared.settings.Settings.{Settings};
ghost use Rattle.calc_session.specs.Demo.{demo_input};
ghost use Rattle.sdmp_top.specs.Outside.{AppendsPart, DidNotFail, Rose};
ghost use Rattle.sdmp_top.specs.Work.{IsTallied, IsTalliedRun, calculations, tally_of};
ghost use Rattle.sdmp_top.specs.Written.{Answered, AppendsPieces, IsAnsweredStatus, demo_answers, wanted};

use crate::answering_fault::AnsweringFault;
use crate::demo::demo_summary;
use crate::dispatch::answer_input;
use crate::ends::Ends;
use crate::intake::{IntakeFault, MAX_INPUT, read_all};
use crate::outside::{Failed, Sink, Source};
use crate::status::Status;
use crate::workers::Workers;
use crate::writing::write_all;
use calc_session::Ending;
use sdmp_words::{WordsFault, read_words};
use std::alloc::Global;
use std::thread::Threads;
use turnstile::Gate;

/// The whole run: reads the words, then the whole input, and then answers line by line. With `--demo` it reads no input, answers that of the demo, and writes a summary in place of the answers.
///
/// Products are made by so many workers as the words say, and divisions by at most as many, in threads of their own where `threads` can make them; `gate` is where each worker arrives. The answers are the same for every order of their steps. `ends` counts each product and division when it is made.
///
/// Want of memory is the one answer that may come at any time.
pub fn run<T: Threads + Sync, S: Source, K: Sink, G: Gate>(
    threads: &T,
    alloc: Global,
    words: &[String],
    source: &mut S,
    sink: &mut K,
    gate: &G,
    ends: &mut Ends,
) -> Status
    // Where neither end fails, the input isn't too long and memory isn't wanting, exactly the answers are written.
    ensures exact { (settings : Settings) → settings_of (map string_bytes words.now) ≡ Some settings
        → (told : Answers) → wanted settings.demo (S.left source.old) ≡ Some told
        → (settings.demo ≡ None → (input : List ℕ) → S.left source.old ≡ Some input → length input ≤ MAX_INPUT)
        → (settings.demo ≡ None → DidNotFail (S.faults source.old) (S.faults source.new) (S.at_last source.new))
        → DidNotFail (K.faults sink.old) (K.faults sink.new) (K.at_last sink.new)
        → result ≢ Status.NoMemory
        → Answered told result (K.held sink.old) (K.held sink.new) (K.flushed sink.new) }
    // Done and Refused.
    ensures answered { IsAnsweredStatus result → (settings : Settings) → settings_of (map string_bytes words.now) ≡ Some settings
        → (told : Answers) → wanted settings.demo (S.left source.old) ≡ Some told → Answered told result (K.held sink.old) (K.held sink.new) (K.flushed sink.new) }
    ensures flushed { IsAnsweredStatus result → K.flushed sink.new ≡ true }
    ensures ended { IsAnsweredStatus result → (settings : Settings) → settings_of (map string_bytes words.now) ≡ Some settings → settings.demo ≡ None → (input : List ℕ) → S.left source.old ≡ Some input → S.left source.new ≡ Some [] }
    ensures tallied { IsAnsweredStatus result → (settings : Settings) → settings_of (map string_bytes words.now) ≡ Some settings → IsTalliedRun settings (S.left source.old) (tally_of ends.old) (tally_of ends.new) }
    // The words.
    ensures bad_words { result ≡ Status.BadWords → settings_of (map string_bytes words.now) ≡ None }
    ensures words { settings_of (map string_bytes words.now) ≡ None → (result ≡ Status.BadWords) ⊎ (result ≡ Status.NoMemory) }
    ensures untouched { settings_of (map string_bytes words.now) ≡ None → (source.new ≡ source.old) × (sink.new ≡ sink.old) }
    // The input.
    ensures read_fault { result ≡ Status.ReadFault → Rose (S.faults source.old) (S.faults source.new) (S.at_last source.new) }
    ensures source_steady { result ≢ Status.ReadFault → S.faults source.new ≡ S.faults source.old }
    ensures too_long { result ≡ Status.TooLong → (input : List ℕ) → S.left source.old ≡ Some input → MAX_INPUT < length input }
    ensures longer { (settings : Settings) → settings_of (map string_bytes words.now) ≡ Some settings → settings.demo ≡ None
        → (input : List ℕ) → S.left source.old ≡ Some input → MAX_INPUT < length input
        → DidNotFail (S.faults source.old) (S.faults source.new) (S.at_last source.new)
        → (result ≡ Status.TooLong) ⊎ (result ≡ Status.NoMemory) }
    ensures nothing_written { (result ≡ Status.ReadFault) ⊎ (result ≡ Status.TooLong) → sink.new ≡ sink.old }
    ensures demo_unread { (settings : Settings) → settings_of (map string_bytes words.now) ≡ Some settings → settings.demo ≢ None → source.new ≡ source.old }
    ensures demo_answered { (settings : Settings) → settings_of (map string_bytes words.now) ≡ Some settings → settings.demo ≢ None → (result ≢ Status.ReadFault) × (result ≢ Status.TooLong) }
    // What has been written where the run came to no end.
    ensures write_fault { result ≡ Status.WriteFault → Rose (K.faults sink.old) (K.faults sink.new) (K.at_last sink.new) }
    ensures sink_steady { result ≢ Status.WriteFault → K.faults sink.new ≡ K.faults sink.old }
    ensures part { result ≡ Status.WriteFault → (settings : Settings) → settings_of (map string_bytes words.now) ≡ Some settings
        → (told : Answers) → wanted settings.demo (S.left source.old) ≡ Some told → AppendsPart (K.held sink.old) (K.held sink.new) (text told) }
    ensures flush_failed { result ≡ Status.WriteFault → K.flush_failed sink.new ≡ true → (settings : Settings) → settings_of (map string_bytes words.now) ≡ Some settings
        → (told : Answers) → wanted settings.demo (S.left source.old) ≡ Some told → AppendsPieces (K.held sink.old) (K.held sink.new) told.pieces }
    ensures no_memory { result ≡ Status.NoMemory → (settings : Settings) → settings_of (map string_bytes words.now) ≡ Some settings
        → (told : Answers) → wanted settings.demo (S.left source.old) ≡ Some told → AppendsPieces (K.held sink.old) (K.held sink.new) told.pieces }
    ensures no_memory_flushed { result ≡ Status.NoMemory → (K.flushed sink.new ≡ true) ⊎ (sink.new ≡ sink.old) }
{
    match read_words(alloc, words) {
        Ok(settings) => {
            let by = Workers::new(threads, gate, settings);
            match settings.demo {
                None => run_session(alloc, &by, ends, source, sink),
                Some(seed) => run_demo(alloc, &by, ends, seed, sink),
            }
        }
        Err(WordsFault::BadWords) => Status::BadWords,
        Err(WordsFault::NoMemory) => Status::NoMemory,
    }
}

// Reads the whole input, and then answers line by line.
fn run_session<T: Threads + Sync, G: Gate, S: Source, K: Sink>(
    alloc: Global,
    by: &Workers<'_, T, G>,
    ends: &mut Ends,
    source: &mut S,
    sink: &mut K,
) -> Status
    ensures answered { IsAnsweredStatus result → (input : List ℕ) → S.left source.old ≡ Some input
        → Answered (answers input) result (K.held sink.old) (K.held sink.new) (K.flushed sink.new) }
    ensures flushed { IsAnsweredStatus result → K.flushed sink.new ≡ true }
    ensures tallied { IsAnsweredStatus result → (input : List ℕ) → S.left source.old ≡ Some input
        → IsTallied by.now.workers (calculations input) (tally_of ends.old) (tally_of ends.new) }
    ensures ended { IsAnsweredStatus result → (input : List ℕ) → S.left source.old ≡ Some input → S.left source.new ≡ Some [] }
    ensures words { result ≢ Status.BadWords }
    ensures read_fault { result ≡ Status.ReadFault → Rose (S.faults source.old) (S.faults source.new) (S.at_last source.new) }
    ensures source_steady { result ≢ Status.ReadFault → S.faults source.new ≡ S.faults source.old }
    ensures too_long { result ≡ Status.TooLong → (input : List ℕ) → S.left source.old ≡ Some input → MAX_INPUT < length input }
    ensures exact { (input : List ℕ) → S.left source.old ≡ Some input → length input ≤ MAX_INPUT
        → DidNotFail (S.faults source.old) (S.faults source.new) (S.at_last source.new)
        → DidNotFail (K.faults sink.old) (K.faults sink.new) (K.at_last sink.new)
        → result ≢ Status.NoMemory
        → Answered (answers input) result (K.held sink.old) (K.held sink.new) (K.flushed sink.new) }
    ensures longer { (input : List ℕ) → S.left source.old ≡ Some input → MAX_INPUT < length input
        → DidNotFail (S.faults source.old) (S.faults source.new) (S.at_last source.new)
        → (result ≡ Status.TooLong) ⊎ (result ≡ Status.NoMemory) }
    ensures nothing_written { (result ≡ Status.ReadFault) ⊎ (result ≡ Status.TooLong) → sink.new ≡ sink.old }
    ensures write_fault { result ≡ Status.WriteFault → Rose (K.faults sink.old) (K.faults sink.new) (K.at_last sink.new) }
    ensures sink_steady { result ≢ Status.WriteFault → K.faults sink.new ≡ K.faults sink.old }
    ensures part { result ≡ Status.WriteFault → (input : List ℕ) → S.left source.old ≡ Some input
        → AppendsPart (K.held sink.old) (K.held sink.new) (text (answers input)) }
    ensures flush_failed { result ≡ Status.WriteFault → K.flush_failed sink.new ≡ true → (input : List ℕ) → S.left source.old ≡ Some input
        → AppendsPieces (K.held sink.old) (K.held sink.new) (answers input).pieces }
    ensures no_memory { result ≡ Status.NoMemory → (input : List ℕ) → S.left source.old ≡ Some input
        → AppendsPieces (K.held sink.old) (K.held sink.new) (answers input).pieces }
    ensures no_memory_flushed { result ≡ Status.NoMemory → (K.flushed sink.new ≡ true) ⊎ (sink.new ≡ sink.old) }
{
    let input = match read_all(alloc, source) {
        Ok(input) => input,
        Err(IntakeFault::ReadFault) => return Status::ReadFault,
        Err(IntakeFault::TooLong) => return Status::TooLong,
        Err(IntakeFault::NoMemory) => return Status::NoMemory,
    };
    match answer_input(alloc, by, ends, &input, sink) {
        Ok(Ending::Done) => flush_after(sink, Status::Done),
        Ok(Ending::Refused) => flush_after(sink, Status::Refused),
        Err(AnsweringFault::WriteFault) => Status::WriteFault,
        Err(AnsweringFault::NoMemory) => flush_after(sink, Status::NoMemory),
    }
}

// Writes the summary of the demo's answers.
fn run_demo<T: Threads + Sync, G: Gate, K: Sink>(
    alloc: Global,
    by: &Workers<'_, T, G>,
    ends: &mut Ends,
    seed: u64,
    sink: &mut K,
) -> Status
    ensures answered { IsAnsweredStatus result → Answered (demo_answers seed) result (K.held sink.old) (K.held sink.new) (K.flushed sink.new) }
    ensures flushed { IsAnsweredStatus result → K.flushed sink.new ≡ true }
    ensures tallied { IsAnsweredStatus result → IsTallied by.now.workers (calculations (demo_input seed)) (tally_of ends.old) (tally_of ends.new) }
    ensures told { IsAnsweredStatus result ⊎ (result ≡ Status.WriteFault) ⊎ (result ≡ Status.NoMemory) }
    ensures write_fault { result ≡ Status.WriteFault → Rose (K.faults sink.old) (K.faults sink.new) (K.at_last sink.new) }
    ensures sink_steady { result ≢ Status.WriteFault → K.faults sink.new ≡ K.faults sink.old }
    ensures part { result ≡ Status.WriteFault → AppendsPart (K.held sink.old) (K.held sink.new) (text (demo_answers seed)) }
    ensures flush_failed { result ≡ Status.WriteFault → K.flush_failed sink.new ≡ true → AppendsPieces (K.held sink.old) (K.held sink.new) (demo_answers seed).pieces }
    ensures no_memory { result ≡ Status.NoMemory → sink.new ≡ sink.old }
{
    let Ok(summary) = demo_summary(alloc, by, ends, seed) else {
        return Status::NoMemory;
    };
    if write_all(sink, &summary.text).is_err() {
        return Status::WriteFault;
    }
    match summary.ending {
        Ending::Done => flush_after(sink, Status::Done),
        Ending::Refused => flush_after(sink, Status::Refused),
    }
}

// Flushes once.
fn flush_after<K: Sink>(sink: &mut K, status: Status) -> Status
    ensures flushed { result ≢ Status.WriteFault → (result ≡ status) × (K.flushed sink.new ≡ true) }
    ensures steady { result ≢ Status.WriteFault → K.faults sink.new ≡ K.faults sink.old }
    ensures kept { K.held sink.new ≡ K.held sink.old }
    ensures later { K.faults sink.old ≤ K.faults sink.new }
    ensures rose { result ≡ Status.WriteFault → status ≢ Status.WriteFault → Rose (K.faults sink.old) (K.faults sink.new) (K.at_last sink.new) }
    ensures other { (result ≡ status) ⊎ (result ≡ Status.WriteFault) }
{
    match sink.flush() {
        Ok(()) => status,
        Err(Failed) => Status::WriteFault,
    }
}
