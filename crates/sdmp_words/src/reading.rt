ghost use Rattle.std.specs.Prelude.{◌≡◌, ◌≤◌, IfSome, IfOk, Err, None, Some, map, string_bytes};
ghost use Rattle.std.specs.List.{list_any};
ghost use Rattle.clap.specs.Words.{first_of, found_of, rows_of};
ghost use Rattle.sdmp_words.specs.Words.{AreInRange, settings_of};
ghost use Rattle.sdmp_words.specs.Rows.{is_bare_dashes, number_given, settings_by_rows};

use crate::fault::WordsFault;
use crate::numbers::number_in;
use crate::parsing::parse;
use crate::settings::Settings;
use clap::ArgMatches;
use std::alloc::Global;

/// Reads the words that follow the program's name: options `--workers W`, `--places P` and `--demo SEED` in any order, each at most once, where a value may also follow its option after `=` in one word. A value has 1 to 20 digits. BadWords comes exactly where the words are anything else. Nothing is printed.
pub fn read_words(alloc: Global, words: &[String]) -> Result<Settings, WordsFault>
    ensures settings { IfOk result (λ settings. settings_of (map string_bytes words.now) ≡ Some settings) }
    ensures range { IfOk result AreInRange }
    ensures bad_words { result ≡ Err WordsFault.BadWords → settings_of (map string_bytes words.now) ≡ None }
{
    if has_bare_dashes(words) {
        return Err(WordsFault::BadWords);
    }
    let matches = parse(alloc, words)?;
    match settings_in(&matches) {
        Some(settings) => Ok(settings),
        None => Err(WordsFault::BadWords),
    }
}

// the command would take this word for the end of the options
fn has_bare_dashes(words: &[String]) -> bool
    ensures { result ≡ list_any (λ word. is_bare_dashes (string_bytes word)) words.now }
{
    words.iter().any(|word| word.as_str() == "--")
}

#[tactic(auto, unfolding(crate::specs::Rows::settings_by_rows))]
fn settings_in(matches: &ArgMatches) -> Option<Settings>
    ensures value { result ≡ settings_by_rows (rows_of (found_of matches.now)) }
    ensures range { IfSome result AreInRange }
{
    let workers = given(matches, "workers", 1, 64)?;
    let places = given(matches, "places", 2, 65536)?;
    let demo = given(matches, "demo", 0, u64::MAX)?;
    Some(Settings {
        workers: workers.unwrap_or(4) as u32,
        places: places.unwrap_or(1024) as u32,
        demo,
    })
}

// the number of an option that may have been left out
fn given(matches: &ArgMatches, name: &str, low: u64, high: u64) -> Option<Option<u64>>
    ensures value { result ≡ number_given low high (first_of name.now (rows_of (found_of matches.now))) }
    ensures range { IfSome result (λ number. IfSome number (λ n. (low ≤ n) × (n ≤ high))) }
{
    match matches.get_str(name) {
        None => Some(None),
        Some(text) => Some(Some(number_in(low, high, text.as_bytes())?)),
    }
}
