ghost use Rattle.std.specs.Prelude.{Err, ◌≡◌, ◌≢◌, [], IfOk, false, map, string_bytes};
ghost use Rattle.clap.specs.Words.{rows_of, found_of, rule_of, new_rule, app_of, kind_of};
ghost use Rattle.sdmp_words.specs.Command.{bare, found_in, option as option_rule, refused_for, sdmp};

use crate::fault::WordsFault;
use clap::error::ErrorKind;
use clap::{Arg, ArgMatches, Command, Error};
use std::alloc::{AllocError, Global};

// an option with one text value
fn option<'a>(alloc: Global, name: &'a str) -> Arg<'a>
    ensures rule { rule_of result ≡ option_rule (new_rule name.entry.now) }
    ensures local { result.global ≡ false }
{
    Arg::new(alloc, name).long(name)
}

// no help flag, no version flag and no subcommand
fn bare_command<'a>(alloc: Global) -> Command<'a>
    ensures { app_of result ≡ bare }
{
    Command::new(alloc, "sdmp")
        .no_binary_name(true)
        .disable_help_flag(true)
        .disable_version_flag(true)
        .disable_help_subcommand(true)
}

fn command_with_options<'a>(alloc: Global) -> Result<Command<'a>, AllocError>
    ensures { IfOk result (λ c. app_of c ≡ sdmp) }
{
    let command = bare_command(alloc)
        .arg(option(alloc, "workers"))?
        .arg(option(alloc, "places"))?
        .arg(option(alloc, "demo"))?;
    Ok(command)
}

/// Asks the command. What it would print of a refusal is dropped.
pub fn parse<'a>(alloc: Global, words: &'a [String]) -> Result<ArgMatches<'a>, WordsFault>
    ensures taken { IfOk result (λ m. rows_of (found_of m) ≡ found_in (map string_bytes words.entry.now)) }
    ensures no_fault { IfOk result (λ m. refused_for (map string_bytes words.entry.now) ≡ []) }
    ensures fault { result ≡ Err WordsFault.BadWords → refused_for (map string_bytes words.entry.now) ≢ [] }
{
    let command = command_with_options(alloc)?;
    match command.try_get_matches_from(words) {
        Ok(matches) => Ok(matches),
        Err(error) => Err(fault_of(error)),
    }
}

fn fault_of(error: Error) -> WordsFault
    ensures memory { kind_of error ≡ ErrorKind.OutOfMemory → result ≡ WordsFault.NoMemory }
    ensures words { kind_of error ≢ ErrorKind.OutOfMemory → result ≡ WordsFault.BadWords }
{
    match error.kind() {
        ErrorKind::OutOfMemory => WordsFault::NoMemory,
        _ => WordsFault::BadWords,
    }
}
