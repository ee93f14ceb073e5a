//! The lines of the body.
ghost use Rattle.std.specs.Prelude.{◌≡◌};
ghost use Rattle.poly_text.specs.Words.{words_of};
ghost use Rattle.calc_session.specs.Body.{form_of, asked, definition, only_word};
ghost use Rattle.calc_session.specs.Says.{says};

use crate::commands::Command;
use crate::effective::is_skip;
use crate::fault::LineFault;
use crate::lines::find_equals;
use poly_text::{Names, count_words, is_name, is_reserved, split_word, stands_in};

/// What a line says: nothing; a definition, whose polynomial begins at the place `start`; or a command and the words behind it, which are its names.
#[derive(Clone, Copy, Debug)]
pub enum Line<'a> {
    Skip,
    Define { name: &'a [u8], start: usize },
    Ask { command: Command, names: &'a [u8] },
}

/// What a line of the body says, where these are the variables.
pub fn parse_line<'a>(line: &'a [u8], names: &Names) -> Result<Line<'a>, LineFault>
    ensures { says result ≡ form_of names.now line.entry.now }
{
    if is_skip(line) {
        return Ok(Line::Skip);
    }
    match find_equals(line) {
        Some(i) => parse_definition(&line[..i], i + 1, names),
        None => parse_command(line),
    }
}

#[tactic(auto, unfolding(crate::specs::Body::definition))]
fn parse_definition<'a>(
    before: &'a [u8],
    start: usize,
    names: &Names,
) -> Result<Line<'a>, LineFault>
    ensures { says result ≡ definition names.now (only_word (words_of before.entry.now)) start }
{
    let name = sole_word(before);
    if !is_name(name) {
        return Err(LineFault::BadName);
    }
    if is_reserved(name) {
        return Err(LineFault::ReservedName);
    }
    if stands_in(name, names.words()) {
        return Err(LineFault::VariableName);
    }
    Ok(Line::Define { name, start })
}

fn sole_word(bytes: &[u8]) -> &[u8]
    ensures { result.now ≡ only_word (words_of bytes.now) }
{
    let Some((word, rest)) = split_word(bytes) else {
        return &bytes[..0];
    };
    if split_word(rest).is_some() {
        return &bytes[..0];
    }
    word
}

fn parse_command(line: &[u8]) -> Result<Line<'_>, LineFault>
    ensures { says result ≡ asked (words_of line.now) }
{
    let Some((word, names)) = split_word(line) else {
        return Ok(Line::Skip);
    };
    let Some(command) = Command::of_word(word) else {
        return Err(LineFault::UnknownCommand);
    };
    if !command.takes(count_words(names)) {
        return Err(LineFault::ArgumentCount);
    }
    Ok(Line::Ask { command, names })
}
