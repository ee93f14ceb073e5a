//! The lines that count.
ghost use Rattle.std.specs.Prelude.{◌≡◌, ◌+◌, ◌<◌, ◌≤◌, ◌∷◌, [], ℕ, length, map, IfSome, MatchOption};
ghost use Rattle.poly_text.specs.Words.{words_of};
ghost use Rattle.calc_session.specs.Lines.{lines, is_skipped, effective};

use crate::lines::split_line;
use poly_text::split_word;

/// A line that isn't skipped, or the end of the input: its number, the bytes from it on, and the bytes behind it.
#[derive(Clone, Copy)]
pub(crate) struct Effective<'a> {
    pub number: u64,
    pub line: Option<&'a [u8]>,
    pub from: &'a [u8],
    pub rest: &'a [u8],
}

/// The first line that isn't skipped, where the first of all has the number `first`.
#[tactic(auto, using(crate::proofs::EffectiveLemmas::effective_none, crate::proofs::EffectiveLemmas::effective_later, crate::proofs::EffectiveLemmas::effective_here, crate::proofs::EffectiveLemmas::no_lines))]
pub(crate) fn effective_line(bytes: &[u8], first: u64) -> Effective<'_>
    requires { first + length bytes.now ≤ u64.MAX }
    ensures from { effective first (lines bytes.now) ≡ (result.number, lines result.from.now) }
    ensures line { MatchOption result.line (lines result.from.now ≡ []) (λ line. lines result.from.now ≡ line.now ∷ lines result.rest.now) }
    ensures bound { result.number + length result.from.now ≤ first + length bytes.now }
    ensures later { IfSome result.line (λ _. length result.rest.now < length result.from.now) }
{
    let mut number = first;
    let mut rest = bytes;
    while !rest.is_empty() {
        let (line, later) = split_line(rest);
        if !is_skip(line) {
            return Effective {
                number,
                line: Some(line),
                from: rest,
                rest: later,
            };
        }
        number += 1;
        rest = later;
    }
    Effective {
        number,
        line: None,
        from: rest,
        rest,
    }
}

/// Whether the line is blank or a comment.
pub(crate) fn is_skip(line: &[u8]) -> bool
    ensures { result ≡ is_skipped (words_of line.now) }
{
    match split_word(line) {
        None => true,
        Some((word, _)) => begins_comment(word),
    }
}

fn begins_comment(word: &[u8]) -> bool
    ensures { result ≡ is_skipped (word.now ∷ []) }
{
    match word {
        [first, ..] => *first == b'#',
        [] => false,
    }
}
