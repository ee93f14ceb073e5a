//! The names of the variables.
ghost use Rattle.std.specs.Prelude.{◌≡◌, ◌≢◌, ◌<◌, ◌≤◌, ◌⊎◌, ◌||◌, [], ℕ, Bool, true, false, length, map, string_bytes, slice_index_or, MatchOption, MatchResult, IfOk, IfErr, OnOk, ◌++◌, ◌∷◌, Some, None, Ok, Err};
ghost use Rattle.std.specs.List.{list_all, list_any};
ghost use Rattle.std.specs.Str.{bytes_eq};
ghost use Rattle.poly_text.specs.Words.{words_of};
ghost use Rattle.poly_text.specs.Names.{IsNameList, names_of, word_fault, is_name as is_name_word, is_reserved as is_reserved_word, is_among, is_letter as is_letter_byte, is_digit};

use crate::words::{count_words, split_word};
use packed_monomial::MOST_VARIABLES;
use std::alloc::{AllocError, Global};
use std::marker::Model;

/// The most names: as many as a monomial has variables.
pub const MOST_NAMES: usize = MOST_VARIABLES;

/// The most bytes of a name.
pub const LONGEST_NAME: usize = 32;

/// Why a list of words is no list of names; `index` counts the words from 0. The number of the words comes first, and then the first word with a fault.
#[derive(Clone, Copy, PartialEq, Eq, Debug, Drop)]
pub enum NamesFault {
    /// There is no word, or there are more than `MOST_NAMES`.
    Count,
    /// The word isn't a letter or `_`, followed by letters, digits and `_`, or it has more than `LONGEST_NAME` bytes.
    BadName { index: u32 },
    /// The word stands for something else in a session.
    Reserved { index: u32 },
    /// The word stands further left as well.
    Repeated { index: u32 },
    /// Memory is wanting.
    NoMemory,
}

/// The names of 1 to `MOST_NAMES` variables, no two of them alike, the greatest variable first.
///
/// Contracts see the list of the names, each as its bytes.
#[derive(Drop)]
pub struct Names {
    words: Vec<String>,
}

impl Model for Names {
    ghost use Rattle.std.specs.Prelude.{List, ℕ, map, string_bytes};
    ghost use Rattle.poly_text.specs.Names.{IsNameList};

    ghost Value = { List (List ℕ) };

    ghost view = { λ n. map string_bytes n.words.items };

    ghost invariant = { λ n. IsNameList (map string_bytes n.words.items) };
}

impl Names {
    /// The words as names.
    #[tactic(auto, using(crate::proofs::NameLemmas::refused_by, crate::proofs::NameLemmas::one_more, crate::proofs::NameLemmas::accepted, crate::proofs::NameLemmas::first_turn))]
    pub fn new(alloc: Global, words: &[u8]) -> Result<Names, NamesFault>
        ensures names { IfOk result (λ names. names_of (words_of words.now) ≡ Ok names) }
        ensures refused { IfErr result (λ fault. fault ≢ NamesFault.NoMemory → names_of (words_of words.now) ≡ Err fault) }
    {
        let count = count_words(words);
        if count == 0 || count > MOST_NAMES {
            return Err(NamesFault::Count);
        }
        let mut names = Vec::new(alloc);
        let mut rest = words;
        while let Some((word, later)) = split_word(rest) {
            add_name(alloc, word, &mut names)?;
            rest = later;
        }
        Ok(Names { words: names })
    }

    /// How many names there are.
    pub fn len(&self) -> usize
        ensures len { result ≡ length self.now }
        ensures list { IsNameList self.now }
    {
        self.words.len()
    }

    /// The name at place `i`, counted from 0 and below `len`.
    pub fn word(&self, i: usize) -> &str
        requires { i < length self.now }
        ensures { result.now ≡ slice_index_or self.now i [] }
    {
        self.words[i].as_str()
    }

    /// The names.
    pub fn words(&self) -> &[String]
        ensures view { map string_bytes result.now ≡ self.now }
        ensures list { IsNameList self.now }
    {
        &self.words
    }
}

/// Puts the word behind the names.
fn add_name(alloc: Global, word: &[u8], names: &mut Vec<String>) -> Result<(), NamesFault>
    requires { length names.old.items < MOST_NAMES }
    ensures added { OnOk
        result
        ((map string_bytes names.new.items ≡ map string_bytes names.old.items ++ word.now ∷ [])
        × word_fault (map string_bytes names.old.items) word.now ≡ None) }
    ensures refused { IfErr
        result
        (λ fault. fault ≢ NamesFault.NoMemory → word_fault (map string_bytes names.old.items) word.now ≡ Some fault) }
{
    let name = check_name(word, names)?;
    let Ok(name) = String::from_str(alloc, name) else {
        return Err(NamesFault::NoMemory);
    };
    if names.push(name).is_err() {
        return Err(NamesFault::NoMemory);
    }
    Ok(())
}

/// The word as a name behind these ones.
#[tactic(auto, unfolding(crate::specs::Names::word_fault))]
fn check_name<'a>(word: &'a [u8], earlier: &[String]) -> Result<&'a str, NamesFault>
    requires { length earlier.now < MOST_NAMES }
    ensures { MatchResult
        result
        (λ name. (name.now ≡ word.entry.now) × word_fault (map string_bytes earlier.now) word.entry.now ≡ None)
        (λ fault. word_fault (map string_bytes earlier.now) word.entry.now ≡ Some fault) }
{
    let index = earlier.len() as u32;
    let Some(name) = as_name(word) else {
        return Err(NamesFault::BadName { index });
    };
    if is_reserved(word) {
        return Err(NamesFault::Reserved { index });
    }
    if stands_in(word, earlier) {
        return Err(NamesFault::Repeated { index });
    }
    Ok(name)
}

#[tactic(auto, using(crate::proofs::NameLemmas::no_utf8))]
fn as_name(word: &[u8]) -> Option<&str>
    ensures { MatchOption
        result
        (is_name_word word.now ≡ false)
        (λ name. (name.now ≡ word.now) × is_name_word word.now ≡ true) }
{
    if !is_name(word) {
        return None;
    }
    match str::from_utf8(word) {
        Ok(name) => Some(name),
        Err(_) => None,
    }
}

/// Whether the word is a letter or `_`, followed by letters, digits and `_`, of 32 bytes at most.
pub fn is_name(word: &[u8]) -> bool
    ensures { result ≡ is_name_word word.now }
{
    let [first, rest @ ..] = word else {
        return false;
    };
    if !is_letter(*first) {
        return false;
    }
    if !are_letters_or_digits(rest) {
        return false;
    }
    word.len() <= LONGEST_NAME
}

fn are_letters_or_digits(bytes: &[u8]) -> bool
    ensures { result ≡ list_all (λ b. is_letter_byte b || is_digit b) bytes.now }
{
    bytes.iter().all(|byte| is_letter_or_digit(*byte))
}

fn is_letter_or_digit(byte: u8) -> bool
    ensures { result ≡ (is_letter_byte byte || is_digit byte) }
{
    is_letter(byte) || byte.is_ascii_digit()
}

fn is_letter(byte: u8) -> bool
    ensures { result ≡ is_letter_byte byte }
{
    byte.is_ascii_alphabetic() || byte == b'_'
}

/// Whether the word stands for something else in a session: `vars`, `ring`, `order`, `show`, `mul`, `div`, `rem`, `dot` or `nf`.
pub fn is_reserved(word: &[u8]) -> bool
    ensures { result ≡ is_reserved_word word.now }
{
    matches!(
        word,
        b"vars" | b"ring" | b"order" | b"show" | b"mul" | b"div" | b"rem" | b"dot" | b"nf"
    )
}

/// Whether the word is one of the names.
#[tactic(auto, using(crate::proofs::NameLemmas::among_map))]
pub fn stands_in(word: &[u8], names: &[String]) -> bool
    ensures { result ≡ is_among word.now (map string_bytes names.now) }
{
    any_is(word, names)
}

fn any_is(word: &[u8], names: &[String]) -> bool
    ensures { result ≡ list_any (λ name. bytes_eq (string_bytes name) word.now) names.now }
{
    names.iter().any(|name| name.as_bytes() == word)
}
