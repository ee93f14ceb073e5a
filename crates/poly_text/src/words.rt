// The words of a line.
ghost use Rattle.std.specs.Prelude.{◌≡◌, ◌<◌, ◌≤◌, ◌∷◌, [], false, length, take, drop, slice_index, MatchOption};
ghost use Rattle.poly_text.specs.Words.{is_space, words_of};

fn is_blank(byte: u8) -> bool
    ensures { result ≡ is_space byte }
{
    byte == b' ' || byte == b'\t'
}

/// What follows the spaces.
fn skip_spaces(bytes: &[u8]) -> &[u8]
    ensures words { words_of result.now ≡ words_of bytes.now }
    ensures first { 0 < length result.now → is_space (slice_index result.now 0) ≡ false }
    ensures shorter { length result.now ≤ length bytes.now }
{
    let mut rest = bytes;
    while !rest.is_empty() && is_blank(rest[0]) {
        rest = &rest[1..];
    }
    rest
}

/// Where the first word ends.
fn word_end(bytes: &[u8]) -> usize
    requires some { 0 < length bytes.now }
    requires first { is_space (slice_index bytes.now 0) ≡ false }
    ensures words { words_of bytes.now ≡ take result bytes.now ∷ words_of (drop result bytes.now) }
    ensures within { result ≤ length bytes.now }
    ensures some { 0 < result }
{
    let mut end = 1;
    while end < bytes.len() && !is_blank(bytes[end]) {
        end += 1;
    }
    end
}

/// The first word, and what follows it.
pub fn split_word(bytes: &[u8]) -> Option<(&[u8], &[u8])>
    ensures words { MatchOption result (words_of bytes.now ≡ []) (λ p. words_of bytes.now ≡ p.0.now ∷ words_of p.1.now) }
    ensures shorter { MatchOption result (0 ≤ 0) (λ p. length p.1.now < length bytes.now) }
{
    let rest = skip_spaces(bytes);
    if rest.is_empty() {
        return None;
    }
    let end = word_end(rest);
    Some((&rest[..end], &rest[end..]))
}

/// How many words there are.
pub fn count_words(words: &[u8]) -> usize
    ensures { result ≡ length (words_of words.now) }
{
    let mut count = 0;
    let mut rest = words;
    while let Some((_, later)) = split_word(rest) {
        count += 1;
        rest = later;
    }
    count
}
