//! The lines of an input.
ghost use Rattle.std.specs.Prelude.{◌≡◌, ◌+◌, ◌<◌, ◌≤◌, ◌∷◌, IfSome, length, take, drop, position};
ghost use Rattle.calc_session.specs.Lines.{cut_lines, without_return, lines, is_equals};

const LINE_FEED: u8 = b'\n';

const CARRIAGE_RETURN: u8 = b'\r';

/// Where the first line ends: the place of the first line feed, or the end of the bytes.
fn first_line(bytes: &[u8]) -> usize
    requires { 0 < length bytes.now }
    ensures within { result ≤ length bytes.now }
    ensures cut { cut_lines bytes.now ≡ take result bytes.now ∷ cut_lines (drop (result + 1) bytes.now) }
{
    let mut end = 0;
    while end < bytes.len() && bytes[end] != LINE_FEED {
        end += 1;
    }
    end
}

/// The line without one carriage return at its end.
fn trimmed(line: &[u8]) -> &[u8]
    ensures { result.now ≡ without_return line.now }
{
    let len = line.len();
    if len > 0 && line[len - 1] == CARRIAGE_RETURN {
        &line[..len - 1]
    } else {
        line
    }
}

/// The first line, and what follows it.
pub fn split_line(bytes: &[u8]) -> (&[u8], &[u8])
    requires { 0 < length bytes.now }
    ensures lines { lines bytes.now ≡ result.0.now ∷ lines result.1.now }
    ensures shorter { length result.1.now < length bytes.now }
{
    let end = first_line(bytes);
    let line = trimmed(&bytes[..end]);
    if end < bytes.len() {
        (line, &bytes[end + 1..])
    } else {
        (line, &bytes[end..])
    }
}

/// Where the first `=` stands.
pub(crate) fn find_equals(line: &[u8]) -> Option<usize>
    ensures place { result ≡ position is_equals line.now }
    ensures within { IfSome result (λ i. i < length line.now) }
{
    line.iter().position(|byte| *byte == b'=')
}
