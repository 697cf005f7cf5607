//! The file of a history.

ghost use Rattle.std.specs.Prelude.{◌≡◌, ◌<◌, ◌≤◌, ◌/◌, ◌*◌, length};
ghost use Rattle.std.specs.List.{list_all};
ghost use Rattle.coord_kept.specs.History.{are_lines, is_among, is_digit, is_line, line_at, looked_up, size_of};

/// The result of looking up a line in a history.
#[derive(Clone, Copy, Debug, PartialEq, Eq)]
pub struct Found {
    /// The number of bytes of the whole lines: the next line is written there, over a torn line if
    /// there is one.
    pub size: usize,
    pub has: bool,
}

/// The length of a line, in bytes.
const LINE: usize = 65;

/// Returns the number of bytes of the whole lines.
fn size_of(history: &[u8]) -> usize
    ensures is { result ≡ size_of history.now }
    ensures fits { result ≤ length history.now }
{
    let mut size = history.len();
    while 0 < size && history[size - 1] != b'\n' {
        size -= 1;
    }
    size
}

fn is_digit(byte: u8) -> bool
    ensures { result ≡ is_digit byte }
{
    (b'0' <= byte && byte <= b'9') || (b'a' <= byte && byte <= b'f')
}

fn are_digits(text: &[u8]) -> bool
    ensures { result ≡ list_all is_digit text.now }
{
    text.iter().all(|byte| is_digit(*byte))
}

/// Tests whether this is a digest followed by a line feed.
#[tactic(auto, unfolding(crate::specs::History::is_line))]
fn is_line(line: &[u8]) -> bool
    requires { length line.now ≡ 65 }
    ensures { result ≡ is_line line.now }
{
    let (digits, end) = line.split_at(64);
    are_digits(digits) && end == b"\n".as_slice()
}

/// Returns the line with this number, counted from 0.
fn line_at(history: &[u8], place: usize) -> &[u8]
    requires { place < length history.now / 65 }
    ensures is { result.now ≡ line_at history.now place }
    ensures whole { length result.now ≡ 65 }
{
    let (_, rest) = history.split_at(LINE * place);
    let (line, _) = rest.split_at(LINE);
    line
}

fn are_lines(history: &[u8], count: usize) -> bool
    requires { count ≤ length history.now / 65 }
    ensures { result ≡ are_lines history.now count }
{
    let mut are = true;
    for place in 0..count {
        if !is_line(line_at(history, place)) {
            are = false;
        }
    }
    are
}

fn is_among(history: &[u8], line: &[u8], count: usize) -> bool
    requires { count ≤ length history.now / 65 }
    ensures { result ≡ is_among history.now line.now count }
{
    let mut is = false;
    for place in 0..count {
        if line_at(history, place) == line {
            is = true;
        }
    }
    is
}

/// Returns whether a history has this line, and where the next line is written, or None if the
/// bytes are not a history.
pub fn look_up(history: &[u8], line: &[u8]) -> Option<Found>
    ensures { result ≡ looked_up history.now line.now }
{
    let size = size_of(history);
    let count = size / LINE;
    if size % LINE != 0 || !are_lines(history, count) {
        return None;
    }
    Some(Found {
        size,
        has: is_among(history, line, count),
    })
}
