//! A line of a text whose bytes are still arriving.

ghost use Rattle.std.specs.Prelude.{◌≡◌, Some, []};
ghost use Rattle.std.specs.Option.{option_copied};
ghost use Rattle.std.specs.List.{position};
ghost use Rattle.coord_lines.specs.Lines.{is_line_feed, extended, IsWithin, before_line_feed, after_line_feed};

use coord_types::MAX_LINE_BYTES;
use std::marker::Model;

const LINE_FEED: u8 = b'\n';

/// The bytes of a partial line. Contracts see these bytes, or None once there are more than
/// `MAX_LINE_BYTES`.
#[derive(Drop)]
pub struct LineBuffer {
    bytes: [u8; MAX_LINE_BYTES],
    len: usize,
    is_long: bool,
}

impl Model for LineBuffer {
    ghost use Rattle.std.specs.Prelude.{◌≤◌, ℕ, List, Option, Some, None, take, if◌then◌else◌};
    ghost use Rattle.coord_types.specs.declared.limits.TheConstants.{MAX_LINE_BYTES};

    ghost Value = { Option (List ℕ) };

    ghost view = { λ a. if a.is_long then None else Some (take a.len a.bytes) };

    ghost invariant = { λ a. a.len ≤ MAX_LINE_BYTES };
}

impl LineBuffer {
    /// Returns an empty line.
    pub fn new() -> Self
        ensures { result ≡ Some [] }
    {
        LineBuffer {
            bytes: [0; MAX_LINE_BYTES],
            len: 0,
            is_long: false,
        }
    }

    /// Appends the piece to the line, up to the first line feed, and returns the bytes after the
    /// line feed. Returns None if the piece has no line feed; the line then continues.
    pub fn take<'a>(&mut self, piece: &'a [u8]) -> Option<&'a [u8]>
        ensures line { self.new ≡ extended self.old (before_line_feed piece.now) }
        ensures following { option_copied result ≡ after_line_feed piece.now }
    {
        match line_feed_in(piece) {
            Some(end) => {
                self.extend(&piece[..end]);
                Some(&piece[end + 1..])
            }
            None => {
                self.extend(piece);
                None
            }
        }
    }

    /// Returns the line, or None if it is longer than the limit.
    pub fn get(&self) -> Option<&[u8]>
        ensures line { option_copied result ≡ self.now }
        ensures within { IsWithin self.now }
    {
        if self.is_long {
            None
        } else {
            Some(&self.bytes[..self.len])
        }
    }

    /// Begins a new line.
    pub fn clear(&mut self)
        ensures { self.new ≡ Some [] }
    {
        self.len = 0;
        self.is_long = false;
    }

    #[tactic(auto, unfolding(crate::specs::Lines::line_of))]
    fn extend(&mut self, more: &[u8])
        ensures { self.new ≡ extended self.old more.now }
    {
        if more.len() <= MAX_LINE_BYTES - self.len {
            let end = self.len + more.len();
            self.bytes[self.len..end].copy_from_slice(more);
            self.len = end;
        } else {
            self.is_long = true;
        }
    }
}

/// Returns the index of the first line feed, or None.
fn line_feed_in(piece: &[u8]) -> Option<usize>
    ensures { result ≡ position is_line_feed piece.now }
{
    piece.iter().position(|byte| *byte == LINE_FEED)
}
