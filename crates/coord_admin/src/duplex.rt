//! A connection to one client, from which lines are read and to which replies are written.

ghost use Rattle.std.specs.Prelude.{◌≡◌, ◌<◌, ◌≤◌, ◌++◌, List, [], ℕ, Bool, ⊤, length, take, IfOk, OnErr, OnOk};
ghost use Rattle.coord_lines.specs.Written.{IsFirstPart};

/// A failed read: nothing more could be read, at least not in time.
#[derive(Clone, Copy, Debug, PartialEq, Eq)]
pub struct NotRead;

/// A failed write: a text could not be written completely, at least not in time.
#[derive(Clone, Copy, Debug, PartialEq, Eq)]
pub struct NotWritten;

/// A connection to one client: requests come in, and replies go out. Code that is generic over the
/// connection has to read and write through this trait, because only its calls show contracts which
/// bytes were read and written.
pub trait Duplex {
    /// The bytes that were read and the bytes that were written between two states of the connection.
    ghost exchanged: { Self → List ℕ → List ℕ → Self → Type 0 };

    /// No more bytes will come in.
    ghost has_ended: { Self → Type 0 };

    /// A read or a write has failed.
    ghost has_failed: { Self → Type 0 } = { λ _. ⊤ };

    /// The server tried to read; the flag is whether a line has begun.
    ghost asked: { Self → Bool → Self → Type 0 } = { λ _ _ _. ⊤ };

    /// Reads the next bytes into the buffer, and returns their number, 0 at the end of the input.
    /// `is_within_line`: a line has begun and not ended, so the client has less time.
    fn receive(&mut self, buffer: &mut [u8], is_within_line: bool) -> Result<usize, NotRead>
        ensures fits { IfOk result (λ n. n ≤ length buffer.new) }
        ensures length { length buffer.new ≡ length buffer.old }
        ensures bytes { IfOk result (λ n. exchanged self.old (take n buffer.new) [] self.new) }
        ensures end { IfOk result (λ n. n ≡ 0 → 0 < length buffer.old → has_ended self.new) }
        ensures failed { OnErr result (exchanged self.old [] [] self.new × has_failed self.new) }
        ensures asked { asked self.old is_within_line self.new };

    /// Tests whether more input has already arrived, so that a read would not wait.
    fn has_more(&self) -> bool {
        false
    }

    /// Writes these replies completely.
    fn reply(&mut self, text: &[u8]) -> Result<(), NotWritten>
        ensures whole { OnOk result (exchanged self.old [] text.now self.new) }
        ensures part { OnErr result ((part : List ℕ) × exchanged self.old [] part self.new ×
            IsFirstPart part text.now) }
        ensures failed { OnErr result (has_failed self.new) }
        ensures still { has_failed self.old → has_failed self.new }
        ensures end { has_ended self.old → has_ended self.new };

    ghost at_rest: { (a : Self) → exchanged a [] [] a };

    ghost in_turn: { (a b c : Self) (bytes_read more bytes_written later : List ℕ) → exchanged a bytes_read bytes_written b →
        exchanged b more later c → exchanged a (bytes_read ++ more) (bytes_written ++ later) c };
}
