//! Computes the bytes that a crash of a disk in memory leaves.

ghost use Rattle.std.specs.Prelude.{◌≡◌, ◌+◌, ◌&&◌, nat_le, nat_lt, List, ℕ, Some};
ghost use Rattle.coord_disk.specs.Model.Present.{is_within, whole};
ghost use Rattle.coord_disk.specs.Disks.Filled.{IsFilled, repeated};
ghost use Rattle.coord_disk.specs.Disks.History.{LedTo, past_with, present_after, replayed};
ghost use Rattle.coord_disk.specs.Disks.Left.{IsLeft};

use crate::Choice;
use crate::history::{Entry, History};

// Tests whether the `len` bytes from `at` on include the place.
fn covers(at: u64, len: u64, place: u64) -> bool
    ensures { result ≡ (nat_le at place && nat_lt place (at + len)) }
{
    at <= place && place - at < len
}

// Tests whether the place was written since the last sync.
fn is_written(entries: &[Entry], place: u64) -> bool
    ensures { (first : List ℕ) → result ≡
        is_within (replayed (whole first) entries.now).written place }
{
    let mut n = entries.len();
    while n > 0 {
        n -= 1;
        match &entries[n] {
            Entry::Synced => return false,
            Entry::Wrote { at, bytes } => {
                if covers(*at, bytes.len() as u64, place) {
                    return true;
                }
            }
        }
    }
    false
}

// Returns the n-th byte of the endless repetition of `filler`.
fn filling(filler: &[u8], n: usize) -> u8
    ensures { result ≡ repeated filler.now n }
{
    if filler.is_empty() {
        0
    } else {
        filler[n % filler.len()]
    }
}

fn fill(read: &mut [u8], history: &History, filler: &[u8])
    requires { LedTo history.now read.old }
    ensures { IsFilled (present_after (past_with read.old (Some history.now))) filler.now read.new }
{
    let mut filled = 0;
    for place in 0..read.len() {
        if history.synced.len() <= place || is_written(&history.entries, place as u64) {
            read[place] = filling(filler, filled);
            filled += 1;
        }
    }
}

/// Replaces the bytes that a read gives with the bytes that a crash with this choice leaves.
pub fn crash_bytes(read: &mut Vec<u8>, history: History, choice: &Choice)
    requires { LedTo history read.old.items }
    ensures { IsLeft choice.now (present_after (past_with read.old.items (Some history)))
        read.new.items }
{
    match choice {
        Choice::Kept => {}
        Choice::Lost => *read = history.synced,
        Choice::Filled(filler) => fill(read, &history, filler),
    }
}
