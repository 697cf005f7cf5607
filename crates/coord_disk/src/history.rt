//! The writes and syncs of a disk in memory.

ghost use Rattle.std.specs.Prelude.{◌≡◌, ◌+◌, ◌<◌, ◌^◌, List, ℕ, length, Some, OnOk, OnErr};
ghost use Rattle.coord_disk.specs.Model.Present.{IsImage, overwritten, whole, written_at};
ghost use Rattle.coord_disk.specs.Disks.History.{LedTo, Adds, past_with, present_after, replayed};

use std::alloc::{AllocError, Global};

/// A write or a sync.
#[derive(Drop)]
pub enum Entry {
    Wrote { at: u64, bytes: Vec<u8> },
    Synced,
}

/// The writes and syncs of a disk since it was made or crashed.
#[derive(Drop)]
pub struct History {
    pub first: Vec<u8>,
    pub synced: Vec<u8>,
    pub entries: Vec<Entry>,
}

// Overwrites the bytes from `at` on, appending past their end and filling a gap with zeros. If it
// runs out of memory, nothing changes.
fn overwrite(bytes: &mut Vec<u8>, at: usize, new: &[u8]) -> Result<(), AllocError>
    requires { at + length new.now < 2 ^ 64 }
    ensures ok { OnOk result (bytes.new.items ≡ overwritten bytes.old.items at new.now) }
    ensures err { OnErr result (bytes.new.items ≡ bytes.old.items) }
{
    if new.is_empty() {
        return Ok(());
    }
    let end = at + new.len();
    bytes.resize(bytes.len().max(end), 0)?;
    bytes[at..end].copy_from_slice(new);
    Ok(())
}

/// Writes to the current bytes, and records the write. If memory runs out, nothing changes.
pub fn write(
    alloc: Global,
    read: &mut Vec<u8>,
    history: &mut History,
    at: u64,
    bytes: &[u8],
) -> Result<(), AllocError>
    requires range { at + length bytes.now < 2 ^ 64 }
    requires led { LedTo history.old read.old.items }
    ensures led { LedTo history.new read.new.items }
    ensures ok { OnOk result (Adds (past_with read.old.items (Some history.old))
        (past_with read.new.items (Some history.new))
        (written_at at bytes.now (present_after (past_with read.old.items (Some history.old))))) }
    ensures err { OnErr result (past_with read.new.items (Some history.new) ≡
        past_with read.old.items (Some history.old)) }
{
    history.entries.reserve(1)?;
    let recorded = bytes.to_vec(alloc)?;
    overwrite(read, at as usize, bytes)?;
    history.entries.push_reserved(Entry::Wrote {
        at,
        bytes: recorded,
    });
    Ok(())
}

// Copies the ranges written since the last sync to the synced bytes. Outside these ranges, the two
// lists are already equal.
fn copy_written(entries: &[Entry], read: &[u8], synced: &mut [u8])
    requires { length synced.old ≡ length read.now }
    ensures { (first : List ℕ) → IsImage (record (replayed (whole first) entries.now)
        { synced = synced.old }) read.now → synced.new ≡ read.now }
{
    let mut n = entries.len();
    while n > 0 {
        n -= 1;
        match &entries[n] {
            Entry::Synced => return,
            Entry::Wrote { at, bytes } => {
                // A write of no bytes may begin past the end.
                let start = read.len().min(*at as usize);
                let end = start + bytes.len().min(read.len() - start);
                synced[start..end].copy_from_slice(&read[start..end]);
            }
        }
    }
}

/// Syncs the current bytes, and records the sync. If memory runs out, nothing changes.
pub fn record_sync(read: &Vec<u8>, history: &mut History) -> Result<(), AllocError>
    requires led { LedTo history.old read.now.items }
    ensures led { LedTo history.new read.now.items }
    ensures ok { OnOk result (Adds (past_with read.now.items (Some history.old))
        (past_with read.now.items (Some history.new)) (whole read.now.items)) }
    ensures err { OnErr result (past_with read.now.items (Some history.new) ≡
        past_with read.now.items (Some history.old)) }
{
    history.entries.reserve(1)?;
    let before = history.synced.len();
    history.synced.extend_from_slice(&read[before..])?;
    copy_written(&history.entries, read, &mut history.synced);
    history.entries.push_reserved(Entry::Synced);
    Ok(())
}
