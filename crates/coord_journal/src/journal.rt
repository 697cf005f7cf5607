//! A journal: a version, a snapshot and the batches appended since.

ghost use Rattle.std.specs.Prelude.{◌≡◌, ◌↔◌, ◌+◌, ◌-◌, ◌*◌, ◌≤◌, true, false, length, IsTrue, is_ok, OnOk, if◌then◌else◌};
ghost use Rattle.coord_disk.specs.Model.Present.{whole};
ghost use Rattle.coord_journal.specs.declared.layout.TheConstants.{MAX_BODY, MAX_HALF, MAX_SNAPSHOT, MIN_HALF};
ghost use Rattle.coord_journal.specs.Text.{Content, gate_place, with_batch, with_body_at, with_half, without_batch};

use crate::JournalFault;
use crate::half::Half;
use crate::layout::HEADER;
use crate::spelling::{spell_block, spell_half};
use crate::synced::write_in_turn;
use coord_disk::Disk;
use std::alloc::Global;

/// An open journal.
#[derive(Drop)]
pub struct Journal<D> {
    alloc: Global,
    disk: D,
    half_size: u64,
    // The selected half, and the number of bytes used in it, including its closed gate.
    half: Half,
    used: u64,
    stopped: bool,
    ghost smallest: { MIN_HALF ≤ half_size },
    ghost greatest: { half_size ≤ MAX_HALF },
    ghost within: { used ≤ half_size },
}

impl<D: Disk> Journal<D> {
    ghost use Rattle.coord_journal.specs.Journal.{HasRoomFor, IsReady, disk_of, half_of, half_size_of, used_of, has_stopped};
    ghost use Rattle.coord_journal.specs.Half.{half_number};
    ghost use Rattle.coord_journal.specs.Writing.{Answers, Rewrites};

    // Returns a journal that uses the first `used` bytes of this half.
    pub(crate) fn at(alloc: Global, disk: D, half_size: u64, half: Half, used: u64) -> Self
        requires smallest { MIN_HALF ≤ half_size }
        requires greatest { half_size ≤ MAX_HALF }
        requires within { used ≤ half_size }
        ensures disk { disk_of result ≡ disk }
        ensures half_size { half_size_of result ≡ half_size }
        ensures half { half_of result ≡ half_number half }
        ensures used { used_of result ≡ used }
        ensures going { has_stopped result ≡ false }
    {
        Journal {
            alloc,
            disk,
            half_size,
            half,
            used,
            stopped: false,
        }
    }

    /// Returns the length of the longest body that still fits, in bytes. Returns 0 both if only an
    /// empty body fits and if no body fits; `fits` distinguishes the two cases.
    pub fn room(&self) -> u64
        ensures { result ≡ half_size_of self.now - used_of self.now - 5 }
    {
        (self.half_size - self.used).saturating_sub(5)
    }

    /// Tests whether a body of this many bytes still fits.
    pub fn fits(&self, len: usize) -> bool
        ensures { IsTrue result ↔ HasRoomFor self.now len }
    {
        let free = self.half_size - self.used;
        5 <= free && len as u64 <= free - 5
    }

    /// Returns the disk.
    pub fn into_disk(self) -> D
        ensures { result ≡ disk_of self }
    {
        self.disk
    }

    // Returns the place of the closed gate of the selected half.
    fn gate(&self) -> u64
        ensures place { result ≡ gate_place (half_size_of self.now) (half_of self.now)
            (used_of self.now) }
        ensures near { result ≤ 16 + 2 * MAX_HALF }
    {
        (HEADER as u64 - 1) + self.half.start(self.half_size) + self.used
    }

    /// Appends a batch with this body, which has at most 8,192 bytes and must fit. Makes four device
    /// calls.
    ///
    /// After `Device`, each later call returns `Stopped`; opening the device shows whether the device
    /// holds the batch.
    pub fn append(&mut self, body: &[u8]) -> Result<(), JournalFault>
        requires short { length body.now ≤ MAX_BODY }
        requires fits { HasRoomFor self.old (length body.now) }
        ensures writes { (content : Content) → IsReady D.model self.old content →
            Rewrites D.model content (with_batch content body.now) self.old self.new result }
        ensures bytes { D.model.keeps_model (disk_of self.old) ≡ true →
            let gate = gate_place (half_size_of self.old) (half_of self.old) (used_of self.old) in
            OnOk result (D.model.present (disk_of self.new) ≡
            whole (with_body_at gate body.now (D.model.present (disk_of self.old)).read)) }
        ensures used { used_of self.new ≡
            (if is_ok result then used_of self.old + 5 + length body.now else used_of self.old) }
        ensures half { half_of self.new ≡ half_of self.old }
        ensures answers { Answers D.model self.old self.new result }
    {
        if self.stopped {
            return Err(JournalFault::Stopped);
        }
        let block = spell_block(self.alloc, body)?;
        let gate = self.gate();
        let written = write_in_turn(&mut self.disk, gate + 1, &block, gate, &[1]);
        self.stopped = written.is_err();
        written?;
        self.used += block.len() as u64;
        Ok(())
    }

    /// Replaces the whole content by a version and a snapshot of at most 16,384 bytes. Makes four
    /// device calls.
    ///
    /// The new content is written to the other half, which is selected once the content is on disk.
    /// After `Device`, each later call returns `Stopped`; opening the device shows which of the two
    /// contents it holds.
    pub fn replace(&mut self, version: u8, snapshot: &[u8]) -> Result<(), JournalFault>
        requires { length snapshot.now ≤ MAX_SNAPSHOT }
        ensures writes { (content : Content) → IsReady D.model self.old content →
            Rewrites D.model content (without_batch version snapshot.now) self.old self.new result }
        ensures bytes { D.model.keeps_model (disk_of self.old) ≡ true →
            let half = 1 - half_of self.old in
            OnOk result (D.model.present (disk_of self.new) ≡
            whole (with_half half (half_size_of self.old) version snapshot.now
            (D.model.present (disk_of self.old)).read)) }
        ensures fits { OnOk result (HasRoomFor self.new MAX_BODY) }
        ensures used { used_of self.new ≡
            (if is_ok result then 6 + length snapshot.now else used_of self.old) }
        ensures half { half_of self.new ≡
            (if is_ok result then 1 - half_of self.old else half_of self.old) }
        ensures answers { Answers D.model self.old self.new result }
    {
        if self.stopped {
            return Err(JournalFault::Stopped);
        }
        let bytes = spell_half(self.alloc, version, snapshot)?;
        let half = self.half.other();
        let start = HEADER as u64 + half.start(self.half_size);
        let written = write_in_turn(&mut self.disk, start, &bytes, 0, &[half.selector()]);
        self.stopped = written.is_err();
        written?;
        self.half = half;
        self.used = bytes.len() as u64;
        Ok(())
    }
}
