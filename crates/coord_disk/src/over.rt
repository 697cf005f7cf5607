//! A disk over a raw file.

ghost use Rattle.std.specs.Prelude.{◌≡◌, ◌+◌, ◌<◌, ◌≤◌, ◌^◌, false, true, length, Ok, is_ok, IfOk, IsOk, OnOk, OnErr, if◌then◌else◌};
ghost use Rattle.coord_disk.specs.Model.Calls.{HasBytes, HasCause, Measures, Reads, Syncs, Writes};
ghost use Rattle.coord_disk.specs.Model.RawCalls.{StaysEntered};
ghost use Rattle.coord_disk.specs.Model.RawCalls.RawCall.{Len, Read, Write, SyncData, SyncAll, SyncFolder};

use crate::fault::{counted, fail};
use crate::{Disk, DiskFault, RawFile, Takable};
use http_server::Log;
use std::io;

/// One past the last position that a file can have.
const END: u64 = 1 << 63;

/// A disk over a raw file. It keeps the model if the file does.
///
/// After a failed sync, every sync fails, because the system may report bytes as synced that it has
/// lost.
#[derive(Drop)]
pub struct RawDisk<F: RawFile> {
    file: F,
    /// A lower bound of the length of the file, in bytes.
    size: u64,
    /// Whether the length may have changed since the last sync.
    grown: bool,
    lost: bool,
    failed: Log<u8, u8>,
    ghost entered: { F.model.keeps_model file ≡ true → F.is_entered file ≡ true },
    ghost within: { F.model.keeps_model file ≡ true → lost ≡ false →
        size ≤ length (F.model.present file).read },
    ghost level: { F.model.keeps_model file ≡ true → lost ≡ false → grown ≡ false →
        length (F.model.present file).synced ≡ length (F.model.present file).read },
}

impl<F: RawFile> RawDisk<F> {
    ghost use Rattle.coord_disk.specs.Disks.Raw.{file_of, failures_of, has_grown, has_lost};

    /// Wraps a file that another process may have made and not synced: `over` syncs the file's
    /// entry in its folder, and the first sync of the disk also syncs the file's length.
    pub fn over(mut file: F) -> Result<Self, DiskFault>
        ensures calls { IfOk result (λ disk. (entered : F) × F.made file SyncFolder true entered ×
            F.made entered Len true (file_of disk)) }
        ensures failures { IfOk result (λ disk. failures_of disk ≡ 0) }
        ensures grown { IfOk result (λ disk. has_grown disk ≡ true) }
        ensures whole { IfOk result (λ disk. has_lost disk ≡ false) }
    {
        match opened(&mut file) {
            Ok(size) => Ok(RawDisk {
                file,
                size,
                grown: true,
                lost: false,
                failed: Log::new(),
            }),
            Err(_) => Err(DiskFault),
        }
    }

    /// Returns the file.
    pub fn into_file(self) -> F
        ensures { result ≡ file_of self }
    {
        self.file
    }
}

/// Syncs the file's entry in its folder, and returns the file's length.
fn opened<F: RawFile>(file: &mut F) -> io::Result<u64>
    ensures calls { OnOk result ((entered : F) × F.made file.old SyncFolder true entered ×
        F.made entered Len true file.new) }
    ensures entered { F.model.keeps_model file.new ≡ true →
        OnOk result (F.is_entered file.new ≡ true) }
    ensures value { F.model.keeps_model file.new ≡ true →
        IfOk result (λ size. size ≡ length (F.model.present file.new).read) }
{
    file.sync_folder()?;
    file.len()
}

/// Returns `at + len`, or an error if no file can have that position.
fn end_of(at: u64, len: usize) -> io::Result<u64>
    ensures ok { IfOk result (λ end. (end ≡ at + len) × (end < 2 ^ 63)) }
    ensures within { at + len < 2 ^ 63 → IsOk result }
{
    match at.checked_add(len as u64) {
        Some(end) if end < END => Ok(end),
        _ => Err(io::ErrorKind::InvalidInput.into()),
    }
}

impl<F: RawFile> Takable for RawDisk<F> {}

impl<F: RawFile> Disk for RawDisk<F> {
    ghost use Rattle.coord_disk.specs.Disks.Raw.{file_of, failures_of, has_grown, has_lost};
    ghost use Rattle.coord_disk.specs.Model.DiskModel.{seen_through, seen_through_is_model};

    ghost model = { seen_through F.model (λ d. d.file) failures_of };

    ghost laws = { seen_through_is_model F.model (λ d. d.file) failures_of F.laws };

    fn len(&mut self) -> Result<u64, DiskFault>
        ensures call { Measures F.model (file_of self.old) (file_of self.new) result }
        ensures cause { HasCause (failures_of self.old) (failures_of self.new) result }
        ensures lost { has_lost self.new ≡ has_lost self.old }
        ensures made { F.made (file_of self.old) Len (is_ok result) (file_of self.new) }
    {
        let answer = self.file.len();
        counted(&mut self.failed, answer)
    }

    /// Fails if the range ends after the end of the file or after position 2^63 - 1.
    fn read(&mut self, at: u64, buf: &mut [u8]) -> Result<(), DiskFault>
        requires { HasBytes F.model (file_of self.old) at (length buf.old) }
        ensures bound { OnOk result (at + length buf.old < 2 ^ 63) }
        ensures call { Reads F.model at buf.old buf.new (file_of self.old) (file_of self.new) result }
        ensures cause { HasCause (failures_of self.old) (failures_of self.new) result }
        ensures lost { has_lost self.new ≡ has_lost self.old }
        ensures made { at + length buf.old < 2 ^ 63 →
            F.made (file_of self.old) (Read at (length buf.old)) (is_ok result) (file_of self.new) }
    {
        counted(&mut self.failed, end_of(at, buf.len()))?;
        let answer = self.file.read(at, buf);
        counted(&mut self.failed, answer)
    }

    /// Fails if the range ends after position 2^63 - 1.
    fn write_at(&mut self, at: u64, bytes: &[u8]) -> Result<(), DiskFault>
        requires { at + length bytes.now < 2 ^ 64 }
        ensures bound { OnOk result (at + length bytes.now < 2 ^ 63) }
        ensures call { Writes F.model at bytes.now (file_of self.old) (file_of self.new) result }
        ensures cause { HasCause (failures_of self.old) (failures_of self.new) result }
        ensures lost { has_lost self.new ≡ has_lost self.old }
        ensures made { at + length bytes.now < 2 ^ 63 →
            F.made (file_of self.old) (Write at bytes.now) (is_ok result) (file_of self.new) }
    {
        let end = counted(&mut self.failed, end_of(at, bytes.len()))?;
        let grows = !bytes.is_empty() && self.size < end;
        // A failed write may have changed the length too.
        self.grown = self.grown || grows;
        let answer = self.file.write_at(at, bytes);
        counted(&mut self.failed, answer)?;
        if grows {
            self.size = end;
        }
        Ok(())
    }

    /// Also syncs the length if it may have changed. After a failed sync, every later sync fails
    /// without calling the file.
    fn sync(&mut self) -> Result<(), DiskFault>
        ensures ok { OnOk result ((has_lost self.old ≡ false) × (has_lost self.new ≡ false)) }
        ensures err { OnErr result (has_lost self.new ≡ true) }
        ensures call { Syncs F.model (file_of self.old) (file_of self.new) result }
        ensures cause { HasCause (failures_of self.old) (failures_of self.new) result }
        ensures made { has_lost self.old ≡ false →
            F.made (file_of self.old) (if has_grown self.old then SyncAll else SyncData)
            (is_ok result) (file_of self.new) }
        ensures none { has_lost self.old ≡ true → file_of self.new ≡ file_of self.old }
    {
        if self.lost {
            return Err(fail(&mut self.failed));
        }
        // Assume a failure until the sync succeeds: no later sync can make up for a failed one.
        self.lost = true;
        let answer = if self.grown {
            self.file.sync_all()
        } else {
            self.file.sync_data()
        };
        counted(&mut self.failed, answer)?;
        self.grown = false;
        self.lost = false;
        Ok(())
    }
}
