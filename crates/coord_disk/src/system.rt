//! A file of the operating system.

ghost use Rattle.std.specs.Prelude.{◌≡◌, false, IfOk};
ghost use Rattle.coord_disk.specs.Disks.Raw.{failures_of, has_lost};

mod opening;

use crate::{DiskFault, RawDisk, RawFile};
use std::fs::{File, OpenFile};
use std::io;
use std::os::unix::fs::FileExt;
use std::rt::Files;

/// A file of the operating system, and its folder. Each call makes one system call, or several
/// until all bytes are read or written.
///
/// It claims no model: that a file keeps one is a premise.
#[derive(Drop)]
pub struct SystemFile<F> {
    file: F,
    /// The folder, or None if there is no entry to sync.
    folder: Option<F>,
}

/// A disk over a file of the operating system.
pub type FileDisk = RawDisk<SystemFile<File>>;

impl<F: OpenFile + FileExt + Drop> SystemFile<F> {
    /// Wraps an open file, with its folder if the file's entry in the folder has to be synced.
    pub fn over(file: F, folder: Option<F>) -> Self
        ensures file { result.file ≡ file }
        ensures folder { result.folder ≡ folder }
    {
        SystemFile { file, folder }
    }

    /// Returns the file and its folder.
    pub fn into_parts(self) -> (F, Option<F>)
        ensures { result ≡ (self.file, self.folder) }
    {
        (self.file, self.folder)
    }
}

impl RawDisk<SystemFile<File>> {
    /// Opens a file for reading and writing. If the file does not exist, creates an empty file that
    /// only its owner may read and write. Syncs the file's entry in its folder.
    ///
    /// The file is locked, before any of it is read, until the disk is dropped. The call fails if
    /// another process holds the lock, or if the path does not name a regular file.
    pub fn open<R: Files<File = File>>(rt: &R, path: &str) -> Result<FileDisk, DiskFault>
        ensures failures { IfOk result (λ disk. failures_of disk ≡ 0) }
        ensures whole { IfOk result (λ disk. has_lost disk ≡ false) }
    {
        match opening::open_locked(rt, path) {
            Ok(file) => RawDisk::over(file),
            Err(_) => Err(DiskFault),
        }
    }

    /// Opens a file read-only, without a lock: writes fail. If the file does not exist, creates an
    /// empty file, like `open`.
    pub fn open_to_read<R: Files<File = File>>(rt: &R, path: &str) -> Result<FileDisk, DiskFault>
        ensures failures { IfOk result (λ disk. failures_of disk ≡ 0) }
        ensures whole { IfOk result (λ disk. has_lost disk ≡ false) }
    {
        match opening::open_unlocked(rt, path) {
            Ok(file) => RawDisk::over(file),
            Err(_) => Err(DiskFault),
        }
    }
}

impl<F: OpenFile + FileExt + Drop> RawFile for SystemFile<F> {
    ghost use Rattle.coord_disk.specs.Disks.System.{claims_nothing, no_model, no_model_is_model};

    ghost model = { no_model };

    ghost is_entered = { λ _. false };

    ghost made = { λ _ _ _ _. Unit {0} };

    ghost laws = { no_model_is_model };

    ghost may_be_absent = { λ _ claim _. claims_nothing claim };

    fn len(&mut self) -> io::Result<u64> {
        Ok(self.file.metadata()?.len())
    }

    fn read(&mut self, at: u64, buf: &mut [u8]) -> io::Result<()> {
        self.file.read_exact_at(buf, at)
    }

    fn write_at(&mut self, at: u64, bytes: &[u8]) -> io::Result<()> {
        self.file.write_all_at(bytes, at)
    }

    fn sync_data(&mut self) -> io::Result<()> {
        self.file.sync_data()
    }

    fn sync_all(&mut self) -> io::Result<()> {
        self.file.sync_all()
    }

    fn sync_folder(&mut self) -> io::Result<()> {
        match &self.folder {
            Some(folder) => folder.sync_all(),
            None => Ok(()),
        }
    }
}
