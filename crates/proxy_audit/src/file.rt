//! The file that the audit is written to.

ghost use Rattle.std.specs.Prelude.{◌≡◌, ◌++◌, [], true, ℕ, List, IfOk, OnErr, string_bytes};

use crate::pending::Pending;
use std::fs::{File, Files, Metadata, OpenOptions};
use std::io::ErrorKind;
use std::os::unix::fs::{MetadataExt, OpenOptionsExt};
use std::{fs, io};

/// The open file that the audit is written to, and its path. The file's group may read it.
#[derive(Drop)]
pub struct AuditFile {
    path: String,
    file: File,
    place: (u64, u64),
}

impl AuditFile {
    /// Opens the file at this path for appending, and creates the file if there is none. Errors: the path is a symbolic
    /// link, or the file can't be opened.
    pub fn open<R: Files<File = File>>(rt: &R, path: String) -> io::Result<Self>
        ensures path { IfOk result (λ opened. opened.path ≡ path) }
    {
        let file = open_to_append(rt, path.as_str())?;
        let place = place_of(&file.metadata()?);
        Ok(AuditFile { path, file, place })
    }

    /// Reopens the file if its path names another file, or none. On an error, the old file stays open.
    pub fn follow<R: Files<File = File>>(&mut self, rt: &R) -> io::Result<()>
        ensures path { self.new.path ≡ self.old.path }
        ensures err { OnErr result (self.new ≡ self.old) }
    {
        if let Ok(found) = fs::metadata(rt, self.path.as_str()) {
            if place_of(&found) == self.place {
                return Ok(());
            }
        }
        let file = open_to_append(rt, self.path.as_str())?;
        self.place = place_of(&file.metadata()?);
        self.file = file;
        Ok(())
    }

    /// Writes the pending lines to the open file. Returns whether all of them were written.
    pub fn write(&mut self, pending: &mut Pending) -> bool
        ensures path { self.new.path ≡ self.old.path }
        ensures rest { (part : List ℕ) × (pending.old.unwritten ≡ part ++ pending.new.unwritten) }
        ensures whole { result ≡ true → pending.new.unwritten ≡ [] }
        ensures lost { pending.new.lost ≡ pending.old.lost }
    {
        pending.write(&mut self.file)
    }

    /// Returns the file's path.
    pub fn path(&self) -> &str
        ensures { result.now ≡ string_bytes self.now.path }
    {
        self.path.as_str()
    }
}

/// Returns a file's device and inode numbers, which identify it.
fn place_of(found: &Metadata) -> (u64, u64) {
    (found.dev(), found.ino())
}

fn open_to_append<R: Files<File = File>>(rt: &R, path: &str) -> io::Result<File> {
    if let Ok(found) = fs::symlink_metadata(rt, path) {
        if found.file_type().is_symlink() {
            return Err(ErrorKind::InvalidInput.into());
        }
    }
    let mut options = OpenOptions::new();
    options.append(true).create(true).mode(0o640);
    options.open(rt, path)
}
