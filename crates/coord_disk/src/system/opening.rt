//! Opens files.

use super::SystemFile;
use std::fs::{File, OpenOptions};
use std::io::ErrorKind;
use std::os::unix::fs::OpenOptionsExt;
use std::path::Path;
use std::rt::Files;
use std::{fs, io};

/// Opens the file and its folder, under a lock that excludes other processes.
pub fn open_locked<R: Files<File = File>>(rt: &R, path: &str) -> io::Result<SystemFile<File>> {
    refuse_other_kinds(rt, path)?;
    let file = match OpenOptions::new().read(true).write(true).open(rt, path) {
        Err(error) if error.kind() == ErrorKind::NotFound => make(rt, path)?,
        opened => opened?,
    };
    file.try_lock()?;
    let folder = open_folder(rt, path)?;
    Ok(SystemFile::over(file, Some(folder)))
}

/// Opens the file read-only. If the file has to be created, opens its folder too.
pub fn open_unlocked<R: Files<File = File>>(rt: &R, path: &str) -> io::Result<SystemFile<File>> {
    refuse_other_kinds(rt, path)?;
    match File::open(rt, path) {
        Err(error) if error.kind() == ErrorKind::NotFound => {
            let file = make(rt, path)?;
            let folder = open_folder(rt, path)?;
            Ok(SystemFile::over(file, Some(folder)))
        }
        opened => Ok(SystemFile::over(opened?, None)),
    }
}

/// Refuses a path that is not a regular file. It checks before opening, because opening a pipe
/// would wait for the pipe's other end.
fn refuse_other_kinds<R: Files<File = File>>(rt: &R, path: &str) -> io::Result<()> {
    match fs::metadata(rt, path) {
        Ok(metadata) if !metadata.is_file() => Err(ErrorKind::InvalidInput.into()),
        _ => Ok(()),
    }
}

/// Creates a new file. It fails if a dangling symbolic link has this name.
fn make<R: Files<File = File>>(rt: &R, path: &str) -> io::Result<File> {
    OpenOptions::new()
        .read(true)
        .write(true)
        .create_new(true)
        .mode(0o600)
        .open(rt, path)
}

fn open_folder<R: Files<File = File>>(rt: &R, path: &str) -> io::Result<File> {
    match Path::new(path).parent() {
        Some(folder) if !folder.as_str().is_empty() => File::open(rt, folder),
        _ => File::open(rt, "."),
    }
}
