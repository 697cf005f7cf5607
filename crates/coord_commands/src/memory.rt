//! A folder in memory: a named disk, and named texts.

ghost use Rattle.std.specs.Prelude.{◌≡◌, None, bytes_eq, if◌then◌else◌, option_map, string_bytes};
ghost use Rattle.std.specs.Option.{option_copied};
ghost use Rattle.coord_commands.specs.Folders.{text_under};
ghost use Rattle.coord_disk.specs.Disks.Memory.{present_of};

use crate::folder::Folder;
use coord_disk::{DiskFault, MemDisk};
use std::alloc::Global;
use std::io;
use std::io::Cursor;

/// A text with its name.
#[derive(Drop)]
pub struct Named {
    pub name: String,
    pub bytes: Vec<u8>,
}

/// A folder with one named disk in memory, and texts, whose contents are all known. While the disk is
/// taken, it is absent. A disk with another name can't be opened.
#[derive(Drop)]
pub struct MemFolder {
    pub alloc: Global,
    /// The name of the disk.
    pub name: String,
    pub disk: Option<MemDisk>,
    pub texts: Vec<Named>,
}

/// Returns the bytes of the first text with this name.
fn text_at<'a>(texts: &'a [Named], name: &str) -> Option<&'a [u8]>
    ensures { option_copied result ≡ text_under texts.now name.now }
{
    match texts {
        [] => None,
        [first, rest @ ..] => {
            if first.name.as_str() == name {
                Some(&first.bytes)
            } else {
                text_at(rest, name)
            }
        }
    }
}

impl Folder for MemFolder {
    type Disk = MemDisk;

    type Text = Cursor<Vec<u8>>;

    ghost holds = { λ folder name.
        if bytes_eq (string_bytes folder.name) name then option_map present_of folder.disk else
        None };

    ghost says = { λ folder. text_under folder.texts.items };

    /// Opens a copy of the disk. A crash of the copy leaves only the synced bytes.
    fn open_to_read(&self, name: &str) -> Result<MemDisk, DiskFault> {
        if self.name.as_str() != name {
            return Err(DiskFault);
        }
        match &self.disk {
            Some(disk) => MemDisk::from_bytes(self.alloc, disk.bytes()).map_err(|_| DiskFault),
            None => Err(DiskFault),
        }
    }

    fn open(&mut self, name: &str) -> Result<MemDisk, DiskFault> {
        if self.name.as_str() != name {
            return Err(DiskFault);
        }
        self.disk.take().ok_or(DiskFault)
    }

    /// Puts the disk back, or drops it if the folder's disk has another name.
    fn close(&mut self, name: &str, disk: MemDisk) {
        if self.name.as_str() == name {
            self.disk = Some(disk);
        }
    }

    fn read(&self, name: &str) -> io::Result<Cursor<Vec<u8>>> {
        match text_at(&self.texts, name) {
            Some(bytes) => Ok(Cursor::new(bytes.to_vec(self.alloc)?)),
            None => Err(io::ErrorKind::NotFound.into()),
        }
    }
}
