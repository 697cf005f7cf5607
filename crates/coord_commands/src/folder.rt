//! Folders of named disks and texts.

ghost use Rattle.std.specs.Prelude.{◌≡◌, Option, List, ℕ, Some, None, IfErr, IfOk, IfSome};
ghost use Rattle.coord_commands.specs.Folders.{bytes_of, known_of, reads};
ghost use Rattle.coord_disk.specs.Model.Present.{Present};

use coord_disk::{Disk, DiskFault, FileDisk, Takable};
use std::fs::File;
use std::io;
use std::io::Read;
use std::rt::Files;

/// A folder of named disks and texts. `holds` is the content of a named disk, and `says` the bytes of a
/// named text, each if it is known. The contents of real files are unknown, and the contents of disks
/// in memory are known.
pub trait Folder {
    /// A named disk.
    type Disk: Disk + Send + Takable;

    /// A named text, read whole.
    type Text: Read + Drop;

    ghost holds: { Self → List ℕ → Option Present };

    ghost says: { Self → List ℕ → Option (List ℕ) };

    /// Opens the named disk for reading only.
    fn open_to_read(&self, name: &str) -> Result<Self::Disk, DiskFault>
        ensures { IfOk result (λ disk. bytes_of Self.Disk.model disk ≡
            reads (holds self.now name.now)) };

    /// Takes the named disk, for reading and writing. Nobody else can take it until it is put back.
    fn open(&mut self, name: &str) -> Result<Self::Disk, DiskFault>
        ensures taken { IfOk result (λ disk. known_of Self.Disk.model disk ≡
            holds self.old name.now) }
        ensures refused { IfErr result (λ _. holds self.new name.now ≡ holds self.old name.now) };

    /// Puts the named disk back.
    fn close(&mut self, name: &str, disk: Self::Disk)
        ensures { IfSome (holds self.new name.now) (λ known.
            known_of Self.Disk.model disk ≡ Some known) };

    /// Opens the named text.
    fn read(&self, name: &str) -> io::Result<Self::Text>
        ensures { IfOk result (λ text. Self.Text.remaining text ≡ says self.now name.now) };
}

/// The files of the system, by their paths. Their contents are unknown to contracts.
#[derive(Drop)]
pub struct FileFolder<'a, S> {
    rt: &'a S,
}

impl<'a, S: Files<File = File>> FileFolder<'a, S> {
    /// Returns the folder of all files that the process may open.
    pub fn new(rt: &'a S) -> Self
        ensures { result.rt.now ≡ rt.now }
    {
        FileFolder { rt }
    }
}

impl<S: Files<File = File>> Folder for FileFolder<'_, S> {
    type Disk = FileDisk;

    type Text = File;

    ghost holds = { λ _ _. None };

    ghost says = { λ _ _. None };

    fn open_to_read(&self, name: &str) -> Result<FileDisk, DiskFault> {
        FileDisk::open_to_read(self.rt, name)
    }

    /// Opens the file, and locks it until the disk is dropped.
    fn open(&mut self, name: &str) -> Result<FileDisk, DiskFault> {
        FileDisk::open(self.rt, name)
    }

    fn close(&mut self, _name: &str, disk: FileDisk) {
        drop(disk);
    }

    fn read(&self, name: &str) -> io::Result<File> {
        File::open(self.rt, name)
    }
}
