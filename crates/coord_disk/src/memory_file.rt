//! A raw file in memory that a test can crash at will.

ghost use Rattle.std.specs.Prelude.{◌≡◌, ◌<◌, [], true, false, is_ok, Ok, IfOk};
ghost use Rattle.coord_disk.specs.Disks.Memory.{present_of};
ghost use Rattle.coord_disk.specs.Model.Calls.{Crashes};
ghost use Rattle.coord_disk.specs.Model.Present.{whole};

use crate::{Choice, CrashDisk, Disk, DiskFault, MemDisk, RawFile};
use std::alloc::Global;
use std::io;

/// The number of syncs of each kind, each at most the greatest u64.
#[derive(Clone, Copy, Debug, PartialEq, Eq)]
pub struct Syncs {
    /// Syncs of the bytes only.
    pub bytes: u64,
    /// Syncs of the bytes and the length.
    pub all: u64,
    /// Syncs of the folder.
    pub folder: u64,
}

/// A raw file in memory. Each sync makes durable only the bytes that its contract promises. The
/// file counts its syncs, and fails a call if it runs out of memory.
#[derive(Drop)]
pub struct MemFile {
    disk: MemDisk,
    entered: bool,
    syncs: Syncs,
    ghost absent: { entered ≡ false → (present_of disk).synced ≡ [] },
}

impl MemFile {
    ghost use Rattle.coord_disk.specs.Disks.Memory.{CrashesByChoice, choice_of, in_memory};
    ghost use Rattle.coord_disk.specs.Disks.MemoryFile.{disk_of, has_entry, syncs_of};
    ghost use Rattle.coord_disk.specs.declared.choice.Choice.TheVariants.{Lost};

    /// Returns a new, empty file. Its entry in its folder is not synced, and a crash loses unsynced
    /// bytes.
    pub fn new(alloc: Global) -> Self
        ensures present { present_of (disk_of result) ≡ whole [] }
        ensures choice { choice_of (disk_of result) ≡ Lost }
        ensures entry { has_entry result ≡ false }
        ensures syncs { syncs_of result ≡ record { bytes = 0; all = 0; folder = 0 } }
    {
        MemFile {
            disk: MemDisk::new(alloc),
            entered: false,
            syncs: Syncs {
                bytes: 0,
                all: 0,
                folder: 0,
            },
        }
    }

    /// Returns the bytes that a read gives.
    pub fn bytes(&self) -> &[u8]
        ensures { result.now ≡ (present_of (disk_of self.now)).read }
    {
        self.disk.bytes()
    }

    /// Returns the number of syncs of each kind so far.
    pub fn syncs(&self) -> Syncs
        ensures { result ≡ syncs_of self.now }
    {
        self.syncs
    }

    /// Sets the choice of the bytes that the next crash leaves.
    pub fn choose(&mut self, choice: Choice)
        ensures present { present_of (disk_of self.new) ≡ present_of (disk_of self.old) }
        ensures choice { choice_of (disk_of self.new) ≡ choice }
        ensures entry { has_entry self.new ≡ has_entry self.old }
        ensures syncs { syncs_of self.new ≡ syncs_of self.old }
    {
        self.disk.choose(choice);
    }

    /// Crashes the file, which leaves the chosen bytes. If at least one byte is left, the file's
    /// entry in its folder is synced afterwards.
    pub fn crash(self) -> Self
        ensures crashes { CrashesByChoice (disk_of self) (disk_of result) }
        ensures leaves { Crashes in_memory (disk_of self) (disk_of result) }
        ensures entry { has_entry self ≡ true → has_entry result ≡ true }
        ensures syncs { syncs_of result ≡ syncs_of self }
    {
        let disk = self.disk.crash();
        let is_found = !disk.bytes().is_empty();
        MemFile {
            disk,
            entered: self.entered || is_found,
            syncs: self.syncs,
        }
    }
}

/// Returns the result of a call as a result of input and output. A disk in memory fails only if it
/// runs out of memory.
fn io_answer<T>(answer: Result<T, DiskFault>) -> io::Result<T>
    ensures ok { IfOk result (λ value. answer ≡ Ok value) }
    ensures same { is_ok result ≡ is_ok answer }
{
    match answer {
        Ok(value) => Ok(value),
        Err(_) => Err(io::ErrorKind::OutOfMemory.into()),
    }
}

impl RawFile for MemFile {
    ghost use Rattle.coord_disk.specs.Disks.History.{recorded};
    ghost use Rattle.coord_disk.specs.Disks.Memory.{past_of};
    ghost use Rattle.coord_disk.specs.Disks.MemoryFile.{counted, has_entry, syncs_of};
    ghost use Rattle.coord_disk.specs.Disks.MemoryLaws.{reads_image, recorded_is_model};

    ghost model = { recorded (λ f. past_of f.disk) (λ _. 0) };

    ghost is_entered = { has_entry };

    ghost made = { λ old call _ new. syncs_of new ≡ counted call (syncs_of old) };

    ghost laws = { recorded_is_model (λ f. past_of f.disk) (λ _. 0)
        (λ f. reads_image f.disk.read.items f.disk.history f.disk.led) };

    ghost may_be_absent = { λ f _ out. f.absent out };

    fn len(&mut self) -> io::Result<u64> {
        io_answer(self.disk.len())
    }

    fn read(&mut self, at: u64, buf: &mut [u8]) -> io::Result<()> {
        io_answer(self.disk.read(at, buf))
    }

    fn write_at(&mut self, at: u64, bytes: &[u8]) -> io::Result<()> {
        io_answer(self.disk.write_at(at, bytes))
    }

    /// Makes nothing durable if the length or the file's entry in its folder is not synced.
    fn sync_data(&mut self) -> io::Result<()> {
        self.syncs.bytes = self.syncs.bytes.saturating_add(1);
        if !self.entered || !self.disk.is_level() {
            return Ok(());
        }
        io_answer(self.disk.sync())
    }

    /// Makes nothing durable if the file's entry in its folder is not synced.
    fn sync_all(&mut self) -> io::Result<()> {
        self.syncs.all = self.syncs.all.saturating_add(1);
        if !self.entered {
            return Ok(());
        }
        io_answer(self.disk.sync())
    }

    fn sync_folder(&mut self) -> io::Result<()> {
        self.syncs.folder = self.syncs.folder.saturating_add(1);
        self.entered = true;
        Ok(())
    }
}
