//! A disk in memory that a test can crash at will.

ghost use Rattle.std.specs.Prelude.{◌≡◌, ◌↔◌, ◌+◌, ◌<◌, ◌^◌, [], length, Some, None, IsTrue, IfOk, OnOk, OnErr, IsSome};
ghost use Rattle.std.specs.Option.{ForSome};
ghost use Rattle.coord_disk.specs.Model.Calls.{Crashes};
ghost use Rattle.coord_disk.specs.Model.Present.{whole, written_at};
ghost use Rattle.coord_disk.specs.Disks.History.{LedTo, Adds};

use crate::crash::crash_bytes;
use crate::fault::fail;
use crate::history::{History, record_sync, write};
use crate::{Choice, CrashDisk, Disk, DiskFault, Takable};
use http_server::Log;
use std::alloc::{AllocError, Global};

/// A disk in memory. It records its writes and syncs, and fails a call if memory runs out.
#[derive(Drop)]
pub struct MemDisk {
    alloc: Global,
    read: Vec<u8>,
    history: Option<History>,
    choice: Choice,
    failed: Log<u8, u8>,
    ghost led: { ForSome history (λ h. LedTo h read.items) },
}

impl MemDisk {
    ghost use Rattle.coord_disk.specs.Disks.Memory.{CrashesByChoice, in_memory, past_of, present_of, choice_of, failures_of};
    ghost use Rattle.coord_disk.specs.declared.choice.Choice.TheVariants.{Lost};

    /// Returns an empty disk. A crash loses everything that is not synced, until `choose` is
    /// called.
    pub fn new(alloc: Global) -> Self
        ensures present { present_of result ≡ whole [] }
        ensures choice { choice_of result ≡ Lost }
        ensures failures { failures_of result ≡ 0 }
    {
        MemDisk::over(alloc, Vec::new(alloc))
    }

    /// Returns a disk with these bytes, all synced. A crash loses everything that is not synced,
    /// until `choose` is called.
    pub fn from_bytes(alloc: Global, bytes: &[u8]) -> Result<Self, AllocError>
        ensures present { IfOk result (λ disk. present_of disk ≡ whole bytes.now) }
        ensures choice { IfOk result (λ disk. choice_of disk ≡ Lost) }
        ensures failures { IfOk result (λ disk. failures_of disk ≡ 0) }
    {
        Ok(MemDisk::over(alloc, bytes.to_vec(alloc)?))
    }

    fn over(alloc: Global, read: Vec<u8>) -> Self
        ensures present { present_of result ≡ whole read.items }
        ensures choice { choice_of result ≡ Lost }
        ensures failures { failures_of result ≡ 0 }
    {
        MemDisk {
            alloc,
            read,
            history: None,
            choice: Choice::Lost,
            failed: Log::new(),
        }
    }

    /// Returns the bytes that a read gives.
    pub fn bytes(&self) -> &[u8]
        ensures { result.now ≡ (present_of self.now).read }
    {
        self.read.as_slice()
    }

    /// Sets the choice of the bytes that the next crash leaves.
    pub fn choose(&mut self, choice: Choice)
        ensures past { past_of self.new ≡ past_of self.old }
        ensures choice { choice_of self.new ≡ choice }
        ensures failures { failures_of self.new ≡ failures_of self.old }
    {
        self.choice = choice;
    }

    /// Tests whether the length equals the length at the last sync.
    pub(crate) fn is_level(&self) -> bool
        ensures { IsTrue result ↔ (length (present_of self.now).synced ≡
            length (present_of self.now).read) }
    {
        match &self.history {
            Some(history) => history.synced.len() == self.read.len(),
            None => true,
        }
    }

    // Begins to record writes and syncs, unless the disk already records them.
    fn begin(&mut self) -> Result<(), AllocError>
        ensures past { past_of self.new ≡ past_of self.old }
        ensures failures { failures_of self.new ≡ failures_of self.old }
        ensures ok { OnOk result (IsSome self.new.history) }
    {
        if self.history.is_none() {
            self.history = Some(History {
                first: self.read.to_vec(self.alloc)?,
                synced: self.read.to_vec(self.alloc)?,
                entries: Vec::new(self.alloc),
            });
        }
        Ok(())
    }

    fn record_write(&mut self, at: u64, bytes: &[u8]) -> Result<(), AllocError>
        requires { at + length bytes.now < 2 ^ 64 }
        ensures ok { OnOk result (Adds (past_of self.old) (past_of self.new)
            (written_at at bytes.now (present_of self.old))) }
        ensures err { OnErr result (past_of self.new ≡ past_of self.old) }
        ensures failures { failures_of self.new ≡ failures_of self.old }
    {
        self.begin()?;
        match &mut self.history {
            Some(history) => write(self.alloc, &mut self.read, history, at, bytes),
            None => unreachable!(),
        }
    }

    fn record_sync(&mut self) -> Result<(), AllocError>
        ensures ok { OnOk result (Adds (past_of self.old) (past_of self.new)
            (whole (present_of self.old).read)) }
        ensures err { OnErr result (past_of self.new ≡ past_of self.old) }
        ensures failures { failures_of self.new ≡ failures_of self.old }
    {
        self.begin()?;
        match &mut self.history {
            Some(history) => record_sync(&self.read, history),
            None => unreachable!(),
        }
    }

    fn crash_in_place(&mut self)
        ensures leaves { Crashes in_memory self.old self.new }
        ensures left { CrashesByChoice self.old self.new }
    {
        if let Some(history) = self.history.take() {
            crash_bytes(&mut self.read, history, &self.choice);
        }
    }
}

impl Disk for MemDisk {
    ghost use Rattle.std.specs.Prelude.{◌≡◌, ◌+◌, ◌<◌, ◌≤◌, ◌^◌, length, take, drop, Ok, IsOk, OnOk, OnErr};
    ghost use Rattle.coord_disk.specs.Disks.History.{Adds};
    ghost use Rattle.coord_disk.specs.Disks.Memory.{in_memory, past_of, present_of, failures_of};
    ghost use Rattle.coord_disk.specs.Disks.MemoryLaws.{reads_image, recorded_is_model};
    ghost use Rattle.coord_disk.specs.Model.Calls.{HasCause, Syncs, Writes};
    ghost use Rattle.coord_disk.specs.Model.Present.{whole, written_at};

    ghost model = { in_memory };

    ghost laws = { recorded_is_model past_of failures_of
        (λ d. reads_image d.read.items d.history d.led) };

    fn len(&mut self) -> Result<u64, DiskFault>
        ensures value { result ≡ Ok (length (present_of self.old).read) }
        ensures untouched { self.new ≡ self.old }
    {
        Ok(self.read.len() as u64)
    }

    fn read(&mut self, at: u64, buf: &mut [u8]) -> Result<(), DiskFault>
        requires { at + length buf.old ≤ length (present_of self.old).read }
        ensures ok { IsOk result }
        ensures value { buf.new ≡ take (length buf.old) (drop at (present_of self.old).read) }
        ensures untouched { self.new ≡ self.old }
    {
        let at = at as usize;
        buf.copy_from_slice(&self.read[at..at + buf.len()]);
        Ok(())
    }

    /// Fails if memory runs out, and then changes nothing.
    fn write_at(&mut self, at: u64, bytes: &[u8]) -> Result<(), DiskFault>
        requires { at + length bytes.now < 2 ^ 64 }
        ensures ok { OnOk result (Adds (past_of self.old) (past_of self.new)
            (written_at at bytes.now (present_of self.old))) }
        ensures err { OnErr result (past_of self.new ≡ past_of self.old) }
        ensures call { Writes in_memory at bytes.now self.old self.new result }
        ensures cause { HasCause (failures_of self.old) (failures_of self.new) result }
    {
        match self.record_write(at, bytes) {
            Ok(()) => Ok(()),
            Err(_) => Err(fail(&mut self.failed)),
        }
    }

    /// Fails if memory runs out, and then changes nothing.
    fn sync(&mut self) -> Result<(), DiskFault>
        ensures ok { OnOk result (Adds (past_of self.old) (past_of self.new)
            (whole (present_of self.old).read)) }
        ensures err { OnErr result (past_of self.new ≡ past_of self.old) }
        ensures call { Syncs in_memory self.old self.new result }
        ensures cause { HasCause (failures_of self.old) (failures_of self.new) result }
    {
        match self.record_sync() {
            Ok(()) => Ok(()),
            Err(_) => Err(fail(&mut self.failed)),
        }
    }
}

impl Takable for MemDisk {}

impl CrashDisk for MemDisk {
    ghost use Rattle.coord_disk.specs.Disks.Memory.{CrashesByChoice, in_memory};
    ghost use Rattle.coord_disk.specs.Model.Calls.{Crashes};

    ghost crashes = { CrashesByChoice };

    /// Leaves the chosen bytes.
    fn crash(mut self) -> Self
        ensures crashes { CrashesByChoice self result }
        ensures leaves { Crashes in_memory self result }
    {
        self.crash_in_place();
        self
    }
}
