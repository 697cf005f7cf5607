//! Rules that decide by the number of the call: which call a disk fails, or after which call all
//! fail.

ghost use Rattle.coord_disk.specs.Disks.Failing.{IsOver};
ghost use Rattle.coord_disk.specs.Disks.Rules.{BlipSays, FuseSays, TearSays, blip_at, fuse_of, tear_at, torn_by};

use crate::Disk;
use crate::failing::{Call, FailingDisk, Rule};

/// Passes some calls, and fails all later ones.
#[derive(Drop)]
pub struct Fuse {
    left: u64,
}

/// Fails one call.
#[derive(Drop)]
pub struct Blip {
    left: Option<u64>,
}

/// Fails one call. If that call is a write, its first bytes are still written.
#[derive(Drop)]
pub struct Tear {
    blip: Blip,
    kept: usize,
}

/// A disk that passes some calls and fails all later ones.
pub type FuseDisk<D> = FailingDisk<D, Fuse>;

/// A disk that fails one call.
pub type BlipDisk<D> = FailingDisk<D, Blip>;

/// A disk that fails one call. If that call is a write, its first bytes are still written.
pub type TornDisk<D> = FailingDisk<D, Tear>;

impl Rule for Fuse {
    ghost says = { FuseSays };

    fn fails(&mut self, _call: Call) -> bool {
        let blown = self.left == 0;
        self.left = self.left.saturating_sub(1);
        blown
    }

    fn tears(&self) -> Option<usize> {
        None
    }
}

impl Rule for Blip {
    ghost says = { BlipSays };

    fn fails(&mut self, _call: Call) -> bool {
        let due = self.left == Some(0);
        self.left = self.left.and_then(|left| left.checked_sub(1));
        due
    }

    fn tears(&self) -> Option<usize> {
        None
    }
}

impl Rule for Tear {
    ghost says = { TearSays };

    ghost torn = { torn_by };

    fn fails(&mut self, call: Call) -> bool {
        self.blip.fails(call)
    }

    fn tears(&self) -> Option<usize> {
        Some(self.kept)
    }
}

impl<D: Disk> FailingDisk<D, Fuse> {
    /// Wraps a disk. The first `passes` calls are passed on; all later ones fail.
    pub fn new(inner: D, passes: u64) -> Self
        ensures { IsOver inner (fuse_of passes) result }
    {
        FailingDisk::over(inner, Fuse { left: passes })
    }
}

impl<D: Disk> FailingDisk<D, Blip> {
    /// Wraps a disk. `fails` is the index of the failing call, counted from 0.
    pub fn new(inner: D, fails: u64) -> Self
        ensures { IsOver inner (blip_at fails) result }
    {
        FailingDisk::over(inner, Blip { left: Some(fails) })
    }
}

impl<D: Disk> FailingDisk<D, Tear> {
    /// Wraps a disk. `fails` is the index of the failing call, counted from 0. If that call is a
    /// write, its first `kept` bytes are still written.
    pub fn new(inner: D, fails: u64, kept: usize) -> Self
        ensures { IsOver inner (tear_at fails kept) result }
    {
        let blip = Blip { left: Some(fails) };
        FailingDisk::over(inner, Tear { blip, kept })
    }
}
