//! A disk whose syncs wait at a gate.

ghost use Rattle.coord_disk.specs.Disks.Failing.{IsOver};
ghost use Rattle.coord_disk.specs.Disks.Gate.{GateSays, gate_of};

use crate::Disk;
use crate::failing::{Call, FailingDisk, Rule};
use std::sync::Arc;
use std::sync::atomic::{AtomicBool, Ordering};

/// The number of times that a sync checks whether the gate is open.
const LOOKS: u64 = 100_000_000;

/// A rule that holds each sync until another thread opens the gate.
#[derive(Drop)]
pub struct Gate {
    entered: Arc<AtomicBool>,
    answered: Arc<AtomicBool>,
}

/// A disk whose syncs wait until another thread opens a gate.
pub type GateDisk<D> = FailingDisk<D, Gate>;

impl Gate {
    // Signals that a sync has reached the gate, and waits for the gate to open. Returns whether
    // the gate opened.
    fn opens(&self) -> bool {
        self.entered.store(true, Ordering::SeqCst);
        for _ in 0..LOOKS {
            if self.answered.load(Ordering::SeqCst) {
                return true;
            }
        }
        false
    }
}

impl Rule for Gate {
    ghost says = { GateSays };

    fn fails(&mut self, call: Call) -> bool {
        match call {
            Call::Sync => !self.opens(),
            Call::Len | Call::Read | Call::Write => false,
        }
    }

    fn tears(&self) -> Option<usize> {
        None
    }
}

impl<D: Disk> FailingDisk<D, Gate> {
    /// Wraps a disk. Each sync sets the first flag and then reads the second flag up to 100,000,000
    /// times. Once the second flag is set, the sync is passed on; if it stays clear, the sync
    /// fails.
    pub fn new(inner: D, entered: Arc<AtomicBool>, answered: Arc<AtomicBool>) -> Self
        ensures { IsOver inner (gate_of entered answered) result }
    {
        FailingDisk::over(inner, Gate { entered, answered })
    }
}
