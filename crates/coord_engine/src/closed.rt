//! The state of an engine that was taken apart.

ghost use Rattle.std.specs.Prelude.{◌≡◌, ◌↔◌, IsTrue, Some};
ghost use Rattle.coord_engine.specs.Closing.{fault_name, fault_number};
ghost use Rattle.coord_engine.specs.Named.{IsAmong};

use crate::LogAuthority;
use coord_disk::Disk;
use coord_ledger::{Note, is_same_step};
use coord_store::Store;
use coord_types::Step;
use coord_world::World;
use std::error::Error;
use std::fmt;

/// The reason why an engine was not closed.
#[derive(Clone, Copy, Debug, PartialEq, Eq, Drop)]
pub enum CloseFault {
    /// A flight is out. No call of this crate leaves a flight out when it returns.
    FlightOut,
    /// At least one share was not returned.
    SharesMissing,
    /// The shares' notes differ from the steps accepted since the engine was created.
    NotNamed,
    /// Callers have seen a step as settled that is not settled.
    NotSettled,
}

impl CloseFault {
    /// Returns the fault's number, from 1 to 4.
    pub fn number(self) -> u8
        ensures { result ≡ fault_number self }
    {
        self as u8 + 1
    }
}

impl fmt::Display for CloseFault {
    ghost output = { λ fault. Some (fault_name fault) };

    fn fmt<W: fmt::Write>(&self, f: &mut fmt::Formatter<W>) -> fmt::Result {
        f.write_str(match self {
            CloseFault::FlightOut => "FlightOut",
            CloseFault::SharesMissing => "SharesMissing",
            CloseFault::NotNamed => "NotNamed",
            CloseFault::NotSettled => "NotSettled",
        })
    }
}

impl Error for CloseFault {}

/// The parts of a closed engine: its store, its base world, the steps accepted since, and the settled
/// count.
#[derive(Drop)]
pub struct Closed<D: Disk> {
    pub store: Store<D>,
    pub base: World,
    pub trail: Vec<Step>,
    pub settled: u64,
}

/// The parts of an engine that was taken apart whether or not it could be closed, with the
/// authority of its history. If it could not be closed, `refused` has the reason, and it is unknown
/// which caller submitted which step.
#[derive(Drop)]
pub struct Retired<D: Disk> {
    pub closed: Closed<D>,
    pub writer: LogAuthority,
    pub refused: Option<CloseFault>,
}

/// Tests whether the note's step is among the steps, at the place of the note's number. The steps
/// follow `base` other steps.
fn is_among(base: u64, steps: &[Step], note: &Note) -> bool
    ensures { IsTrue result ↔ IsAmong base steps.now note.now }
{
    if note.step <= base {
        return false;
    }
    let place = note.step - base - 1;
    if place >= steps.len() as u64 {
        return false;
    }
    is_same_step(&steps[place as usize], &note.what)
}

impl<D: Disk> Closed<D> {
    /// Tests whether the trail has the note's step under the note's number.
    pub fn names(&self, note: &Note) -> bool
        ensures { IsTrue result ↔ IsAmong self.now.base.count self.now.trail.items note.now }
    {
        is_among(self.base.count(), &self.trail, note)
    }
}
