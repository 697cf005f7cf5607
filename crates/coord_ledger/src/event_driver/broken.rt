//! A run that ends early.

ghost use Rattle.std.specs.Prelude.{◌≡◌};

use crate::{Answer, Release, RunFault, RunFaultKind, Trace};
use coord_disk::CrashDisk;

/// The reason why an event was not answered, the releases up to that event, and the disk.
pub struct Broken<D: CrashDisk> {
    pub kind: RunFaultKind,
    pub released: Vec<Release>,
    pub disk: D,
}

impl<D: CrashDisk> Broken<D> {
    /// Returns the fault of a run that ended at the event with index `at` after these answers, and the
    /// disk.
    pub fn at(self, at: usize, answers: Vec<Answer>) -> (RunFault, D)
        ensures at { result.0.at ≡ at }
        ensures answers { result.0.trace.answers.items ≡ answers.items }
        ensures released { result.0.trace.released.items ≡ self.released.items }
        ensures kind { result.0.kind ≡ self.kind }
        ensures disk { result.1 ≡ self.disk }
    {
        let Broken {
            kind,
            released,
            disk,
        } = self;
        let trace = Trace { answers, released };
        (RunFault { at, trace, kind }, disk)
    }
}
