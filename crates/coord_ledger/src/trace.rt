//! The result of a run of events.

ghost use Rattle.std.specs.Prelude.{◌≡◌};
ghost use Rattle.coord_ledger.specs.promises.Faults.{run_fault_number};

use crate::events::Answer;
use crate::release::Release;
use coord_store::StoreFault;

/// One answer to each event, and all releases, in order.
#[derive(Drop)]
pub struct Trace {
    pub answers: Vec<Answer>,
    pub released: Vec<Release>,
}

/// The reason why a run ended early.
#[derive(Clone, Copy, Debug, PartialEq, Eq)]
pub enum RunFaultKind {
    /// Memory ran out: for the list of answers at the beginning of the run; for the list of tickets or
    /// of releases, in `Submit`, `Finish` or `Resend`; for the ledger after a crash; or for the
    /// releases of the last flight, when it was taken back.
    OutOfMemory,
    /// The store was not opened after a crash.
    Store(StoreFault),
}

impl RunFaultKind {
    /// Returns the number of the kind: 1 for `OutOfMemory`, 2 for `Store`.
    pub fn number(self) -> u8
        ensures { result ≡ run_fault_number self }
    {
        match self {
            RunFaultKind::OutOfMemory => 1,
            RunFaultKind::Store(_) => 2,
        }
    }
}

/// A run that ended early. `at` is the index of the event at which the run ended, or the number of
/// events if the last flight could not be taken back. `trace` has the answers and releases up to
/// then. The ledger is dropped.
#[derive(Drop)]
pub struct RunFault {
    pub at: usize,
    pub trace: Trace,
    pub kind: RunFaultKind,
}
