//! The faults that end a drill before the end of its input.

use coord_store::StoreFault;
use std::alloc::AllocError;

/// A fault that ends a drill early.
#[derive(Clone, Copy, Debug, PartialEq, Eq)]
pub enum Fault {
    /// The input could not be read.
    Read,
    /// The output could not be written.
    Write,
    /// The end of the input was not reached within `MOST_READS` reads.
    TooManyReads,
    /// The store was not created, not opened after a crash, or not migrated.
    Store(StoreFault),
    /// Memory ran out.
    OutOfMemory,
}

impl From<StoreFault> for Fault {
    ghost use Rattle.std.specs.Prelude.{◌≡◌};
    ghost use Rattle.coord_drill.specs.Faults.{store_fault};

    ghost from_gives = { λ reported fault. fault ≡ store_fault reported };

    fn from(fault: StoreFault) -> Fault {
        match fault {
            StoreFault::OutOfMemory => Fault::OutOfMemory,
            why => Fault::Store(why),
        }
    }
}

impl From<AllocError> for Fault {
    ghost use Rattle.std.specs.Prelude.{◌≡◌};
    ghost use Rattle.coord_drill.specs.declared.fault.Fault.TheVariants.{OutOfMemory};

    ghost from_gives = { λ _ fault. fault ≡ OutOfMemory };

    fn from(_: AllocError) -> Fault {
        Fault::OutOfMemory
    }
}
