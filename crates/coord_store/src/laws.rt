//! Laws of the world that bytes give, each stated by the contract of an empty function.

ghost use Rattle.std.specs.Prelude.{◌≡◌};
ghost use Rattle.coord_journal.specs.declared.layout.TheConstants.{MAX_BODY, MAX_SNAPSHOT};
ghost use Rattle.coord_store.specs.Laws.{RecoveredIsOne, RecoveredIsOpened};
ghost use Rattle.coord_types.specs.declared.limits.TheConstants.{MAX_BATCH_BYTES, MAX_SNAPSHOT_BYTES};

/// Bytes give at most one world.
pub fn recovered_is_one()
    ensures { RecoveredIsOne }
{}

/// A device whose bytes give a world is refused only if memory runs out or the device fails.
pub fn recovered_is_opened()
    ensures { RecoveredIsOpened }
{}

/// A journal has room for everything that a store writes: the journal's limit for a body is the
/// length of the longest batch, and its limit for a snapshot is the length of the longest world.
pub fn limits_are_the_same()
    ensures body { MAX_BODY ≡ MAX_BATCH_BYTES }
    ensures snapshot { MAX_SNAPSHOT ≡ MAX_SNAPSHOT_BYTES }
{}
