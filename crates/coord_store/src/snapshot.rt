//! Reads the world that a snapshot encodes.

ghost use Rattle.std.specs.Prelude.{◌≡◌, ◌⊎◌, IfOk, IfErr};
ghost use Rattle.coord_journal.specs.Contents.{content_of};
ghost use Rattle.coord_store.specs.Recovered.{HasSnapshot};
ghost use Rattle.coord_store.specs.Refused.{RefusesSnapshot};
ghost use Rattle.coord_store.specs.declared.faults.StoreFault.TheVariants.{OutOfMemory};
ghost use Rattle.coord_world.specs.protocol.Legal.{Legal};

use crate::StoreFault;
use coord_check::check;
use coord_codec::{FaultKind, read_world};
use coord_journal::Contents;
use coord_world::World;
use std::alloc::Global;

/// Returns the legal world that a journal's snapshot encodes.
pub fn read_snapshot(alloc: Global, contents: &Contents<'_>) -> Result<World, StoreFault>
    ensures spelled { IfOk result (HasSnapshot (content_of contents.now)) }
    ensures legal { IfOk result (λ start. Legal start) }
    ensures refused { IfErr result (λ fault. (fault ≡ OutOfMemory) ⊎
        RefusesSnapshot (content_of contents.now) fault) }
{
    let start = match read_world(alloc, contents.version, contents.snapshot) {
        Ok(start) => start,
        Err(fault) if fault.kind == FaultKind::OutOfMemory => return Err(StoreFault::OutOfMemory),
        Err(_) => return Err(StoreFault::BadSnapshot),
    };
    match check(&start) {
        None => Ok(start),
        Some(violation) => Err(StoreFault::Violated(violation)),
    }
}
