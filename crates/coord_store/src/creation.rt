//! Creates a store.

ghost use Rattle.std.specs.Prelude.{◌≡◌, ◌≢◌, ◌⊎◌, ◌<◌, ◌≤◌, true, None, length, MatchResult, IfOk, IfErr};
ghost use Rattle.coord_codec.specs.Worlds.{world};
ghost use Rattle.coord_disk.specs.Model.Moments.{IsUntouched, Runs};
ghost use Rattle.coord_journal.specs.Text.{IsHalfSize, without_batch};
ghost use Rattle.coord_journal.specs.declared.layout.TheConstants.{MAX_SNAPSHOT};
ghost use Rattle.coord_store.specs.Kept.{IsJustMade, made};
ghost use Rattle.coord_store.specs.Recovered.{Gives};
ghost use Rattle.coord_store.specs.Refused.{IsCreateFault, RefusesCreate, failed_in};
ghost use Rattle.coord_store.specs.declared.faults.StoreFault.TheVariants.{Device, HalfSize, NotEmpty, OutOfMemory};
ghost use Rattle.coord_types.specs.declared.limits.TheConstants.{MAX_VERSIONS};
ghost use Rattle.coord_world.specs.protocol.NumberedWorld.{no_world};
ghost use Rattle.coord_world.specs.protocol.Rows.{rows_of};

use crate::opening::fault_of;
use crate::{Store, StoreFault};
use coord_codec::write_world;
use coord_disk::Disk;
use coord_journal::format;
use coord_types::Version;
use coord_world::World;
use std::alloc::{AllocError, Global};

/// Returns the snapshot of the world before any step.
fn first_snapshot(alloc: Global, version: Version) -> Result<Vec<u8>, AllocError>
    ensures spelled { IfOk result (λ snapshot. snapshot.items ≡
        (world version).text (rows_of (no_world version))) }
    ensures gives { IfOk result (λ snapshot.
        Gives (without_batch version snapshot.items) (no_world version)) }
    ensures short { IfOk result (λ snapshot. length snapshot.items ≤ MAX_SNAPSHOT) }
{
    let world = World::empty(alloc, version);
    world.lemma_in_range();
    match write_world(alloc, &world) {
        Ok(snapshot) => Ok(snapshot),
        Err(fault) => Err(fault),
    }
}

impl<D: Disk> Store<D> {
    /// Creates a store on an empty device: formats the device and opens it, with at most six device
    /// calls. The store's world has no steps.
    ///
    /// `half_size` is from 32,768 to 16,777,216 bytes, and `version` is the version of the world. A
    /// refusal returns the disk. After `Device` nothing is promised about the disk's bytes; after
    /// `OutOfMemory` the store may have been created. `NoMagic` and `BadRecord` are returned only if
    /// the device reads back other bytes than were written to it.
    pub fn create(
        alloc: Global,
        mut disk: D,
        half_size: u64,
        version: u8,
    ) -> Result<Self, (StoreFault, D)>
        requires { (1 ≤ version) × (version ≤ MAX_VERSIONS) }
        ensures empty { D.model.keeps_model disk ≡ true →
            IfOk result (λ store. length (D.model.present disk).read ≡ 0) }
        ensures half_size { IfOk result (λ store. IsHalfSize half_size) }
        ensures bytes { D.model.keeps_model disk ≡ true →
            IfOk result (λ store. D.model.present store.disk ≡ made half_size version) }
        ensures world { IfOk result (λ store. store.world ≡ no_world version) }
        ensures going { IfOk result (λ store. store.torn ≡ None) }
        ensures fault { D.model.keeps_model disk ≡ true →
            IfErr result (λ refused. RefusesCreate (D.model.present disk).read half_size refused.0) }
        ensures named { IfErr result (λ refused. IsCreateFault refused.0) }

        // If the device is refused because it is not empty, or because of the size of a half, it is
        // unchanged.
        ensures unchanged { D.model.keeps_model disk ≡ true →
            IfErr result (λ refused. (refused.0 ≡ NotEmpty) ⊎ (refused.0 ≡ HalfSize) →
            IsUntouched D.model disk refused.1) }
        ensures memory { D.model.keeps_model disk ≡ true →
            IfErr result (λ refused. refused.0 ≡ OutOfMemory → IsUntouched D.model disk refused.1 ⊎
            IsJustMade half_size version (D.model.present refused.1)) }
        ensures taken { D.model.keeps_model disk ≡ true → 0 < length (D.model.present disk).read →
            IfErr result (λ refused. refused.0 ≢ Device → IsUntouched D.model disk refused.1) }
        ensures runs { MatchResult result (λ store. Runs D.model disk store.disk 6 0)
            (λ refused. Runs D.model disk refused.1 6 (failed_in refused.0)) }
    {
        let Some(known) = Version::new(version) else {
            unreachable!()
        };
        let snapshot = match first_snapshot(alloc, known) {
            Ok(snapshot) => snapshot,
            Err(_) => return Err((StoreFault::OutOfMemory, disk)),
        };
        match format(alloc, &mut disk, half_size, version, &snapshot) {
            Ok(()) => {}
            Err(fault) => return Err((fault_of(fault), disk)),
        }
        let mut bytes = Vec::new(alloc);
        match coord_journal::open(alloc, disk, &mut bytes) {
            Ok((journal, _)) => Ok(Store::over(alloc, journal, World::empty(alloc, known))),
            Err((fault, disk)) => Err((fault_of(fault), disk)),
        }
    }
}
