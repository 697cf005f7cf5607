//! Reads a disk to open a journal. First a sync makes durable whatever an earlier fault left
//! undecided.

ghost use Rattle.std.specs.Prelude.{◌≡◌, ◌≢◌, ◌⊎◌, true, IfOk, IfErr, OnOk};
ghost use Rattle.coord_disk.specs.Model.Present.{whole};
ghost use Rattle.coord_disk.specs.Model.Moments.{AddsNothing, Runs};
ghost use Rattle.coord_journal.specs.Faults.{failures_in};
ghost use Rattle.coord_journal.specs.declared.fault.JournalFault.TheVariants.{OutOfMemory, Device};

use crate::JournalFault;
use coord_disk::Disk;
use std::alloc::Global;

/// Syncs the disk and then returns all its bytes, which are durable at that point. A crash during
/// the call leaves only bytes that a crash before the call could have left.
pub fn read_durable<D: Disk>(alloc: Global, disk: &mut D) -> Result<Vec<u8>, JournalFault>
    ensures bytes { D.model.keeps_model disk.old ≡ true →
        IfOk result (λ bytes. bytes.items ≡ (D.model.present disk.old).read) }
    ensures durable { D.model.keeps_model disk.old ≡ true →
        OnOk result (D.model.present disk.new ≡ whole (D.model.present disk.old).read) }
    ensures unchanged { D.model.keeps_model disk.old ≡ true → IfErr result (λ fault. fault ≢ Device →
        D.model.present disk.new ≡ whole (D.model.present disk.old).read) }
    ensures fault { IfErr result (λ fault. (fault ≡ OutOfMemory) ⊎ (fault ≡ Device)) }
    ensures any_moment { AddsNothing D.model disk.old disk.new }
    ensures runs { Runs D.model disk.old disk.new 3 (failures_in result) }
{
    disk.sync()?;
    let size = disk.len()?;
    let mut bytes = Vec::new(alloc);
    bytes.resize(size as usize, 0)?;
    disk.read(0, &mut bytes)?;
    Ok(bytes)
}
