//! Formats a device as a journal.

ghost use Rattle.std.specs.Prelude.{◌≡◌, ◌≢◌, ◌<◌, ◌≤◌, true, length, IfErr, OnOk};
ghost use Rattle.coord_disk.specs.Model.Present.{whole};
ghost use Rattle.coord_disk.specs.Model.Moments.{IsUntouched, Runs};
ghost use Rattle.coord_journal.specs.Faults.{IsFormatFault, RefusesFormat, failures_in};
ghost use Rattle.coord_journal.specs.declared.layout.TheConstants.{MAX_SNAPSHOT};
ghost use Rattle.coord_journal.specs.Text.{IsText, IsHalfSize, formatted, without_batch};
ghost use Rattle.coord_journal.specs.declared.fault.JournalFault.TheVariants.{Device};

use crate::JournalFault;
use crate::layout::{MAX_HALF, MIN_HALF};
use crate::spelling::spell_device;
use crate::synced::write_synced;
use coord_disk::Disk;
use std::alloc::Global;

/// Formats an empty device: writes a journal with this version and snapshot, and no batch.
///
/// `half_size` is the size of a half in bytes, from 32,768 to 16,777,216. After `Device`, the bytes
/// of the device are unspecified.
pub fn format<D: Disk>(
    alloc: Global,
    disk: &mut D,
    half_size: u64,
    version: u8,
    snapshot: &[u8],
) -> Result<(), JournalFault>
    requires { length snapshot.now ≤ MAX_SNAPSHOT }
    ensures empty { D.model.keeps_model disk.old ≡ true →
        OnOk result (length (D.model.present disk.old).read ≡ 0) }
    ensures half_size { OnOk result (IsHalfSize half_size) }
    ensures bytes { D.model.keeps_model disk.old ≡ true →
        OnOk result (D.model.present disk.new ≡ whole (formatted half_size version snapshot.now)) }
    ensures text { D.model.keeps_model disk.old ≡ true →
        OnOk result (IsText (without_batch version snapshot.now) (D.model.present disk.new).read) }
    ensures fault { D.model.keeps_model disk.old ≡ true →
        IfErr result (RefusesFormat (D.model.present disk.old).read half_size) }
    ensures unchanged { D.model.keeps_model disk.old ≡ true → IfErr result (λ fault. fault ≢ Device →
        IsUntouched D.model disk.old disk.new) }
    ensures named { IfErr result IsFormatFault }
    ensures runs { Runs D.model disk.old disk.new 3 (failures_in result) }
{
    if disk.len()? != 0 {
        return Err(JournalFault::NotEmpty);
    }
    if half_size < MIN_HALF || MAX_HALF < half_size {
        return Err(JournalFault::HalfSize);
    }
    let bytes = spell_device(alloc, half_size, version, snapshot)?;
    write_synced(disk, 0, &bytes)?;
    Ok(())
}
