//! Writes that are synced one after another.

ghost use Rattle.std.specs.Prelude.{◌≡◌, ◌+◌, ◌<◌, ◌^◌, true, List, ℕ, length, OnOk};
ghost use Rattle.coord_disk.specs.Model.Present.{whole, overwritten, Torn};
ghost use Rattle.coord_disk.specs.Model.Moments.{LeavesOnly, Runs, failures_of};
ghost use Rattle.coord_journal.specs.Turns.{TornInTurn};

use coord_disk::{Disk, DiskFault};

/// Writes bytes at an offset, and syncs. During the call, a crash may leave anything in the written
/// range.
pub fn write_synced<D: Disk>(disk: &mut D, at: u64, new: &[u8]) -> Result<(), DiskFault>
    requires { at + length new.now < 2 ^ 64 }
    ensures any_moment { (bytes : List ℕ) → D.model.keeps_model disk.old ≡ true →
        D.model.present disk.old ≡ whole bytes →
        LeavesOnly D.model disk.old disk.new (Torn bytes at new.now) }
    ensures done { D.model.keeps_model disk.old ≡ true →
        OnOk result (D.model.present disk.new ≡
        whole (overwritten (D.model.present disk.old).read at new.now)) }
    ensures runs { Runs D.model disk.old disk.new 2 (failures_of result) }
{
    disk.write_at(at, new)?;
    disk.sync()
}

/// Writes and syncs the first bytes; then writes and syncs the second bytes.
pub fn write_in_turn<D: Disk>(
    disk: &mut D,
    at: u64,
    first: &[u8],
    next: u64,
    second: &[u8],
) -> Result<(), DiskFault>
    requires first_in_range { at + length first.now < 2 ^ 64 }
    requires second_in_range { next + length second.now < 2 ^ 64 }

    // The second write begins only once the first bytes are on disk.
    ensures any_moment { (bytes : List ℕ) → D.model.keeps_model disk.old ≡ true →
        D.model.present disk.old ≡ whole bytes →
        LeavesOnly D.model disk.old disk.new (TornInTurn bytes at first.now next second.now) }
    ensures done { D.model.keeps_model disk.old ≡ true →
        OnOk result (D.model.present disk.new ≡ whole
        (overwritten (overwritten (D.model.present disk.old).read at first.now) next second.now)) }
    ensures runs { Runs D.model disk.old disk.new 4 (failures_of result) }
{
    write_synced(disk, at, first)?;
    write_synced(disk, next, second)
}
