//! Migrates the store on a named disk to version 2.

ghost use Rattle.std.specs.Prelude.{◌≡◌, ◌≢◌, ◌+◌, ◌≤◌, true, None, Some, IfErr, IfOk, IsErrOf, MatchResult, OnOk, string_bytes};
ghost use Rattle.coord_commands.specs.Ending.{OutputCutShort, PrintsOne};
ghost use Rattle.coord_commands.specs.Folders.{known_of};
ghost use Rattle.coord_commands.specs.Migrating.{EndsMigrating, EndsRaising, IsMigratedLine, IsOfMigrating, IsOfRaising, Raises, RaisesNamed, RefusesRaising, failures_in_migration};
ghost use Rattle.coord_commands.specs.Printed.{migrated_line};
ghost use Rattle.coord_commands.specs.declared.fault.Fault.TheVariants.{Store as Failed};
ghost use Rattle.coord_disk.specs.Model.Moments.{LeavesOnly};
ghost use Rattle.coord_store.specs.Kept.{GivesEither, IsOnlyWorld, has_stopped};
ghost use Rattle.coord_store.specs.Migrating.{risen};
ghost use Rattle.coord_store.specs.declared.faults.StoreFault.TheVariants.{Device, Stopped};

use crate::fault::Fault;
use crate::folder::Folder;
use crate::lines::print;
use crate::status::report;
use crate::streams::Streams;
use coord_disk::{Disk, Takable};
use coord_store::Store;
use std::alloc::Global;
use std::io::{Read, Write};

/// Migrates the store on the named disk to version 2, prints the store's number of steps, and returns
/// the exit status. A store of version 2 is left unchanged, with the same output. A store with a node
/// in a reset is refused, and left unchanged.
///
/// From the moment when the disk is taken until it is put back, a crash leaves only what a crash could
/// have left before, or the world in one version or the other. `Device` is reported only if the disk is
/// unavailable or its device has failed in between.
pub fn migrate_in<F: Folder, R: Read, W: Write, E: Write>(
    alloc: Global,
    folder: &mut F,
    file: &str,
    streams: &mut Streams<R, W, E>,
) -> u8
    ensures ended { EndsMigrating F.Disk.model (F.holds folder.old file.now)
        (F.holds folder.new file.now) result streams.old.known streams.new.known }
    ensures unread { streams.new.input ≡ streams.old.input }
{
    report(
        migrate_at(alloc, folder, file, &mut streams.output),
        &mut streams.errors,
    )
}

fn migrate_at<F: Folder, W: Write>(
    alloc: Global,
    folder: &mut F,
    file: &str,
    output: &mut W,
) -> Result<(), Fault>
    ensures printed { OnOk result (PrintsOne (λ line.
        IsMigratedLine (F.holds folder.old file.now) (F.holds folder.new file.now) line
        × RaisesNamed F.Disk.model 0 (F.holds folder.old file.now) (F.holds folder.new file.now))
        (W.contents output.old) (W.contents output.new)) }
    ensures fault { IfErr result (λ fault.
        IsOfMigrating (F.holds folder.old file.now) (F.holds folder.new file.now) fault
        × EndsRaising F.Disk.model (F.holds folder.old file.now) (F.holds folder.new file.now) fault) }
    ensures cut { IfErr result (OutputCutShort (λ line.
        IsMigratedLine (F.holds folder.old file.now) (F.holds folder.new file.now) line
        × RaisesNamed F.Disk.model 0 (F.holds folder.old file.now) (F.holds folder.new file.now))
        (W.contents output.old) (W.contents output.new)) }
{
    let line = migrate_named(alloc, folder, file)?;
    print(output, &line)
}

/// Migrates the store on the named disk, puts the disk back, and returns the line to print.
fn migrate_named<F: Folder>(alloc: Global, folder: &mut F, file: &str) -> Result<String, Fault>
    ensures line { IfOk result (λ line. IsMigratedLine (F.holds folder.old file.now)
        (F.holds folder.new file.now) (string_bytes line)) }
    ensures fault { IfErr result (IsOfRaising (F.holds folder.old file.now)
        (F.holds folder.new file.now)) }
    ensures raises { MatchResult result (λ _.
        RaisesNamed F.Disk.model 0 (F.holds folder.old file.now) (F.holds folder.new file.now)) (λ fault.
        EndsRaising F.Disk.model (F.holds folder.old file.now) (F.holds folder.new file.now) fault) }
{
    let disk = folder.open(file)?;
    let (line, disk) = migrate_disk(alloc, disk);
    folder.close(file, disk);
    line
}

/// Migrates the store on a disk, and returns the line to print.
fn migrate_disk<D: Disk + Takable>(alloc: Global, disk: D) -> (Result<String, Fault>, D)
    ensures line { IfOk result.0 (λ line. IsMigratedLine (known_of D.model disk)
        (known_of D.model result.1) (string_bytes line)) }
    ensures fault { IfErr result.0 (IsOfRaising (known_of D.model disk)
        (known_of D.model result.1)) }
    ensures raises { Raises D.model
        (failures_in_migration result.0) disk result.1 }
{
    match Store::open(alloc, disk) {
        Ok(mut store) => {
            let line = migrate_store(alloc, &mut store);
            store.lemma_images_give_world();
            (line, store.into_disk())
        }
        Err((fault, disk)) => (Err(Fault::Store(fault)), disk),
    }
}

/// Migrates an opened store to version 2. Returns the line to print, which has the store's number of
/// steps; the migration does not change that number. The line is made before the store is migrated, so
/// the store is unchanged if memory for the line runs out.
pub fn migrate_store<D: Disk + Takable>(
    alloc: Global,
    store: &mut Store<D>,
) -> Result<String, Fault>
    ensures line { IfOk result (λ line. string_bytes line ≡ migrated_line store.old.world.count) }
    ensures world { OnOk result (store.new.world ≡ risen store.old.world) }
    ensures going { OnOk result (store.new.torn ≡ None) }
    ensures again { store.old.world.version ≡ 2 → store.new ≡ store.old }
    ensures unchanged { IfErr result (λ fault. fault ≢ Failed Device → store.new ≡ store.old) }
    ensures torn { IsErrOf result (Failed Device) → (store.new.world ≡ store.old.world) ×
        (store.new.torn ≡ Some (risen store.old.world)) }
    ensures stopped { IsErrOf result (Failed Stopped) → has_stopped store.old ≡ true }
    ensures fault { IfErr result (RefusesRaising store.old.world) }
    // A crash at any moment of the call leaves bytes that give the world in one version or the other.
    // After a refusal without a device failure, they give the world before the call.
    ensures any_moment { D.model.keeps_model store.old.disk ≡ true → store.old.torn ≡ None
        → LeavesOnly D.model store.old.disk store.new.disk
        (GivesEither store.old.world (risen store.old.world)) }
    ensures any_moment_refused { D.model.keeps_model store.old.disk ≡ true → store.old.torn ≡ None
        → IfErr result (λ fault. fault ≢ Failed Device →
        LeavesOnly D.model store.old.disk store.new.disk
        (IsOnlyWorld store.old.world)) }
    ensures failures { D.model.failures store.new.disk ≡
        D.model.failures store.old.disk + failures_in_migration result }
    ensures calls { D.model.keeps_model store.old.disk ≡ true →
        D.model.clock store.new.disk ≤ D.model.clock store.old.disk + 4 }
    ensures model { D.model.keeps_model store.new.disk ≡ D.model.keeps_model store.old.disk }
{
    store.lemma_images_give_world();
    let count = store.world().count();
    let line = format!(in alloc; "migrated {count}\n")?;
    match store.migrate() {
        Ok(()) => Ok(line),
        Err(fault) => Err(Fault::Store(fault)),
    }
}
