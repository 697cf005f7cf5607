//! The starts of a store, one after the other, with a power cut after each.

ghost use Rattle.std.specs.Prelude.{◌≡◌, ◌⊎◌, ◌≤◌, true, IfErr, IfOk, None};
ghost use Rattle.coord_disk.specs.Model.Present.{whole};
ghost use Rattle.coord_starts.specs.Runs.{HasRun, IsOneRun, StartsOnce};
ghost use Rattle.coord_starts.specs.declared.starts.Task.TheVariants.{Migrate};
ghost use Rattle.coord_store.specs.Recovered.{Recovered};
ghost use Rattle.coord_store.specs.Refused.{IsPassing, RefusesCreate};
ghost use Rattle.coord_types.specs.declared.limits.TheConstants.{MAX_VERSIONS};
ghost use Rattle.coord_world.specs.protocol.NumberedWorld.{World as Numbered};

use crate::serving::serve;
use coord_disk::{CrashDisk, Disk};
use coord_ledger::{Event, Trace};
use coord_store::{Store, StoreFault};
use std::alloc::Global;

/// What a start does with the store.
#[derive(Drop)]
pub enum Task {
    /// A ledger over the store receives these events.
    Serve(Vec<Event>),
    /// The store is migrated to version 2.
    Migrate,
}

/// The result of a start.
#[derive(Drop)]
pub enum Outcome {
    /// The answers to the events, and all releases.
    Served(Trace),
    /// The store was migrated, or already had version 2.
    Raised,
    /// The store was not migrated. After a failure of the device it may have been migrated
    /// nevertheless.
    Refused(StoreFault),
}

/// Migrates an opened store, and then cuts the power.
fn migrate<D: CrashDisk>(mut store: Store<D>) -> (Outcome, D)
    requires going { store.torn ≡ None }
    ensures once { D.model.keeps_model store.disk ≡ true →
        StartsOnce store.world Migrate result.0 (D.model.present result.1).read }
    ensures cut { D.model.keeps_model store.disk ≡ true →
        D.model.present result.1 ≡ whole (D.model.present result.1).read }
    ensures model { D.model.keeps_model result.1 ≡ D.model.keeps_model store.disk }
{
    let outcome = match store.migrate() {
        Ok(()) => Outcome::Raised,
        Err(fault) => Outcome::Refused(fault),
    };
    store.lemma_images_give_world();
    (outcome, store.into_disk().crash())
}

/// Opens the store on a disk, carries out a task, and then cuts the power.
fn start<D: CrashDisk>(alloc: Global, disk: D, task: &Task) -> Result<(Outcome, D), (StoreFault, D)>
    ensures once { (w : Numbered) → D.model.keeps_model disk ≡ true →
        Recovered (D.model.present disk).read w → IfOk result (λ r.
        StartsOnce w task.now r.0 (D.model.present r.1).read) }
    ensures cut { D.model.keeps_model disk ≡ true → IfOk result (λ r.
        D.model.present r.1 ≡ whole (D.model.present r.1).read) }
    ensures model { IfOk result (λ r. D.model.keeps_model r.1 ≡ D.model.keeps_model disk) }
    ensures fault { (w : Numbered) → D.model.keeps_model disk ≡ true →
        Recovered (D.model.present disk).read w → IfErr result (λ r. IsPassing r.0) }
{
    let store = match Store::open(alloc, disk) {
        Ok(store) => store,
        Err(refused) => return Err(refused),
    };
    match task {
        Task::Serve(events) => match serve(alloc, store, events) {
            Ok((trace, disk)) => Ok((Outcome::Served(trace), disk)),
            Err(refused) => Err(refused),
        },
        Task::Migrate => Ok(migrate(store)),
    }
}

/// Makes a store on an empty disk, and runs one start for each task. After each start the power is
/// cut, and the next start opens what the crash has left.
///
/// The main theorem: all starts together are one history (`IsHistoryOfStarts`), and the disk holds
/// the world after this history. A fault ends the starts: the store was not made, memory ran out,
/// or the device failed.
pub fn run_starts<D: CrashDisk>(
    alloc: Global,
    disk: D,
    half_size: u64,
    version: u8,
    tasks: &[Task],
) -> Result<(Vec<Outcome>, D), (StoreFault, D)>
    requires { (1 ≤ version) × (version ≤ MAX_VERSIONS) }
    ensures one { D.model.keeps_model disk ≡ true → IfOk result (λ r.
        IsOneRun version tasks.now r.0.items (D.model.present r.1).read) }
    ensures cut { D.model.keeps_model disk ≡ true → IfOk result (λ r.
        D.model.present r.1 ≡ whole (D.model.present r.1).read) }
    ensures fault { D.model.keeps_model disk ≡ true → IfErr result (λ r.
        RefusesCreate (D.model.present disk).read half_size r.0 ⊎ IsPassing r.0) }
    ensures model { IfOk result (λ r. D.model.keeps_model r.1 ≡ D.model.keeps_model disk) }
{
    let mut left = match Store::create(alloc, disk, half_size, version) {
        Ok(store) => store.into_disk(),
        Err(refused) => return Err(refused),
    };
    let mut outcomes = Vec::new(alloc);
    if outcomes.reserve(tasks.len()).is_err() {
        return Err((StoreFault::OutOfMemory, left));
    }
    for task in tasks {
        match start(alloc, left, task) {
            Ok((outcome, next)) => {
                outcomes.push_reserved(outcome);
                left = next;
            }
            Err(refused) => {
                drop(outcomes);
                return Err(refused);
            }
        }
    }
    Ok((outcomes, left))
}
