//! Writes a commit: appends the batch. If the body of the batch does not fit, first replaces the
//! journal's content by a snapshot of the old world.

ghost use Rattle.std.specs.Prelude.{◌≡◌, ◌≢◌, ◌+◌, ◌≤◌, true, false, List, length, OnOk, IfErr};
ghost use Rattle.coord_journal.specs.Faults.{IsWriteFault};
ghost use Rattle.coord_journal.specs.Journal.{HasRoomFor, disk_of, half_of, has_stopped};
ghost use Rattle.coord_journal.specs.declared.layout.TheConstants.{MAX_BODY};
ghost use Rattle.coord_store.specs.Faults.{commit_fault_of};
ghost use Rattle.coord_store.specs.Kept.{Holds};
ghost use Rattle.coord_store.specs.Recovered.{Takes};
ghost use Rattle.coord_store.specs.Writing.{Ends, Follows, Stays};
ghost use Rattle.coord_store.specs.declared.faults.CommitFault.TheVariants.{Device};
ghost use Rattle.coord_types.specs.declared.steps.Step.{Step as Taken};
ghost use Rattle.coord_world.specs.protocol.Legal.{Legal};
ghost use Rattle.coord_world.specs.protocol.Next.{fold};
ghost use Rattle.coord_world.specs.protocol.NumberedWorld.{World as Numbered};

use crate::CommitFault;
use coord_codec::write_world;
use coord_disk::Disk;
use coord_journal::{Journal, JournalFault};
use coord_world::World;
use std::alloc::Global;

/// Returns the commit's fault for a journal's fault in an append or a replace.
fn fault_of(fault: JournalFault) -> CommitFault
    requires { IsWriteFault fault }
    ensures { result ≡ commit_fault_of fault }
{
    match fault {
        JournalFault::OutOfMemory => CommitFault::OutOfMemory,
        JournalFault::Device => CommitFault::Device,
        JournalFault::Stopped => CommitFault::Stopped,
        _ => unreachable!(),
    }
}

/// Replaces a journal's content by a snapshot of another world.
pub fn put_in_place<D: Disk>(
    alloc: Global,
    journal: &mut Journal<D>,
    other: &World,
) -> Result<(), CommitFault>
    requires legal { Legal other.now }
    requires going { has_stopped journal.old ≡ false }
    ensures follows { (w : Numbered) → Holds D.model journal.old w →
        Follows D.model w other.now journal.old journal.new result }
    ensures stays { (w : Numbered) → Holds D.model journal.old w →
        Stays D.model w journal.old journal.new result }
    ensures fits { OnOk result (HasRoomFor journal.new MAX_BODY) }
    ensures unchanged { IfErr result (λ fault. fault ≢ Device → journal.new ≡ journal.old) }
    ensures ends { Ends D.model 4 journal.old journal.new result }
{
    other.lemma_in_range();
    let snapshot = match write_world(alloc, other) {
        Ok(snapshot) => snapshot,
        Err(_) => return Err(CommitFault::OutOfMemory),
    };
    match journal.replace(other.version().number(), &snapshot) {
        Ok(()) => Ok(()),
        Err(fault) => Err(fault_of(fault)),
    }
}

/// Appends a batch whose body fits.
fn append<D: Disk>(journal: &mut Journal<D>, body: &[u8]) -> Result<(), CommitFault>
    requires short { length body.now ≤ MAX_BODY }
    requires fits { HasRoomFor journal.old (length body.now) }
    requires going { has_stopped journal.old ≡ false }
    ensures follows { (w : Numbered) (steps : List Taken) → Holds D.model journal.old w →
        Takes w body.now steps →
        Follows D.model w (fold w steps) journal.old journal.new result }
    ensures stays { (w : Numbered) → Holds D.model journal.old w →
        Stays D.model w journal.old journal.new result }
    ensures half { half_of journal.new ≡ half_of journal.old }
    ensures unchanged { IfErr result (λ fault. fault ≢ Device → journal.new ≡ journal.old) }
    ensures ends { Ends D.model 4 journal.old journal.new result }
{
    match journal.append(body) {
        Ok(()) => Ok(()),
        Err(fault) => Err(fault_of(fault)),
    }
}

/// Writes a batch to the disk of a journal that holds this world.
pub fn write<D: Disk>(
    alloc: Global,
    journal: &mut Journal<D>,
    world: &World,
    body: &[u8],
) -> Result<(), CommitFault>
    requires legal { Legal world.now }
    requires short { length body.now ≤ MAX_BODY }
    requires going { has_stopped journal.old ≡ false }
    ensures follows { (steps : List Taken) → Holds D.model journal.old world.now →
        Takes world.now body.now steps →
        Follows D.model world.now (fold world.now steps) journal.old journal.new result }
    ensures stays { Holds D.model journal.old world.now →
        Stays D.model world.now journal.old journal.new result }
    ensures ends { Ends D.model 8 journal.old journal.new result }
    ensures calls_where_it_fits { D.model.keeps_model (disk_of journal.old) ≡ true →
        HasRoomFor journal.old (length body.now) →
        D.model.clock (disk_of journal.new) ≤ D.model.clock (disk_of journal.old) + 4 }
    ensures half_where_it_fits { HasRoomFor journal.old (length body.now) →
        half_of journal.new ≡ half_of journal.old }
{
    if journal.fits(body.len()) {
        return append(journal, body);
    }
    // Makes a checkpoint: a snapshot of the same world, with no batch after it.
    match put_in_place(alloc, journal, world) {
        Ok(()) => append(journal, body),
        Err(fault) => Err(fault),
    }
}
