//! Creates a store in a folder.

ghost use Rattle.std.specs.Prelude.{◌≡◌, IfErr, IfOk, OnOk};
ghost use Rattle.coord_commands.specs.Ending.{CommandEnds, OutputCutShort, PrintsOne};
ghost use Rattle.coord_commands.specs.Folders.{bytes_of, reads};
ghost use Rattle.coord_commands.specs.Making.{IsCreatedLine, IsFounded, IsOfFile, IsOfMaking, RefusesStore, begun};
ghost use Rattle.coord_config.specs.Topology.{content};

use crate::creation::create_store;
use crate::fault::Fault;
use crate::folder::Folder;
use crate::lines::print;
use crate::status::report;
use crate::streams::Streams;
use crate::topology::topology_from;
use coord_config::Topology;
use coord_disk::{Disk, Takable};
use std::alloc::Global;
use std::io::{Read, Write};

/// Creates a store on the named disk, which must be empty, with the nodes and links of a topology file.
/// Prints the store's number of steps, and returns the exit status. The topology is read and checked
/// before the disk is opened.
pub fn init_in<F: Folder, R: Read, W: Write, E: Write>(
    alloc: Global,
    folder: &mut F,
    file: &str,
    topology: &str,
    streams: &mut Streams<R, W, E>,
) -> u8
    ensures ended { CommandEnds (IsOfMaking (F.says folder.old topology.now)
        (reads (F.holds folder.old file.now)) (reads (F.holds folder.new file.now)))
        (IsCreatedLine (F.says folder.old topology.now) (reads (F.holds folder.old file.now))
        (reads (F.holds folder.new file.now)))
        result streams.old.known streams.new.known }
    ensures unread { streams.new.input ≡ streams.old.input }
{
    report(
        init_at(alloc, folder, file, topology, &mut streams.output),
        &mut streams.errors,
    )
}

fn init_at<F: Folder, W: Write>(
    alloc: Global,
    folder: &mut F,
    file: &str,
    topology: &str,
    output: &mut W,
) -> Result<(), Fault>
    ensures printed { OnOk result
        (PrintsOne (IsCreatedLine (F.says folder.old topology.now)
        (reads (F.holds folder.old file.now)) (reads (F.holds folder.new file.now)))
        (W.contents output.old) (W.contents output.new)) }
    ensures fault { IfErr result (IsOfMaking (F.says folder.old topology.now)
        (reads (F.holds folder.old file.now)) (reads (F.holds folder.new file.now))) }
    ensures cut { IfErr result (OutputCutShort (IsCreatedLine (F.says folder.old topology.now)
        (reads (F.holds folder.old file.now)) (reads (F.holds folder.new file.now)))
        (W.contents output.old) (W.contents output.new)) }
    ensures early { IfErr result (λ fault. IsOfFile fault → folder.new ≡ folder.old) }
{
    let reader = match folder.read(topology) {
        Ok(reader) => reader,
        Err(error) => return Err(Fault::or_memory(&error, Fault::Read)),
    };
    let topology = topology_from(alloc, reader)?;
    let made = make(alloc, folder, file, &topology);
    drop(topology);
    let count = made?;
    let text = format!(in alloc; "created {count}\n")?;
    print(output, &text)
}

/// Creates the store of a topology on the named disk, and returns its number of steps.
fn make<F: Folder>(
    alloc: Global,
    folder: &mut F,
    file: &str,
    topology: &Topology,
) -> Result<u64, Fault>
    ensures made { OnOk result (IsFounded (content topology.now) (begun (content topology.now))
        (reads (F.holds folder.old file.now)) (reads (F.holds folder.new file.now))) }
    ensures count { IfOk result (λ count. count ≡ (begun (content topology.now)).count) }
    ensures fault { IfErr result (RefusesStore (reads (F.holds folder.old file.now))
        (reads (F.holds folder.new file.now)) (content topology.now)) }
    ensures late { IfErr result (λ fault. ¬ IsOfFile fault) }
{
    let disk = folder.open(file)?;
    let (made, disk) = make_on(alloc, disk, topology);
    folder.close(file, disk);
    made
}

/// Creates the store of a topology on a disk, and returns its number of steps.
fn make_on<D: Disk + Takable>(
    alloc: Global,
    disk: D,
    topology: &Topology,
) -> (Result<u64, Fault>, D)
    ensures made { OnOk result.0 (IsFounded (content topology.now) (begun (content topology.now))
        (bytes_of D.model disk) (bytes_of D.model result.1)) }
    ensures count { IfOk result.0 (λ count. count ≡ (begun (content topology.now)).count) }
    ensures fault { IfErr result.0 (RefusesStore (bytes_of D.model disk)
        (bytes_of D.model result.1) (content topology.now)) }
    ensures late { IfErr result.0 (λ fault. ¬ IsOfFile fault) }
{
    match create_store(alloc, disk, topology) {
        Ok(store) => {
            let count = store.world().count();
            (Ok(count), store.into_disk())
        }
        Err((fault, disk)) => (Err(fault), disk),
    }
}
