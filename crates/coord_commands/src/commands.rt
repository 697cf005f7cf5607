//! The commands, over the files of the system.

ghost use Rattle.std.specs.Prelude.{◌≡◌, None, map, string_bytes};
ghost use Rattle.coord_commands.specs.Ending.{CommandEnds};
ghost use Rattle.coord_commands.specs.Inspection.{Checks, ShowsStore};
ghost use Rattle.coord_commands.specs.Making.{IsCreatedLine, IsOfMaking};
ghost use Rattle.coord_commands.specs.Migrating.{IsMigratedLine, IsOfMigrating};
ghost use Rattle.coord_commands.specs.Running.{RunsArguments, files_around};

use crate::folder::{FileFolder, Folder};
use crate::inspection::{check_in, show_in};
use crate::making::init_in;
use crate::migrating::migrate_in;
use crate::running::run_in;
use crate::serving::serve_in;
use crate::streams::Streams;
use std::fs::File;
use std::io::{Read, Write};
use std::net::Net;
use std::rt::Files;
use std::sync::Wait;
use std::thread::Threads;
use std::time::Clock;

/// Carries out the command that the program's arguments request, and returns the exit status. Only
/// `serve` may wait for others.
pub fn run<
    S: Files<File = File> + Net + Threads + Wait + Clock + Sync + AllocGlobal,
    R: Read,
    W: Write + Send,
    E: Write,
>(rt: &S, arguments: &[String], streams: &mut Streams<R, W, E>) -> u8
    ensures { RunsArguments (map string_bytes arguments.now) result (files_around streams.old.known)
        (files_around streams.new.known) }
{
    let mut folder = FileFolder::new(rt);
    carry_out(rt, &mut folder, arguments, streams)
}

/// Carries out the requested command in a folder, and returns the exit status.
fn carry_out<
    S: Net + Threads + Wait + Clock + Sync + AllocGlobal,
    F: Folder,
    R: Read,
    W: Write + Send,
    E: Write,
>(rt: &S, folder: &mut F, arguments: &[String], streams: &mut Streams<R, W, E>) -> u8
    ensures { RunsArguments (map string_bytes arguments.now) result
        (record {
          streams = streams.old.known;
          holds = F.holds folder.old;
          says = F.says folder.old;
        })
        (record {
          streams = streams.new.known;
          holds = F.holds folder.new;
          says = F.says folder.new;
        }) }
{
    match run_in(rt.alloc(), folder, arguments, streams) {
        Ok(status) => status,
        Err(left) => serve_in(rt, folder, left.file, left.address, streams),
    }
}

/// Creates a store in an absent or empty file, with the nodes and links of a topology file. Prints the
/// store's number of steps, and returns the exit status. The topology is read and checked before the
/// file is opened.
pub fn init<S: Files<File = File> + AllocGlobal, R: Read, W: Write, E: Write>(
    rt: &S,
    file: &str,
    topology: &str,
    streams: &mut Streams<R, W, E>,
) -> u8
    ensures ended { CommandEnds (IsOfMaking None None None) (IsCreatedLine None None None) result
        streams.old.known streams.new.known }
    ensures unread { streams.new.input ≡ streams.old.input }
{
    let mut folder = FileFolder::new(rt);
    init_in(rt.alloc(), &mut folder, file, topology, streams)
}

/// Migrates the store in a file to version 2, prints the store's number of steps, and returns the exit
/// status. The file is locked during the migration, and created if it does not exist. A store of
/// version 2 is left unchanged, with the same output. A store with a node in a reset is refused, and
/// left unchanged.
pub fn migrate<S: Files<File = File> + AllocGlobal, R: Read, W: Write, E: Write>(
    rt: &S,
    file: &str,
    streams: &mut Streams<R, W, E>,
) -> u8
    ensures ended { CommandEnds (IsOfMigrating None None) (IsMigratedLine None None) result
        streams.old.known streams.new.known }
    ensures unread { streams.new.input ≡ streams.old.input }
{
    let mut folder = FileFolder::new(rt);
    migrate_in(rt.alloc(), &mut folder, file, streams)
}

/// Checks the store in a file. Prints that the store is legal, with its number of steps, or else the
/// first predicate that its snapshot violates. Returns the exit status, which is 1 for a violation.
pub fn check<S: Files<File = File> + AllocGlobal, R: Read, W: Write, E: Write>(
    rt: &S,
    file: &str,
    streams: &mut Streams<R, W, E>,
) -> u8
    ensures ended { Checks None result streams.old.known streams.new.known }
    ensures unread { streams.new.input ≡ streams.old.input }
{
    check_in(rt.alloc(), &FileFolder::new(rt), file, streams)
}

/// Prints the nodes and links of the store in a file, and returns the exit status.
pub fn show<S: Files<File = File> + AllocGlobal, R: Read, W: Write, E: Write>(
    rt: &S,
    file: &str,
    streams: &mut Streams<R, W, E>,
) -> u8
    ensures ended { ShowsStore None result streams.old.known streams.new.known }
    ensures unread { streams.new.input ≡ streams.old.input }
{
    show_in(rt.alloc(), &FileFolder::new(rt), file, streams)
}
