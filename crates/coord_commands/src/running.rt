//! Carries out the requested command in a folder.

ghost use Rattle.std.specs.Prelude.{◌≡◌, ℕ, List, map, IfErr, IfOk, Some, string_bytes};
ghost use Rattle.coord_commands.specs.Running.{RunsDrill, RunsMigrate, RunsArguments};
ghost use Rattle.coord_commands.specs.Arguments.{migrate, serve, task_of};

use crate::arguments::{Task, read_arguments};
use crate::fault::Fault;
use crate::folder::Folder;
use crate::inspection::{check_in, show_in};
use crate::making::init_in;
use crate::migrating::migrate_in;
use crate::status::report;
use crate::streams::Streams;
use coord_drill::coord_drill;
use std::alloc::Global;
use std::io::{Read, Write};

/// The name of a store to serve, and the address at which to serve it.
#[derive(Clone, Copy)]
pub struct ToServe<'a> {
    pub file: &'a str,
    pub address: &'a str,
}

/// Carries out the program's arguments in a folder, and returns the exit status. For `serve`, does
/// nothing and returns what to serve. The call never waits for others. For `migrate`, its contract also
/// states what a crash may leave at each moment.
pub fn run_in<'a, F: Folder, R: Read, W: Write, E: Write>(
    alloc: Global,
    folder: &mut F,
    arguments: &'a [String],
    streams: &mut Streams<R, W, E>,
) -> Result<u8, ToServe<'a>>
    ensures done { IfOk result (λ status. RunsArguments (map string_bytes arguments.now) status
        (record {
          streams = streams.old.known;
          holds = F.holds folder.old;
          says = F.says folder.old;
        })
        (record {
          streams = streams.new.known;
          holds = F.holds folder.new;
          says = F.says folder.new;
        })) }
    ensures moments { (file : List ℕ) → task_of (map string_bytes arguments.now) ≡ Some (migrate file) →
        IfOk result (λ status. RunsMigrate F.Disk.model (map string_bytes arguments.now) file status
        (record {
          streams = streams.old.known;
          holds = F.holds folder.old;
          says = F.says folder.old;
        })
        (record {
          streams = streams.new.known;
          holds = F.holds folder.new;
          says = F.says folder.new;
        })) }
    ensures left { IfErr result (λ left. task_of (map string_bytes arguments.now)
        ≡ Some (serve left.file.now left.address.now)) }
    ensures unopened { IfErr result (λ _. folder.new ≡ folder.old) }
    ensures unprinted { IfErr result (λ _. streams.new ≡ streams.old) }
{
    match read_arguments(alloc, arguments) {
        Ok(Task::Drill) => Ok(drill(alloc, streams)),
        Ok(Task::Init { file, topology }) => Ok(init_in(alloc, folder, file, topology, streams)),
        Ok(Task::Check { file }) => Ok(check_in(alloc, folder, file, streams)),
        Ok(Task::Show { file }) => Ok(show_in(alloc, folder, file, streams)),
        Ok(Task::Migrate { file }) => Ok(migrate_in(alloc, folder, file, streams)),
        Ok(Task::Serve { file, address }) => Err(ToServe { file, address }),
        Err(fault) => Ok(report(Err(fault), &mut streams.errors)),
    }
}

/// Reads requests from the input, prints the result of each, and returns the exit status.
pub fn drill<R: Read, W: Write, E: Write>(alloc: Global, streams: &mut Streams<R, W, E>) -> u8
    ensures { RunsDrill result streams.old.known streams.new.known }
{
    match coord_drill(alloc, &mut streams.input, &mut streams.output) {
        Ok(()) => 0,
        Err(fault) => report(Err(Fault::from(fault)), &mut streams.errors),
    }
}
