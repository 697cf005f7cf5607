//! The whole program, given its arguments, its streams and a runtime.

ghost use Rattle.std.specs.Prelude.{◌≡◌, ◌≢◌, ◌⊎◌, List, String, Err, IfErr, IfOk, map, string_bytes};
ghost use Rattle.std.specs.Global.{Global};
ghost use Rattle.std.specs.Iterator.{Drains, IsFinite};
ghost use Rattle.std.specs.IoError.{error_kind};
ghost use Rattle.coord_commands.specs.Running.{LacksArguments, RunsArguments, files_around};
ghost use Rattle.coord_commands.specs.declared.fault.Fault.TheVariants.{OutOfMemory, Usage};

use crate::commands::run;
use crate::fault::Fault;
use crate::status::report;
use crate::streams::Streams;
use std::alloc::Global;
use std::fs::File;
use std::io;
use std::io::{ErrorKind, Read, Write};
use std::net::Net;
use std::rt::Files;
use std::sync::Wait;
use std::thread::Threads;
use std::time::Clock;

/// Carries out the program's arguments, and returns the exit status. The first argument is the
/// program's name. The drill reads the input; results are printed on the output, and the line of a
/// fault on standard error. If the arguments could not be read, only that fault is reported, and
/// nothing is done.
pub fn run_program<
    S: Files<File = File> + Net + Threads + Wait + Clock + Sync + AllocGlobal,
    I: Iterator<Item = String>,
    R: Read,
    W: Write + Send,
    E: Write,
>(rt: &S, arguments: io::Result<I>, streams: &mut Streams<R, W, E>) -> u8
    requires { IfOk arguments (λ arguments. I.can_next arguments × IsFinite (I.remaining arguments)) }
    ensures had { IfOk arguments (λ arguments.
        LacksArguments OutOfMemory result (files_around streams.old.known) (files_around streams.new.known)
        ⊎ ((came : List (String Global)) × Drains I.next_gives arguments came × RunsArguments (map string_bytes came)
        result (files_around streams.old.known) (files_around streams.new.known))) }
    ensures memory { IfErr arguments (λ error. error_kind error ≡ ErrorKind.OutOfMemory →
        LacksArguments OutOfMemory result (files_around streams.old.known)
        (files_around streams.new.known)) }
    ensures refused { IfErr arguments (λ error. error_kind error ≢ ErrorKind.OutOfMemory →
        LacksArguments Usage result (files_around streams.old.known) (files_around streams.new.known)) }
{
    let _taken = take_descriptors(rt);
    match gathered(rt.alloc(), arguments) {
        Ok(arguments) => run(rt, &arguments, streams),
        Err(fault) => report(Err(fault), &mut streams.errors),
    }
}

/// Opens a folder for reading three times, so that each standard descriptor that was closed at the
/// program's start is taken, and reading or writing it fails. Otherwise a file that is opened later
/// would get the number of such a descriptor, and output would be written into that file.
fn take_descriptors<S: Files<File = File>>(rt: &S) -> [io::Result<File>; 3] {
    [
        File::open(rt, "/"),
        File::open(rt, "/"),
        File::open(rt, "/"),
    ]
}

/// Returns the program's arguments, the first of which is the program's name.
fn gathered<I: Iterator<Item = String>>(
    alloc: Global,
    arguments: io::Result<I>,
) -> Result<Vec<String>, Fault>
    requires { IfOk arguments (λ arguments. I.can_next arguments × IsFinite (I.remaining arguments)) }
    ensures had { IfOk arguments (λ arguments. IfOk result (λ all. Drains I.next_gives arguments all.items)) }
    ensures memory { IfOk arguments (λ _. IfErr result (λ fault. fault ≡ OutOfMemory)) }
    ensures missing { IfErr arguments (λ error. error_kind error ≡ ErrorKind.OutOfMemory →
        result ≡ Err OutOfMemory) }
    ensures refused { IfErr arguments (λ error. error_kind error ≢ ErrorKind.OutOfMemory →
        result ≡ Err Usage) }
{
    match arguments {
        Ok(arguments) => Ok(arguments.collect(alloc)?),
        Err(error) => Err(Fault::of_arguments(&error)),
    }
}
