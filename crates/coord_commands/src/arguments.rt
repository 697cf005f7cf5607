//! The program's arguments.

ghost use Rattle.std.specs.Prelude.{◌≡◌, ◌⊎◌, false, true, map, option_and_then, option_map, IfOk, IfErr, Some, None, string_bytes};
ghost use Rattle.clap.specs.Words.{app_of, found_of, new_app, rows_of, rule_of, subcommand_rows_of, takes, with_rule, with_subcommand};
ghost use Rattle.coord_commands.specs.declared.fault.Fault.TheVariants.{Usage, OutOfMemory};
ghost use Rattle.coord_commands.specs.Arguments.{asked_of, asked_of_file, asked_of_name, in_arguments, resetd, task_of, argument_named, arguments_for};

use crate::fault::Fault;
use clap::error::ErrorKind;
use clap::{Arg, ArgAction, ArgMatches, Command};
use std::alloc::{AllocError, Global};

/// A requested command, with the arguments after its name.
#[derive(Clone, Copy)]
pub enum Task<'a> {
    /// Read requests from standard input, and print the result of each.
    Drill,
    /// Check the store in a file.
    Check { file: &'a str },
    /// Show the store in a file.
    Show { file: &'a str },
    /// Migrate the store in a file to version 2.
    Migrate { file: &'a str },
    /// Create a store in a file, from a topology file.
    Init { file: &'a str, topology: &'a str },
    /// Serve the store in a file at an address.
    Serve { file: &'a str, address: &'a str },
}

impl Task<'_> {
    /// Returns the number of arguments that the command takes, including the program's name.
    fn arguments(&self) -> usize
        ensures { result ≡ arguments_for (asked_of self.now) }
    {
        match self {
            Task::Drill => 2,
            Task::Check { .. } | Task::Show { .. } | Task::Migrate { .. } => 3,
            Task::Init { .. } | Task::Serve { .. } => 4,
        }
    }
}

/// Returns the command that the program's arguments request. The first argument is the program's name.
/// The commands are `drill`, `check FILE`, `show FILE`, `migrate FILE`, `init FILE TOPOLOGY` and `serve
/// FILE ADDRESS`. Any other arguments are refused, for example `--help` and `--version`. Errors: out of
/// memory, or `Usage`.
pub fn read_arguments<'a>(alloc: Global, arguments: &'a [String]) -> Result<Task<'a>, Fault>
    ensures ok { IfOk result (λ task. task_of (map string_bytes arguments.now) ≡ Some (asked_of task)) }
    ensures err { IfErr result (λ fault. (fault ≡ OutOfMemory)
        ⊎ ((fault ≡ Usage) × (takes resetd (map string_bytes arguments.now) ≡ true →
        task_of (map string_bytes arguments.now) ≡ None))) }
{
    let program = program(alloc)?;
    match program.try_get_matches_from(arguments) {
        Ok(matches) => task_in(&matches, arguments.len()).ok_or(Fault::Usage),
        Err(error) => match error.kind() {
            ErrorKind::OutOfMemory => Err(Fault::OutOfMemory),
            _ => Err(Fault::Usage),
        },
    }
}

/// Returns the command-line grammar for `clap`.
fn program<'a>(alloc: Global) -> Result<Command<'a>, AllocError>
    ensures { IfOk result (λ program. app_of program ≡ resetd) }
{
    let with_drill = Command::new(alloc, "resetd")
        .subcommand_required(true)
        .subcommand(Command::new(alloc, "drill"))?;
    let with_init = add_of_two_arguments(with_drill, alloc, "init", "file", "topology")?;
    let with_check = add_of_argument(with_init, alloc, "check", "file")?;
    let with_show = add_of_argument(with_check, alloc, "show", "file")?;
    let with_serve = add_of_two_arguments(with_show, alloc, "serve", "file", "address")?;
    add_of_argument(with_serve, alloc, "migrate", "file")
}

/// Adds a command with one argument to the grammar.
fn add_of_argument<'a>(
    program: Command<'a>,
    alloc: Global,
    name: &'a str,
    argument: &'a str,
) -> Result<Command<'a>, AllocError>
    ensures { IfOk result (λ more. app_of more ≡ with_subcommand (app_of program.entry)
        (with_rule (new_app name.now) (argument_named argument.now)).top) }
{
    let command = Command::new(alloc, name).arg(argument_named(alloc, argument))?;
    program.subcommand(command)
}

/// Adds a command with two arguments to the grammar.
fn add_of_two_arguments<'a>(
    program: Command<'a>,
    alloc: Global,
    name: &'a str,
    first: &'a str,
    second: &'a str,
) -> Result<Command<'a>, AllocError>
    ensures { IfOk result (λ more. app_of more ≡ with_subcommand (app_of program.entry)
        (with_rule (with_rule (new_app name.now) (argument_named first.now))
        (argument_named second.now)).top) }
{
    let command = Command::new(alloc, name)
        .arg(argument_named(alloc, first))?
        .arg(argument_named(alloc, second))?;
    program.subcommand(command)
}

/// Returns a required argument with this name.
fn argument_named(alloc: Global, id: &str) -> Arg<'_>
    ensures rule { rule_of result ≡ argument_named id.now }
    ensures local { result.global ≡ false }
{
    Arg::new(alloc, id).required(true).action(ArgAction::Set)
}

/// Returns the request that `clap` found in this many arguments.
fn task_in<'a>(matches: &ArgMatches<'a>, count: usize) -> Option<Task<'a>>
    ensures { option_map asked_of result ≡ option_and_then (in_arguments count)
        (option_and_then (λ found. asked_of_name found.0 found.1) (subcommand_rows_of matches.now)) }
{
    let (name, found) = matches.subcommand()?;
    let task = task_named(name, found)?;
    if task.arguments() == count {
        Some(task)
    } else {
        None
    }
}

/// Returns the request of the named command, with the first value of each of its arguments.
fn task_named<'a>(name: &str, matches: &ArgMatches<'a>) -> Option<Task<'a>>
    ensures { option_map asked_of result ≡ asked_of_name name.now (rows_of (found_of matches.now)) }
{
    if name == "drill" {
        return Some(Task::Drill);
    }
    let file = matches.get_str("file")?;
    task_of_file(name, file, matches)
}

/// Returns the request of the named command for a file, or None if no such command takes a file.
fn task_of_file<'a>(name: &str, file: &'a str, matches: &ArgMatches<'a>) -> Option<Task<'a>>
    ensures { option_map asked_of result
        ≡ asked_of_file name.now file.now (rows_of (found_of matches.now)) }
{
    if name == "check" {
        Some(Task::Check { file })
    } else if name == "show" {
        Some(Task::Show { file })
    } else if name == "migrate" {
        Some(Task::Migrate { file })
    } else if name == "init" {
        let topology = matches.get_str("topology")?;
        Some(Task::Init { file, topology })
    } else if name == "serve" {
        let address = matches.get_str("address")?;
        Some(Task::Serve { file, address })
    } else {
        None
    }
}
