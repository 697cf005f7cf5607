//! The program's arguments.

ghost use Rattle.std.specs.Prelude.{◌≡◌, codes, drop, false, map, option_map, string_bytes, IfOk};
ghost use Rattle.clap.specs.Words.{app_of, found_of, new_app, rows_of, rule_of, subcommand_rows_of, with_rule};
ghost use Rattle.resetd_proxy.specs.Arguments.{Requested, asked_in, asked_of, asked_of_name, option_rule, repeated_rule, resetd_proxy, serve_in, serve_of, serve_options, settings_in, settings_of, sockets_in, sockets_of, task_of, with_options};

use crate::values::{
    ArgumentsFault, all_given, copied, count_or, given, named_in, passed_in, path_of, seconds_or,
    servers_in,
};
use clap::error::ErrorKind;
use clap::{Arg, ArgAction, ArgMatches, Command};
use proxy_loop::Settings;
use std::alloc::{AllocError, Global};

/// The task that the program's arguments request.
#[derive(Drop)]
pub enum Task {
    Serve(Arguments),
    /// Print what the policy in this file allows.
    Check(String),
}

/// The arguments of `serve`.
#[derive(Drop)]
pub struct Arguments {
    pub servers: Vec<String>,
    pub sockets: SocketArguments,
    pub settings: Settings,
    /// The path of the file that the server's signals are printed to, if one is given.
    pub signals: Option<String>,
    pub policy: String,
    /// The path of the audit file. None and `-` mean standard output.
    pub audit: Option<String>,
    /// The path of the metrics file. `-` means standard output, None means no metrics.
    pub metrics: Option<String>,
}

/// The sockets that `serve` listens on.
#[derive(Drop)]
pub struct SocketArguments {
    /// The principal and the path of each socket.
    pub named: Vec<(String, String)>,
    /// The path of the socket for connections whose client is named by its certificate, if one is given.
    pub certificates: Option<String>,
    /// The names of the sockets that the service manager opened, in order. None if `--listen-fds` is not given.
    pub passed: Option<Vec<String>>,
}

/// Returns the task that the arguments request. The first argument is the program's name. Errors: the arguments are
/// wrong, or out of memory.
pub fn read_arguments(alloc: Global, arguments: &[String]) -> Result<Task, ArgumentsFault>
    ensures { Requested asked_of (task_of (map string_bytes arguments.now)) result }
{
    let program = program(alloc)?;
    match program.try_get_matches_from(arguments) {
        Ok(matches) => task_in(alloc, &matches),
        Err(error) => match error.kind() {
            ErrorKind::OutOfMemory => Err(ArgumentsFault::OutOfMemory),
            _ => Err(ArgumentsFault::Usage),
        },
    }
}

/// Returns the task that `clap` found in the arguments.
fn task_in(alloc: Global, matches: &ArgMatches<'_>) -> Result<Task, ArgumentsFault>
    ensures { Requested asked_of (asked_in (subcommand_rows_of matches.now)) result }
{
    match matches.subcommand() {
        Some((name, found)) => task_named(alloc, name, found),
        None => Err(ArgumentsFault::Usage),
    }
}

/// Returns the task of the command with this name.
fn task_named(alloc: Global, name: &str, found: &ArgMatches<'_>) -> Result<Task, ArgumentsFault>
    ensures { Requested asked_of (asked_of_name name.now (rows_of (found_of found.now))) result }
{
    if name == "check" {
        let file = given(found, "file").ok_or(ArgumentsFault::Usage)?;
        return Ok(Task::Check(copied(alloc, file)?));
    }
    Ok(Task::Serve(serve_arguments(alloc, found)?))
}

/// Returns the arguments of `serve`.
fn serve_arguments(alloc: Global, found: &ArgMatches<'_>) -> Result<Arguments, ArgumentsFault>
    ensures { Requested serve_of (serve_in (rows_of (found_of found.now))) result }
{
    let settings = settings_in(found).ok_or(ArgumentsFault::Usage)?;
    let texts = all_given(found, "server").ok_or(ArgumentsFault::Usage)?;
    let servers = servers_in(alloc, texts)?;
    let sockets = socket_arguments(alloc, found)?;
    let policy = given(found, "policy").ok_or(ArgumentsFault::Usage)?;
    let policy = copied(alloc, policy)?;
    let signals = path_of(alloc, found, "signals")?;
    let audit = path_of(alloc, found, "audit")?;
    let metrics = path_of(alloc, found, "metrics")?;
    Ok(Arguments {
        servers,
        sockets,
        settings,
        signals,
        policy,
        audit,
        metrics,
    })
}

/// Returns the timeouts and the limit of connections. Returns None if one of these arguments is wrong.
fn settings_in(found: &ArgMatches<'_>) -> Option<Settings>
    ensures { option_map settings_of result ≡ settings_in (rows_of (found_of found.now)) }
{
    let answer_timeout = seconds_or(30, given(found, "patience"))?;
    let stuck = seconds_or(10, given(found, "stuck"))?;
    let server_silent = seconds_or(5, given(found, "server-silent"))?;
    let connections = count_or(1000, given(found, "connections"))?;
    Some(Settings {
        answer_timeout,
        stuck,
        server_silent,
        connections,
    })
}

/// Returns the sockets that `serve` listens on.
fn socket_arguments(
    alloc: Global,
    found: &ArgMatches<'_>,
) -> Result<SocketArguments, ArgumentsFault>
    ensures { Requested sockets_of (sockets_in (rows_of (found_of found.now))) result }
{
    let texts = all_given(found, "listen").unwrap_or(&[]);
    let named = named_in(alloc, texts)?;
    let passed = passed_in(alloc, given(found, "listen-fds"))?;
    let certificates = path_of(alloc, found, "certificates")?;
    Ok(SocketArguments {
        named,
        certificates,
        passed,
    })
}

/// Returns the grammar of the program's arguments. Errors: out of memory.
fn program<'a>(alloc: Global) -> Result<Command<'a>, AllocError>
    ensures { IfOk result (λ program. app_of program ≡ resetd_proxy) }
{
    let file = Arg::new(alloc, "file")
        .required(true)
        .action(ArgAction::Set);
    let check = Command::new(alloc, "check").arg(file)?;
    let serve = serve_command(alloc)?;
    let with_serve = Command::new(alloc, "resetd-proxy")
        .subcommand_required(true)
        .subcommand(serve)?;
    with_serve.subcommand(check)
}

fn serve_command<'a>(alloc: Global) -> Result<Command<'a>, AllocError>
    ensures { IfOk result (λ serve. app_of serve ≡ with_options (new_app (codes "serve")) serve_options) }
{
    let server = repeated(alloc, "server").required(true);
    let with_server = Command::new(alloc, "serve").arg(server)?;
    let with_listen = with_server.arg(repeated(alloc, "listen"))?;
    let with_passed = with_option(with_listen, alloc, "listen-fds")?;
    let policy = option(alloc, "policy").required(true);
    let with_policy = with_passed.arg(policy)?;
    with_optional(with_policy, alloc)
}

/// Adds `--certificates` and the options after it to a command. Errors: out of memory.
fn with_optional<'a>(command: Command<'a>, alloc: Global) -> Result<Command<'a>, AllocError>
    ensures { IfOk result (λ more. app_of more ≡ with_options (app_of command.entry) (drop 4 serve_options)) }
{
    let with_certificates = with_option(command, alloc, "certificates")?;
    let with_signals = with_option(with_certificates, alloc, "signals")?;
    let with_audit = with_option(with_signals, alloc, "audit")?;
    let with_metrics = with_option(with_audit, alloc, "metrics")?;
    let with_patience = with_option(with_metrics, alloc, "patience")?;
    let with_stuck = with_option(with_patience, alloc, "stuck")?;
    let with_silent = with_option(with_stuck, alloc, "server-silent")?;
    with_option(with_silent, alloc, "connections")
}

/// Adds an option with a value to a command. Errors: out of memory.
fn with_option<'a>(
    command: Command<'a>,
    alloc: Global,
    name: &'a str,
) -> Result<Command<'a>, AllocError>
    ensures { IfOk result (λ more. app_of more ≡ with_rule (app_of command.entry) (option_rule name.now)) }
{
    command.arg(option(alloc, name))
}

/// Returns an option that has a value.
fn option(alloc: Global, name: &str) -> Arg<'_>
    ensures rule { rule_of result ≡ option_rule name.now }
    ensures local { result.global ≡ false }
{
    Arg::new(alloc, name).long(name).action(ArgAction::Set)
}

/// Returns an option that may be repeated.
fn repeated(alloc: Global, name: &str) -> Arg<'_>
    ensures rule { rule_of result ≡ repeated_rule name.now }
    ensures local { result.global ≡ false }
{
    Arg::new(alloc, name).long(name).action(ArgAction::Append)
}
