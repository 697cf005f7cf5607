//! The program `resetd-proxy`: many connections before one server.
#![tactic(auto)]

mod arguments;
mod gateway;
mod judging;
mod metrics;
mod recording;
mod sockets;
mod totals;
mod values;

use arguments::{Arguments, Task, read_arguments};
use gateway::FileGateway;
use metrics::Metrics;
use proxy_audit::{Audit, Event};
use proxy_loop::{EventLoop, serve};
use proxy_policy::read_policy;
use proxy_streams::Addresses;
use sockets::open_sockets;
use std::env::Env;
use std::fs::{File, Files};
use std::io::ErrorKind;
use std::net::{Net, ToSocketAddrs};
use std::process::ExitCode;
use std::sync::Wait;
use std::time::{Clock, SystemTime};
use std::{env, fs, io, process};
use values::ArgumentsFault;

const USAGE: &str =
    "usage: resetd-proxy serve --server HOST:PORT .. --policy FILE [--listen NAME=PATH] ..\n                          [--listen-fds NAME,NAME..] [--certificates PATH] [--signals FILE] [--audit FILE]\n                          [--metrics FILE] [--patience SECONDS] [--stuck SECONDS] [--server-silent SECONDS]\n                          [--connections N]\n       resetd-proxy check FILE";

fn main(rt: HostRuntime) -> ExitCode {
    let given = match env::args(&rt) {
        Ok(given) => given,
        Err(_) => return ExitCode::from(1),
    };
    let Ok(arguments) = given.collect::<Vec<String>>(rt.alloc()) else {
        return ExitCode::from(1);
    };
    let done = match read_arguments(rt.alloc(), arguments.as_slice()) {
        Ok(Task::Serve(arguments)) => run(&rt, process::id(rt.process()), arguments),
        Ok(Task::Check(path)) => check(&rt, path.as_str()),
        Err(ArgumentsFault::OutOfMemory) => Err(ErrorKind::OutOfMemory.into()),
        Err(ArgumentsFault::Usage) => {
            let _ = eprintln!(&rt; "{USAGE}");
            return ExitCode::from(2);
        }
    };
    match done {
        Ok(true) => ExitCode::SUCCESS,
        Ok(false) => ExitCode::from(1),
        Err(error) => {
            let _ = eprintln!(&rt; "resetd-proxy: {error}");
            ExitCode::from(1)
        }
    }
}

/// Prints what a policy allows to each principal. Returns false if the file is no policy.
fn check<R: Files + AllocGlobal + Print + Eprint>(rt: &R, path: &str) -> io::Result<bool> {
    let text = fs::read_to_string(rt, path)?;
    match read_policy(rt.alloc(), text.as_str()) {
        Ok(policy) => {
            let mut lines = String::new(rt.alloc());
            policy.print(&mut lines)?;
            print!(rt; "{lines}")?;
            Ok(true)
        }
        Err(fault) => {
            eprintln!(rt; "resetd-proxy: {path}: {fault}")?;
            Ok(false)
        }
    }
}

/// Serves as the arguments say. Returns false if the policy is none, or the service manager passed other sockets.
fn run<R: Net + Files<File = File> + Env + AllocGlobal + Clock + Wait + Print + Eprint>(
    rt: &R,
    process: u32,
    arguments: Arguments,
) -> io::Result<bool> {
    let alloc = rt.alloc();
    let Arguments {
        servers,
        sockets,
        settings,
        signals,
        policy,
        audit,
        metrics,
    } = arguments;
    let mut all = Vec::new(alloc);
    for text in &servers {
        let mut found = text.as_str().to_socket_addrs(rt)?;
        match found.next() {
            Some(address) => all.push(address)?,
            None => return Err(ErrorKind::InvalidInput.into()),
        }
    }
    let Some(addresses) = Addresses::new(all) else {
        return Err(ErrorKind::InvalidInput.into());
    };
    let mut audit = Audit::open(rt, alloc, audit)?;
    audit.add(SystemTime::now(rt)?, &Event::Starts);
    let metrics = match metrics {
        Some(path) => Some(Metrics::new(alloc, path)?),
        None => None,
    };
    let Some(mut gateway) = FileGateway::open(rt, policy, audit, metrics)? else {
        return Ok(false);
    };
    let Some(listeners) = open_sockets(rt, process, &sockets, &mut gateway)? else {
        return Ok(false);
    };
    let mut event_loop = EventLoop::new(alloc, settings, gateway, listeners, addresses, signals);
    serve(rt, &mut event_loop)?;
    Ok(true)
}
