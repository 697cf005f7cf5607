//! The sockets that the proxy listens on.

use crate::arguments::SocketArguments;
use crate::gateway::FileGateway;
use proxy_activation::{ActivationFault, PassedSocket, name_sockets, opened_sockets};
use proxy_loop::Listener;
use std::alloc::Global;
use std::env::{Env, VarError};
use std::fs::Files;
use std::io::ErrorKind;
use std::net::Net;
use std::{env, io};

/// The name of the service manager's socket for connections whose certificate says who they are.
const CERTIFICATES: &str = "certificates";

/// Opens the sockets that the arguments name, and takes those that the service manager opened for this process.
/// Returns None if it opened others than the arguments name, or if another process has one of them, which is reported.
pub fn open_sockets<R: Net + Files + Env + AllocGlobal + Eprint>(
    rt: &R,
    process: u32,
    arguments: &SocketArguments,
    gateway: &mut FileGateway,
) -> io::Result<Option<Vec<Listener>>> {
    let alloc = rt.alloc();
    let mut listeners = Vec::new(alloc);
    for (name, path) in &arguments.named {
        let role = role_of(alloc, gateway, name.as_str())?;
        let Some(listener) = bound(rt, path.as_str(), Some(role))? else {
            return Ok(None);
        };
        listeners.push(listener)?;
        eprintln!(rt; "listening {name}")?;
    }
    if let Some(path) = &arguments.certificates {
        let Some(listener) = bound(rt, path.as_str(), None)? else {
            return Ok(None);
        };
        listeners.push(listener)?;
        eprintln!(rt; "listening {CERTIFICATES}")?;
    }
    if let Some(names) = &arguments.passed {
        match passed_sockets(rt, process, names.as_slice())? {
            Ok(sockets) => {
                for socket in &sockets {
                    listeners.push(taken(alloc, gateway, socket)?)?;
                    eprintln!(rt; "listening {}", socket.name)?;
                }
            }
            Err(fault) => {
                eprintln!(rt; "resetd-proxy: {fault}")?;
                return Ok(None);
            }
        }
    }
    Ok(Some(listeners))
}

/// Makes a socket at a path. Returns None if another process listens there, which is reported.
fn bound<R: Net + Files + Eprint>(
    rt: &R,
    path: &str,
    role: Option<u32>,
) -> io::Result<Option<Listener>> {
    let bound = Listener::bind(rt, path, role)?;
    if bound.is_none() {
        eprintln!(rt; "resetd-proxy: another process listens at {path}")?;
    }
    Ok(bound)
}

/// Returns the role of a principal.
fn role_of(alloc: Global, gateway: &mut FileGateway, name: &str) -> io::Result<u32> {
    match gateway.role_of(alloc, name)? {
        Some(role) => Ok(role),
        None => Err(ErrorKind::InvalidInput.into()),
    }
}

/// Returns the sockets that the service manager opened for this process, with these names in turn.
fn passed_sockets<'n, R: Env + AllocGlobal>(
    rt: &R,
    process: u32,
    names: &'n [String],
) -> io::Result<Result<Vec<PassedSocket<'n>>, ActivationFault>> {
    let listen_pid = variable(rt, "LISTEN_PID")?;
    let listen_fds = variable(rt, "LISTEN_FDS")?;
    let opened = opened_sockets(process, text_of(&listen_pid), text_of(&listen_fds));
    Ok(match opened {
        Ok(opened) => name_sockets(rt.alloc(), names, opened),
        Err(fault) => Err(fault),
    })
}

/// Returns the value of a variable of the environment; None if it is missing, or no text.
fn variable<R: Env + AllocGlobal>(rt: &R, name: &str) -> io::Result<Option<String>> {
    match env::var(rt, name) {
        Ok(value) => Ok(Some(value)),
        Err(VarError::OutOfMemory) => Err(ErrorKind::OutOfMemory.into()),
        Err(_) => Ok(None),
    }
}

fn text_of(value: &Option<String>) -> Option<&str> {
    match value {
        Some(text) => Some(text.as_str()),
        None => None,
    }
}

/// Takes a socket that the service manager opened. Its name is its principal, or `certificates`.
fn taken(
    alloc: Global,
    gateway: &mut FileGateway,
    socket: &PassedSocket<'_>,
) -> io::Result<Listener> {
    let name = socket.name;
    let role = if name == CERTIFICATES {
        None
    } else {
        Some(role_of(alloc, gateway, name)?)
    };
    Listener::take(socket.descriptor, role)
}
