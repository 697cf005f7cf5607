//! A socket that clients connect to.

ghost use Rattle.std.specs.Prelude.{◌≡◌, ◌≤ℤ◌, pos, true, IfOk, IfSome};
ghost use Rattle.mio.specs.Net.{unix_listener_fd};

use mio::net::{UnixListener, UnixStream};
use os::FromRawFd;
use std::fs::{Files, Permissions};
use std::io::ErrorKind;
use std::net::Net;
use std::os::fd::{AsRawFd, RawFd};
use std::os::unix::fs::{FileTypeExt, PermissionsExt};
use std::os::unix::net as unix;
use std::{fs, io};

/// A listening socket, and the role of its clients.
#[derive(Drop)]
pub struct Listener {
    pub(crate) socket: UnixListener,
    /// The role of all its clients, or None if a header of the PROXY protocol names each client's certificate.
    pub(crate) role: Option<u32>,
    pub(crate) is_ready: bool,
}

impl Listener {
    /// Makes a listening socket at a path, which only the socket's owner may open. Removes a socket that was left at
    /// the path. Returns None if another process listens there. Errors: the system refuses a call.
    pub fn bind<R: Files + Net>(rt: &R, path: &str, role: Option<u32>) -> io::Result<Option<Self>>
        ensures { IfOk result (λ bound. IfSome bound (λ listener. (listener.role ≡ role) × (listener.is_ready ≡ true))) }
    {
        if let Ok(found) = fs::symlink_metadata(rt, path) {
            if found.file_type().is_socket() {
                if is_listened_at(rt, path)? {
                    return Ok(None);
                }
                fs::remove_file(rt, path)?;
            }
        }
        let socket = UnixListener::bind(rt, path)?;
        fs::set_permissions(rt, path, Permissions::from_mode(0o600))?;
        Ok(Some(Listener {
            socket,
            role,
            is_ready: true,
        }))
    }

    /// Takes the listening socket that another process opened and passed as this descriptor. Nothing else may use the
    /// descriptor. Errors: the descriptor is not a Unix socket.
    pub fn take(descriptor: u32, role: Option<u32>) -> io::Result<Self>
        ensures role { IfOk result (λ listener. (listener.role ≡ role) × (listener.is_ready ≡ true)) }
        ensures descriptor { IfOk result (λ listener. unix_listener_fd listener.socket ≡ pos descriptor) }
    {
        let Ok(number) = RawFd::try_from(descriptor) else {
            return Err(ErrorKind::InvalidInput.into());
        };
        let socket = socket_of(number);
        socket.local_addr()?;
        socket.set_nonblocking(true)?;
        let socket = UnixListener::from_std(socket);
        // The contract of `from_std` does not say that the socket keeps its descriptor.
        if socket.as_raw_fd() != number {
            return Err(ErrorKind::InvalidInput.into());
        }
        Ok(Listener {
            socket,
            role,
            is_ready: true,
        })
    }
}

/// Returns whether a process listens at the socket at a path.
fn is_listened_at<R: Net>(rt: &R, path: &str) -> io::Result<bool> {
    match UnixStream::connect(rt, path) {
        Ok(_) => Ok(true),
        Err(error) => match error.kind() {
            ErrorKind::ConnectionRefused => Ok(false),
            // The listener has no room for another connection.
            ErrorKind::WouldBlock => Ok(true),
            _ => Err(error),
        },
    }
}

/// Returns the listening socket with this descriptor.
fn socket_of(number: RawFd) -> unix::UnixListener
    requires { pos 0 ≤ℤ number }
{
    unsafe { unix::UnixListener::from_raw_fd(number) }
}
