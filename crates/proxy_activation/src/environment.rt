//! The environment variables that give the number of passed sockets and the process that they are for.

ghost use Rattle.std.specs.Prelude.{◌≡◌};
ghost use Rattle.std.specs.Option.{option_copied};
ghost use Rattle.proxy_activation.specs.Passing.{count_of, number_of, opened};

use crate::fault::ActivationFault;

/// Returns the number of sockets that the service manager opened for a process, given the values of `LISTEN_PID` and
/// `LISTEN_FDS`. Errors: a variable is missing, `LISTEN_PID` is not this process, or `LISTEN_FDS` is not a number below
/// 65,536.
pub fn opened_sockets(
    process: u32,
    listen_pid: Option<&str>,
    listen_fds: Option<&str>,
) -> Result<u16, ActivationFault>
    ensures { result ≡ opened process (option_copied listen_pid.entry) (option_copied listen_fds.entry) }
{
    let (Some(pid), Some(count)) = (listen_pid, listen_fds) else {
        return Err(ActivationFault::NotActivated);
    };
    if process_in(pid) != Some(process) {
        return Err(ActivationFault::OtherProcess);
    }
    match count_in(count) {
        Some(count) => Ok(count),
        None => Err(ActivationFault::NotACount),
    }
}

/// Returns the value of one or more decimal digits, if it is below 2^32.
fn process_in(text: &str) -> Option<u32>
    ensures { result ≡ number_of text.now }
{
    // `parse` would accept a leading plus sign.
    if text.starts_with('+') {
        return None;
    }
    text.parse().ok()
}

/// Returns the value of one or more decimal digits, if it is below 65,536.
fn count_in(text: &str) -> Option<u16>
    ensures { result ≡ count_of text.now }
{
    u16::try_from(process_in(text)?).ok()
}
