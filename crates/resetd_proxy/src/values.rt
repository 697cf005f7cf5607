//! The values of arguments.

ghost use Rattle.std.specs.Prelude.{◌≡◌, ◌<◌, ◌==◌, map, option_map, string_bytes, IfOk};
ghost use Rattle.std.specs.List.{slice_split};
ghost use Rattle.std.specs.Duration.{as_nanos};
ghost use Rattle.clap.specs.Words.{all_of, first_of, found_of, rows_of};
ghost use Rattle.resetd_proxy.specs.Arguments.{Requested, count_in, count_or, few_servers, if_passes, is_named, named_by, named_sockets, passed_in, passed_names, seconds_in, seconds_or, separated};
ghost use Rattle.resetd_proxy.specs.declared.values.ArgumentsFault.TheVariants.{OutOfMemory};

use clap::ArgMatches;
use proxy_policy::is_socket_name;
use std::alloc::{AllocError, AllocFailed, Global};
use std::time::Duration;

/// The maximum number of addresses of the server.
pub const MOST_SERVERS: usize = 8;

/// Why the arguments ask for no task.
#[derive(Clone, Copy, PartialEq, Eq)]
pub enum ArgumentsFault {
    /// They are wrong.
    Usage,
    OutOfMemory,
}

impl From<AllocError> for ArgumentsFault {
    ghost from_gives = { λ _ fault. fault ≡ OutOfMemory };

    fn from(_: AllocError) -> Self {
        ArgumentsFault::OutOfMemory
    }
}

impl<T: Drop> From<AllocFailed<T>> for ArgumentsFault {
    ghost from_gives = { λ _ fault. fault ≡ OutOfMemory };

    fn from(_: AllocFailed<T>) -> Self {
        ArgumentsFault::OutOfMemory
    }
}

/// Returns the first value of an argument.
#[tactic(auto, using(crate::proofs::Rows::first_value_by_rows))]
pub fn given<'a>(found: &ArgMatches<'a>, name: &str) -> Option<&'a str>
    ensures { option_map (λ text. text.now) result ≡ first_of name.now (rows_of (found_of found.now)) }
{
    found.get_str(name)
}

/// Returns the values of an argument that may be repeated.
#[tactic(auto, using(crate::proofs::Rows::all_values_by_rows))]
pub fn all_given<'f, 'a>(found: &'f ArgMatches<'a>, name: &str) -> Option<&'f [&'a str]>
    ensures { option_map (λ texts. map (λ text. text.now) texts.now) result ≡ all_of name.now (rows_of (found_of found.now)) }
{
    found.get_strs(name)
}

/// Returns the path that an argument gives.
pub fn path_of(
    alloc: Global,
    found: &ArgMatches<'_>,
    name: &str,
) -> Result<Option<String>, AllocError>
    ensures { IfOk result (λ path. option_map string_bytes path ≡ first_of name.now (rows_of (found_of found.now))) }
{
    match given(found, name) {
        Some(text) => Ok(Some(copied(alloc, text)?)),
        None => Ok(None),
    }
}

/// Returns the duration of a number of seconds, which is `usual` if there is no text. None: the text is no duration above 0.
pub fn seconds_or(usual: u64, text: Option<&str>) -> Option<Duration>
    ensures { option_map as_nanos result ≡ seconds_or usual (option_map (λ text. text.now) text.entry) }
{
    match text {
        Some(text) => seconds_in(text),
        None => Some(Duration::from_secs(usual)),
    }
}

fn seconds_in(text: &str) -> Option<Duration>
    ensures { option_map as_nanos result ≡ seconds_in text.now }
{
    let seconds: f64 = text.parse().ok()?;
    let duration = Duration::try_from_secs_f64(seconds).ok()?;
    if duration.is_zero() {
        None
    } else {
        Some(duration)
    }
}

/// Returns a number, which is `usual` if there is no text. None: the text is no number below 2^64.
pub fn count_or(usual: usize, text: Option<&str>) -> Option<usize>
    ensures { result ≡ count_or usual (option_map (λ text. text.now) text.entry) }
{
    match text {
        Some(text) => count_in(text),
        None => Some(usual),
    }
}

fn count_in(text: &str) -> Option<usize>
    ensures { result ≡ count_in text.now }
{
    text.parse().ok()
}

/// Returns the addresses of the server. Errors: there are too many, or memory is out.
pub fn servers_in(alloc: Global, texts: &[&str]) -> Result<Vec<String>, ArgumentsFault>
    ensures { Requested (λ servers. map string_bytes servers.items) (few_servers (map (λ text. text.now) texts.now)) result }
{
    if texts.len() > MOST_SERVERS {
        return Err(ArgumentsFault::Usage);
    }
    Ok(all_copied(alloc, texts)?)
}

/// Returns a copy of each text.
fn all_copied(alloc: Global, texts: &[&str]) -> Result<Vec<String>, AllocError>
    ensures { IfOk result (λ copies. map string_bytes copies.items ≡ map (λ text. text.now) texts.now) }
{
    let mut copies = Vec::new(alloc);
    for text in texts {
        copies.push(copied(alloc, text)?)?;
    }
    Ok(copies)
}

/// Returns the principal and the path of each text NAME=PATH. Errors: a text is none, or memory is out.
pub fn named_in(alloc: Global, texts: &[&str]) -> Result<Vec<(String, String)>, ArgumentsFault>
    ensures { Requested (λ named. map (λ each. (string_bytes each.0, string_bytes each.1)) named.items) (named_sockets (map (λ text. text.now) texts.now)) result }
{
    let mut named = Vec::new(alloc);
    for text in texts {
        let (name, path) = named_by(text).ok_or(ArgumentsFault::Usage)?;
        named.push((copied(alloc, name)?, copied(alloc, path)?))?;
    }
    Ok(named)
}

/// Returns the principal and the path of NAME=PATH; None if the text is none.
fn named_by(text: &str) -> Option<(&str, &str)>
    ensures { option_map (λ each. (each.0.now, each.1.now)) result ≡ if_passes (is_named text.now) (named_by text.now) }
{
    let (name, path) = text.split_once('=')?;
    if is_socket_name(name.as_bytes()) {
        Some((name, path))
    } else {
        None
    }
}

/// Returns the names of the sockets that the service manager opened. Errors: a name is none, or memory is out.
pub fn passed_in(alloc: Global, text: Option<&str>) -> Result<Option<Vec<String>>, ArgumentsFault>
    ensures { Requested (λ passed. option_map (λ names. map string_bytes names.items) passed) (passed_in (option_map (λ text. text.now) text.entry)) result }
{
    match text {
        Some(text) => Ok(Some(names_in(alloc, text)?)),
        None => Ok(None),
    }
}

/// Returns the names that commas or colons separate.
fn names_in(alloc: Global, text: &str) -> Result<Vec<String>, ArgumentsFault>
    ensures { Requested (λ names. map string_bytes names.items) (passed_names text.now) result }
{
    let texts = separated(alloc, text)?;
    for name in &texts {
        if !is_socket_name(name.as_bytes()) {
            return Err(ArgumentsFault::Usage);
        }
    }
    Ok(all_copied(alloc, texts.as_slice())?)
}

/// Returns the texts that commas or colons separate.
fn separated(alloc: Global, text: &str) -> Result<Vec<&str>, AllocError>
    ensures { IfOk result (λ texts. map (λ each. each.now) texts.items ≡ separated text.now) }
{
    let mut texts = Vec::new(alloc);
    let parts = parts_of(alloc, text, ',')?;
    for part in &parts {
        let more = parts_of(alloc, part, ':')?;
        texts.extend_from_slice(more.as_slice())?;
    }
    Ok(texts)
}

/// Returns the texts that an ASCII character separates.
fn parts_of(alloc: Global, text: &str, separator: char) -> Result<Vec<&str>, AllocError>
    requires { separator < 128 }
    ensures { IfOk result (λ parts. map (λ part. part.now) parts.items ≡ slice_split (λ byte. byte == separator) text.now) }
{
    text.split(separator).collect(alloc)
}

/// Returns a copy of a text.
pub fn copied(alloc: Global, text: &str) -> Result<String, AllocError>
    ensures { IfOk result (λ copy. string_bytes copy ≡ text.now) }
{
    let mut copy = String::new(alloc);
    copy.push_str(text)?;
    Ok(copy)
}
