//! The name of an answer in the metrics.

ghost use Rattle.std.specs.Prelude.{◌≡◌, true};
ghost use Rattle.std.specs.List.{list_all};
ghost use Rattle.proxy_audit.specs.Tallies.{is_plain};

use memchr::memchr;
use std::str;

/// The name of an answer with no usable kind, name or fault.
const OTHER: &str = "other";

/// Returns the kind, the name or the fault of an answer, `view` for a view, or else `other`.
pub(crate) fn answer_name(answer: &[u8]) -> &str
    ensures { list_all is_plain result.now ≡ true }
{
    if answer.starts_with(b"{\"accepted\":") {
        return "view";
    }
    if let Some(rest) = answer.strip_prefix(b"{\"kind\":\"") {
        return quoted(rest);
    }
    if let Some(rest) = answer.strip_prefix(b"{\"name\":\"") {
        return quoted(rest);
    }
    match answer.strip_prefix(b"{\"fault\":\"") {
        Some(rest) => quoted(rest),
        None => OTHER,
    }
}

/// Returns the text before the first quotation mark if it can be a label's value, else `other`.
fn quoted(bytes: &[u8]) -> &str
    ensures { list_all is_plain result.now ≡ true }
{
    let Some(end) = memchr(b'"', bytes) else {
        return OTHER;
    };
    let name = &bytes[..end];
    if !are_plain(name) {
        return OTHER;
    }
    match str::from_utf8(name) {
        Ok(text) => text,
        Err(_) => OTHER,
    }
}

fn are_plain(bytes: &[u8]) -> bool
    ensures { result ≡ list_all is_plain bytes.now }
{
    bytes.iter().all(|byte| is_plain(*byte))
}

/// Returns whether a byte is an ASCII letter, a digit or a space.
fn is_plain(byte: u8) -> bool
    ensures { result ≡ is_plain byte }
{
    matches!(byte, b'a'..=b'z' | b'A'..=b'Z' | b'0'..=b'9' | b' ')
}
