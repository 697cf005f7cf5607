//! Reads `confirm` and `reset` lines in the spelling that clients print, without a JSON parser.

ghost use Rattle.std.specs.Prelude.{◌≡◌, ◌≤◌, ◌++◌, ◌<◌, ◌^◌, IfSome, Ok, Some, codes, decimal, true};
ghost use Rattle.proxy_request.specs.Requests.{asked_by};

use crate::request::Request;
use coord_types::{Command, Identifier};
use itoa::Buffer;

/// Returns the request in a line that is spelled as clients print it. None implies nothing: the line may be a request
/// in another spelling.
pub(crate) fn read_usual(line: &[u8]) -> Option<Request>
    ensures { IfSome result (λ request. asked_by (Some line.now) ≡ Ok request) }
{
    if let Some(request) = read_confirm(line) {
        return Some(request);
    }
    if let Some(request) = read_reset(line) {
        return Some(request);
    }
    if let Some(request) = read_reset_at(line) {
        return Some(request);
    }
    if let Some(request) = read_numbered_confirm(line) {
        return Some(request);
    }
    read_numbered_reset(line)
}

fn read_confirm(line: &[u8]) -> Option<Request>
    ensures { IfSome result (λ request. asked_by (Some line.now) ≡ Ok request) }
{
    let (node, rest) = number_after(line, b"{\"op\":\"confirm\",\"node\":")?;
    let (epoch, rest) = number_after(rest, b",\"epoch\":")?;
    let node = identifier(node)?;
    if is_end(rest) {
        return Some(Request::Confirm(node, epoch));
    }
    None
}

fn read_reset(line: &[u8]) -> Option<Request>
    ensures { IfSome result (λ request. asked_by (Some line.now) ≡ Ok request) }
{
    let (node, rest) = number_after(line, b"{\"op\":\"reset\",\"node\":")?;
    let node = identifier(node)?;
    if is_end(rest) {
        return Some(Request::Reset(node));
    }
    None
}

fn read_reset_at(line: &[u8]) -> Option<Request>
    ensures { IfSome result (λ request. asked_by (Some line.now) ≡ Ok request) }
{
    let (node, rest) = number_after(line, b"{\"op\":\"reset\",\"node\":")?;
    let (epoch, rest) = number_after(rest, b",\"epoch\":")?;
    let node = identifier(node)?;
    if is_end(rest) {
        return Some(Request::ResetAt(node, epoch));
    }
    None
}

fn read_numbered_confirm(line: &[u8]) -> Option<Request>
    ensures { IfSome result (λ request. asked_by (Some line.now) ≡ Ok request) }
{
    let (client, rest) = number_after(line, b"{\"op\":\"confirm\",\"client\":")?;
    let (number, rest) = number_after(rest, b",\"number\":")?;
    let (node, rest) = number_after(rest, b",\"node\":")?;
    let (epoch, rest) = number_after(rest, b",\"epoch\":")?;
    let client = identifier(client)?;
    let node = identifier(node)?;
    if is_end(rest) {
        return Some(Request::Order(client, number, Command::Confirm(node, epoch)));
    }
    None
}

fn read_numbered_reset(line: &[u8]) -> Option<Request>
    ensures { IfSome result (λ request. asked_by (Some line.now) ≡ Ok request) }
{
    let (client, rest) = number_after(line, b"{\"op\":\"reset\",\"client\":")?;
    let (number, rest) = number_after(rest, b",\"number\":")?;
    let (node, rest) = number_after(rest, b",\"node\":")?;
    let client = identifier(client)?;
    let node = identifier(node)?;
    if is_end(rest) {
        return Some(Request::Order(client, number, Command::Reset(node)));
    }
    None
}

fn is_end(rest: &[u8]) -> bool
    ensures { result ≡ true → rest.now ≡ codes "}" }
{
    rest == b"}".as_slice()
}

/// Returns the identifier with this number, if there is one.
fn identifier<const MOST: u8>(number: u64) -> Option<Identifier<MOST>>
    ensures value { IfSome result (λ identifier. identifier ≡ number) }
    ensures within { IfSome result (λ _. (1 ≤ number) × (number ≤ MOST)) }
{
    Identifier::new(u8::try_from(number).ok()?)
}

/// Returns the number that follows this text at the start of the bytes, and the bytes after the number.
fn number_after<'b>(bytes: &'b [u8], text: &[u8]) -> Option<(u64, &'b [u8])>
    ensures text { IfSome result (λ found. bytes.now ≡ text.now ++ (decimal found.0 ++ found.1.now)) }
    ensures word { IfSome result (λ found. found.0 < 2 ^ 64) }
{
    let rest = after_text(bytes, text)?;
    let number = first_number(rest);
    let mut buffer = Buffer::new();
    let rest = after_text(rest, buffer.format(number).as_bytes())?;
    Some((number, rest))
}

/// Returns the number that the digits at the start of the bytes spell, modulo 2^64.
fn first_number(bytes: &[u8]) -> u64 {
    let mut number = 0u64;
    for byte in bytes {
        if !byte.is_ascii_digit() {
            break;
        }
        number = number.wrapping_mul(10).wrapping_add((*byte - b'0') as u64);
    }
    number
}

/// Returns the bytes after this text, if the bytes begin with it.
fn after_text<'b>(bytes: &'b [u8], text: &[u8]) -> Option<&'b [u8]>
    ensures { IfSome result (λ rest. bytes.now ≡ text.now ++ rest.now) }
{
    bytes.strip_prefix(text)
}
