//! Parses a client's line.

ghost use Rattle.std.specs.Prelude.{◌≡◌, ◌≢◌, Err, Some};
ghost use Rattle.std.specs.Option.{option_copied};
ghost use Rattle.std.specs.Str.{IsUtf8};
ghost use Rattle.serde_json.specs.View.{view};
ghost use Rattle.coord_admin.specs.declared.fault.LineFault.TheVariants.{OutOfMemory};
ghost use Rattle.coord_admin.specs.Stream.{IsText};
ghost use Rattle.proxy_request.specs.Requests.{asked_by, asked_in, confirm_of, request_by, request_of, reset_at_of, reset_of};

use crate::request::{Request, of_server};
use crate::usual::read_usual;
use coord_admin::{LineFault, identifier_at, member_count, number_at};
use serde_json::Value;
use std::alloc::Global;
use std::str;

/// Returns the request in a line, or the line's fault (docs/FORMATS.md, "Administration lines").
/// `line` is None if the line was over the length limit.
pub fn read_line(alloc: Global, line: Option<&[u8]>) -> Result<Request, LineFault>
    ensures value { result ≢ Err OutOfMemory → result ≡ asked_by (option_copied line.entry) }
    ensures memory { result ≡ Err OutOfMemory → IsText (option_copied line.entry) }
{
    match line {
        Some(bytes) => read_bytes(alloc, bytes),
        None => Err(LineFault::TooLong),
    }
}

fn read_bytes(alloc: Global, bytes: &[u8]) -> Result<Request, LineFault>
    ensures value { result ≢ Err OutOfMemory → result ≡ asked_by (Some bytes.now) }
    ensures memory { result ≡ Err OutOfMemory → IsUtf8 bytes.now }
{
    if let Some(request) = read_usual(bytes) {
        return Ok(request);
    }
    match str::from_utf8(bytes) {
        Ok(text) => read_text(alloc, text),
        Err(_) => Err(LineFault::BadText),
    }
}

#[tactic(auto, unfolding(crate::specs::Requests::asked_in))]
fn read_text(alloc: Global, text: &str) -> Result<Request, LineFault>
    ensures { result ≢ Err OutOfMemory → result ≡ asked_in text.now }
{
    match Value::from_str(alloc, text) {
        Ok(value) => read_request(&value),
        Err(error) if error.is_memory() => Err(LineFault::OutOfMemory),
        Err(_) => Err(LineFault::BadJson),
    }
}

fn read_request(value: &Value) -> Result<Request, LineFault>
    ensures { result ≡ request_of (view value.now) }
{
    match value.get("op").and_then(Value::as_str) {
        Some(name) => read_named(name, member_count(value), value),
        None => Err(LineFault::BadRequest),
    }
}

fn read_named(name: &str, members: usize, value: &Value) -> Result<Request, LineFault>
    ensures { result ≡ request_by name.now members (view value.now) }
{
    if name == "watch" {
        return if members == 1 {
            Ok(Request::Watch)
        } else {
            Err(LineFault::BadRequest)
        };
    }
    if name == "confirm" && members == 3 {
        return read_confirm(value).ok_or(LineFault::BadRequest);
    }
    if name == "reset" && members == 2 {
        return read_reset(value).ok_or(LineFault::BadRequest);
    }
    if name == "reset" && members == 3 {
        return read_reset_at(value).ok_or(LineFault::BadRequest);
    }
    match coord_admin::read_request(value) {
        Ok(request) => Ok(of_server(request)),
        Err(fault) => Err(fault),
    }
}

fn read_confirm(value: &Value) -> Option<Request>
    ensures { result ≡ confirm_of (view value.now) }
{
    Some(Request::Confirm(identifier_at(value, "node")?, number_at(value, "epoch")?))
}

fn read_reset(value: &Value) -> Option<Request>
    ensures { result ≡ reset_of (view value.now) }
{
    Some(Request::Reset(identifier_at(value, "node")?))
}

fn read_reset_at(value: &Value) -> Option<Request>
    ensures { result ≡ reset_at_of (view value.now) }
{
    Some(Request::ResetAt(identifier_at(value, "node")?, number_at(value, "epoch")?))
}
