//! Parses a line.

ghost use Rattle.std.specs.Prelude.{◌≡◌, ◌≢◌, Err, Some};
ghost use Rattle.std.specs.Option.{option_copied};
ghost use Rattle.std.specs.Str.{IsUtf8};
ghost use Rattle.serde_json.specs.View.{view};
ghost use Rattle.coord_admin.specs.declared.fault.LineFault.TheVariants.{OutOfMemory};
ghost use Rattle.coord_admin.specs.Requests.{asked_by, asked_in, request_of, member_count};
ghost use Rattle.coord_admin.specs.Stream.{IsText};

use crate::fault::LineFault;
use crate::op::Op;
use crate::request::Request;
use serde_json::Value;
use std::alloc::Global;
use std::str;

/// Returns the request of a line, or the line's fault. `line` is None if the line was too long.
pub fn read_line(alloc: Global, line: Option<&[u8]>) -> Result<Request, LineFault>
    ensures value { result ≢ Err OutOfMemory → result ≡ asked_by (option_copied line.entry) }
    ensures memory { result ≡ Err OutOfMemory → IsText (option_copied line.entry) }
{
    match line {
        Some(bytes) => read_bytes(alloc, bytes),
        None => Err(LineFault::TooLong),
    }
}

fn read_bytes(alloc: Global, bytes: &[u8]) -> Result<Request, LineFault>
    ensures value { result ≢ Err OutOfMemory → result ≡ asked_by (Some bytes.now) }
    ensures memory { result ≡ Err OutOfMemory → IsUtf8 bytes.now }
{
    match str::from_utf8(bytes) {
        Ok(text) => read_text(alloc, text),
        Err(_) => Err(LineFault::BadText),
    }
}

#[tactic(auto, unfolding(crate::specs::Requests::asked_in))]
fn read_text(alloc: Global, text: &str) -> Result<Request, LineFault>
    ensures { result ≢ Err OutOfMemory → result ≡ asked_in text.now }
{
    match Value::from_str(alloc, text) {
        Ok(value) => read_request(&value),
        Err(error) if error.is_memory() => Err(LineFault::OutOfMemory),
        Err(_) => Err(LineFault::BadJson),
    }
}

/// Returns the request of a JSON value, or its fault.
pub fn read_request(value: &Value) -> Result<Request, LineFault>
    ensures { result ≡ request_of (view value.now) }
{
    let Some(name) = value.get("op").and_then(Value::as_str) else {
        return Err(LineFault::BadRequest);
    };
    let Some(op) = Op::named(name) else {
        return Err(LineFault::UnknownOp);
    };
    if member_count(value) != op.member_count() + 1 {
        return Err(LineFault::BadRequest);
    }
    match op.request(value) {
        Some(request) => Ok(request),
        None => Err(LineFault::BadRequest),
    }
}

/// Returns the number of an object's members, or 0 for any other value.
pub fn member_count(value: &Value) -> usize
    ensures { result ≡ member_count (view value.now) }
{
    match value.as_object() {
        Some(members) => members.len(),
        None => 0,
    }
}
