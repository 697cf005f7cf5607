//! Writes the line of an event.

ghost use Rattle.std.specs.Prelude.{◌≡◌, ◌++◌, ◌∷◌, [], IfOk, OnErr, OnOk, decimal, codes, string_bytes};
ghost use Rattle.std.specs.Duration.{as_nanos};
ghost use Rattle.json.specs.Json.{number, string};
ghost use Rattle.json.specs.Token as token;
ghost use Rattle.json.specs.Tree.{json_tokens, members_tokens};
ghost use Rattle.proxy_audit.specs.Lines.{entry, excerpt, line_member, line_of, line_value, members_of, members_of_answer, seconds_member, value_or_excerpt, who_member};

use crate::event::{ClientLine, Event};
use crate::seconds::seconds_text;
use json::{Error, Scratch, Value, Writer};
use std::alloc::{AllocError, Global};
use std::mem;
use std::time::Duration;

/// Appends the line of an event that happened at `time`. Errors: out of memory; `text` is
/// unchanged.
pub fn append_line(
    alloc: Global,
    scratch: &mut Scratch,
    text: &mut Vec<u8>,
    time: &str,
    event: &Event<'_>,
) -> Result<(), AllocError>
    ensures ok { OnOk result (text.new.items ≡ text.old.items ++ line_of time.now event.now) }
    ensures err { OnErr result (text.new.items ≡ text.old.items) }
{
    let before = text.len();
    let mut writer = Writer::new(mem::replace(text, Vec::new(alloc)));
    let written = write_entry(alloc, scratch, &mut writer, time, event);
    *text = writer.into_inner();
    let ended = match written {
        Ok(()) => end_line(text),
        Err(error) => Err(error),
    };
    if ended.is_err() {
        text.truncate(before);
    }
    ended
}

fn end_line(text: &mut Vec<u8>) -> Result<(), AllocError>
    ensures ok { OnOk result (text.new.items ≡ text.old.items ++ 10 ∷ []) }
    ensures err { OnErr result (text.new.items ≡ text.old.items) }
{
    text.push(b'\n')?;
    Ok(())
}

fn write_entry(
    alloc: Global,
    scratch: &mut Scratch,
    writer: &mut Writer,
    time: &str,
    event: &Event<'_>,
) -> Result<(), AllocError>
    ensures ok { OnOk result (writer.new.tokens ≡ writer.old.tokens ++ json_tokens (entry time.now event.now)) }
    ensures before { writer.new.before ≡ writer.old.before }
{
    writer.begin_object()?;
    write_text(writer, "time", time)?;
    write_members(alloc, scratch, writer, event)
}

/// Writes the members of an event that follow its time, and ends the object.
fn write_members(
    alloc: Global,
    scratch: &mut Scratch,
    writer: &mut Writer,
    event: &Event<'_>,
) -> Result<(), AllocError>
    ensures ok { OnOk result (writer.new.tokens ≡ writer.old.tokens ++ members_tokens (members_of event.now)) }
    ensures before { writer.new.before ≡ writer.old.before }
{
    match event {
        Event::Starts => {
            write_text(writer, "event", "starts")?;
            writer.end_object()
        }
        Event::Begins { who } => {
            write_text(writer, "event", "begins")?;
            write_text(writer, "who", who)?;
            writer.end_object()
        }
        Event::Ends { who, lasted } => {
            write_text(writer, "event", "ends")?;
            write_text(writer, "who", who)?;
            write_seconds(alloc, writer, *lasted)
        }
        Event::Answered {
            who,
            line,
            answer,
            waited,
        } => {
            write_text(writer, "event", "answered")?;
            write_answer(alloc, scratch, writer, who, line, answer, *waited)
        }
        Event::Denied {
            who,
            line,
            answer,
            waited,
        } => {
            write_text(writer, "event", "denied")?;
            write_answer(alloc, scratch, writer, who, line, answer, *waited)
        }
        Event::Unanswered { who, line, waited } => {
            write_text(writer, "event", "unanswered")?;
            write_unanswered(alloc, scratch, writer, who, line, *waited)
        }
        Event::More { who, count } => {
            write_text(writer, "event", "more")?;
            write_text(writer, "who", who)?;
            writer.key("count")?;
            writer.u64(*count)?;
            writer.end_object()
        }
    }
}

fn write_answer(
    alloc: Global,
    scratch: &mut Scratch,
    writer: &mut Writer,
    who: &str,
    line: &ClientLine<'_>,
    answer: &[u8],
    waited: Duration,
) -> Result<(), AllocError>
    ensures ok { OnOk result (writer.new.tokens ≡ writer.old.tokens ++ members_tokens (members_of_answer who.now line.now answer.now (as_nanos waited))) }
    ensures before { writer.new.before ≡ writer.old.before }
{
    write_text(writer, "who", who)?;
    write_line(alloc, scratch, writer, line)?;
    write_value(alloc, scratch, writer, "answer", answer)?;
    write_seconds(alloc, writer, waited)
}

fn write_unanswered(
    alloc: Global,
    scratch: &mut Scratch,
    writer: &mut Writer,
    who: &str,
    line: &ClientLine<'_>,
    waited: Duration,
) -> Result<(), AllocError>
    ensures ok { OnOk result (writer.new.tokens ≡ writer.old.tokens ++ members_tokens (who_member who.now (line_member line.now (seconds_member (as_nanos waited))))) }
    ensures before { writer.new.before ≡ writer.old.before }
{
    write_text(writer, "who", who)?;
    write_line(alloc, scratch, writer, line)?;
    write_seconds(alloc, writer, waited)
}

fn write_line(
    alloc: Global,
    scratch: &mut Scratch,
    writer: &mut Writer,
    line: &ClientLine<'_>,
) -> Result<(), AllocError>
    ensures ok { OnOk result (writer.new.tokens ≡ writer.old.tokens ++ token.key (codes "line") ∷ json_tokens (line_value line.now)) }
    ensures before { writer.new.before ≡ writer.old.before }
{
    match line {
        ClientLine::Request(bytes) => write_value(alloc, scratch, writer, "line", bytes),
        ClientLine::Other(bytes) => write_excerpt(alloc, writer, "line", bytes),
        ClientLine::TooLong => write_text(writer, "line", ""),
    }
}

/// Writes a member whose value is the bytes as JSON, or a string of their first characters if they
/// are not JSON.
#[tactic(auto, using(crate::proofs::Values::no_value))]
fn write_value(
    alloc: Global,
    scratch: &mut Scratch,
    writer: &mut Writer,
    name: &str,
    bytes: &[u8],
) -> Result<(), AllocError>
    ensures ok { OnOk result (writer.new.tokens ≡ writer.old.tokens ++ token.key name.now ∷ json_tokens (value_or_excerpt bytes.now)) }
    ensures before { writer.new.before ≡ writer.old.before }
{
    match Value::from_slice(alloc, bytes, scratch) {
        Ok(value) => {
            writer.key(name)?;
            writer.value(&value)
        }
        Err(Error::Invalid) => write_excerpt(alloc, writer, name, bytes),
        Err(_) => Err(AllocError),
    }
}

fn write_excerpt(
    alloc: Global,
    writer: &mut Writer,
    name: &str,
    bytes: &[u8],
) -> Result<(), AllocError>
    ensures ok { OnOk result (writer.new.tokens ≡ writer.old.tokens ++ token.key name.now ∷ token.string (excerpt bytes.now) ∷ []) }
    ensures before { writer.new.before ≡ writer.old.before }
{
    let text = excerpt(alloc, bytes)?;
    write_text(writer, name, text.as_str())
}

/// Returns the first 64 characters of bytes that need not be valid UTF-8. Errors: out of memory.
fn excerpt(alloc: Global, bytes: &[u8]) -> Result<String, AllocError>
    ensures { IfOk result (λ text. string_bytes text ≡ excerpt bytes.now) }
{
    let text = String::from_utf8_lossy(alloc, bytes)?;
    format!(in alloc; "{text:.64}")
}

fn write_text(writer: &mut Writer, name: &str, text: &str) -> Result<(), AllocError>
    ensures ok { OnOk result (writer.new.tokens ≡ writer.old.tokens ++ token.key name.now ∷ token.string text.now ∷ []) }
    ensures before { writer.new.before ≡ writer.old.before }
{
    writer.key(name)?;
    writer.string(text)
}

/// Writes the member `seconds`, and ends the object.
fn write_seconds(alloc: Global, writer: &mut Writer, duration: Duration) -> Result<(), AllocError>
    ensures ok { OnOk result (writer.new.tokens ≡ writer.old.tokens ++ members_tokens (seconds_member (as_nanos duration))) }
    ensures before { writer.new.before ≡ writer.old.before }
{
    let text = seconds_text(alloc, duration)?;
    writer.key("seconds")?;
    writer.number(text.as_str())?;
    writer.end_object()
}
