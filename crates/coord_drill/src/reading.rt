//! Parses a line. Each row of the grammar's table is an arm here.

ghost use Rattle.std.specs.Prelude.{◌≡◌, map};
ghost use Rattle.coord_drill.specs.Drilled.{parsed};
ghost use Rattle.coord_drill.specs.Format.{ReadsWords, read_by};
ghost use Rattle.coord_drill.specs.Grammar.{commands, next_row, messages, requests, request_of, order_fields, data_fields, receipt_fields, version_fields};

use crate::request::Request;
use crate::words::Words;
use coord_types::{Command, DataPacket, Msg, ReceiptPacket, Version};
use std::str;

/// Returns the request that a line encodes in a drill of this version, or None for a bad line.
pub fn parse(version: Version, line: &[u8]) -> Option<Request>
    ensures { result ≡ parsed version line.now }
{
    match str::from_utf8(line) {
        Ok(text) => read_line(version, text),
        Err(_) => None,
    }
}

#[tactic(auto, unfolding(crate::specs::Grammar::request_of))]
fn read_line(version: Version, line: &str) -> Option<Request>
    ensures { result ≡ request_of version line.now }
{
    let mut words = Words::of(line);
    let verb = words.next()?;
    let request = read_request(version, verb, &mut words)?;
    match words.next() {
        Some(_) => None,
        None => Some(request),
    }
}

#[tactic(auto, unfolding(crate::specs::Grammar::other_requests))]
fn read_request(version: Version, verb: &str, words: &mut Words<'_>) -> Option<Request>
    ensures { ReadsWords (read_by (requests version) verb.now words.old) result words.new }
{
    match verb {
        "order" => read_order(words),
        "take" => Some(Request::Take(words.node()?, words.node()?)),
        "clear" => Some(Request::Clear(words.node()?, words.node()?)),
        "data" => read_data(version, words),
        "receipt" => read_receipt(words),
        "resend" => Some(Request::Resend),
        "check" => Some(Request::Check),
        "show" => Some(Request::Show),
        "hold" => Some(Request::Hold),
        "flush" => Some(Request::Flush),
        "crash" => Some(Request::Crash),
        "version" => read_version(words),
        _ => read_next(verb, words),
    }
}

#[tactic(auto, unfolding(crate::specs::Grammar::order_fields))]
fn read_order(words: &mut Words<'_>) -> Option<Request>
    ensures { ReadsWords (order_fields.read words.old) result words.new }
{
    let client = words.client()?;
    let number = words.number()?;
    let verb = words.next()?;
    Some(Request::Order(client, number, read_command(verb, words)?))
}

#[tactic(auto, unfolding(crate::specs::Grammar::data_fields))]
fn read_data(version: Version, words: &mut Words<'_>) -> Option<Request>
    ensures { ReadsWords ((data_fields version).read words.old) result words.new }
{
    let from = words.node()?;
    let to = words.node()?;
    let inc = words.number()?;
    let number = words.number()?;
    let name = words.next()?;
    let msg = read_message(version, name, words)?;
    Some(Request::Data(DataPacket {
        from,
        to,
        inc,
        number,
        msg,
    }))
}

#[tactic(auto, unfolding(crate::specs::Grammar::messages))]
fn read_message(version: Version, name: &str, words: &mut Words<'_>) -> Option<Msg>
    ensures { ReadsWords (read_by (messages version) name.now words.old) result words.new }
{
    match name {
        "abort" => Some(Msg::Abort(words.distance(version)?)),
        "ack" => Some(Msg::Ack),
        "ready" => Some(Msg::Ready),
        _ => None,
    }
}

#[tactic(auto, unfolding(crate::specs::Grammar::receipt_fields))]
fn read_receipt(words: &mut Words<'_>) -> Option<Request>
    ensures { ReadsWords (receipt_fields.read words.old) result words.new }
{
    Some(Request::Receipt(ReceiptPacket {
        from: words.node()?,
        to: words.node()?,
        inc: words.number()?,
        number: words.number()?,
    }))
}

#[tactic(auto, unfolding(crate::specs::Grammar::version_fields))]
fn read_version(words: &mut Words<'_>) -> Option<Request>
    ensures { ReadsWords (version_fields.read words.old) result words.new }
{
    match words.next()? {
        "2" => Some(Request::Version2),
        _ => None,
    }
}

/// Parses the words after a bare command's verb, and returns the command as an order of the operator.
#[tactic(auto, using(crate::proofs::requests::Spelled::read_by_next))]
fn read_next(verb: &str, words: &mut Words<'_>) -> Option<Request>
    ensures { ReadsWords (read_by (map next_row commands) verb.now words.old) result words.new }
{
    Some(Request::Next(read_command(verb, words)?))
}

#[tactic(auto, unfolding(crate::specs::Grammar::commands))]
fn read_command(verb: &str, words: &mut Words<'_>) -> Option<Command>
    ensures { ReadsWords (read_by commands verb.now words.old) result words.new }
{
    match verb {
        "add" => Some(Command::Add(words.node()?, words.group()?)),
        "remove" => Some(Command::Remove(words.node()?)),
        "join" => Some(Command::Join(words.node()?, words.node()?)),
        "drop" => Some(Command::Drop(words.node()?, words.node()?)),
        "reset" => Some(Command::Reset(words.node()?)),
        "confirm" => Some(Command::Confirm(words.node()?, words.number()?)),
        _ => None,
    }
}
