//! Writes replies.

ghost use Rattle.std.specs.Prelude.{◌≡◌, ◌++◌, [], List, ℕ, OnErr, OnOk};
ghost use Rattle.coord_lines.specs.Written.{IsFirstPart};
ghost use Rattle.coord_admin.specs.declared.answer.Answer.{Answer};
ghost use Rattle.coord_admin.specs.Replies.{line_bytes, made_bytes, reply_line, reply_lines};
ghost use Rattle.coord_admin.specs.Stream.{AreWritten, IsWritten, WritesPart};

use crate::answer::Answer;
use crate::duplex::{Duplex, NotWritten};
use crate::fault::LineFault;
use crate::replies::{refused, replied, resent, shown};
use std::alloc::{AllocError, Global};

/// The reply line for a close.
const CLOSED_LINE: &str = "{\"kind\":\"closed\"}\n";

/// A reply line.
#[derive(Drop)]
pub enum ReplyLine {
    /// A line whose text is fixed, so it needs no memory.
    Fixed(&'static str),
    Made(String),
}

impl ReplyLine {
    fn as_bytes(&self) -> &[u8]
        ensures { result.now ≡ line_bytes self.now }
    {
        match self {
            ReplyLine::Fixed(line) => line.as_bytes(),
            ReplyLine::Made(line) => line.as_bytes(),
        }
    }
}

/// Writes the reply line of an answer. If memory for the line runs out, writes the line that
/// reports out of memory.
pub fn write_answer<C: Duplex>(
    alloc: Global,
    connection: &mut C,
    answer: &Answer,
) -> Result<(), NotWritten>
    ensures ok { OnOk result ((returned : Answer) × IsWritten answer.now returned
        × C.exchanged connection.old [] (reply_line returned) connection.new) }
    ensures err { OnErr result ((returned : Answer) × IsWritten answer.now returned
        × WritesPart C.exchanged connection.old connection.new (reply_line returned)) }
    ensures failed { OnErr result (C.has_failed connection.new) }
{
    let line = line_of_answer(alloc, answer);
    connection.reply(line.as_bytes())
}

/// Writes the reply lines of answers in order, in one write if there is memory for that.
pub fn write_answers<C: Duplex>(
    alloc: Global,
    connection: &mut C,
    answers: &[Answer],
) -> Result<(), NotWritten>
    ensures whole { OnOk result ((returned : List Answer) × AreWritten answers.now returned
        × C.exchanged connection.old [] (reply_lines returned) connection.new) }
    ensures part { OnErr result ((returned : List Answer) × (part : List ℕ)
        × AreWritten answers.now returned × C.exchanged connection.old [] part connection.new
        × IsFirstPart part (reply_lines returned)) }
    ensures failed { OnErr result (C.has_failed connection.new) }
    ensures still { C.has_failed connection.old → C.has_failed connection.new }
    ensures end { C.has_ended connection.old → C.has_ended connection.new }
{
    let mut text = Vec::new(alloc);
    for answer in answers {
        let line = line_of_answer(alloc, answer);
        add_line(connection, &mut text, line.as_bytes())?;
    }
    connection.reply(&text)
}

/// Appends a line to the text to be written. If memory runs out, writes the text and then the line.
fn add_line<C: Duplex>(
    connection: &mut C,
    text: &mut Vec<u8>,
    line: &[u8],
) -> Result<(), NotWritten>
    ensures added { OnOk result ((out : List ℕ)
        × C.exchanged connection.old [] out connection.new
        × (text.old.items ++ line.now ≡ out ++ text.new.items)) }
    ensures part { OnErr result ((part : List ℕ)
        × C.exchanged connection.old [] part connection.new
        × IsFirstPart part (text.old.items ++ line.now)) }
    ensures failed { OnErr result (C.has_failed connection.new) }
    ensures still { C.has_failed connection.old → C.has_failed connection.new }
    ensures end { C.has_ended connection.old → C.has_ended connection.new }
{
    if text.extend_from_slice(line).is_ok() {
        return Ok(());
    }
    connection.reply(text)?;
    text.clear();
    connection.reply(line)
}

/// Returns the reply line of an answer. The lines for a close and for a fault need no memory.
fn line_of_answer(alloc: Global, answer: &Answer) -> ReplyLine
    ensures { (returned : Answer) × IsWritten answer.now returned × (line_bytes result ≡ reply_line returned) }
{
    match answer {
        Answer::Replied(reply) => made(replied(alloc, *reply)),
        Answer::Refused(refusal) => made(refused(alloc, *refusal)),
        Answer::Shown(view) => made(shown(alloc, view)),
        Answer::Resent(count) => made(resent(alloc, *count)),
        Answer::Closed => ReplyLine::Fixed(CLOSED_LINE),
        Answer::Faulted(fault) => ReplyLine::Fixed(fault.line()),
    }
}

fn made(line: Result<String, AllocError>) -> ReplyLine
    ensures { line_bytes result ≡ made_bytes line }
{
    match line {
        Ok(line) => ReplyLine::Made(line),
        Err(_) => ReplyLine::Fixed(LineFault::OutOfMemory.line()),
    }
}
