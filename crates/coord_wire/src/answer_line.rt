//! Reads the line of an answer.

ghost use Rattle.std.specs.Prelude.{◌≡◌, ◌≢◌, Err};
ghost use Rattle.serde_json.specs.View.{view};
ghost use Rattle.coord_wire.specs.AnswerLine.{answer_in, answer_of, reply_of, refusal_of};
ghost use Rattle.coord_wire.specs.declared.answer_line.ReadFault.TheVariants.{OutOfMemory};

use crate::names::{kind_named, refusal_named};
use coord_orders::Answer;
use coord_types::{Refusal, Reply};
use serde_json::Value;
use std::alloc::Global;

/// The reason why a line was not read.
#[derive(Clone, Copy, Debug, PartialEq, Eq)]
pub enum ReadFault {
    /// Memory ran out.
    OutOfMemory,
    /// The line is not an answer of the kind that is read: it is a fault, another answer, or not a line
    /// of the server.
    NoAnswer,
}

/// Returns the answer in a line. Other members of the JSON object are ignored. Errors: out of
/// memory, or `NoAnswer`.
#[tactic(auto, unfolding(crate::specs::AnswerLine::answer_in))]
pub fn read_answer(alloc: Global, text: &str) -> Result<Answer, ReadFault>
    ensures { result ≢ Err OutOfMemory → result ≡ answer_in text.now }
{
    match Value::from_str(alloc, text) {
        Ok(value) => match answer_of(&value) {
            Some(answer) => Ok(answer),
            None => Err(ReadFault::NoAnswer),
        },
        Err(error) if error.is_memory() => Err(ReadFault::OutOfMemory),
        Err(_) => Err(ReadFault::NoAnswer),
    }
}

fn answer_of(value: &Value) -> Option<Answer>
    ensures { result ≡ answer_of (view value.now) }
{
    match reply_of(value) {
        Some(reply) => Some(Answer::Replied(reply)),
        None => Some(Answer::Refused(refusal_of(value)?)),
    }
}

fn reply_of(value: &Value) -> Option<Reply>
    ensures { result ≡ reply_of (view value.now) }
{
    let kind = kind_named(value.get("kind").and_then(Value::as_str)?)?;
    let step = value.get("step").and_then(Value::as_u64)?;
    Some(Reply { step, kind })
}

fn refusal_of(value: &Value) -> Option<Refusal>
    ensures { result ≡ refusal_of (view value.now) }
{
    refusal_named(value.get("name").and_then(Value::as_str)?)
}
