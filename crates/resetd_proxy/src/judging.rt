//! What the loop does with a reset that names an epoch, according to a view.

ghost use Rattle.std.specs.Prelude.{◌≡◌, false, IfOk, Some, string_bytes};
ghost use Rattle.coord_admin.specs.Replies.{reply as reply_data};
ghost use Rattle.coord_admin.specs.declared.answer.Answer.TheVariants as answer;
ghost use Rattle.proxy_access.specs.Resets.{judged_from};
ghost use Rattle.serde_json.specs.View.{view};
ghost use Rattle.serde_json.specs.Written.{compact_text, has_float};
ghost use Rattle.resetd_proxy.specs.Judging.{Gives, IsAnswer};

use coord_types::{Kind, NodeId, Refusal, Reply};
use proxy_access::{Judged, judge_line};
use proxy_loop::Verdict;
use serde_json::{Value, json};
use std::alloc::{AllocError, Global};

/// Judges a reset of a node that names an epoch by the view in a line. If the line cannot be read as a view, the reset
/// waits. Errors: out of memory.
pub(crate) fn judge_reset(
    alloc: Global,
    view: &[u8],
    node: NodeId,
    epoch: u64,
) -> Result<Verdict, AllocError>
    ensures { IfOk result (λ verdict. Gives verdict (judged_from view.now node epoch)) }
{
    verdict_of(alloc, judge_line(alloc, view, node, epoch)?)
}

/// Returns what the loop does with a reset that has this judgement. Errors: out of memory.
fn verdict_of(alloc: Global, judged: Judged) -> Result<Verdict, AllocError>
    ensures { IfOk result (λ verdict. Gives verdict judged) }
{
    match judged {
        Judged::Goes => Ok(Verdict::Goes),
        Judged::Waits => Ok(Verdict::Waits),
        Judged::Joined(step) => {
            let kind = Kind::Joined;
            let text = replied(alloc, Reply { step, kind })?;
            answer(alloc, text.as_str())
        }
        Judged::Refused(refusal) => {
            let text = refused(alloc, refusal)?;
            answer(alloc, text.as_str())
        }
    }
}

/// Returns a reply as an answer line, without its line feed. Errors: out of memory.
fn replied(alloc: Global, reply: Reply) -> Result<String, AllocError>
    ensures { IfOk result (λ text. string_bytes text ≡ compact_text (reply_data (answer.Replied reply))) }
{
    text_of(
        alloc,
        &json!(in alloc; {"kind": reply.kind.name(), "step": reply.step})?,
    )
}

/// Returns a refusal as an answer line, without its line feed. Errors: out of memory.
fn refused(alloc: Global, refusal: Refusal) -> Result<String, AllocError>
    ensures { IfOk result (λ text. string_bytes text ≡ compact_text (reply_data (answer.Refused refusal))) }
{
    text_of(
        alloc,
        &json!(in alloc; {"name": refusal.name(), "refused": refusal.number()})?,
    )
}

fn text_of(alloc: Global, value: &Value) -> Result<String, AllocError>
    requires { has_float (view value.now) ≡ false }
    ensures { IfOk result (λ text. string_bytes text ≡ compact_text (view value.now)) }
{
    value.to_string(alloc)
}

fn answer(alloc: Global, text: &str) -> Result<Verdict, AllocError>
    ensures { IfOk result (λ verdict. IsAnswer verdict (Some text.now)) }
{
    Ok(Verdict::Answer(Vec::from_slice(alloc, text.as_bytes())?))
}
