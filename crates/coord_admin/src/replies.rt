//! Makes reply lines with `serde_json`.

ghost use Rattle.std.specs.Prelude.{◌≡◌, ◌++◌, false, codes, IfOk, string_bytes};
ghost use Rattle.serde_json.specs.View.{view};
ghost use Rattle.serde_json.specs.Written.{has_float, compact_text};
ghost use Rattle.coord_admin.specs.declared.answer.Answer.TheVariants as answer;
ghost use Rattle.coord_admin.specs.Replies.{reply, reply_line, node_row, link_row, rows};

use coord_types::{Refusal, Reply};
use coord_view::{LinkView, NodeView, View};
use serde_json::{Value, json};
use std::alloc::{AllocError, Global};

/// Returns the line of an order's reply.
pub fn replied(alloc: Global, reply: Reply) -> Result<String, AllocError>
    ensures { IfOk result (λ line. string_bytes line ≡ reply_line (answer.Replied reply)) }
{
    line_of(
        alloc,
        &json!(in alloc; {"kind": reply.kind.name(), "step": reply.step})?,
    )
}

/// Returns the line of a refusal.
pub fn refused(alloc: Global, refusal: Refusal) -> Result<String, AllocError>
    ensures { IfOk result (λ line. string_bytes line ≡ reply_line (answer.Refused refusal)) }
{
    line_of(
        alloc,
        &json!(in alloc; {"name": refusal.name(), "refused": refusal.number()})?,
    )
}

/// Returns the line for this number of resent packets.
pub fn resent(alloc: Global, count: u64) -> Result<String, AllocError>
    ensures { IfOk result (λ line. string_bytes line ≡ reply_line (answer.Resent count)) }
{
    line_of(alloc, &json!(in alloc; {"count": count, "kind": "resent"})?)
}

/// Returns the line of a view.
pub fn shown(alloc: Global, world: &View) -> Result<String, AllocError>
    ensures { IfOk result (λ line. string_bytes line ≡ reply_line (answer.Shown world.now)) }
{
    line_of(alloc, &shown_value(alloc, world)?)
}

fn shown_value(alloc: Global, world: &View) -> Result<Value, AllocError>
    ensures { IfOk result (λ value. view value ≡ reply (answer.Shown world.now)) }
{
    json!(in alloc; {
        "accepted": world.accepted,
        "links": link_rows(alloc, world.links.as_slice())?,
        "nodes": node_rows(alloc, world.nodes.as_slice())?,
        "settled": world.settled
    })
}

fn line_of(alloc: Global, value: &Value) -> Result<String, AllocError>
    requires { has_float (view value.now) ≡ false }
    ensures { IfOk result (λ line. string_bytes line ≡
        compact_text (view value.now) ++ codes "\n") }
{
    let mut line = value.to_string(alloc)?;
    line.push('\n')?;
    Ok(line)
}

fn node_rows(alloc: Global, nodes: &[NodeView]) -> Result<Value, AllocError>
    ensures { IfOk result (λ value. view value ≡ rows node_row nodes.now) }
{
    let mut rows = Vec::new(alloc);
    for node in nodes {
        rows.push(node_row(alloc, *node)?)?;
    }
    Ok(Value::Array(rows))
}

fn node_row(alloc: Global, node: NodeView) -> Result<Value, AllocError>
    ensures { IfOk result (λ value. view value ≡ node_row node) }
{
    let id = node.node.number();
    let parent = match node.parent {
        Some(parent) => parent.number(),
        None => 0,
    };
    let mode = json!(in alloc; node.mode.name())?;
    let row = [
        id.into(),
        node.group.number().into(),
        mode,
        parent.into(),
        node.epoch.into(),
        node.confirmed.into(),
    ];
    Ok(Value::Array(Vec::from_array(alloc, row)?))
}

fn link_rows(alloc: Global, links: &[LinkView]) -> Result<Value, AllocError>
    ensures { IfOk result (λ value. view value ≡ rows link_row links.now) }
{
    let mut rows = Vec::new(alloc);
    for link in links {
        rows.push(link_row(alloc, *link)?)?;
    }
    Ok(Value::Array(rows))
}

fn link_row(alloc: Global, link: LinkView) -> Result<Value, AllocError>
    ensures { IfOk result (λ value. view value ≡ link_row link) }
{
    let row = [
        link.a.number().into(),
        link.b.number().into(),
        link.inc.into(),
    ];
    Ok(Value::Array(Vec::from_array(alloc, row)?))
}
