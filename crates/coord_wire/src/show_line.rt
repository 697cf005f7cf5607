//! Reads the line that answers `show`.

ghost use Rattle.std.specs.Prelude.{◌≡◌, ◌≢◌, [], ◌∷◌, ◌++◌, Err, IfOk, OnOk, option_and_then};
ghost use Rattle.std.specs.Option.{option_map};
ghost use Rattle.serde_json.specs.View.{items_view, view};
ghost use Rattle.coord_wire.specs.ShowLine.{count_at, each, id_at, link_in, links_in, mode_at, mode_named, node_in, node_view, nodes_in, number_at, row_in, rows_at, shown_in, shown_of, up_to};
ghost use Rattle.coord_wire.specs.declared.answer_line.ReadFault.TheVariants.{OutOfMemory};

use crate::answer_line::ReadFault;
use coord_types::{Group, Identifier, MAX_NODES, Mode, NodeId};
use coord_view::{LinkView, NodeView, View};
use serde_json::Value;
use std::alloc::{AllocError, Global};

/// Returns the mode with this name, or None.
fn mode_named(name: &str) -> Option<Mode>
    ensures { result ≡ mode_named name.now }
{
    match name {
        "ready" => Some(Mode::Ready),
        "abort" => Some(Mode::Abort),
        "converge" => Some(Mode::Converge),
        _ => None,
    }
}

/// Returns the number at a place of a row, or None if there is no whole number from 0 to 2^64 - 1.
fn number_at(row: &Value, place: usize) -> Option<u64>
    ensures { result ≡ number_at place (view row.now) }
{
    row.get(place).and_then(Value::as_u64)
}

fn id_at<const MOST: u8>(row: &Value, place: usize) -> Option<Identifier<MOST>>
    ensures { result ≡ id_at place MOST (view row.now) }
{
    let number = number_at(row, place)?;
    Identifier::new(u8::try_from(number).ok()?)
}

/// Returns the number of the parent at a place of a row; 0 means that there is no parent. Returns
/// None if the value there is not a number from 0 to 64.
fn parent_at(row: &Value, place: usize) -> Option<u8>
    ensures { result ≡ option_and_then (up_to MAX_NODES) (number_at place (view row.now)) }
{
    let number = u8::try_from(number_at(row, place)?).ok()?;
    if number <= MAX_NODES {
        Some(number)
    } else {
        None
    }
}

fn mode_at(row: &Value, place: usize) -> Option<Mode>
    ensures { result ≡ mode_at place (view row.now) }
{
    mode_named(row.get(place).and_then(Value::as_str)?)
}

/// A node's row, with its parent as a number; 0 means that the node has no parent.
#[derive(Clone, Copy, Debug, PartialEq, Eq)]
pub struct NodeRow {
    node: NodeId,
    group: Group,
    mode: Mode,
    parent: u8,
    epoch: u64,
    confirmed: u64,
}

fn row_of(row: &Value) -> Option<NodeRow>
    ensures { result ≡ row_in (view row.now) }
{
    Some(NodeRow {
        node: id_at(row, 0)?,
        group: id_at(row, 1)?,
        mode: mode_at(row, 2)?,
        parent: parent_at(row, 3)?,
        epoch: number_at(row, 4)?,
        confirmed: number_at(row, 5)?,
    })
}

fn link_of(row: &Value) -> Option<LinkView>
    ensures { result ≡ link_in (view row.now) }
{
    Some(LinkView {
        a: id_at(row, 0)?,
        b: id_at(row, 1)?,
        inc: number_at(row, 2)?,
    })
}

/// Appends a node's row to the view.
fn push_node(nodes: &mut Vec<NodeView>, row: &NodeRow) -> Result<(), AllocError>
    ensures { OnOk result (nodes.new.items ≡ nodes.old.items ++ (node_view row.now ∷ [])) }
{
    nodes.push(NodeView {
        node: row.node,
        group: row.group,
        mode: row.mode,
        parent: NodeId::new(row.parent),
        epoch: row.epoch,
        confirmed: row.confirmed,
    })?;
    Ok(())
}

fn nodes_of(alloc: Global, rows: &[Value]) -> Result<Option<Vec<NodeView>>, AllocError>
    ensures { IfOk result (λ nodes. option_map (λ v. v.items) nodes ≡ each node_in (items_view rows.now)) }
{
    let mut nodes = Vec::new(alloc);
    for row in rows {
        let Some(row) = row_of(row) else {
            return Ok(None);
        };
        push_node(&mut nodes, &row)?;
    }
    Ok(Some(nodes))
}

fn links_of(alloc: Global, rows: &[Value]) -> Result<Option<Vec<LinkView>>, AllocError>
    ensures { IfOk result (λ links. option_map (λ v. v.items) links ≡ each link_in (items_view rows.now)) }
{
    let mut links = Vec::new(alloc);
    for row in rows {
        let Some(link) = link_of(row) else {
            return Ok(None);
        };
        links.push(link)?;
    }
    Ok(Some(links))
}

/// Returns the rows in the array at a name, or None if there is no array at that name.
fn rows_at<'a>(value: &'a Value, name: &str) -> Option<&'a [Value]>
    ensures { option_map (λ rows. items_view rows.now) result ≡ rows_at name.now (view value.now) }
{
    match value.get(name).and_then(Value::as_array) {
        Some(rows) => Some(rows.as_slice()),
        None => None,
    }
}

fn nodes_at(alloc: Global, value: &Value) -> Result<Option<Vec<NodeView>>, AllocError>
    ensures { IfOk result (λ nodes. option_map (λ v. v.items) nodes ≡ nodes_in (view value.now)) }
{
    match rows_at(value, "nodes") {
        Some(rows) => nodes_of(alloc, rows),
        None => Ok(None),
    }
}

fn links_at(alloc: Global, value: &Value) -> Result<Option<Vec<LinkView>>, AllocError>
    ensures { IfOk result (λ links. option_map (λ v. v.items) links ≡ links_in (view value.now)) }
{
    match rows_at(value, "links") {
        Some(rows) => links_of(alloc, rows),
        None => Ok(None),
    }
}

fn count_at(value: &Value, name: &str) -> Option<u64>
    ensures { result ≡ count_at name.now (view value.now) }
{
    value.get(name).and_then(Value::as_u64)
}

/// Returns the view that a line's value shows, or None if the line is not an answer to `show`.
fn shown_of(alloc: Global, value: &Value) -> Result<Option<View>, AllocError>
    ensures { IfOk result (λ shown. shown ≡ shown_of (view value.now)) }
{
    let Some(nodes) = nodes_at(alloc, value)? else {
        return Ok(None);
    };
    let Some(links) = links_at(alloc, value)? else {
        drop(nodes);
        return Ok(None);
    };
    match (count_at(value, "accepted"), count_at(value, "settled")) {
        (Some(accepted), Some(settled)) => Ok(Some(View {
            accepted,
            settled,
            nodes,
            links,
        })),
        _ => {
            drop(nodes);
            drop(links);
            Ok(None)
        }
    }
}

/// Returns the view in a line that answers `show`. Errors: out of memory, or `NoAnswer`.
#[tactic(auto, unfolding(crate::specs::ShowLine::shown_in))]
pub fn read_show(alloc: Global, text: &str) -> Result<View, ReadFault>
    ensures { result ≢ Err OutOfMemory → result ≡ shown_in text.now }
{
    match Value::from_str(alloc, text) {
        Ok(value) => match shown_of(alloc, &value) {
            Ok(Some(shown)) => Ok(shown),
            Ok(None) => Err(ReadFault::NoAnswer),
            Err(_) => Err(ReadFault::OutOfMemory),
        },
        Err(error) if error.is_memory() => Err(ReadFault::OutOfMemory),
        Err(_) => Err(ReadFault::NoAnswer),
    }
}
