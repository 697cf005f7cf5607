//! What a member reads in a view.

ghost use Rattle.std.specs.Prelude.{◌≡◌, ◌++◌, find, IfOk, OnOk, None, Some, IfNone, IfSome};
ghost use Rattle.std.specs.List.{list_all};
ghost use Rattle.coord_view.specs.declared.view.NodeView.{NodeView};
ghost use Rattle.std.specs.Option.{option_copied};
ghost use Rattle.coord_look.specs.Reading.{IsReadOf, is_of, is_quiet, is_through, link_entries, node_entries, party_in};

use crate::reach::connected;
use coord_member::{Entry, Row};
use coord_types::{Mode, NodeId, NodeSet};
use coord_view::{LinkView, NodeView, View};
use std::alloc::{AllocError, Global};

/// What the member of a node reads in a view: its node's row, and its party, in which nodes come
/// before links, each in ascending order.
#[derive(Drop, Debug)]
pub struct Look {
    pub row: Row,
    pub party: Vec<Entry>,
}

/// Returns the row of a node, or None if the node does not exist.
fn row_of(nodes: &[NodeView], node: NodeId) -> Option<&NodeView>
    ensures { option_copied result ≡ find (is_of node) nodes.now }
{
    nodes.iter().find(|row| row.node == node)
}

/// Tests whether each of these nodes in the view is in no reset and has confirmed its epoch.
fn are_through(nodes: &[NodeView], reached: NodeSet) -> bool
    ensures { result ≡ list_all (is_through reached) nodes.now }
{
    nodes.iter().all(|row| {
        !reached.contains(row.node) || (row.mode == Mode::Ready && row.epoch == row.confirmed)
    })
}

/// Tests whether none of these nodes in the view is in a reset.
fn are_quiet(nodes: &[NodeView], reached: NodeSet) -> bool
    ensures { result ≡ list_all (is_quiet reached) nodes.now }
{
    nodes.iter().all(|row| !reached.contains(row.node) || row.mode == Mode::Ready)
}

/// Appends the entry of a node, if it is one of these nodes.
fn push_node(party: &mut Vec<Entry>, reached: NodeSet, row: &NodeView) -> Result<(), AllocError>
    ensures { OnOk result (party.new.items ≡ party.old.items ++ node_entries reached row.now) }
{
    if reached.contains(row.node) {
        party.push(Entry::Node {
            node: row.node.number() as u64,
            epoch: row.epoch,
        })?;
    }
    Ok(())
}

/// Appends the entry of a link, if it joins two of these nodes.
fn push_link(party: &mut Vec<Entry>, reached: NodeSet, link: &LinkView) -> Result<(), AllocError>
    ensures { OnOk result (party.new.items ≡ party.old.items ++ link_entries reached link.now) }
{
    if reached.contains(link.a) {
        party.push(Entry::Link {
            a: link.a.number() as u64,
            b: link.b.number() as u64,
            incarnation: link.inc,
        })?;
    }
    Ok(())
}

/// Returns the entries of these nodes and of the links between them, in the order of the view.
fn party_in(alloc: Global, view: &View, reached: NodeSet) -> Result<Vec<Entry>, AllocError>
    ensures { IfOk result (λ party. party.items ≡ party_in reached view.now) }
{
    let mut party = Vec::new(alloc);
    for row in &view.nodes {
        push_node(&mut party, reached, row)?;
    }
    for link in &view.links {
        push_link(&mut party, reached, link)?;
    }
    Ok(party)
}

/// Returns what the member of a node reads in a view, or None if the node does not exist.
pub fn look_of(alloc: Global, view: &View, node: NodeId) -> Result<Option<Look>, AllocError>
    ensures absent { IfOk result (λ found. IfNone found (find (is_of node) view.now.nodes ≡ None)) }
    ensures read { IfOk result (λ found. IfSome found (λ look. (own : NodeView) × ((find (is_of node) view.now.nodes ≡ Some own) × IsReadOf view.now node own look.row look.party.items))) }
{
    let Some(row) = row_of(&view.nodes, node) else {
        return Ok(None);
    };
    let reached = connected(&view.links, node);
    Ok(Some(Look {
        row: Row {
            epoch: row.epoch,
            confirmed: row.confirmed,
            through: are_through(&view.nodes, reached),
            quiet: are_quiet(&view.nodes, reached),
        },
        party: party_in(alloc, view, reached)?,
    }))
}
