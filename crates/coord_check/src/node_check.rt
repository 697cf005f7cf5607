//! The predicate over one node.

ghost use Rattle.std.specs.Prelude.{◌≡◌};
ghost use Rattle.coord_world.specs.protocol.Legal.{awaits_rightly, has_right_parent, is_parent_near, is_distance_right, is_legal_node};

use coord_node::Node;
use coord_types::{Mode, NodeId, NodeSet};

/// Tests the predicate N for a node, in a world that has taken `count` steps.
pub(crate) fn is_legal_node(node: &Node, count: u64) -> bool
    ensures { result ≡ is_legal_node count node.now }
{
    let (pend, neighbours) = (node.pend(), node.neighbours());
    awaits_rightly(node.mode(), pend)
        && has_right_parent(node.mode(), node.parent())
        && is_parent_near(node.parent(), pend, neighbours)
        && pend.is_subset(neighbours)
        && node.confirmed() <= node.epoch()
        && node.epoch() <= count
        && is_distance_right(node.mode(), node.distance(), count)
}

/// Tests whether a node awaits acknowledgements if and only if it is in Abort.
fn awaits_rightly(mode: Mode, pend: NodeSet) -> bool
    ensures { result ≡ awaits_rightly mode pend }
{
    (mode == Mode::Abort) != pend.is_empty()
}

/// Tests whether a Ready node has no parent, and a Converge node has a parent.
fn has_right_parent(mode: Mode, parent: Option<NodeId>) -> bool
    ensures { result ≡ has_right_parent mode parent }
{
    match mode {
        Mode::Ready => parent.is_none(),
        Mode::Abort => true,
        Mode::Converge => parent.is_some(),
    }
}

/// Tests whether a Ready node has distance 0, and any other node a distance below the number of
/// steps.
fn is_distance_right(mode: Mode, distance: u64, count: u64) -> bool
    ensures { result ≡ is_distance_right mode distance count }
{
    match mode {
        Mode::Ready => distance == 0,
        Mode::Abort | Mode::Converge => distance < count,
    }
}

/// Tests whether the parent, if any, is a neighbour whose acknowledgement the node does not await.
fn is_parent_near(parent: Option<NodeId>, pend: NodeSet, neighbours: NodeSet) -> bool
    ensures { result ≡ is_parent_near parent pend neighbours }
{
    match parent {
        None => true,
        Some(parent) => !pend.contains(parent) && neighbours.contains(parent),
    }
}
