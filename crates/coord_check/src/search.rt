//! Searches for the first fault of a world.

ghost use Rattle.std.specs.Prelude.{◌≡◌, ◌↔◌, IsNone, IfSome, [], nat_lt, if◌then◌else◌};
ghost use Rattle.std.specs.List.{flat_map};
ghost use Rattle.coord_world.specs.protocol.Legal.{Legal};
ghost use Rattle.coord_world.specs.protocol.NumberedWorld.{state};
ghost use Rattle.coord_world.specs.protocol.Ranges.{InRange};
ghost use Rattle.coord_check.specs.Faults.{Fails, faults, first, link_faults, faults_from, node_faults, nodes_from};

use crate::letters::holds;
use crate::link_end::LinkEnd;
use crate::node_check::is_legal_node;
use crate::violation::{Letter, Violation};
use coord_types::{END_OF_NODES, NodeId, NodeSet};
use coord_world::World;

/// The letters of the predicates over links, in the order in which they are tested.
const LINK_LETTERS: [Letter; 8] = [
    Letter::A,
    Letter::B,
    Letter::C,
    Letter::D,
    Letter::E,
    Letter::F,
    Letter::G,
    Letter::H,
];

/// Returns the first fault of a world, or None if the world is legal. Nodes are tested first, in
/// ascending order. Then come the links, in ascending order of their lesser and then their greater
/// end: for each link the letters from A to H, each seen from the lesser end and then from the
/// greater end.
pub fn check(world: &World) -> Option<Violation>
    ensures first { result ≡ first (faults world.now) }
    ensures legal { IsNone result ↔ Legal world.now }
    ensures named { IfSome result (Fails world.now) }
{
    world.lemma_in_range();
    let count = world.count();
    if let Some(fault) = first_of_nodes(world, count) {
        return Some(fault);
    }
    first_of_links(world)
}

fn first_of_nodes(world: &World, count: u64) -> Option<Violation>
    requires { count ≡ world.now.count }
    ensures { result ≡ first (flat_map (node_faults world.now) (nodes_from 1)) }
{
    for number in 1..END_OF_NODES {
        let id = NodeId::new(number)?;
        if let Some(fault) = fault_of_node(world, count, id) {
            return Some(fault);
        }
    }
    None
}

fn fault_of_node(world: &World, count: u64, id: NodeId) -> Option<Violation>
    requires { count ≡ world.now.count }
    ensures { result ≡ first (node_faults world.now id) }
{
    let node = world.node(id)?;
    (!is_legal_node(node, count)).then_some(Violation {
        a: id,
        b: id,
        letter: Letter::N,
    })
}

fn first_of_links(world: &World) -> Option<Violation>
    requires { InRange world.now }
    ensures { result ≡ first (flat_map (faults_from world.now) (nodes_from 1)) }
{
    for number in 1..END_OF_NODES {
        let a = NodeId::new(number)?;
        if let Some(fault) = first_of_links_from(world, a) {
            return Some(fault);
        }
    }
    None
}

/// Returns the first fault of the links from a node to nodes with greater numbers.
fn first_of_links_from(world: &World, a: NodeId) -> Option<Violation>
    requires { InRange world.now }
    ensures { result ≡ first (faults_from world.now a) }
{
    let mut rest = neighbours_of(world, a);
    while let Some(b) = rest.first() {
        if let Some(fault) = first_of_link_up(world, a, b) {
            return Some(fault);
        }
        rest = rest.without(b);
    }
    None
}

fn neighbours_of(world: &World, a: NodeId) -> NodeSet
    ensures { result ≡ (state world.now a).neighbours }
{
    match world.node(a) {
        Some(node) => node.neighbours(),
        None => NodeSet::new(),
    }
}

/// Returns the first fault of the link from `a` to a node with a greater number, or None if `b` is
/// not greater.
fn first_of_link_up(world: &World, a: NodeId, b: NodeId) -> Option<Violation>
    requires { InRange world.now }
    ensures { result ≡ first (if nat_lt a b then link_faults world.now a b else []) }
{
    if a < b {
        first_of_link(world, a, b)
    } else {
        None
    }
}

fn first_of_link(world: &World, a: NodeId, b: NodeId) -> Option<Violation>
    requires { InRange world.now }
    ensures { result ≡ first (link_faults world.now a b) }
{
    let near = LinkEnd::of(world, a, b)?;
    let far = LinkEnd::of(world, b, a)?;
    for letter in LINK_LETTERS {
        if !holds(letter, &near, &far) {
            return Some(Violation { a, b, letter });
        }
        if !holds(letter, &far, &near) {
            return Some(Violation { a: b, b: a, letter });
        }
    }
    None
}
