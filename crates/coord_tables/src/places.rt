//! The index of the list of links: the place of each link, by its ends.

ghost use Rattle.std.specs.Prelude.{◌≡◌, ◌≤◌, ◌<◌, ◌^◌, ℕ, None, map, length, slice_index, OnOk, OnErr};
ghost use Rattle.std.specs.FinMap.Entries.{find};
ghost use Rattle.coord_types.specs.StepRanges.{IsNode};
ghost use Rattle.coord_tables.specs.Links.{ends, link_entry, link_place};
ghost use Rattle.coord_tables.specs.Pairs.{pair_cmp};
ghost use Rattle.coord_tables.specs.Place.{IsGapFor};
ghost use Rattle.coord_tables.specs.Places.{pair_place, IsIndexOf};

use crate::links::LinkRow;
use coord_types::{NODES, NodeId};
use std::alloc::AllocError;
use std::cmp::Ordering;

/// The number of ordered pairs of nodes.
pub const PAIRS: usize = NODES * NODES;

/// Returns the two nodes, the lesser first.
pub fn ends(x: NodeId, y: NodeId) -> (NodeId, NodeId)
    ensures { result ≡ ends x y }
{
    if x < y { (x, y) } else { (y, x) }
}

/// Returns the cell of a pair, which is below `PAIRS`.
fn pair_place(a: NodeId, b: NodeId) -> usize
    ensures value { result ≡ pair_place a b }
    ensures within { result < PAIRS }
    ensures from { IsNode a }
    ensures to { IsNode b }
{
    (a.number() as usize - 1) * NODES + (b.number() as usize - 1)
}

/// Returns the place of the link of two nodes, or None if they are not linked.
pub fn place_of(places: &[u8], x: NodeId, y: NodeId) -> Option<usize>
    ensures value { result ≡ link_place places.now x y }
    ensures first { IsNode (ends x y).0 }
    ensures second { IsNode (ends x y).1 }
{
    let (a, b) = ends(x, y);
    let pair = pair_place(a, b);
    if pair >= places.len() {
        return None;
    }
    let place = places[pair];
    if place == 0 {
        None
    } else {
        Some(place as usize - 1)
    }
}

/// Allocates the cells of all pairs if there are no cells yet. Recorded places are kept. Errors:
/// out of memory.
pub fn grow(places: &mut Vec<u8>) -> Result<(), AllocError>
    requires { length places.old.items ≤ PAIRS }
    ensures ok { OnOk result (length places.new.items ≡ PAIRS) }
    ensures most { length places.new.items ≤ PAIRS }
    ensures kept { (k : ℕ) → slice_index places.new.items k ≡ slice_index places.old.items k }
    ensures err { OnErr result (places.new.items ≡ places.old.items) }
{
    places.resize(PAIRS, 0)
}

/// Records the place of each of these links.
pub fn index_all(places: &mut Vec<u8>, links: &[LinkRow])
    requires whole { length places.old.items ≡ PAIRS }
    requires few { length links.now < 2 ^ 8 }
    ensures { IsIndexOf places.new.items (map link_entry links.now) }
{
    places.fill(0);
    for (at, link) in links.iter().enumerate() {
        let pair = pair_place(link.a, link.b);
        places[pair] = at as u8 + 1;
    }
}

/// Returns the place at which a new link from `a` to `b` must be inserted to keep the ascending
/// order.
pub fn place_for(links: &[LinkRow], a: NodeId, b: NodeId) -> usize
    requires { find pair_cmp record { 0 = a; 1 = b } (map link_entry links.now) ≡ None }
    ensures { IsGapFor pair_cmp (map link_entry links.now) record { 0 = a; 1 = b } result }
{
    for (at, link) in links.iter().enumerate() {
        if (a, b).cmp(&(link.a, link.b)) == Ordering::Less {
            return at;
        }
    }
    links.len()
}
