//! The rows read so far, and the conditions that they impose on the next row.

ghost use Rattle.std.specs.Prelude.{◌≡◌, ◌≤◌, ◌<◌, ◌+◌, ◌-◌, ◌++◌, [], ◌∷◌, ℕ, None, Some, IsSome, length, slice_index_or, slice_set, OnOk};
ghost use Rattle.coord_types.specs.declared.limits.TheConstants.{MAX_NODES, NODES};
ghost use Rattle.coord_world.specs.protocol.Rows.{degree, group_of};
ghost use Rattle.coord_codec.specs.Worlds.{can_link, first_rises, last_by, last_ends, second_rises};

use coord_types::{Group, MAX_DEGREE, NODES, NodeId};
use coord_world::{LinkRow, NodeRow};
use std::alloc::{AllocError, Global};

/// Returns the index of a node, counted from 0.
fn place_of(id: NodeId) -> usize
    ensures { result ≡ id - 1 }
{
    usize::from(id.number() - 1)
}

/// The rows of nodes read so far.
#[derive(Drop)]
pub struct NodesRead {
    pub rows: Vec<NodeRow>,
    /// The number of the last node, or 0 if there is none.
    last: u8,
    /// The group of each node that was read, at the node's index.
    groups: [Option<Group>; NODES],
    ghost last_row: { last ≡ last_by (λ r. r.id) 0 rows.items },
    ghost grouped: { (u : ℕ) → 1 ≤ u → u ≤ MAX_NODES → slice_index_or groups (u - 1) None ≡
        group_of rows.items u },
}

impl NodesRead {
    /// Returns an empty list of rows.
    pub fn new(alloc: Global) -> Self
        ensures { result.rows.items ≡ [] }
    {
        NodesRead {
            rows: Vec::new(alloc),
            last: 0,
            groups: [None; NODES],
        }
    }

    /// Returns the number of the last node, or 0 if there is none.
    pub fn last(&self) -> u8
        ensures { result ≡ last_by (λ r. r.id) 0 self.now.rows.items }
    {
        self.last
    }

    /// Returns the group of the node with this number, or None if no such node was read.
    fn group_of(&self, id: NodeId) -> Option<Group>
        ensures { result ≡ group_of self.now.rows.items id }
    {
        self.groups[place_of(id)]
    }

    /// Appends a row. If a node occurs twice, its first row gives its group.
    pub fn push(&mut self, row: NodeRow) -> Result<(), AllocError>
        ensures { OnOk result (self.new.rows.items ≡ self.old.rows.items ++ row ∷ []) }
    {
        let (id, group) = (row.id, row.group);
        self.rows.push(row)?;
        self.last = id.number();
        note_group(&mut self.groups, place_of(id), group);
        Ok(())
    }
}

/// Records the group of the node at an index, unless one is already recorded.
fn note_group(groups: &mut [Option<Group>; NODES], place: usize, group: Group)
    requires { place < NODES }
    ensures first { slice_index_or groups.old place None ≡ None →
        groups.new ≡ slice_set groups.old place (Some group) }
    ensures later { IsSome (slice_index_or groups.old place None) → groups.new ≡ groups.old }
{
    if groups[place].is_none() {
        groups[place] = Some(group);
    }
}

/// The rows of links read so far.
#[derive(Drop)]
pub struct LinksRead {
    pub rows: Vec<LinkRow>,
    /// The ends of the last link, or 0 and 0 if there is none.
    last: (u8, u8),
    /// The number of links of each node, at the node's index.
    degrees: [u8; NODES],
    ghost last_first: { last.0 ≡ (last_ends rows.items).0 },
    ghost last_second: { last.1 ≡ (last_ends rows.items).1 },
    ghost counted: { (u : ℕ) → 1 ≤ u → u ≤ MAX_NODES →
        slice_index_or degrees (u - 1) 0 ≡ degree u rows.items },
}

impl LinksRead {
    /// Returns an empty list of rows.
    pub fn new(alloc: Global) -> Self
        ensures { result.rows.items ≡ [] }
    {
        LinksRead {
            rows: Vec::new(alloc),
            last: (0, 0),
            degrees: [0; NODES],
        }
    }

    /// Tests whether a link with the lesser end `a` may follow these links: `a` is not below the
    /// lesser end of the last link.
    pub fn first_rises(&self, a: NodeId) -> bool
        ensures { result ≡ first_rises self.now.rows.items a }
    {
        self.last.0 <= a.number()
    }

    /// Tests whether the link of `a` and `b` may follow these links: `b` is above `a`, and the link
    /// is above the last link.
    pub fn second_rises(&self, a: NodeId, b: NodeId) -> bool
        ensures { result ≡ second_rises self.now.rows.items a b }
    {
        a < b && (a.number() != self.last.0 || b.number() > self.last.1)
    }

    /// Returns the number of links of this node.
    fn degree(&self, id: NodeId) -> usize
        ensures { result ≡ degree id self.now.rows.items }
    {
        usize::from(self.degrees[place_of(id)])
    }

    /// Appends a row.
    pub fn push(&mut self, row: LinkRow) -> Result<(), AllocError>
        requires { length self.old.rows.items < 255 }
        ensures { OnOk result (self.new.rows.items ≡ self.old.rows.items ++ row ∷ []) }
    {
        let (a, b) = (row.a, row.b);
        let (first, second) = (place_of(a), place_of(b));
        self.rows.push(row)?;
        self.last = (a.number(), b.number());
        raise_degree(&mut self.degrees, first);
        if first != second {
            raise_degree(&mut self.degrees, second);
        }
        Ok(())
    }
}

/// Counts one more link of the node at this index.
fn raise_degree(degrees: &mut [u8; NODES], place: usize)
    requires place { place < NODES }
    requires room { slice_index_or degrees.old place 0 < 255 }
    ensures { degrees.new ≡ slice_set degrees.old place (slice_index_or degrees.old place 0 + 1) }
{
    degrees[place] += 1;
}

/// Tests whether two nodes belong to one group, and each has room for another link.
pub fn can_link(nodes: &NodesRead, front: &LinksRead, a: NodeId, b: NodeId) -> bool
    ensures { result ≡ can_link nodes.now.rows.items front.now.rows.items record { 0 = a; 1 = b } }
{
    let one_group = match (nodes.group_of(a), nodes.group_of(b)) {
        (Some(first), Some(second)) => first == second,
        _ => false,
    };
    one_group && front.degree(a) < MAX_DEGREE && front.degree(b) < MAX_DEGREE
}
