//! The neighbours of each node, collected from the links.

ghost use Rattle.std.specs.Prelude.{◌≡◌, ◌-◌, slice_set};
ghost use Rattle.coord_types.specs.NodeSet as set;
ghost use Rattle.coord_types.specs.StepRanges.{IsNode};
ghost use Rattle.coord_world.specs.code.Assembly.{AreNear, near_in};

use coord_tables::LinkRow;
use coord_types::{NODES, NodeId, NodeSet};

/// The neighbours of each node. The set of node k is at index k - 1.
#[derive(Drop)]
pub struct Neighbours {
    pub sets: [NodeSet; NODES],
}

impl Neighbours {
    /// Returns the neighbours that these links give each node, in one pass over the links.
    pub fn by(links: &[LinkRow]) -> Self
        ensures { AreNear links.now result.sets }
    {
        let mut sets = [NodeSet::new(); NODES];
        for link in links {
            note(&mut sets, link.a, link.b);
            note(&mut sets, link.b, link.a);
        }
        Neighbours { sets }
    }

    /// Returns the neighbours of a node.
    pub fn of(&self, id: NodeId) -> NodeSet
        ensures { result ≡ near_in self.now.sets id }
    {
        self.sets[usize::from(id.number() - 1)]
    }
}

/// Adds a neighbour to the set of a node.
fn note(sets: &mut [NodeSet; NODES], id: NodeId, neighbour: NodeId)
    ensures set { sets.new ≡ slice_set sets.old (id - 1)
        (set.insert (near_in sets.old id) neighbour) }
    ensures node { IsNode id }
{
    let place = usize::from(id.number() - 1);
    sets[place] = sets[place].with(neighbour);
}
