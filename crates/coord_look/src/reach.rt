//! The nodes that are connected with a node.

ghost use Rattle.std.specs.Prelude.{◌≡◌, find};
ghost use Rattle.std.specs.Option.{option_copied};
ghost use Rattle.coord_look.specs.Reading.{AreConnected, crosses};

use coord_types::{NodeId, NodeSet};
use coord_view::LinkView;

/// Returns a link between one of these nodes and a node that is not one of them, if there is one.
fn crossing(links: &[LinkView], reached: NodeSet) -> Option<&LinkView>
    ensures { option_copied result ≡ find (crosses reached) links.now }
{
    links.iter().find(|link| reached.contains(link.a) != reached.contains(link.b))
}

/// Returns the set of this node and all nodes to which a path of links leads from it.
#[tactic(auto, using(crate::proofs::Reached::all_reached, crate::proofs::Reached::reaches_itself, crate::proofs::Reached::reaches_more, crate::proofs::Reached::smaller))]
pub fn connected(links: &[LinkView], node: NodeId) -> NodeSet
    ensures { AreConnected links.now node result }
{
    let mut reached = NodeSet::new().with(node);
    while let Some(link) = crossing(links, reached) {
        reached = reached.with(link.a).with(link.b);
    }
    reached
}
