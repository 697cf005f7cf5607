//! One end of a link.

ghost use Rattle.std.specs.Prelude.{◌≡◌, IfSome, is_some};
ghost use Rattle.coord_world.specs.protocol.NumberedWorld.{is_linked};
ghost use Rattle.coord_world.specs.protocol.Ranges.{InRange};
ghost use Rattle.coord_check.specs.LinkEnds.{link_end};

use coord_link::Lane;
use coord_types::{Mode, NodeId};
use coord_world::World;

/// One end of a link: what its node stores about the other end, and the lane to the other end.
#[derive(Drop)]
pub(crate) struct LinkEnd {
    pub mode: Mode,
    /// Whether the node awaits an acknowledgement from the other end.
    pub awaits: bool,
    /// Whether the other end is the node's parent.
    pub child: bool,
    pub distance: u64,
    /// The distance that an Abort from the node carries.
    pub carries: u64,
    pub lane: Lane,
}

impl LinkEnd {
    /// Returns the end at `from` of its link to `to`, or None if there is no link.
    pub fn of(world: &World, from: NodeId, to: NodeId) -> Option<LinkEnd>
        requires { InRange world.now }
        ensures linked { is_linked world.now from to ≡ is_some result }
        ensures value { IfSome result (λ end. end ≡ link_end world.now from to) }
    {
        let lane = world.lane(from, to)?;
        let node = world.node(from)?;
        Some(LinkEnd {
            mode: node.mode(),
            awaits: node.pend().contains(to),
            child: node.parent() == Some(to),
            distance: node.distance(),
            carries: node.carries(world.version()),
            lane: *lane,
        })
    }
}
