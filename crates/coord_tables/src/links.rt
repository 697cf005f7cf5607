//! A link, as a row of the table of links and as a row of a world.

use coord_link::Lane;
use coord_types::NodeId;

/// A link's row: its ends, with `a` below `b`, and the lane in each direction.
#[derive(Clone, Copy, Debug)]
pub struct LinkRow {
    pub a: NodeId,
    pub b: NodeId,
    /// The lane from `a` to `b`.
    pub forth: Lane,
    /// The lane from `b` to `a`.
    pub back: Lane,
}
