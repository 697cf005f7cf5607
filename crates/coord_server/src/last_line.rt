//! The last printed signal.

ghost use Rattle.std.specs.Prelude.{◌≡◌};
ghost use Rattle.coord_server.specs.Lines.{after_line, is_next, nothing_since};

use coord_types::NodeId;

/// The last printed signal: the number of its step, its node, and whether it was the second signal of that step. A step
/// sends at most two signals; two come only from the two ends of a dropped link.
#[derive(Clone, Copy, Debug, Drop)]
pub struct LastLine {
    pub step: u64,
    pub node: u8,
    pub is_second: bool,
}

impl LastLine {
    /// Returns the state of a printer that has printed nothing, and will print no signal of a step up to this one.
    pub fn since(step: u64) -> Self
        ensures { result ≡ nothing_since step }
    {
        LastLine {
            step,
            node: 0,
            is_second: true,
        }
    }

    /// Tests whether a signal of this step at this node may follow the last printed signal.
    pub fn is_before(self, step: u64, node: NodeId) -> bool
        ensures { result ≡ is_next self step node }
    {
        self.step < step || (self.step == step && !self.is_second && self.node != node.number())
    }

    /// Records this signal as the last one printed.
    pub fn then(self, step: u64, node: NodeId) -> Self
        ensures { result ≡ after_line self step node }
    {
        LastLine {
            step,
            node: node.number(),
            is_second: self.step == step,
        }
    }
}
