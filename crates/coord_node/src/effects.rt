//! The effects of a call at a node.

ghost use Rattle.std.specs.Prelude.{◌≡◌, IfOk, false, [], ◌∷◌, map};
ghost use Rattle.coord_types.specs.NodeSet as set;

use coord_types::{Msg, NodeId, NodeSet};
use std::alloc::{AllocError, Global};

/// The messages to send, and whether the node finished a reset.
#[derive(Drop, Debug)]
pub struct Effects {
    /// The messages with their receivers, in ascending order of the receivers.
    pub sends: Vec<(NodeId, Msg)>,
    /// Whether the node entered its next epoch.
    pub finished: bool,
}

impl Effects {
    /// Returns effects without messages.
    pub(crate) fn idle(alloc: Global) -> Self
        ensures sends { result.sends.items ≡ [] }
        ensures finished { result.finished ≡ false }
    {
        Effects {
            sends: Vec::new(alloc),
            finished: false,
        }
    }

    /// Returns effects that send an Ack to one node.
    pub(crate) fn answer(alloc: Global, to: NodeId) -> Result<Self, AllocError>
        ensures sends { IfOk result (λ d. d.sends.items ≡ record { 0 = to; 1 = Msg.Ack } ∷ []) }
        ensures finished { IfOk result (λ d. d.finished ≡ false) }
    {
        let sends = vec![in alloc; (to, Msg::Ack)]?;
        Ok(Effects {
            sends,
            finished: false,
        })
    }
}

/// Returns effects that send this message to each of these nodes, in ascending order.
pub(crate) fn sends_to(
    alloc: Global,
    to: NodeSet,
    msg: Msg,
) -> Result<Vec<(NodeId, Msg)>, AllocError>
    ensures { IfOk result
        (λ sends. sends.items ≡ map (λ x. record { 0 = x; 1 = msg }) (set.items to)) }
{
    let mut sends = Vec::with_capacity(alloc, to.len())?;
    let mut rest = to;
    while let Some(id) = rest.first() {
        sends.push((id, msg))?;
        rest = rest.without(id);
    }
    Ok(sends)
}
