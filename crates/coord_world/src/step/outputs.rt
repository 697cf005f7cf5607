//! The outputs of a step, computed before the step is carried out, and the resend list.

ghost use Rattle.std.specs.Prelude.{◌≡◌, ◌<◌, ◌-◌, ◌^◌, ◌∷◌, [], ◌++◌, length, IfOk, OnOk};
ghost use Rattle.std.specs.List.{All};
ghost use Rattle.std.specs.Option.{ForSome};
ghost use Rattle.coord_tables.specs.Links.{lane_at, lanes_in_order};
ghost use Rattle.coord_world.specs.protocol.Outputs.{again_by, all_again, receipt};
ghost use Rattle.coord_world.specs.code.Fronts.{AreNumbered, HasNumber, by_lesser, front_after, front_sent, fronts_sent};
ghost use Rattle.coord_world.specs.code.NodeTransitions.{signal_of};

use crate::step::node_transition::NodeTransition;
use coord_link::Lane;
use coord_tables::LinkTable;
use coord_types::{DataPacket, Msg, NodeId, Output, ReceiptPacket};
use std::alloc::{AllocError, Global};

/// Appends the receipt of a data packet.
pub fn push_receipt(packet: &DataPacket, outputs: &mut Vec<Output>) -> Result<(), AllocError>
    ensures { OnOk result (outputs.new.items ≡ outputs.old.items ++ Output.Receipted
        (receipt packet.now) ∷ []) }
{
    outputs.push(Output::Receipted(ReceiptPacket {
        from: packet.from,
        to: packet.to,
        inc: packet.inc,
        number: packet.number,
    }))?;
    Ok(())
}

/// Appends the signal of a node, if its transition finished a reset.
pub fn push_signal(
    node_transition: &NodeTransition,
    outputs: &mut Vec<Output>,
) -> Result<(), AllocError>
    ensures { OnOk result (outputs.new.items ≡ outputs.old.items ++ signal_of node_transition.now) }
{
    if node_transition.effects.finished {
        outputs.push(Output::Signalled(node_transition.id, node_transition.node.epoch()))?;
    }
    Ok(())
}

/// Appends the packets of a node's messages that become fronts, in ascending order of their lanes.
pub fn push_fronts(
    links: &LinkTable,
    node_transition: &NodeTransition,
    outputs: &mut Vec<Output>,
) -> Result<(), AllocError>
    requires { AreNumbered links.now }
    ensures { OnOk result (outputs.new.items ≡
        outputs.old.items ++ fronts_sent links.now node_transition.now.id
        node_transition.now.effects.sends.items) }
{
    for send in &node_transition.effects.sends {
        push_front(links, node_transition.id, send.0, send.1, outputs)?;
    }
    Ok(())
}

/// Appends the packets of the messages that become fronts at the two ends of a link, the lesser end first.
pub fn push_fronts_of_both(
    links: &LinkTable,
    first: &NodeTransition,
    second: &NodeTransition,
    outputs: &mut Vec<Output>,
) -> Result<(), AllocError>
    requires { AreNumbered links.now }
    ensures { OnOk result (outputs.new.items ≡
        outputs.old.items ++ by_lesser first.now.id second.now.id
        (fronts_sent links.now first.now.id first.now.effects.sends.items)
        (fronts_sent links.now second.now.id second.now.effects.sends.items)) }
{
    if first.id < second.id {
        push_fronts(links, first, outputs)?;
        push_fronts(links, second, outputs)
    } else {
        push_fronts(links, second, outputs)?;
        push_fronts(links, first, outputs)
    }
}

/// Appends the packet of a message if the lane is empty, so that the message becomes the front.
fn push_front(
    links: &LinkTable,
    from: NodeId,
    to: NodeId,
    msg: Msg,
    outputs: &mut Vec<Output>,
) -> Result<(), AllocError>
    requires { AreNumbered links.now }
    ensures { OnOk result (outputs.new.items ≡
        outputs.old.items ++ front_sent (lane_at links.now from to) record { 0 = from; 1 = to } msg) }
{
    let Some(lane) = links.lane(from, to) else {
        return Ok(());
    };
    if lane.queue().is_empty() {
        outputs.push(Output::Sent(DataPacket {
            from,
            to,
            inc: lane.inc(),
            number: lane.base() + 1,
            msg,
        }))?;
    }
    Ok(())
}

/// Returns the packet of the message after a lane's front, if there is one. That message becomes the front when the
/// present front is cleared.
pub fn front_after(
    alloc: Global,
    links: &LinkTable,
    from: NodeId,
    to: NodeId,
) -> Result<Vec<Output>, AllocError>
    requires there { ForSome (lane_at links.now from to) (λ l. 0 < length l.queue) }
    requires numbered { ForSome (lane_at links.now from to) (λ l. l.base < 2 ^ 64 - 2) }
    ensures { IfOk result (λ outputs. outputs.items ≡
        front_after (lane_at links.now from to) record { 0 = from; 1 = to }) }
{
    let Some(lane) = links.lane(from, to) else {
        return Ok(Vec::new(alloc));
    };
    let Some((number, msg)) = lane.next() else {
        return Ok(Vec::new(alloc));
    };
    let packet = DataPacket {
        from,
        to,
        inc: lane.inc(),
        number,
        msg,
    };
    Ok(vec![in alloc; Output::Sent(packet)]?)
}

/// Appends the packets that a lane resends: its front, and the receipt of the front if the other end has taken the
/// front.
fn push_again(entry: &((NodeId, NodeId), Lane), outputs: &mut Vec<Output>) -> Result<(), AllocError>
    requires { HasNumber entry.now }
    ensures { OnOk result (outputs.new.items ≡
        outputs.old.items ++ again_by entry.now.0 entry.now.1 entry.now.1.queue) }
{
    let ((from, to), lane) = *entry;
    let Some((number, msg)) = lane.current() else {
        return Ok(());
    };
    let inc = lane.inc();
    outputs.push(Output::Sent(DataPacket {
        from,
        to,
        inc,
        number,
        msg,
    }))?;
    if lane.is_front_taken() {
        outputs.push(Output::Receipted(ReceiptPacket {
            from,
            to,
            inc,
            number,
        }))?;
    }
    Ok(())
}

/// Appends the packets that all lanes resend, in ascending order of the lanes.
pub fn push_all_again(
    alloc: Global,
    links: &LinkTable,
    outputs: &mut Vec<Output>,
) -> Result<(), AllocError>
    requires { All HasNumber (lanes_in_order links.now) }
    ensures { OnOk result (outputs.new.items ≡
        outputs.old.items ++ all_again (lanes_in_order links.now)) }
{
    let lanes = links.lanes_in_order(alloc)?;
    for entry in &lanes {
        push_again(entry, outputs)?;
    }
    Ok(())
}
