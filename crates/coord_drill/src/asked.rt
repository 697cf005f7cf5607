//! What requests ask a drill to do.

ghost use Rattle.std.specs.Prelude.{◌≡◌};
ghost use Rattle.coord_world.specs.protocol.Outputs.{receipt};
ghost use Rattle.coord_drill.specs.Asked.{front, operator, next_number, asked};

use crate::request::Request;
use coord_types::{Client, DataPacket, NodeId, ReceiptPacket, Refusal, Step};
use coord_world::World;

/// What a request asks a drill to do.
#[derive(Clone, Copy)]
pub enum Asked {
    /// Submit a step.
    Submit(Step),
    /// Report this refusal, because the request names an absent lane.
    Refuse(Refusal),
    /// Do nothing, because the lane has no message.
    Nothing,
    /// Resend the packets that may have been lost.
    Resend,
    /// Check the front world.
    Check,
    /// Show the settled world.
    Show,
    /// Hold accepted steps back.
    Hold,
    /// Settle pending steps in one flight.
    Flush,
    /// Crash the disk and open it again.
    Crash,
    /// Start again over an empty store of version 2.
    Version2,
}

/// Returns what a request asks the drill to do in this front world.
pub fn wanted_by(front: &World, request: &Request) -> Asked
    ensures { result ≡ asked front.now request.now }
{
    match *request {
        Request::Next(command) => {
            let operator = operator();
            let number = next_number(front, operator);
            Asked::Submit(Step::Order(operator, number, command))
        }
        Request::Order(client, number, command) => {
            Asked::Submit(Step::Order(client, number, command))
        }
        Request::Take(from, to) => match front_packet(front, from, to) {
            Ok(Some(packet)) => Asked::Submit(Step::Take(packet)),
            Ok(None) => Asked::Nothing,
            Err(refusal) => Asked::Refuse(refusal),
        },
        Request::Clear(from, to) => match front_packet(front, from, to) {
            Ok(Some(packet)) => Asked::Submit(Step::Clear(receipt_of(packet))),
            Ok(None) => Asked::Nothing,
            Err(refusal) => Asked::Refuse(refusal),
        },
        Request::Data(packet) => Asked::Submit(Step::Take(packet)),
        Request::Receipt(packet) => Asked::Submit(Step::Clear(packet)),
        Request::Resend => Asked::Resend,
        Request::Check => Asked::Check,
        Request::Show => Asked::Show,
        Request::Hold => Asked::Hold,
        Request::Flush => Asked::Flush,
        Request::Crash => Asked::Crash,
        Request::Version2 => Asked::Version2,
    }
}

/// Returns the number of the client's next order: the number of its last order plus 1.
#[tactic(auto, unfolding(crate::specs::Asked::next_number))]
fn next_number(world: &World, client: Client) -> u64
    ensures { result ≡ next_number world.now client }
{
    // A client's last number is at most the count of steps.
    world.lemma_in_range();
    match world.last(client) {
        Some(session) => session.number + 1,
        None => 1,
    }
}

/// Returns the packet at the front of a lane, or None if the lane is empty. Errors: the nodes are
/// not linked.
#[tactic(auto, unfolding(crate::specs::Asked::front))]
fn front_packet(world: &World, from: NodeId, to: NodeId) -> Result<Option<DataPacket>, Refusal>
    ensures { result ≡ front world.now from to }
{
    // A lane's numbers are at most the count of steps.
    world.lemma_in_range();
    let Some(lane) = world.lane(from, to) else {
        return Err(Refusal::NoLink);
    };
    let Some((number, msg)) = lane.current() else {
        return Ok(None);
    };
    Ok(Some(DataPacket {
        from,
        to,
        inc: lane.inc(),
        number,
        msg,
    }))
}

/// Returns the operator, the client of orders that name no client, such as `reset 3`.
fn operator() -> Client
    ensures { result ≡ operator }
{
    Client::new(1).unwrap()
}

fn receipt_of(packet: DataPacket) -> ReceiptPacket
    ensures { result ≡ receipt packet }
{
    ReceiptPacket {
        from: packet.from,
        to: packet.to,
        inc: packet.inc,
        number: packet.number,
    }
}
