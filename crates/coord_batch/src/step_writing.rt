//! Encodes commands, packets and steps.

ghost use Rattle.std.specs.Prelude.{◌≡◌, ℕ, ◌-◌, ◌^◌, ◌++◌, [], ◌∷◌, OnOk};
ghost use Rattle.std.specs.Int.{w64, to_be_bytes};
ghost use Rattle.coord_types.specs.Messages.{carried};
ghost use Rattle.coord_batch.specs.Fields.{distance, message, message_tag};
ghost use Rattle.coord_types.specs.StepRanges.{CommandInRange, IsNode};
ghost use Rattle.coord_batch.specs.Steps.{command, data_packet, receipt_packet, step};
ghost use Rattle.coord_batch.specs.Batches.{StepFits, IsWritable};

use coord_types::{Command, DataPacket, Msg, NodeId, ReceiptPacket, Step, Version};
use std::alloc::AllocError;

/// Appends the byte of a command's form, and its first node.
fn put_form(out: &mut Vec<u8>, form: u8, id: NodeId) -> Result<(), AllocError>
    ensures ok { OnOk result (out.new.items ≡ out.old.items ++ form ∷ id ∷ []) }
    ensures fits { OnOk result (IsNode id) }
{
    out.extend_from_slice(&[form, id.number()])
}

/// Appends a command's encoding.
#[tactic(auto, unfolding(crate::specs::Steps::command, crate::specs::Steps::command_case, crate::specs::Fields::node, crate::specs::Fields::group))]
pub fn put_command(out: &mut Vec<u8>, order: &Command) -> Result<(), AllocError>
    ensures spelled { OnOk result (out.new.items ≡ out.old.items ++ command.text order.now) }
    ensures fits { OnOk result (CommandInRange order.now) }
{
    match *order {
        Command::Add(id, group) => {
            put_form(out, 0, id)?;
            out.push(group.number())?;
        }
        Command::Remove(id) => put_form(out, 1, id)?,
        Command::Join(a, b) => {
            put_form(out, 2, a)?;
            out.push(b.number())?;
        }
        Command::Drop(a, b) => {
            put_form(out, 3, a)?;
            out.push(b.number())?;
        }
        Command::Reset(id) => put_form(out, 4, id)?,
        Command::Confirm(id, epoch) => {
            put_form(out, 5, id)?;
            out.extend_from_slice(&epoch.to_be_bytes())?;
        }
    }
    Ok(())
}

/// Appends the beginning of every packet: the ends of its lane, the lane's incarnation, and a number.
fn put_address(
    out: &mut Vec<u8>,
    from: NodeId,
    to: NodeId,
    inc: u64,
    number: u64,
) -> Result<(), AllocError>
    ensures spelled { OnOk result
        (out.new.items ≡ out.old.items ++ from ∷ to ∷ to_be_bytes w64 inc ++
        to_be_bytes w64 number) }
    ensures fits { OnOk result (IsNode from × IsNode to) }
{
    out.extend_from_slice(&[from.number(), to.number()])?;
    out.extend_from_slice(&inc.to_be_bytes())?;
    out.extend_from_slice(&number.to_be_bytes())?;
    Ok(())
}

/// Returns the byte that names a message.
fn message_byte(msg: Msg) -> u8
    ensures { result ≡ message_tag msg }
{
    match msg {
        Msg::Abort(_) => 0,
        Msg::Ack => 1,
        Msg::Ready => 2,
    }
}

/// Appends a message's encoding: its byte, and in version 2 the distance of an Abort.
#[tactic(auto, unfolding(crate::specs::Fields::message, crate::specs::Fields::message_case, crate::specs::Fields::distance, crate::specs::Fields::unless, crate::specs::Fields::at_most))]
pub fn put_message(out: &mut Vec<u8>, version: Version, msg: Msg) -> Result<(), AllocError>
    ensures spelled { (most : ℕ) →
        OnOk result (out.new.items ≡ out.old.items ++ (message version most).text msg) }
    ensures fits { (version ≡ 1 → carried msg ≡ 0) →
        OnOk result ((distance version (2 ^ 64 - 1)).Fits (carried msg)) }
{
    out.push(message_byte(msg))?;
    match msg {
        Msg::Abort(distance) => {
            if version.number() != 1 {
                out.extend_from_slice(&distance.to_be_bytes())?;
            }
        }
        Msg::Ack | Msg::Ready => {}
    }
    Ok(())
}

#[tactic(auto, using(std::proofs::Common::append_assoc), unfolding(crate::specs::Steps::data_packet, crate::specs::Fields::node))]
fn put_data_packet(
    out: &mut Vec<u8>,
    version: Version,
    packet: DataPacket,
) -> Result<(), AllocError>
    requires { IsWritable version (Step.Take packet) }
    ensures spelled { OnOk result (out.new.items ≡
        out.old.items ++ (data_packet version).text packet) }
    ensures fits { OnOk result (StepFits version (Step.Take packet)) }
{
    put_address(out, packet.from, packet.to, packet.inc, packet.number)?;
    put_message(out, version, packet.msg)
}

#[tactic(auto, unfolding(crate::specs::Steps::receipt_packet, crate::specs::Fields::node))]
fn put_receipt_packet(out: &mut Vec<u8>, packet: ReceiptPacket) -> Result<(), AllocError>
    ensures spelled { OnOk result (out.new.items ≡ out.old.items ++ receipt_packet.text packet) }
    ensures fits { OnOk result (StepFits 2 (Step.Clear packet)) }
{
    put_address(out, packet.from, packet.to, packet.inc, packet.number)
}

#[tactic(auto, unfolding(crate::specs::Steps::step, crate::specs::Steps::step_case, crate::specs::Steps::order, crate::specs::Fields::client, crate::specs::Fields::from_one))]
pub(crate) fn put_step(out: &mut Vec<u8>, version: Version, taken: &Step) -> Result<(), AllocError>
    requires { IsWritable version taken.now }
    ensures spelled { OnOk result (out.new.items ≡ out.old.items ++ (step version).text taken.now) }
    ensures fits { OnOk result (StepFits version taken.now) }
{
    match *taken {
        Step::Order(client, number, command) => {
            out.extend_from_slice(&[0, client.number()])?;
            out.extend_from_slice(&number.to_be_bytes())?;
            put_command(out, &command)
        }
        Step::Take(packet) => {
            out.push(1)?;
            put_data_packet(out, version, packet)
        }
        Step::Clear(packet) => {
            out.push(2)?;
            put_receipt_packet(out, packet)
        }
    }
}
