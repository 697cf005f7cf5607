//! The lines that a drill prints.

ghost use Rattle.std.specs.Prelude.{◌≡◌, ◌++◌, OnOk, string_bytes};
ghost use Rattle.coord_drill.specs.Printed.{bad_line, commit_line, count_line, fault_line, idle_line, opened_line, output_line, pending_line, refusal_line, reply_line};
ghost use Rattle.coord_types.specs.declared.outputs.Output.TheVariants.{Receipted, Sent};

use coord_check::Violation;
use coord_store::CommitFault;
use coord_types::{DataPacket, Msg, Output, ReceiptPacket, Refusal, Reply, Version};
use std::alloc::AllocError;

/// Appends the report of a bad line: its number, counted from 1.
pub fn print_bad_line(text: &mut String, number: u64) -> Result<(), AllocError>
    ensures { OnOk result (string_bytes text.new ≡ string_bytes text.old ++ bad_line number) }
{
    writeln!(text, "bad line {number}")
}

/// Appends the line of a reply: its kind and its step.
pub fn print_reply(text: &mut String, reply: Reply) -> Result<(), AllocError>
    ensures { OnOk result (string_bytes text.new ≡ string_bytes text.old ++ reply_line reply) }
{
    let kind = reply.kind.name();
    let step = reply.step;
    writeln!(text, "{kind} {step}")
}

/// Appends the result of a check: `legal`, or the violated predicate and its place.
pub fn print_fault(text: &mut String, fault: Option<Violation>) -> Result<(), AllocError>
    ensures { OnOk result (string_bytes text.new ≡ string_bytes text.old ++ fault_line fault) }
{
    match fault {
        None => text.push_str("legal\n"),
        Some(violation) => writeln!(text, "violated {violation}"),
    }
}

/// Appends the line for a step that is not settled yet.
pub fn print_pending(text: &mut String, step: u64) -> Result<(), AllocError>
    ensures { OnOk result (string_bytes text.new ≡ string_bytes text.old ++ pending_line step) }
{
    writeln!(text, "pending {step}")
}

/// Appends the line of a refusal: its number and its name.
pub fn print_refusal(text: &mut String, refusal: Refusal) -> Result<(), AllocError>
    ensures { OnOk result (string_bytes text.new ≡ string_bytes text.old ++ refusal_line refusal) }
{
    writeln!(text, "no {refusal}")
}

/// Appends the line for a lane that has nothing to take or to clear.
pub fn print_idle(text: &mut String) -> Result<(), AllocError>
    ensures { OnOk result (string_bytes text.new ≡ string_bytes text.old ++ idle_line) }
{
    text.push_str("idle\n")
}

/// Appends the line for a failed commit.
pub fn print_commit_fault(text: &mut String, fault: CommitFault) -> Result<(), AllocError>
    ensures { OnOk result (string_bytes text.new ≡ string_bytes text.old ++ commit_line fault) }
{
    let number = fault.number();
    writeln!(text, "commit {number} {fault}")
}

/// Appends the line with the number of settled steps.
pub fn print_count(text: &mut String, settled: u64) -> Result<(), AllocError>
    ensures { OnOk result (string_bytes text.new ≡ string_bytes text.old ++ count_line settled) }
{
    writeln!(text, "settled {settled}")
}

/// Appends the line for a store that was opened again, with its number of steps.
pub fn print_opened(text: &mut String, count: u64) -> Result<(), AllocError>
    ensures { OnOk result (string_bytes text.new ≡ string_bytes text.old ++ opened_line count) }
{
    writeln!(text, "opened {count}")
}

/// Appends the line of a packet or a signal that is sent in a world of this version.
pub fn print_output(text: &mut String, version: Version, output: &Output) -> Result<(), AllocError>
    ensures { OnOk result (string_bytes text.new ≡
        string_bytes text.old ++ output_line version output.now) }
{
    match *output {
        Output::Receipted(packet) => print_receipt(text, packet),
        Output::Signalled(id, epoch) => {
            let id = id.number();
            writeln!(text, "signal {id} {epoch}")
        }
        Output::Sent(packet) => print_data(text, version, packet),
    }
}

fn print_receipt(text: &mut String, packet: ReceiptPacket) -> Result<(), AllocError>
    ensures { OnOk result (string_bytes text.new ≡ string_bytes text.old ++ output_line 1
        (Receipted packet)) }
{
    let from = packet.from.number();
    let to = packet.to.number();
    let number = packet.number;
    writeln!(text, "receipt {from} {to} {number}")
}

fn print_data(text: &mut String, version: Version, packet: DataPacket) -> Result<(), AllocError>
    ensures { OnOk result (string_bytes text.new ≡ string_bytes text.old ++ output_line version
        (Sent packet)) }
{
    let from = packet.from.number();
    let to = packet.to.number();
    let number = packet.number;
    let word = packet.msg.name();
    match packet.msg {
        Msg::Abort(distance) if version.number() == 2 => {
            writeln!(text, "data {from} {to} {number} {word} {distance}")
        }
        _ => writeln!(text, "data {from} {to} {number} {word}"),
    }
}
