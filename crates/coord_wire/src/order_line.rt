//! Prints the line of an order.

ghost use Rattle.std.specs.Prelude.{◌≡◌, ◌++◌, OnOk, string_bytes};
ghost use Rattle.coord_wire.specs.OrderLine.{add_line, confirm_line, head, link_line, node_line, number_member, order_line};

use coord_orders::Line;
use coord_types::{Client, Command, Group, NodeId};
use std::alloc::AllocError;

/// Appends the line for this order of this client.
pub fn print_order(text: &mut String, client: Client, line: &Line) -> Result<(), AllocError>
    ensures { OnOk result (string_bytes text.new ≡ string_bytes text.old ++ order_line client line.now) }
{
    let number = line.number;
    match line.command {
        Command::Add(node, group) => print_add(text, client, number, node, group),
        Command::Remove(node) => print_node(text, "remove", client, number, node),
        Command::Join(a, b) => print_link(text, "join", client, number, a, b),
        Command::Drop(a, b) => print_link(text, "drop", client, number, a, b),
        Command::Reset(node) => print_node(text, "reset", client, number, node),
        Command::Confirm(node, epoch) => print_confirm(text, client, number, node, epoch),
    }
}

/// Appends the members with which the line of every order begins.
#[tactic(auto, unfolding(crate::specs::OrderLine::head))]
fn print_head(text: &mut String, op: &str, client: Client, number: u64) -> Result<(), AllocError>
    ensures { OnOk result (string_bytes text.new ≡ string_bytes text.old ++ head op.now client number) }
{
    let by = client.number();
    write!(
        text,
        "{{\"op\":\"{op}\",\"client\":{by},\"number\":{number}"
    )
}

/// Appends a comma and a JSON member whose value is a number.
#[tactic(auto, unfolding(crate::specs::OrderLine::number_member))]
fn print_member(text: &mut String, name: &str, number: u64) -> Result<(), AllocError>
    ensures { OnOk result (string_bytes text.new ≡ string_bytes text.old ++ number_member name.now number) }
{
    write!(text, ",\"{name}\":{number}")
}

#[tactic(auto, unfolding(crate::specs::OrderLine::add_line))]
fn print_add(
    text: &mut String,
    client: Client,
    number: u64,
    node: NodeId,
    group: Group,
) -> Result<(), AllocError>
    ensures { OnOk result (string_bytes text.new ≡ string_bytes text.old ++ add_line client number node group) }
{
    print_head(text, "add", client, number)?;
    print_member(text, "node", node.number() as u64)?;
    print_member(text, "group", group.number() as u64)?;
    text.push_str("}\n")
}

#[tactic(auto, unfolding(crate::specs::OrderLine::confirm_line))]
fn print_confirm(
    text: &mut String,
    client: Client,
    number: u64,
    node: NodeId,
    epoch: u64,
) -> Result<(), AllocError>
    ensures { OnOk result (string_bytes text.new ≡ string_bytes text.old ++ confirm_line client number node epoch) }
{
    print_head(text, "confirm", client, number)?;
    print_member(text, "node", node.number() as u64)?;
    print_member(text, "epoch", epoch)?;
    text.push_str("}\n")
}

#[tactic(auto, unfolding(crate::specs::OrderLine::node_line))]
fn print_node(
    text: &mut String,
    op: &str,
    client: Client,
    number: u64,
    node: NodeId,
) -> Result<(), AllocError>
    ensures { OnOk result (string_bytes text.new ≡ string_bytes text.old ++ node_line op.now client number node) }
{
    print_head(text, op, client, number)?;
    print_member(text, "node", node.number() as u64)?;
    text.push_str("}\n")
}

#[tactic(auto, unfolding(crate::specs::OrderLine::link_line))]
fn print_link(
    text: &mut String,
    op: &str,
    client: Client,
    number: u64,
    a: NodeId,
    b: NodeId,
) -> Result<(), AllocError>
    ensures { OnOk result (string_bytes text.new ≡ string_bytes text.old ++ link_line op.now client number a b) }
{
    print_head(text, op, client, number)?;
    print_member(text, "a", a.number() as u64)?;
    print_member(text, "b", b.number() as u64)?;
    text.push_str("}\n")
}
