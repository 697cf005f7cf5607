//! The lines of a view.

ghost use Rattle.std.specs.Prelude.{◌≡◌, ◌++◌, OnOk, string_bytes};
ghost use Rattle.coord_view.specs.Printed.{link_line, node_line, view_lines};

use crate::view::{LinkView, NodeView, View};
use std::alloc::AllocError;

/// Appends the lines of a view: the numbers of accepted and settled steps, the nodes and the links.
pub fn print_view(text: &mut String, view: &View) -> Result<(), AllocError>
    ensures { OnOk result (string_bytes text.new ≡ string_bytes text.old ++ view_lines view.now) }
{
    let accepted = view.accepted;
    let settled = view.settled;
    writeln!(text, "view {accepted} {settled}")?;
    for node in &view.nodes {
        print_node(text, node)?;
    }
    for link in &view.links {
        print_link(text, link)?;
    }
    Ok(())
}

fn print_node(text: &mut String, view: &NodeView) -> Result<(), AllocError>
    ensures { OnOk result (string_bytes text.new ≡ string_bytes text.old ++ node_line view.now) }
{
    let node = view.node.number();
    let group = view.group.number();
    let mode = view.mode.name();
    let parent = match view.parent {
        Some(parent) => parent.number(),
        None => 0,
    };
    let epoch = view.epoch;
    let confirmed = view.confirmed;
    writeln!(
        text,
        "node {node} {group} {mode} {parent} {epoch} {confirmed}"
    )
}

fn print_link(text: &mut String, view: &LinkView) -> Result<(), AllocError>
    ensures { OnOk result (string_bytes text.new ≡ string_bytes text.old ++ link_line view.now) }
{
    let a = view.a.number();
    let b = view.b.number();
    let inc = view.inc;
    writeln!(text, "link {a} {b} {inc}")
}
