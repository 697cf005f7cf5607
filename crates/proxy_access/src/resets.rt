//! Resets that name an epoch: what a view says about each.

ghost use Rattle.std.specs.Prelude.{◌≡◌, find, IfOk};
ghost use Rattle.std.specs.List.{list_all};
ghost use Rattle.std.specs.Option.{option_copied};
ghost use Rattle.proxy_access.specs.Resets.{is_of, is_outside, judged_by, judged_from, judged_in, names_epoch, permits};

use coord_types::{Mode, NodeId, Refusal};
use coord_view::{NodeView, View};
use coord_wire::{ReadFault, read_show};
use proxy_request::Request;
use std::alloc::{AllocError, Global};
use std::str;

/// What becomes of a reset that names an epoch, according to a view.
#[derive(Clone, Copy, Debug, PartialEq, Eq)]
pub enum Judged {
    /// The node has the named epoch, and no reset is in progress: the reset may be sent.
    Goes,
    /// The node has the named epoch and takes part in no reset, but a reset is in progress elsewhere. Either the reset
    /// has not reached the node, or the node has already gone through it. A view that cannot be read gives this too.
    Waits,
    /// The node has the named epoch and takes part in a reset. The value is the number of settled steps.
    Joined(u64),
    /// The view has no such node, or the node has another epoch.
    Refused(Refusal),
}

/// Returns whether a request is a reset that names an epoch.
pub(crate) fn names_epoch(request: &Request) -> bool
    ensures { result ≡ names_epoch request.now }
{
    matches!(request, Request::ResetAt(_, _))
}

/// Returns whether a request is a reset that names an epoch, and the view in this line permits it. Errors: out of
/// memory.
pub(crate) fn permits(alloc: Global, view: &[u8], request: &Request) -> Result<bool, AllocError>
    ensures { IfOk result (λ may. may ≡ permits view.now request.now) }
{
    match request {
        Request::ResetAt(node, epoch) => {
            Ok(judge_line(alloc, view, *node, *epoch)? == Judged::Goes)
        }
        _ => Ok(false),
    }
}

/// Judges a reset of a node that names an epoch by the view in a line. If the line cannot be read as a view, the reset
/// waits. Errors: out of memory.
pub fn judge_line(
    alloc: Global,
    view: &[u8],
    node: NodeId,
    epoch: u64,
) -> Result<Judged, AllocError>
    ensures { IfOk result (λ judged. judged ≡ judged_from view.now node epoch) }
{
    match str::from_utf8(view) {
        Ok(text) => judge_text(alloc, text, node, epoch),
        Err(_) => Ok(Judged::Waits),
    }
}

fn judge_text(alloc: Global, text: &str, node: NodeId, epoch: u64) -> Result<Judged, AllocError>
    ensures { IfOk result (λ judged. judged ≡ judged_in text.now node epoch) }
{
    match read_show(alloc, text) {
        Ok(shown) => Ok(judge(&shown, node, epoch)),
        Err(ReadFault::OutOfMemory) => Err(AllocError),
        Err(ReadFault::NoAnswer) => Ok(Judged::Waits),
    }
}

fn judge(view: &View, node: NodeId, epoch: u64) -> Judged
    ensures { result ≡ judged_by view.now node epoch }
{
    let Some(row) = row_of(&view.nodes, node) else {
        return Judged::Refused(Refusal::UnknownNode);
    };
    if row.epoch != epoch {
        Judged::Refused(Refusal::BadEpoch)
    } else if row.mode != Mode::Ready {
        Judged::Joined(view.settled)
    } else if are_ready(&view.nodes) {
        Judged::Goes
    } else {
        Judged::Waits
    }
}

/// Returns the row of a node in a view, or None if the view has no such node.
fn row_of(nodes: &[NodeView], node: NodeId) -> Option<&NodeView>
    ensures { option_copied result ≡ find (is_of node) nodes.now }
{
    nodes.iter().find(|row| row.node == node)
}

/// Returns whether no node takes part in a reset.
fn are_ready(nodes: &[NodeView]) -> bool
    ensures { result ≡ list_all is_outside nodes.now }
{
    nodes.iter().all(|row| row.mode == Mode::Ready)
}
