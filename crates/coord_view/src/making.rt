//! Makes the view of a world.

ghost use Rattle.std.specs.Prelude.{◌≡◌, map, IfOk};
ghost use Rattle.coord_view.specs.Shown.{link_view, node_view, shown};

use crate::view::{LinkView, NodeView, View};
use coord_world::{LinkRow, NodeRow, World};
use std::alloc::{AllocError, Global};

/// Returns the view's rows of these nodes.
fn node_views(alloc: Global, rows: &[NodeRow]) -> Result<Vec<NodeView>, AllocError>
    ensures { IfOk result (λ views. views.items ≡ map node_view rows.now) }
{
    let mut views = Vec::with_capacity(alloc, rows.len())?;
    for row in rows {
        views.push(NodeView {
            node: row.id,
            group: row.group,
            mode: row.mode,
            parent: row.parent,
            epoch: row.epoch,
            confirmed: row.confirmed,
        })?;
    }
    Ok(views)
}

/// Returns the view's rows of these links.
fn link_views(alloc: Global, rows: &[LinkRow]) -> Result<Vec<LinkView>, AllocError>
    ensures { IfOk result (λ views. views.items ≡ map link_view rows.now) }
{
    let mut views = Vec::with_capacity(alloc, rows.len())?;
    for row in rows {
        views.push(LinkView {
            a: row.a,
            b: row.b,
            inc: row.forth.inc(),
        })?;
    }
    Ok(views)
}

/// Returns the view of this settled world, with this number of accepted steps.
pub fn view_of(alloc: Global, accepted: u64, world: &World) -> Result<View, AllocError>
    ensures { IfOk result (λ view. view ≡ shown accepted world.now) }
{
    let parts = world.parts()?;
    Ok(View {
        accepted,
        settled: world.count(),
        nodes: node_views(alloc, &parts.nodes)?,
        links: link_views(alloc, &parts.links)?,
    })
}
