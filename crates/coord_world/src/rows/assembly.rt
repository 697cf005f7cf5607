//! Makes the tables of a world from its rows.

ghost use Rattle.std.specs.Prelude.{◌≡◌, true, IfOk, map};
ghost use Rattle.std.specs.Ordering.{nat_cmp};
ghost use Rattle.std.specs.FinMap.Entries.{is_sorted};
ghost use Rattle.coord_types.specs.Table as table;
ghost use Rattle.coord_world.specs.protocol.Rows.{RowsFit, by_client, by_id, listed};
ghost use Rattle.coord_world.specs.code.Assembly.{assembled, client_entry, entry_with, near_in, state_with};

use crate::rows::neighbours::Neighbours;
use crate::rows::parts::{ClientRow, NodeRow, Parts};
use crate::tables::Tables;
use coord_node::{Node, NodeFields};
use coord_tables::{LinkTable, NodeTable, SessionTable};
use coord_types::{Client, NodeId, Session};
use std::alloc::{AllocError, Global};

impl Tables {
    /// Returns the tables with these rows. Errors: out of memory.
    pub fn assemble(alloc: Global, parts: Parts) -> Result<Tables, AllocError>
        requires { RowsFit (listed parts) }
        ensures { IfOk result (λ tables. tables ≡ assembled (listed parts)) }
    {
        let Parts {
            version,
            count,
            nodes,
            links,
            clients,
        } = parts;
        let near = Neighbours::by(&links);
        let nodes = node_table(alloc, nodes, &near)?;
        let sessions = session_table(alloc, clients)?;
        let links = LinkTable::from_rows(links)?;
        Ok(Tables {
            version,
            count,
            nodes,
            links,
            sessions,
        })
    }
}

/// Returns the nodes in these rows, with these neighbours.
fn node_table(alloc: Global, rows: Vec<NodeRow>, near: &Neighbours) -> Result<NodeTable, AllocError>
    requires { is_sorted nat_cmp (by_id rows.items) ≡ true }
    ensures { IfOk result (λ nodes. nodes ≡
        table.from_sorted (map (entry_with (near_in near.now.sets)) rows.items)) }
{
    let nodes = nodes_of(alloc, &rows, near)?;
    NodeTable::from_sorted(alloc, &nodes)
}

/// Returns each client's last order.
fn session_table(alloc: Global, rows: Vec<ClientRow>) -> Result<SessionTable, AllocError>
    requires { is_sorted nat_cmp (by_client rows.items) ≡ true }
    ensures { IfOk result (λ sessions. sessions ≡ table.from_sorted (map client_entry rows.items)) }
{
    let sessions = sessions_of(alloc, &rows)?;
    SessionTable::from_sorted(alloc, &sessions)
}

fn nodes_of(
    alloc: Global,
    rows: &[NodeRow],
    near: &Neighbours,
) -> Result<Vec<(NodeId, Node)>, AllocError>
    ensures { IfOk result (λ nodes. nodes.items ≡
        map (entry_with (near_in near.now.sets)) rows.now) }
{
    let mut nodes = Vec::with_capacity(alloc, rows.len())?;
    for row in rows {
        nodes.push((row.id, node_of(row, near)))?;
    }
    Ok(nodes)
}

fn node_of(row: &NodeRow, near: &Neighbours) -> Node
    ensures { result ≡ state_with (near_in near.now.sets) row.now }
{
    Node::restore(NodeFields {
        group: row.group,
        mode: row.mode,
        parent: row.parent,
        pend: row.pend,
        neighbours: near.of(row.id),
        epoch: row.epoch,
        confirmed: row.confirmed,
        distance: row.distance,
    })
}

fn sessions_of(alloc: Global, rows: &[ClientRow]) -> Result<Vec<(Client, Session)>, AllocError>
    ensures { IfOk result (λ sessions. sessions.items ≡ map client_entry rows.now) }
{
    rows.iter()
        .map(|row| (row.client, row.session))
        .collect(alloc)
}
