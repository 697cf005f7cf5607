//! Lists a world as rows.

ghost use Rattle.std.specs.Prelude.{◌≡◌, IfOk, map};
ghost use Rattle.coord_world.specs.protocol.Rows.{client_row, listed, node_row, rows_of};

use crate::rows::parts::{ClientRow, NodeRow, Parts};
use crate::tables::Tables;
use coord_node::Node;
use coord_types::{Client, NodeId, Session};
use std::alloc::{AllocError, Global};

impl Tables {
    /// Returns the rows of the world. Errors: out of memory.
    pub fn list(&self, alloc: Global) -> Result<Parts, AllocError>
        ensures { IfOk result (λ parts. listed parts ≡ rows_of self.now) }
    {
        Ok(Parts {
            version: self.version,
            count: self.count,
            nodes: node_rows(alloc, &self.nodes.entries(alloc)?)?,
            links: Vec::from_slice(alloc, self.links.rows())?,
            clients: client_rows(alloc, &self.sessions.entries(alloc)?)?,
        })
    }
}

fn node_rows(alloc: Global, nodes: &[(NodeId, Node)]) -> Result<Vec<NodeRow>, AllocError>
    ensures { IfOk result (λ rows. rows.items ≡ map node_row nodes.now) }
{
    let mut rows = Vec::with_capacity(alloc, nodes.len())?;
    for entry in nodes {
        rows.push(node_row(entry.0, &entry.1))?;
    }
    Ok(rows)
}

fn node_row(id: NodeId, node: &Node) -> NodeRow
    ensures { result ≡ node_row record { 0 = id; 1 = node.now } }
{
    NodeRow {
        id,
        group: node.group(),
        mode: node.mode(),
        parent: node.parent(),
        pend: node.pend(),
        epoch: node.epoch(),
        confirmed: node.confirmed(),
        distance: node.distance(),
    }
}

fn client_rows(alloc: Global, sessions: &[(Client, Session)]) -> Result<Vec<ClientRow>, AllocError>
    ensures { IfOk result (λ rows. rows.items ≡ map client_row sessions.now) }
{
    let row = |entry: &(Client, Session)| ClientRow {
        client: entry.0,
        session: entry.1,
    };
    sessions.iter().map(row).collect(alloc)
}
