//! Encodes worlds, row by row.

ghost use Rattle.std.specs.Prelude.{◌≡◌, ◌≤◌, ℕ, List, ◌++◌, [], ◌∷◌, length, OnOk};
ghost use Rattle.std.specs.List.{flat_map};
ghost use Rattle.std.specs.Int.{w64, to_be_bytes};
ghost use Rattle.coord_batch.specs.Fields.{distance, message};
ghost use Rattle.coord_link.specs.declared.lane.TheConstants.{PLACES};
ghost use Rattle.coord_codec.specs.Worlds.{clients, content_of_lane, kind_number, lane, link_row, links, most_distance, nodes, parent_number, queue};
ghost use Rattle.coord_codec.specs.ByNumber.{HasKeysTo, entry_at, node_text, session_text};
ghost use Rattle.coord_types.specs.NodeState.{mode_number};
ghost use Rattle.coord_types.specs.Table.{entries, len};
ghost use Rattle.coord_world.specs.protocol.Ranges.{InRange};
ghost use Rattle.coord_world.specs.protocol.Rows.{rows_of};

use coord_batch::{put_command, put_message};
use coord_link::Lane;
use coord_node::Node;
use coord_tables::SlotTable;
use coord_types::{Identifier, Kind, Mode, Msg, NodeId, Session, Version};
use coord_world::{LinkRow, World};
use std::alloc::AllocError;

/// An entry of one of a world's tables, such as a node or a client's last order. Each entry is
/// encoded as a row.
trait Row: Copy {
    /// The encoding of the entry's row, given the version and the entry with its number.
    ghost text: { ℕ → ℕ × Self → List ℕ };

    fn put(&self, out: &mut Vec<u8>, version: Version, number: u8) -> Result<(), AllocError>
        ensures { OnOk result (out.new.items ≡ out.old.items ++ text version record {
          0 = number;
          1 = self.now;
        }) };
}

impl Row for Node {
    ghost text = { node_text };

    fn put(&self, out: &mut Vec<u8>, version: Version, number: u8) -> Result<(), AllocError> {
        put_node_row(out, version, number, self)
    }
}

impl Row for Session {
    ghost text = { session_text };

    fn put(&self, out: &mut Vec<u8>, version: Version, number: u8) -> Result<(), AllocError> {
        put_client_row(out, version, number, self)
    }
}

fn mode_byte(mode: Mode) -> u8
    ensures { result ≡ mode_number mode }
{
    match mode {
        Mode::Ready => 0,
        Mode::Abort => 1,
        Mode::Converge => 2,
    }
}

/// Returns the byte of a kind of reply. Only the kinds of replies to orders have a byte.
fn kind_byte(kind: Kind) -> u8
    ensures { result ≡ kind_number kind }
{
    match kind {
        Kind::Done => 0,
        Kind::Started => 1,
        Kind::Finished => 2,
        Kind::Joined => 3,
        Kind::Taken | Kind::Cleared => 4,
    }
}

/// Returns the byte of a parent: its number, or 0 for none.
fn parent_byte(parent: Option<NodeId>) -> u8
    ensures { result ≡ parent_number parent }
{
    match parent {
        None => 0,
        Some(id) => id.number(),
    }
}

/// Appends the first bytes of a node's row.
fn put_node_bytes(out: &mut Vec<u8>, number: u8, node: &Node) -> Result<(), AllocError>
    ensures { OnOk result (out.new.items ≡ out.old.items
        ++ number ∷ node.now.group ∷ mode_number node.now.mode ∷ parent_number node.now.parent ∷
        []) }
{
    out.extend_from_slice(&[
        number,
        node.group().number(),
        mode_byte(node.mode()),
        parent_byte(node.parent()),
    ])
}

/// Appends a node's distance, which is stored only in version 2.
#[tactic(auto, unfolding(coord_batch::specs::Fields::distance, coord_batch::specs::Fields::unless, coord_batch::specs::Fields::at_most))]
fn put_distance(out: &mut Vec<u8>, version: Version, node: &Node) -> Result<(), AllocError>
    ensures { OnOk result (out.new.items ≡
        out.old.items ++ (distance version (most_distance node.now.mode 0)).text
        node.now.distance) }
{
    if version.number() != 1 {
        out.extend_from_slice(&node.distance().to_be_bytes())?;
    }
    Ok(())
}

#[tactic(auto, using(std::proofs::Common::append_assoc), unfolding(crate::specs::Worlds::node_row, crate::specs::Worlds::mode, crate::specs::Worlds::parent, crate::specs::Worlds::mask, coord_batch::specs::Fields::at_most, coord_batch::specs::Fields::node, coord_batch::specs::Fields::group))]
fn put_node_row(
    out: &mut Vec<u8>,
    version: Version,
    number: u8,
    node: &Node,
) -> Result<(), AllocError>
    ensures { OnOk result (out.new.items ≡ out.old.items ++ node_text version record {
      0 = number;
      1 = node.now;
    }) }
{
    put_node_bytes(out, number, node)?;
    out.extend_from_slice(&node.pend().bits().to_be_bytes())?;
    put_numbers(out, node.epoch(), node.confirmed())?;
    put_distance(out, version, node)
}

fn put_messages(out: &mut Vec<u8>, version: Version, queue: &[Msg]) -> Result<(), AllocError>
    ensures { OnOk result (out.new.items ≡
        out.old.items ++ flat_map (message version 0).text queue.now) }
{
    for msg in queue {
        put_message(out, version, *msg)?;
    }
    Ok(())
}

#[tactic(auto, using(std::proofs::Common::append_assoc), unfolding(crate::specs::Worlds::queue, coord_batch::specs::Fields::how_many))]
fn put_queue(out: &mut Vec<u8>, version: Version, messages: &[Msg]) -> Result<(), AllocError>
    requires { length messages.now ≤ PLACES }
    ensures { OnOk result (out.new.items ≡ out.old.items ++ (queue version 0).text messages.now) }
{
    out.push(messages.len() as u8)?;
    put_messages(out, version, messages)
}

/// Appends two numbers, each as 8 bytes, the highest byte first.
fn put_numbers(out: &mut Vec<u8>, first: u64, second: u64) -> Result<(), AllocError>
    ensures { OnOk result (out.new.items ≡
        out.old.items ++ to_be_bytes w64 first ++ to_be_bytes w64 second) }
{
    out.extend_from_slice(&first.to_be_bytes())?;
    out.extend_from_slice(&second.to_be_bytes())?;
    Ok(())
}

fn put_lane(out: &mut Vec<u8>, version: Version, put: &Lane) -> Result<(), AllocError>
    ensures { OnOk result (out.new.items ≡ out.old.items ++ (lane version 0).text
        (content_of_lane put.now)) }
{
    put_numbers(out, put.base(), put.got())?;
    put_queue(out, version, put.queue())?;
    Ok(())
}

#[tactic(auto, using(std::proofs::Common::append_assoc), unfolding(crate::specs::Worlds::link_row, crate::specs::Worlds::ends, coord_batch::specs::Fields::from_one_to, coord_batch::specs::Fields::node))]
fn put_link_row(out: &mut Vec<u8>, version: Version, row: &LinkRow) -> Result<(), AllocError>
    ensures { OnOk result (out.new.items ≡
        out.old.items ++ (link_row version 0 [] []).text row.now) }
{
    out.extend_from_slice(&[row.a.number(), row.b.number()])?;
    out.extend_from_slice(&row.forth.inc().to_be_bytes())?;
    put_lane(out, version, &row.forth)?;
    put_lane(out, version, &row.back)
}

#[tactic(auto, using(std::proofs::Common::append_assoc), unfolding(crate::specs::Worlds::client_row, crate::specs::Worlds::kind, coord_batch::specs::Fields::from_one_to, coord_batch::specs::Fields::client))]
fn put_client_row(
    out: &mut Vec<u8>,
    version: Version,
    client: u8,
    session: &Session,
) -> Result<(), AllocError>
    ensures { OnOk result (out.new.items ≡
        out.old.items ++ session_text version record { 0 = client; 1 = session.now }) }
{
    out.push(client)?;
    out.extend_from_slice(&session.number.to_be_bytes())?;
    put_command(out, &session.command)?;
    out.extend_from_slice(&session.reply.step.to_be_bytes())?;
    out.push(kind_byte(session.reply.kind))?;
    Ok(())
}

/// Appends the row of the entry with this number, if there is one.
fn put_row<const MOST: u8, R: Row>(
    out: &mut Vec<u8>,
    version: Version,
    rows: &SlotTable<MOST, R>,
    number: u8,
) -> Result<(), AllocError>
    requires { (1 ≤ number) × (number ≤ MOST) }
    ensures { OnOk result (out.new.items ≡ out.old.items ++ flat_map (R.text version)
        (entry_at rows.now number)) }
{
    let Some(id) = Identifier::new(number) else {
        return Ok(());
    };
    match rows.get(id) {
        Some(row) => row.put(out, version, number),
        None => Ok(()),
    }
}

/// Appends the number of rows, and the rows in ascending order.
fn put_rows<const MOST: u8, R: Row>(
    out: &mut Vec<u8>,
    version: Version,
    rows: &SlotTable<MOST, R>,
) -> Result<(), AllocError>
    requires { HasKeysTo MOST rows.now }
    ensures { OnOk result (out.new.items ≡ out.old.items
        ++ len rows.now ∷ flat_map (R.text version) (entries rows.now)) }
{
    out.push(rows.len())?;
    for at in 0..MOST {
        put_row(out, version, rows, at + 1)?;
    }
    Ok(())
}

#[tactic(auto, unfolding(crate::specs::Worlds::nodes, coord_batch::specs::Fields::how_many))]
pub fn put_nodes(out: &mut Vec<u8>, world: &World) -> Result<(), AllocError>
    requires { InRange world.now }
    ensures { OnOk result (out.new.items ≡ out.old.items ++ (nodes world.now.version 0).text
        (rows_of world.now).nodes) }
{
    put_rows(out, world.version(), world.nodes())
}

#[tactic(auto, unfolding(crate::specs::Worlds::links, coord_batch::specs::Fields::how_many))]
pub fn put_links(out: &mut Vec<u8>, world: &World) -> Result<(), AllocError>
    requires { InRange world.now }
    ensures { OnOk result (out.new.items ≡ out.old.items ++ (links world.now.version 0 []).text
        (rows_of world.now).links) }
{
    let rows = world.links();
    out.push(rows.len() as u8)?;
    for row in rows {
        put_link_row(out, world.version(), row)?;
    }
    Ok(())
}

#[tactic(auto, unfolding(crate::specs::Worlds::clients, coord_batch::specs::Fields::how_many))]
pub fn put_clients(out: &mut Vec<u8>, world: &World) -> Result<(), AllocError>
    requires { InRange world.now }
    ensures { OnOk result (out.new.items ≡
        out.old.items ++ (clients 0).text (rows_of world.now).clients) }
{
    put_rows(out, world.version(), world.sessions())
}
