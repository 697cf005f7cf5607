//! Decodes the rows of worlds.

ghost use Rattle.std.specs.Prelude.{◌≡◌, ◌≤◌, [], List, IfOk, OnOk};
ghost use Rattle.coord_batch.specs.Format.{items_at};
ghost use Rattle.coord_batch.specs.Fields.{message};
ghost use Rattle.coord_batch.specs.Reading.{ReadsSpelled};
ghost use Rattle.coord_link.specs.declared.lane.TheConstants.{PLACES};
ghost use Rattle.coord_codec.specs.Worlds.{client_row, clients, content_of_lane, ends, kind, lane, last_by, link_row, links, mask, mode, most_distance, node_row, nodes, parent, queue, world};
ghost use Rattle.coord_world.specs.protocol.Rows.{listed};
ghost use Rattle.coord_world.specs.declared.rows.parts.ClientRow.{ClientRow};

use crate::rows_read::{LinksRead, NodesRead, can_link};
use coord_batch::{Input, ReadError};
use coord_link::Lane;
use coord_types::{
    Command, Kind, MAX_CLIENTS, MAX_LINKS, MAX_NODES, MAX_STEPS, Mode, NodeId, NodeSet, Reply,
    Session, Version,
};
use coord_world::{ClientRow, LinkRow, NodeRow, Parts};
use std::alloc::Global;

#[tactic(auto, unfolding(crate::specs::Worlds::mode))]
fn read_mode(input: &mut Input) -> Result<Mode, ReadError>
    ensures { ReadsSpelled (λ x. x) result (mode.read input.old) input.new }
{
    let left = input.left();
    match input.byte()? {
        0 => Ok(Mode::Ready),
        1 => Ok(Mode::Abort),
        2 => Ok(Mode::Converge),
        _ => Err(ReadError::bad_byte(left)),
    }
}

#[tactic(auto, unfolding(crate::specs::Worlds::parent))]
fn read_parent(input: &mut Input) -> Result<Option<NodeId>, ReadError>
    ensures { ReadsSpelled (λ x. x) result (parent.read input.old) input.new }
{
    let left = input.left();
    let number = input.byte()?;
    if number == 0 {
        return Ok(None);
    }
    match NodeId::new(number) {
        Some(id) => Ok(Some(id)),
        None => Err(ReadError::bad_byte(left)),
    }
}

#[tactic(auto, unfolding(crate::specs::Worlds::mask))]
fn read_node_set(input: &mut Input) -> Result<NodeSet, ReadError>
    ensures { ReadsSpelled (λ x. x) result (mask.read input.old) input.new }
{
    let bits = input.u64()?;
    Ok(NodeSet::from_bits(bits))
}

#[tactic(auto, unfolding(crate::specs::Worlds::node_row))]
fn read_node_row(
    input: &mut Input,
    version: Version,
    count: u64,
    front: &NodesRead,
) -> Result<NodeRow, ReadError>
    ensures { ReadsSpelled (λ x. x) result
        ((node_row version count front.now.rows.items).read input.old) input.new }
{
    let left = input.left();
    let id = input.node()?;
    if id.number() <= front.last() {
        return Err(ReadError::bad_byte(left));
    }
    let group = input.group()?;
    let mode = read_mode(input)?;
    Ok(NodeRow {
        id,
        group,
        mode,
        parent: read_parent(input)?,
        pend: read_node_set(input)?,
        epoch: input.at_most(count)?,
        confirmed: input.at_most(count)?,
        distance: input.distance(version, most_distance(mode, count))?,
    })
}

/// Returns the maximum distance of a node: 0 if it is Ready, otherwise the number of steps.
fn most_distance(mode: Mode, count: u64) -> u64
    ensures { result ≡ most_distance mode count }
{
    match mode {
        Mode::Ready => 0,
        Mode::Abort | Mode::Converge => count,
    }
}

#[tactic(auto, unfolding(crate::specs::Worlds::ends))]
fn read_ends(
    input: &mut Input,
    nodes: &NodesRead,
    front: &LinksRead,
) -> Result<(NodeId, NodeId), ReadError>
    ensures { ReadsSpelled (λ x. x) result
        ((ends nodes.now.rows.items front.now.rows.items).read input.old) input.new }
{
    let left = input.left();
    let a = input.node()?;
    if !front.first_rises(a) {
        return Err(ReadError::bad_byte(left));
    }
    let left_after_first = input.left();
    let b = input.node()?;
    if !front.second_rises(a, b) {
        return Err(ReadError::bad_byte(left_after_first));
    }
    if !can_link(nodes, front, a, b) {
        return Err(ReadError::bad_byte(left));
    }
    Ok((a, b))
}

/// Reads this many messages into an empty lane.
fn read_messages(
    input: &mut Input,
    version: Version,
    most: u64,
    lane: &mut Lane,
    count: u8,
) -> Result<(), ReadError>
    requires empty { lane.old.queue ≡ [] }
    requires most { count ≤ PLACES }
    ensures read { ReadsSpelled (λ _. lane.new.queue) result
        (items_at (λ _. message version most) count [] input.old) input.new }
    ensures same { OnOk result ((lane.new.inc ≡ lane.old.inc) × (lane.new.base ≡ lane.old.base) ×
        (lane.new.got ≡ lane.old.got)) }
{
    for _ in 0..count {
        let msg = input.message(version, most)?;
        lane.send(msg);
    }
    Ok(())
}

/// Reads a queue into an empty lane.
#[tactic(auto, unfolding(crate::specs::Worlds::queue))]
fn read_queue(
    input: &mut Input,
    version: Version,
    most: u64,
    lane: &mut Lane,
) -> Result<(), ReadError>
    requires { lane.old.queue ≡ [] }
    ensures read { ReadsSpelled (λ _. lane.new.queue) result
        ((queue version most).read input.old) input.new }
    ensures same { OnOk result ((lane.new.inc ≡ lane.old.inc) × (lane.new.base ≡ lane.old.base) ×
        (lane.new.got ≡ lane.old.got)) }
{
    let count = input.how_many(4)?;
    read_messages(input, version, most, lane, count)
}

/// Reads a lane with this incarnation.
#[tactic(auto, unfolding(crate::specs::Worlds::lane))]
fn read_lane(input: &mut Input, version: Version, count: u64, inc: u64) -> Result<Lane, ReadError>
    ensures read { ReadsSpelled content_of_lane result ((lane version count).read input.old) input.new }
    ensures inc { IfOk result (λ l. l.inc ≡ inc) }
{
    let base = input.at_most(count)?;
    let got = input.at_most(count)?;
    let mut lane = Lane::restore(inc, base, got, &[]);
    read_queue(input, version, count, &mut lane)?;
    Ok(lane)
}

#[tactic(auto, unfolding(crate::specs::Worlds::link_row))]
fn read_link_row(
    input: &mut Input,
    version: Version,
    count: u64,
    nodes: &NodesRead,
    front: &LinksRead,
) -> Result<LinkRow, ReadError>
    ensures { ReadsSpelled (λ x. x) result
        ((link_row version count nodes.now.rows.items front.now.rows.items).read input.old)
        input.new }
{
    let (a, b) = read_ends(input, nodes, front)?;
    let inc = input.from_one_to(count)?;
    let forth = read_lane(input, version, count, inc)?;
    let back = read_lane(input, version, count, inc)?;
    Ok(LinkRow { a, b, forth, back })
}

/// Reads the kind of a reply, which must be a kind that the command can get.
#[tactic(auto, unfolding(crate::specs::Worlds::kind))]
fn read_kind(input: &mut Input, order: &Command) -> Result<Kind, ReadError>
    ensures { ReadsSpelled (λ x. x) result ((kind order.now).read input.old) input.new }
{
    let left = input.left();
    let kind = match input.byte()? {
        0 => Kind::Done,
        1 => Kind::Started,
        2 => Kind::Finished,
        3 => Kind::Joined,
        _ => return Err(ReadError::bad_byte(left)),
    };
    if matches!(order, Command::Reset(_)) == (kind == Kind::Done) {
        return Err(ReadError::bad_byte(left));
    }
    Ok(kind)
}

#[tactic(auto, unfolding(crate::specs::Worlds::client_row))]
/// Reads the row of the next client. `last` is the number of the client before it, or 0.
fn read_client_row(input: &mut Input, count: u64, last: u8) -> Result<ClientRow, ReadError>
    ensures { (front : List ClientRow) → last ≡ last_by (λ r. r.client) 0 front
        → ReadsSpelled (λ x. x) result ((client_row count front).read input.old) input.new }
{
    let left = input.left();
    let client = input.client()?;
    if client.number() <= last {
        return Err(ReadError::bad_byte(left));
    }
    let number = input.from_one_to(count)?;
    let command = input.command()?;
    let step = input.from_one_to(count)?;
    let kind = read_kind(input, &command)?;
    Ok(ClientRow {
        client,
        session: Session {
            number,
            command,
            reply: Reply { step, kind },
        },
    })
}

/// Reads this many nodes.
fn read_node_list(
    input: &mut Input,
    alloc: Global,
    version: Version,
    count: u64,
    rows: u8,
) -> Result<NodesRead, ReadError>
    ensures { ReadsSpelled (λ v. v.rows.items) result
        (items_at (node_row version count) rows [] input.old) input.new }
{
    let mut list = NodesRead::new(alloc);
    for _ in 0..rows {
        let row = read_node_row(input, version, count, &list)?;
        list.push(row)?;
    }
    Ok(list)
}

/// Reads this many links.
fn read_link_list(
    input: &mut Input,
    alloc: Global,
    version: Version,
    count: u64,
    nodes: &NodesRead,
    rows: u8,
) -> Result<LinksRead, ReadError>
    ensures { ReadsSpelled (λ v. v.rows.items) result
        (items_at (link_row version count nodes.now.rows.items) rows [] input.old) input.new }
{
    let mut list = LinksRead::new(alloc);
    for _ in 0..rows {
        let row = read_link_row(input, version, count, nodes, &list)?;
        list.push(row)?;
    }
    Ok(list)
}

/// Reads this many clients.
fn read_client_list(
    input: &mut Input,
    alloc: Global,
    count: u64,
    rows: u8,
) -> Result<Vec<ClientRow>, ReadError>
    ensures { ReadsSpelled (λ v. v.items) result
        (items_at (client_row count) rows [] input.old) input.new }
{
    let mut list = Vec::new(alloc);
    let mut last = 0;
    for _ in 0..rows {
        let row = read_client_row(input, count, last)?;
        last = row.client.number();
        // Passed by reference: the toolchain has no proof for a `push` of a value that holds a `Command`.
        list.extend_from_slice(&[row])?;
    }
    Ok(list)
}

#[tactic(auto, unfolding(crate::specs::Worlds::world, crate::specs::Worlds::nodes, crate::specs::Worlds::links, crate::specs::Worlds::clients))]
pub fn read_parts(input: &mut Input, alloc: Global, version: Version) -> Result<Parts, ReadError>
    ensures { ReadsSpelled (λ p. listed p) result ((world version).read input.old) input.new }
{
    let count = input.at_most(MAX_STEPS)?;
    let rows = input.how_many(MAX_NODES)?;
    let nodes = read_node_list(input, alloc, version, count, rows)?;
    let rows = input.how_many(MAX_LINKS as u8)?;
    let links = read_link_list(input, alloc, version, count, &nodes, rows)?;
    let rows = input.how_many(MAX_CLIENTS)?;
    let clients = read_client_list(input, alloc, count, rows)?;
    Ok(Parts {
        version,
        count,
        nodes: nodes.rows,
        links: links.rows,
        clients,
    })
}
