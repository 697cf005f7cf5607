//! Reads the values of a topology file.

ghost use Rattle.std.specs.Prelude.{◌≡◌, ◌≢◌, ◌<◌, codes, Err, IfErr, IfOk, IsSome, None, Option, Some};
ghost use Rattle.toml.specs.Data.{Data, get_member, no_members};
ghost use Rattle.toml.specs.View.{array_view, table_view, view};
ghost use Rattle.coord_config.specs.declared.fault.ConfigFault.TheVariants.{BadValue, OutOfMemory};
ghost use Rattle.coord_config.specs.Topology.{content, each, entries_of, half_of, link_of, node_of, number_at, values_of};

use crate::fault::ConfigFault;
use crate::keys::value_at;
use crate::topology::{LinkEntry, NodeEntry, Topology};
use coord_types::{Group, MAX_GROUPS, MAX_NODES, NodeId};
use std::alloc::Global;
use toml::value::Array;
use toml::{Table, Value};

/// The default size of a half, in bytes.
pub const DEFAULT_HALF: u64 = 65_536;

/// The minimum size of a half, in bytes, the same as in coord_journal.
pub const MIN_HALF: u64 = 32_768;

/// The maximum size of a half, in bytes, the same as in coord_journal.
pub const MAX_HALF: u64 = 16_777_216;

/// Returns the size of a half in the table, in bytes, or the default if the table has none. Returns
/// None if the size is out of range.
fn half_of(table: &Table) -> Option<u64>
    ensures { result ≡ half_of (get_member (codes "half") (table_view table.now)) }
{
    let Some(value) = value_at(table, "half") else {
        return Some(DEFAULT_HALF);
    };
    let half = u64::try_from(value.as_integer()?).ok()?;
    if MIN_HALF <= half && half <= MAX_HALF {
        Some(half)
    } else {
        None
    }
}

/// Returns the node id at a key of a table, or None if there is no valid id at that key.
fn node_id_at(table: &Table, key: &str) -> Option<NodeId>
    ensures { result ≡ number_at key.now 1 MAX_NODES (table_view table.now) }
{
    let number = value_at(table, key)?.as_integer()?;
    NodeId::new(u8::try_from(number).ok()?)
}

fn group_at(table: &Table, key: &str) -> Option<Group>
    ensures { result ≡ number_at key.now 1 MAX_GROUPS (table_view table.now) }
{
    let number = value_at(table, key)?.as_integer()?;
    Group::new(u8::try_from(number).ok()?)
}

/// An entry of an array in a topology file.
trait Entry: Drop {
    ghost reads: { Data → Option Self };

    /// Returns the entry that a value describes, or None if it describes none.
    fn of(value: &Value) -> Option<Self>
        ensures { result ≡ reads (view value.now) };
}

impl Entry for NodeEntry {
    ghost reads = { node_of };

    fn of(value: &Value) -> Option<Self> {
        let table = value.as_table()?;
        Some(NodeEntry {
            id: node_id_at(table, "id")?,
            group: group_at(table, "group")?,
        })
    }
}

impl Entry for LinkEntry {
    ghost reads = { link_of };

    fn of(value: &Value) -> Option<Self> {
        let table = value.as_table()?;
        Some(LinkEntry {
            a: node_id_at(table, "a")?,
            b: node_id_at(table, "b")?,
        })
    }
}

/// Returns all items of an array as entries, or `BadValue` if some item is not an entry.
fn each<E: Entry>(alloc: Global, array: &Array) -> Result<Vec<E>, ConfigFault>
    ensures ok { IfOk result (λ entries. each E.reads (array_view array.now) ≡ Some entries.items) }
    ensures bad { IfErr result (λ fault. fault ≢ OutOfMemory →
        (fault ≡ BadValue) × (each E.reads (array_view array.now) ≡ None)) }
{
    let mut entries = Vec::new(alloc);
    for value in array {
        let Some(entry) = E::of(value) else {
            return Err(ConfigFault::BadValue);
        };
        entries.push(entry)?;
    }
    Ok(entries)
}

/// Returns the entries of the array at a key, in order, or an empty list if the key is absent.
fn entries_at<E: Entry>(alloc: Global, table: &Table, key: &str) -> Result<Vec<E>, ConfigFault>
    ensures ok { IfOk result (λ entries.
        entries_of E.reads (get_member key.now (table_view table.now)) ≡ Some entries.items) }
    ensures bad { IfErr result (λ fault. fault ≢ OutOfMemory →
        (fault ≡ BadValue) × (entries_of E.reads (get_member key.now (table_view table.now)) ≡
        None)) }
    ensures memory { result ≡ Err OutOfMemory → IsSome (get_member key.now (table_view table.now)) }
{
    let Some(value) = value_at(table, key) else {
        return Ok(Vec::new(alloc));
    };
    match value.as_array() {
        Some(array) => each(alloc, array),
        None => Err(ConfigFault::BadValue),
    }
}

/// Returns the topology that these values describe, or `BadValue` if some value has a wrong type or
/// is out of range.
pub fn values_of(alloc: Global, table: &Table) -> Result<Topology, ConfigFault>
    ensures ok { IfOk result (λ t. values_of (table_view table.now) ≡ Some (content t)) }
    ensures bad { IfErr result (λ fault. fault ≢ OutOfMemory →
        (fault ≡ BadValue) × (values_of (table_view table.now) ≡ None)) }
    ensures memory { result ≡ Err OutOfMemory → table_view table.now ≢ no_members }
{
    let Some(half) = half_of(table) else {
        return Err(ConfigFault::BadValue);
    };
    Ok(Topology {
        half,
        nodes: entries_at(alloc, table, "node")?,
        links: entries_at(alloc, table, "link")?,
    })
}
