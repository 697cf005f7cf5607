//! The values of a policy.

ghost use Rattle.std.specs.Prelude.{◌≡◌, ◌≢◌, codes, map, option_map, string_bytes, IfErr, IfOk, None, Option, Some};
ghost use Rattle.toml.specs.Data.{Data, get_member};
ghost use Rattle.toml.specs.View.{array_view, table_view, view};
ghost use Rattle.proxy_policy.specs.declared.fault.PolicyFault.TheVariants.{BadValue, OutOfMemory};
ghost use Rattle.proxy_policy.specs.Values.{client_in, content, each, limit_at, list_at, list_in, name_in, node_in, op_in, rule_in, rules_in};

use crate::fault::PolicyFault;
use crate::keys::value_at;
use crate::names::is_principal;
use crate::rule::Rule;
use coord_types::{Client, NodeId};
use proxy_request::Op;
use std::alloc::Global;
use toml::value::Array;
use toml::{Table, Value};

/// An entry of a list in a rule.
trait Entry: Drop {
    ghost reads: { Data → Option Self };

    /// Returns the entry that a value contains, or None if the value is not an entry.
    fn of(value: &Value) -> Option<Self>
        ensures { result ≡ reads (view value.now) };
}

impl Entry for Op {
    ghost reads = { op_in };

    fn of(value: &Value) -> Option<Self> {
        Op::named(value.as_str()?)
    }
}

impl Entry for Client {
    ghost reads = { client_in };

    fn of(value: &Value) -> Option<Self> {
        Client::new(u8::try_from(value.as_integer()?).ok()?)
    }
}

impl Entry for NodeId {
    ghost reads = { node_in };

    fn of(value: &Value) -> Option<Self> {
        NodeId::new(u8::try_from(value.as_integer()?).ok()?)
    }
}

/// Returns the entries of an array. Errors: out of memory, or `BadValue` if an item is not an
/// entry.
fn each<E: Entry>(alloc: Global, array: &Array) -> Result<Vec<E>, PolicyFault>
    ensures ok { IfOk result (λ entries. each E.reads (array_view array.now) ≡ Some entries.items) }
    ensures bad { IfErr result (λ fault. fault ≢ OutOfMemory →
        (fault ≡ BadValue) × (each E.reads (array_view array.now) ≡ None)) }
{
    let mut entries = Vec::new(alloc);
    for value in array {
        let Some(entry) = E::of(value) else {
            return Err(PolicyFault::BadValue);
        };
        entries.push(entry)?;
    }
    Ok(entries)
}

/// Returns the entries of a nonempty array. Errors: out of memory, or `BadValue` if the value is no
/// such array.
fn list_of<E: Entry>(alloc: Global, value: &Value) -> Result<Vec<E>, PolicyFault>
    ensures ok { IfOk result (λ entries. list_in E.reads (view value.now) ≡ Some entries.items) }
    ensures bad { IfErr result (λ fault. fault ≢ OutOfMemory →
        (fault ≡ BadValue) × (list_in E.reads (view value.now) ≡ None)) }
{
    let Some(array) = value.as_array() else {
        return Err(PolicyFault::BadValue);
    };
    let entries = each(alloc, array)?;
    if entries.is_empty() {
        return Err(PolicyFault::BadValue);
    }
    Ok(entries)
}

/// Returns the entries at a key, at least one. Errors: out of memory, or `BadValue`.
#[tactic(auto, unfolding(crate::specs::Values::list_at))]
fn list_at<E: Entry>(alloc: Global, table: &Table, key: &str) -> Result<Vec<E>, PolicyFault>
    ensures ok { IfOk result (λ entries. list_at E.reads key.now (table_view table.now) ≡ Some entries.items) }
    ensures bad { IfErr result (λ fault. fault ≢ OutOfMemory →
        (fault ≡ BadValue) × (list_at E.reads key.now (table_view table.now) ≡ None)) }
{
    match value_at(table, key) {
        Some(value) => list_of(alloc, value),
        None => Err(PolicyFault::BadValue),
    }
}

/// Returns the entries at a key, at least one, or None if the key is absent. Errors: out of memory,
/// or `BadValue`.
#[tactic(auto, unfolding(crate::specs::Values::limit_at))]
fn limit_at<E: Entry>(
    alloc: Global,
    table: &Table,
    key: &str,
) -> Result<Option<Vec<E>>, PolicyFault>
    ensures ok { IfOk result (λ limit. limit_at E.reads key.now (table_view table.now) ≡ Some (option_map (λ entries. entries.items) limit)) }
    ensures bad { IfErr result (λ fault. fault ≢ OutOfMemory →
        (fault ≡ BadValue) × (limit_at E.reads key.now (table_view table.now) ≡ None)) }
{
    match value_at(table, key) {
        Some(value) => match list_of(alloc, value) {
            Ok(entries) => Ok(Some(entries)),
            Err(fault) => Err(fault),
        },
        None => Ok(None),
    }
}

/// Returns the principal name that a value contains. Errors: out of memory, or `BadValue`.
fn name_of(alloc: Global, value: &Value) -> Result<String, PolicyFault>
    ensures ok { IfOk result (λ name. name_in (view value.now) ≡ Some (string_bytes name)) }
    ensures bad { IfErr result (λ fault. fault ≢ OutOfMemory →
        (fault ≡ BadValue) × (name_in (view value.now) ≡ None)) }
{
    let Some(name) = value.as_str() else {
        return Err(PolicyFault::BadValue);
    };
    if !is_principal(name.as_bytes()) {
        return Err(PolicyFault::BadValue);
    }
    let mut copy = String::new(alloc);
    copy.push_str(name)?;
    Ok(copy)
}

fn each_name(alloc: Global, array: &Array) -> Result<Vec<String>, PolicyFault>
    ensures ok { IfOk result (λ names. each name_in (array_view array.now) ≡ Some (map string_bytes names.items)) }
    ensures bad { IfErr result (λ fault. fault ≢ OutOfMemory →
        (fault ≡ BadValue) × (each name_in (array_view array.now) ≡ None)) }
{
    let mut names = Vec::new(alloc);
    for value in array {
        names.push(name_of(alloc, value)?)?;
    }
    Ok(names)
}

/// Returns the principals of a rule, at least one. Errors: out of memory, or `BadValue`.
#[tactic(auto, unfolding(crate::specs::Values::list_at))]
fn names_at(alloc: Global, table: &Table) -> Result<Vec<String>, PolicyFault>
    ensures ok { IfOk result (λ names. list_at name_in (codes "principals") (table_view table.now) ≡ Some (map string_bytes names.items)) }
    ensures bad { IfErr result (λ fault. fault ≢ OutOfMemory →
        (fault ≡ BadValue) × (list_at name_in (codes "principals") (table_view table.now) ≡ None)) }
{
    let Some(value) = value_at(table, "principals") else {
        return Err(PolicyFault::BadValue);
    };
    let Some(array) = value.as_array() else {
        return Err(PolicyFault::BadValue);
    };
    let names = each_name(alloc, array)?;
    if names.is_empty() {
        return Err(PolicyFault::BadValue);
    }
    Ok(names)
}

fn rule_of(alloc: Global, value: &Value) -> Result<Rule, PolicyFault>
    ensures ok { IfOk result (λ rule. rule_in (view value.now) ≡ Some (content rule)) }
    ensures bad { IfErr result (λ fault. fault ≢ OutOfMemory →
        (fault ≡ BadValue) × (rule_in (view value.now) ≡ None)) }
{
    let Some(table) = value.as_table() else {
        return Err(PolicyFault::BadValue);
    };
    Ok(Rule {
        principals: names_at(alloc, table)?,
        ops: list_at(alloc, table, "ops")?,
        clients: limit_at(alloc, table, "clients")?,
        nodes: limit_at(alloc, table, "nodes")?,
    })
}

fn each_rule(alloc: Global, array: &Array) -> Result<Vec<Rule>, PolicyFault>
    ensures ok { IfOk result (λ rules. each rule_in (array_view array.now) ≡ Some (map content rules.items)) }
    ensures bad { IfErr result (λ fault. fault ≢ OutOfMemory →
        (fault ≡ BadValue) × (each rule_in (array_view array.now) ≡ None)) }
{
    let mut rules = Vec::new(alloc);
    for value in array {
        rules.push(rule_of(alloc, value)?)?;
    }
    Ok(rules)
}

/// Returns the rules of a policy, in order, or an empty list if the key `allow` is absent. Errors:
/// out of memory, or `BadValue`.
#[tactic(auto, unfolding(crate::specs::Values::rules_in))]
pub fn rules_of(alloc: Global, table: &Table) -> Result<Vec<Rule>, PolicyFault>
    ensures ok { IfOk result (λ rules. rules_in (get_member (codes "allow") (table_view table.now)) ≡ Some (map content rules.items)) }
    ensures bad { IfErr result (λ fault. fault ≢ OutOfMemory →
        (fault ≡ BadValue) × (rules_in (get_member (codes "allow") (table_view table.now)) ≡ None)) }
{
    let Some(value) = value_at(table, "allow") else {
        return Ok(Vec::new(alloc));
    };
    match value.as_array() {
        Some(array) => each_rule(alloc, array),
        None => Err(PolicyFault::BadValue),
    }
}
