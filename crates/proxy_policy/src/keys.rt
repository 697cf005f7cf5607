//! The keys of a policy.

ghost use Rattle.std.specs.Prelude.{◌≡◌, map, option_map};
ghost use Rattle.toml.specs.Data.{get_member};
ghost use Rattle.toml.specs.View.{array_view, table_view, view};
ghost use Rattle.proxy_policy.specs.Keys.{entries_have_keys, has_all, has_keys, has_only, has_right_keys, is_among, items_have_keys};

use toml::value::Array;
use toml::{Table, Value};

/// Returns the value at a key.
#[tactic(auto, using(toml::proofs::Views::table_get))]
pub fn value_at<'a>(table: &'a Table, key: &str) -> Option<&'a Value>
    ensures { option_map (λ value. view value.now) result ≡
        get_member key.now (table_view table.now) }
{
    table.get(key)
}

fn is_among(names: &[&str], key: &str) -> bool
    ensures { result ≡ is_among (map (λ name. name.now) names.now) key.now }
{
    for name in names {
        if key == *name {
            return true;
        }
    }
    false
}

/// Tests whether the table has only these keys.
fn has_only(names: &[&str], table: &Table) -> bool
    ensures { result ≡ has_only (map (λ name. name.now) names.now) (table_view table.now) }
{
    'keys: for (key, _value) in table.iter() {
        if !is_among(names, key.as_str()) {
            return false;
        }
    }
    true
}

/// Tests whether the table has a value at each of these keys.
fn has_all(names: &[&str], table: &Table) -> bool
    ensures { result ≡ has_all (map (λ name. name.now) names.now) (table_view table.now) }
{
    for name in names {
        if value_at(table, name).is_none() {
            return false;
        }
    }
    true
}

/// Tests whether the value, if it is a table, has only known keys and all needed keys.
fn has_keys(known: &[&str], needed: &[&str], value: &Value) -> bool
    ensures { result ≡ has_keys (map (λ name. name.now) known.now) (map (λ name. name.now) needed.now) (view value.now) }
{
    match value.as_table() {
        Some(table) => has_only(known, table) && has_all(needed, table),
        None => true,
    }
}

/// Tests whether each table in an array has only known keys and all needed keys.
fn items_have_keys(known: &[&str], needed: &[&str], array: &Array) -> bool
    ensures { result ≡ items_have_keys (map (λ name. name.now) known.now) (map (λ name. name.now) needed.now) (array_view array.now) }
{
    for value in array {
        if !has_keys(known, needed, value) {
            return false;
        }
    }
    true
}

/// Tests whether each table in the array at this key has only known keys and all needed keys. Returns true if there is
/// no array at the key.
fn entries_have_keys(known: &[&str], needed: &[&str], table: &Table, key: &str) -> bool
    ensures { result ≡ entries_have_keys (map (λ name. name.now) known.now) (map (λ name. name.now) needed.now)
        (get_member key.now (table_view table.now)) }
{
    match value_at(table, key) {
        Some(value) => match value.as_array() {
            Some(array) => items_have_keys(known, needed, array),
            None => true,
        },
        None => true,
    }
}

/// Tests whether each key of a policy is known, and no needed key is missing.
#[tactic(auto, unfolding(crate::specs::Keys::has_right_keys))]
pub fn has_right_keys(table: &Table) -> bool
    ensures { result ≡ has_right_keys (table_view table.now) }
{
    has_only(&["allow"], table)
        && entries_have_keys(
            &["principals", "ops", "clients", "nodes"],
            &["principals", "ops"],
            table,
            "allow",
        )
}
