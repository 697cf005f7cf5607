//! Checks the keys of a topology file.

ghost use Rattle.std.specs.Prelude.{◌≡◌, map, option_map};
ghost use Rattle.toml.specs.Data.{get_member};
ghost use Rattle.toml.specs.View.{array_view, table_view, view};
ghost use Rattle.coord_config.specs.Keys.{entries_have_just, has_all, has_only, has_right_keys, is_among, items_have_just, table_has_just};

use toml::value::Array;
use toml::{Table, Value};

/// Returns the value at a key, or None if there is none.
#[tactic(auto, using(toml::proofs::Views::table_get))]
pub fn value_at<'a>(table: &'a Table, key: &str) -> Option<&'a Value>
    ensures { option_map (λ value. view value.now) result ≡
        get_member key.now (table_view table.now) }
{
    table.get(key)
}

fn is_among(names: &[&str], key: &str) -> bool
    ensures { result ≡ is_among (map (λ name. name.now) names.now) key.now }
{
    for name in names {
        if key == *name {
            return true;
        }
    }
    false
}

/// Tests whether the table has only these keys.
fn has_only(names: &[&str], table: &Table) -> bool
    ensures { result ≡ has_only (map (λ name. name.now) names.now) (table_view table.now) }
{
    'keys: for (key, _value) in table.iter() {
        if !is_among(names, key.as_str()) {
            return false;
        }
    }
    true
}

/// Tests whether the table has a value at each of these keys.
fn has_all(names: &[&str], table: &Table) -> bool
    ensures { result ≡ has_all (map (λ name. name.now) names.now) (table_view table.now) }
{
    for name in names {
        if value_at(table, name).is_none() {
            return false;
        }
    }
    true
}

/// Tests whether the value, if it is a table, has exactly these keys.
fn table_has_just(names: &[&str], value: &Value) -> bool
    ensures { result ≡ table_has_just (map (λ name. name.now) names.now) (view value.now) }
{
    match value.as_table() {
        Some(table) => has_only(names, table) && has_all(names, table),
        None => true,
    }
}

fn items_have_just(names: &[&str], array: &Array) -> bool
    ensures { result ≡ items_have_just (map (λ name. name.now) names.now) (array_view array.now) }
{
    for value in array {
        if !table_has_just(names, value) {
            return false;
        }
    }
    true
}

/// Tests whether each table in the array at this key has exactly these keys. Returns true if there
/// is no array.
fn entries_have_just(names: &[&str], table: &Table, key: &str) -> bool
    ensures { result ≡ entries_have_just (map (λ name. name.now) names.now)
        (get_member key.now (table_view table.now)) }
{
    match value_at(table, key) {
        Some(value) => match value.as_array() {
            Some(array) => items_have_just(names, array),
            None => true,
        },
        None => true,
    }
}

/// Tests whether each key of a topology file is known, and no node or link lacks a key.
pub fn has_right_keys(table: &Table) -> bool
    ensures { result ≡ has_right_keys (table_view table.now) }
{
    has_only(&["half", "node", "link"], table)
        && entries_have_just(&["id", "group"], table, "node")
        && entries_have_just(&["a", "b"], table, "link")
}
