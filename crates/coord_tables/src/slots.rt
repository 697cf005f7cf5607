//! Values in slots: the value of key k is in slot k - 1, and a slot may be empty.

ghost use Rattle.std.specs.Prelude.{◌≡◌, ◌<◌, ◌≤◌, ◌-◌, ◌^◌, ◌↔◌, ℕ, Some, None, length, max, IsSome, IsTrue, IfOk, OnOk, OnErr};
ghost use Rattle.std.specs.Option.{option_copied};
ghost use Rattle.coord_tables.specs.Slots.{slot_at, slot_entries, IsSetAt};

use crate::equality::Same;
use coord_types::Identifier;
use std::alloc::{AllocError, Global};

/// Returns the content of a slot; a slot beyond the end of the list is empty.
pub fn value_at<V>(slots: &[Option<V>], at: usize) -> Option<&V>
    ensures { option_copied result ≡ slot_at slots.now at }
{
    if at < slots.len() {
        slots[at].as_ref()
    } else {
        None
    }
}

/// Stores a value at a key, and replaces the key's old value, if any. Slots are allocated at their
/// first use. Errors: out of memory.
pub fn put<V: Copy>(slots: &mut Vec<Option<V>>, key: u8, value: V) -> Result<(), AllocError>
    requires { 1 ≤ key }
    ensures ok { OnOk result (IsSetAt key (Some value) slots.new.items slots.old.items) }
    ensures most { OnOk result (length slots.new.items ≤ max (length slots.old.items) key) }
    ensures err { OnErr result (slots.new.items ≡ slots.old.items) }
{
    if slots.len() < key as usize {
        slots.resize(key as usize, None)?;
    }
    slots[key as usize - 1] = Some(value);
    Ok(())
}

/// Replaces the value at a key, which must have a value.
pub fn replace<V: Copy>(slots: &mut Vec<Option<V>>, key: u8, value: V)
    requires key { 1 ≤ key }
    requires there { IsSome (slot_at slots.old.items (key - 1)) }
    ensures set { IsSetAt key (Some value) slots.new.items slots.old.items }
    ensures long { length slots.new.items ≡ length slots.old.items }
{
    slots[key as usize - 1] = Some(value);
}

/// Removes the value at a key, if the key has a value.
pub fn take_out<V: Copy>(slots: &mut Vec<Option<V>>, key: u8)
    requires { 1 ≤ key }
    ensures set { IsSetAt key None slots.new.items slots.old.items }
    ensures long { length slots.new.items ≡ length slots.old.items }
{
    if key as usize <= slots.len() {
        slots[key as usize - 1] = None;
    }
}

/// Returns the number of slots that are not empty.
pub fn count<V>(slots: &[Option<V>]) -> u8
    requires { length slots.now < 2 ^ 8 }
    ensures { result ≡ length (slot_entries 1 slots.now) }
{
    let mut count = 0;
    for slot in slots {
        if slot.is_some() {
            count += 1;
        }
    }
    count
}

/// Returns the values with their keys, in ascending order of the keys. Errors: out of memory.
pub fn entries<const MOST: u8, V: Copy>(
    alloc: Global,
    slots: &[Option<V>],
) -> Result<Vec<(Identifier<MOST>, V)>, AllocError>
    requires { length slots.now ≤ MOST }
    ensures { IfOk result (λ entries. entries.items ≡ slot_entries 1 slots.now) }
{
    let mut entries = Vec::new(alloc);
    for (at, slot) in slots.iter().enumerate() {
        if let Some(value) = slot {
            if let Some(id) = Identifier::new(at as u8 + 1) {
                entries.push((id, *value))?;
            }
        }
    }
    Ok(entries)
}

/// Tests whether both lists have the same content in each slot.
pub fn is_same_slots<V: Same>(a: &[Option<V>], b: &[Option<V>]) -> bool
    ensures { IsTrue result ↔ ((i : ℕ) → slot_at a.now i ≡ slot_at b.now i) }
{
    for at in 0..a.len().max(b.len()) {
        if !is_same_value(value_at(a, at), value_at(b, at)) {
            return false;
        }
    }
    true
}

fn is_same_value<V: Same>(a: Option<&V>, b: Option<&V>) -> bool
    ensures { IsTrue result ↔ (option_copied a.entry ≡ option_copied b.entry) }
{
    match (a, b) {
        (None, None) => true,
        (Some(one), Some(other)) => one.is_same(other),
        _ => false,
    }
}
