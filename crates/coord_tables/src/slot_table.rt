//! Tables whose keys are identifiers: the nodes of a world, and the last orders of its clients.

ghost use Rattle.std.specs.Prelude.{◌≡◌, true, IsSome, IfOk, OnOk, OnErr, IsTrue, ◌↔◌};
ghost use Rattle.std.specs.Option.{option_copied};
ghost use Rattle.std.specs.Ordering.{nat_cmp};
ghost use Rattle.std.specs.FinMap.Entries.{is_sorted};
ghost use Rattle.coord_types.specs.Table as table;

use crate::equality::Same;
use crate::slots;
use coord_node::Node;
use coord_types::{Identifier, MAX_CLIENTS, MAX_NODES, Session};
use std::alloc::{AllocError, Global};
use std::marker::Model;

/// Values in slots: the value of key k is in slot k - 1. Contracts see a finite table.
#[derive(Drop, Debug)]
pub struct SlotTable<const MOST: u8, V> {
    slots: Vec<Option<V>>,
}

/// The nodes by their numbers.
pub type NodeTable = SlotTable<MAX_NODES, Node>;

/// Each client's last order.
pub type SessionTable = SlotTable<MAX_CLIENTS, Session>;

impl<const MOST: u8, V> Model for SlotTable<MOST, V> {
    ghost use Rattle.std.specs.Prelude.{◌≤◌, length};
    ghost use Rattle.std.specs.Cmp.{nat_cmp_total};
    ghost use Rattle.std.specs.Coded.{coded_ℕ};
    ghost use Rattle.coord_types.specs.Table.{Table, code};
    ghost use Rattle.coord_tables.specs.Slots.{slot_table};

    ghost Value = { Table nat_cmp_total V };

    ghost coded = { code coded_ℕ V.code };

    ghost view = { λ a. slot_table a.slots.items };

    ghost invariant = { λ a. length a.slots.items ≤ MOST };
}

impl<const MOST: u8, V: Copy> SlotTable<MOST, V> {
    /// Returns the empty table. Allocates nothing.
    pub fn new(alloc: Global) -> Self
        ensures { result ≡ table.empty }
    {
        SlotTable {
            slots: Vec::new(alloc),
        }
    }

    /// Returns the table with these entries, which must be in ascending order of their keys. Errors:
    /// out of memory.
    pub fn from_sorted(alloc: Global, entries: &[(Identifier<MOST>, V)]) -> Result<Self, AllocError>
        requires { is_sorted nat_cmp entries.now ≡ true }
        ensures { IfOk result (λ made. made ≡ table.from_sorted entries.now) }
    {
        let mut made = SlotTable::new(alloc);
        for entry in entries {
            made.insert(entry.0, entry.1)?;
        }
        Ok(made)
    }

    /// Returns the values with their keys, in ascending order of the keys. Errors: out of memory.
    pub fn entries(&self, alloc: Global) -> Result<Vec<(Identifier<MOST>, V)>, AllocError>
        ensures { IfOk result (λ entries. entries.items ≡ table.entries self.now) }
    {
        slots::entries(alloc, &self.slots)
    }

    /// Returns the number of values.
    pub fn len(&self) -> u8
        ensures { result ≡ table.len self.now }
    {
        slots::count(&self.slots)
    }

    /// Returns the value at a key, or None if the key has no value.
    pub fn get(&self, key: Identifier<MOST>) -> Option<&V>
        ensures { option_copied result ≡ table.get self.now key.entry }
    {
        slots::value_at(&self.slots, key.number() as usize - 1)
    }

    /// Stores a value at a key, and replaces the key's old value, if any. Errors: out of memory.
    pub fn insert(&mut self, key: Identifier<MOST>, value: V) -> Result<(), AllocError>
        ensures ok { OnOk result (self.new ≡ table.insert self.old key.entry value) }
        ensures err { OnErr result (self.new ≡ self.old) }
    {
        slots::put(&mut self.slots, key.number(), value)
    }

    /// Replaces the value at a key, which must have a value. Allocates nothing.
    pub fn replace(&mut self, key: Identifier<MOST>, value: V)
        requires { IsSome (table.get self.old key) }
        ensures { self.new ≡ table.insert self.old key.entry value }
    {
        slots::replace(&mut self.slots, key.number(), value);
    }

    /// Removes the value at a key, if the key has a value.
    pub fn remove(&mut self, key: Identifier<MOST>)
        ensures { self.new ≡ table.remove self.old key.entry }
    {
        slots::take_out(&mut self.slots, key.number());
    }

    /// Tests whether both tables hold the same values at the same keys.
    pub fn is_same(&self, other: &Self) -> bool
    where
        V: Same,
        ensures { IsTrue result ↔ (self.now ≡ other.now) }
    {
        slots::is_same_slots(&self.slots, &other.slots)
    }

    /// Returns a copy of the table. Errors: out of memory.
    pub fn copy(&self) -> Result<Self, AllocError>
        ensures { IfOk result (λ copy. copy ≡ self.now) }
    {
        let alloc = *self.slots.allocator();
        let slots = Vec::from_slice(alloc, &self.slots)?;
        Ok(SlotTable { slots })
    }
}
