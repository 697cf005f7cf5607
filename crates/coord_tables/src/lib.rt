//! The tables of a world. The world's nodes and its clients' last orders are in slots, by their
//! numbers. The world's links are in ascending order of their ends, each with the lanes in both
//! directions. An index gives the place of each link, so that no call searches.
//!
//! `SlotTable`, under the names `NodeTable` and `SessionTable`, and `LinkTable` are the code.
//! Contracts see each of these as a finite table (`Table` of coord_types). `specs/Links.antt`
//! defines the table of links, in the order of `specs/Pairs.antt`. `specs/Slots.antt` defines how
//! slots represent a table, and `specs/Places.antt` when an index belongs to a list. `get` and
//! `lane` find the value at a key; `replace`, `send`, `take` and `clear` change the value in place.
//! None of these calls allocates. The main theorems are the contracts of the two types: each call
//! acts like the same call on the finite table, or reports out of memory and leaves the table
//! unchanged.
#![tactic(auto)]

mod equality;
mod link_table;
mod links;
mod places;
mod slot_table;
mod slots;
mod sorted;

pub use link_table::LinkTable;
pub use links::LinkRow;
pub use slot_table::{NodeTable, SessionTable, SlotTable};
