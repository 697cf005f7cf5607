//! The numbers of nodes, groups and clients. The type of each number guarantees its range.

ghost use Rattle.std.specs.Prelude.{◌≡◌, ◌≤◌, ◌↔◌, IsSome, IfSome};

use crate::limits::{MAX_CLIENTS, MAX_GROUPS, MAX_NODES, MAX_VERSIONS};
use std::marker::Model;

/// The number of a node, a group or a client, from 1 to `MOST`. Contracts see a plain number.
#[derive(Clone, Copy, Debug, PartialEq, Eq, PartialOrd, Ord)]
pub struct Identifier<const MOST: u8> {
    number: u8,
}

/// A node's number, from 1 to 64.
pub type NodeId = Identifier<MAX_NODES>;

/// A group's number, from 1 to 16. A link joins two nodes of one group.
pub type Group = Identifier<MAX_GROUPS>;

/// A client's number, from 1 to 16. Each client numbers its own orders from 1.
pub type Client = Identifier<MAX_CLIENTS>;

/// The version of a world and of its grammar, 1 or 2. In version 2, an Abort and a node in a reset
/// carry a distance.
pub type Version = Identifier<MAX_VERSIONS>;

impl<const MOST: u8> Model for Identifier<MOST> {
    ghost use Rattle.std.specs.Prelude.{ℕ, ◌≤◌};

    ghost Value = { ℕ };

    ghost view = { λ a. a.number };

    ghost invariant = { λ a. (1 ≤ a.number) × (a.number ≤ MOST) };

    ghost inverse = { λ n. record { number = n } };
}

impl<const MOST: u8> Identifier<MOST> {
    /// Returns the identifier with this number, or None if the number is not from 1 to `MOST`.
    pub fn new(number: u8) -> Option<Self>
        ensures within { IsSome result ↔ ((1 ≤ number) × (number ≤ MOST)) }
        ensures value { IfSome result (λ id. id ≡ number) }
    {
        if (1..=MOST).contains(&number) {
            Some(Identifier { number })
        } else {
            None
        }
    }

    /// Returns the number, from 1 to `MOST`.
    pub fn number(self) -> u8
        ensures value { result ≡ self.entry }
        ensures least { 1 ≤ self.entry }
        ensures greatest { self.entry ≤ MOST }
    {
        self.number
    }
}
