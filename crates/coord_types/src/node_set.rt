//! Sets of nodes, stored as masks.

ghost use Rattle.std.specs.Prelude.{◌≡◌, ◌↔◌, IsTrue};
ghost use Rattle.coord_types.specs.NodeSet as set;
ghost use Rattle.coord_types.specs.NodeMask.{nodes_of, mask_of, IsMaskable};

use crate::identifiers::NodeId;
use std::marker::Model;

/// A set of nodes, stored as a mask: node k is bit k - 1. Contracts see it as the set of the nodes' numbers.
#[derive(Clone, Copy, Debug)]
pub struct NodeSet {
    bits: u64,
}

impl Model for NodeSet {
    ghost use Rattle.std.specs.Prelude.{◌≡◌};
    ghost use Rattle.coord_types.specs.NodeSet as set;
    ghost use Rattle.coord_types.specs.NodeMask.{nodes_of, mask_of};

    ghost Value = { set.NodeSet };

    ghost coded = { set.nodes_code };

    ghost view = { λ a. nodes_of a.bits };

    ghost invariant = { λ a. mask_of (nodes_of a.bits) ≡ a.bits };

    ghost inverse = { λ s. record { bits = mask_of s } };

    ghost inverse_ok = { λ a h. λ i. record { bits = h i } };
}

#[tactic(auto, using(crate::proofs::Masks::masks))]
impl NodeSet {
    /// Returns the empty set.
    pub fn new() -> Self
        ensures { result ≡ set.empty }
    {
        NodeSet { bits: 0 }
    }

    /// Returns the set that a mask represents: node k is a member if bit k - 1 is set.
    pub fn from_bits(bits: u64) -> Self
        ensures { result ≡ nodes_of bits }
    {
        NodeSet { bits }
    }

    /// Returns the mask of the set: bit k - 1 is set if node k is a member.
    pub fn bits(self) -> u64
        ensures value { result ≡ mask_of self }
        ensures within { IsMaskable self }
    {
        self.bits
    }

    /// Tests whether a node is in the set.
    pub fn contains(self, id: NodeId) -> bool
        ensures { result ≡ set.contains self id }
    {
        (self.bits >> (id.number() - 1)) & 1 == 1
    }

    /// Returns the number of members.
    pub fn len(self) -> usize
        ensures { result ≡ set.len self }
    {
        self.bits.count_ones() as usize
    }

    /// Tests whether the set is empty.
    pub fn is_empty(self) -> bool
        ensures { IsTrue result ↔ (set.len self ≡ 0) }
    {
        self.bits == 0
    }

    /// Tests whether this set is a subset of the other.
    pub fn is_subset(self, other: NodeSet) -> bool
        ensures { result ≡ set.is_subset self other }
    {
        self.bits & !other.bits == 0
    }

    /// Returns the smallest member, or None if the set is empty. A loop that calls `first` and then
    /// `without` visits all members in ascending order.
    pub fn first(self) -> Option<NodeId>
        ensures { result ≡ set.first self }
    {
        NodeId::new(self.bits.trailing_zeros() as u8 + 1)
    }

    /// Returns this set with `id` added.
    pub fn with(self, id: NodeId) -> NodeSet
        ensures { result ≡ set.insert self id }
    {
        NodeSet {
            bits: self.bits | 1 << (id.number() - 1),
        }
    }

    /// Returns this set without `id`.
    pub fn without(self, id: NodeId) -> NodeSet
        ensures { result ≡ set.remove self id }
    {
        NodeSet {
            bits: self.bits & !(1 << (id.number() - 1)),
        }
    }
}

/// Two sets are equal if they have the same members.
impl PartialEq for NodeSet {
    ghost use Rattle.std.specs.Cmp.{partial_equiv_from_equiv};
    ghost use Rattle.std.specs.Cmp.Lexicographic.{on_texts_equal, pointwise};
    ghost use Rattle.std.specs.Prelude.{nat_eq};
    ghost use Rattle.coord_types.specs.NodeSet as set;

    ghost eq = { λ s t. pointwise nat_eq (set.items s) (set.items t) };

    ghost laws = { partial_equiv_from_equiv (on_texts_equal set.items) };

    #[tactic(auto, using(crate::proofs::Masks::masks))]
    fn eq(&self, other: &NodeSet) -> bool
        ensures value { result ≡ pointwise nat_eq (set.items self.now) (set.items other.now) }
        ensures same { IsTrue result ↔ (self.now ≡ other.now) }
    {
        self.bits == other.bits
    }
}

impl Eq for NodeSet {
    ghost use Rattle.std.specs.Cmp.Lexicographic.{on_texts_equal};
    ghost use Rattle.coord_types.specs.NodeSet as set;

    ghost laws = { on_texts_equal set.items };
}
