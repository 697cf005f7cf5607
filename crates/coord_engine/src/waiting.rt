//! The packets that a worker keeps for another attempt.

ghost use Rattle.std.specs.Prelude.{◌≡◌, [], drop, length, slice_get, OnOk, OnErr, IfErr};
ghost use Rattle.std.specs.Hash as fed;
ghost use Rattle.std.specs.Cmp.Rules.{hashing};
ghost use Rattle.std.proofs.Common.{rules};
ghost use Rattle.coord_engine.specs.Waiting.{with_packet};

use coord_types::{NodeId, Packet};
use indexmap::IndexMap;
use std::alloc::Global;
use std::hash::{Hash, Hasher};
use std::marker::Model;

/// A packet's lane and kind. At most one packet of each lane and kind waits.
#[derive(Clone, Copy, PartialEq, Eq)]
struct Slot {
    from: NodeId,
    to: NodeId,
    is_receipt: bool,
}

impl Hash for Slot {
    ghost use Rattle.std.specs.Prelude.{◌++◌};

    ghost hash_input = { λ slot. fed.u8 slot.from ++ fed.u8 slot.to ++ fed.bool slot.is_receipt };

    ghost respects_eq = { Prim.search (hashing, rules) };

    fn hash<H: Hasher>(&self, state: &mut H) {
        self.from.number().hash(state);
        self.to.number().hash(state);
        self.is_receipt.hash(state);
    }
}

impl Slot {
    ghost use Rattle.coord_engine.specs.code.Slots.{slot_of};

    fn of(packet: &Packet) -> Slot
        ensures { result ≡ slot_of packet.now }
    {
        match *packet {
            Packet::Carried(data) => Slot {
                from: data.from,
                to: data.to,
                is_receipt: false,
            },
            Packet::Receipted(receipt) => Slot {
                from: receipt.from,
                to: receipt.to,
                is_receipt: true,
            },
        }
    }
}

/// Packets that wait for another attempt, at most one for each lane and kind (data or receipt).
/// Contracts see them as a list, in the order in which their lanes and kinds first arrived
/// (`specs/Waiting.antt`).
#[derive(Drop)]
pub struct Waiting {
    packets: IndexMap<Slot, Packet>,
}

impl Model for Waiting {
    ghost use Rattle.std.specs.Prelude.{List};
    ghost use Rattle.indexmap.specs.IndexMap.{values};
    ghost use Rattle.coord_types.specs.declared.packets.Packet.{Packet};
    ghost use Rattle.coord_engine.specs.code.Slots.{SlotsMatch};

    ghost Value = { List Packet };

    ghost view = { λ w. values w.packets };

    ghost invariant = { λ w. SlotsMatch w.packets.entries };
}

impl Waiting {
    /// Returns an empty list.
    pub fn new(alloc: Global) -> Self
        ensures { result ≡ [] }
    {
        Waiting {
            packets: IndexMap::new(alloc),
        }
    }

    /// Keeps a packet: it replaces the packet of its lane and kind, or is appended. Returns the packet
    /// if memory runs out.
    pub fn put(&mut self, packet: Packet) -> Result<(), Packet>
        ensures put { OnOk result (self.new ≡ with_packet self.old packet) }
        ensures back { IfErr result (λ refused. refused ≡ packet) }
        ensures unchanged { OnErr result (self.new ≡ self.old) }
    {
        if self.packets.insert(Slot::of(&packet), packet).is_err() {
            return Err(packet);
        }
        Ok(())
    }

    /// Returns the number of waiting packets.
    pub fn len(&self) -> usize
        ensures { result ≡ length self.now }
    {
        self.packets.len()
    }

    /// Returns the first waiting packet, if any.
    pub fn first(&self) -> Option<Packet>
        ensures { result ≡ slice_get self.now 0 }
    {
        match self.packets.get_index(0) {
            Some((_slot, packet)) => Some(*packet),
            None => None,
        }
    }

    /// Drops the first waiting packet, if any.
    pub fn drop_first(&mut self)
        ensures { self.new ≡ drop 1 self.old }
    {
        self.packets.shift_remove_index(0);
    }
}
