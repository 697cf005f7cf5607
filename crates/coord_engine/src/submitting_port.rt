//! A port that submits packets itself.

ghost use Rattle.std.specs.Prelude.{◌≡◌, ◌⊎◌, ◌≤◌, [], All};
ghost use Rattle.coord_engine.specs.Working.{IsOfPacket};

use crate::port::Port;
use crate::working::take_and_try;
use crate::{Engine, Hand, LogPrefix, Origin, PacketShare, Share};
use coord_disk::Disk;
use coord_types::{NodeId, Packet};
use std::alloc::Global;
use std::marker::Model;
use std::sync::Wait;

/// The initial room for gathered packets, enough for any flight: at most 256 steps, each with a receipt
/// and a packet to at most 16 neighbours. A packet can be lost later only if memory for this room runs
/// out.
const ROOM: usize = 4_352;

/// A flusher's port that submits packets itself, with its own share, so that no packet travels to
/// another thread and back. The port gathers the packets of a flight, and submits them in
/// `hand_on`. It passes signals to another port, which gets no packet.
///
/// The port submits, keeps, drops or loses a packet like a worker (`worker`), and tries the kept
/// packets again after each flight.
#[derive(Drop)]
pub struct SubmittingPort<'e, D: Disk, L: Origin, P: Port, R: Wait> {
    rt: &'e R,
    engine: &'e Engine<D, L>,
    signals: P,
    gathered: Vec<Packet>,
    share: Share<L>,
    hand: Hand,
}

impl<'e, D: Disk, L: Origin, P: Port, R: Wait> Model for SubmittingPort<'e, D, L, P, R> {
    ghost use Rattle.std.specs.Prelude.{All, vec_capacity};
    ghost use Rattle.coord_engine.specs.SubmittingPort.{Submitting};
    ghost use Rattle.coord_engine.specs.Working.{IsOfPacket};

    ghost Value = { Submitting P };

    ghost view = { λ p. record { signals = p.signals; gathered = p.gathered.items; room = vec_capacity p.gathered; notes = p.share; hand = p.hand } };

    ghost invariant = { λ p. All IsOfPacket p.share };
}

impl<'e, D: Disk, L: Origin, P: Port + Drop, R: Wait> SubmittingPort<'e, D, L, P, R> {
    /// Creates a port without packets, with room for `ROOM` packets, or without room if memory runs
    /// out.
    pub fn new(
        rt: &'e R,
        alloc: Global,
        engine: &'e Engine<D, L>,
        signals: P,
        share: PacketShare<L>,
    ) -> Self
        ensures signals { result.signals ≡ signals }
        ensures gathered { result.gathered ≡ [] }
        ensures notes { result.notes ≡ share }
        ensures waiting { result.hand.waiting ≡ [] }
        ensures room { (ROOM ≤ result.room) ⊎ (result.room ≡ 0) }
    {
        SubmittingPort {
            rt,
            engine,
            signals,
            gathered: Vec::with_capacity(alloc, ROOM).unwrap_or(Vec::new(alloc)),
            share: share.into_share(),
            hand: Hand::new(alloc),
        }
    }

    /// Returns the port's share, with the notes of all packets that were accepted.
    pub fn into_share(self) -> PacketShare<L>
        ensures { result ≡ self.entry.notes }
    {
        PacketShare { share: self.share }
    }
}

impl<'e, D: Disk, L: Origin, P: Port, R: Wait> Port for SubmittingPort<'e, D, L, P, R> {
    ghost use Rattle.coord_engine.specs.State.{based_on};
    ghost use Rattle.coord_engine.specs.SubmittingPort.{Gathers, PassesOn, SubmitsGathered};

    ghost may_signal = { P.may_signal };

    ghost carried = { Gathers };

    ghost signalled = { PassesOn P.signalled };

    ghost handed_on = { SubmitsGathered (based_on D.model L.base L.before) };

    /// Gathers a packet. The packet names its node, so `_to` is not used.
    fn carry(&mut self, _to: NodeId, packet: Packet) -> bool {
        self.gathered.push(packet).is_ok()
    }

    fn signal(&mut self, reader: LogPrefix, step: u64, node: NodeId, epoch: u64) -> bool {
        self.signals.signal(reader, step, node, epoch)
    }

    fn hand_on(&mut self) -> u64 {
        take_and_try(
            self.rt,
            self.engine,
            &self.gathered,
            &mut self.share,
            &mut self.hand,
        );
        self.gathered.clear();
        0
    }
}
