//! A port within one process.

ghost use Rattle.std.specs.Prelude.{◌≡◌};
ghost use Rattle.coord_server.specs.Workers.{worker_of};

use crate::signal::{Signal, SignalSource};
use coord_engine::{LogPrefix, Port};
use coord_types::{NodeId, Packet};
use crossbeam_channel::Sender;
use std::alloc::Global;
use std::marker::Model;
use std::sync::{Mutex, Wait};
use std::{array, mem};

/// The number of workers. A node belongs to the worker whose number is the node's number modulo `WORKERS`.
pub const WORKERS: u8 = 8;

/// The channels to the workers, and the gathered packets for each worker, both indexed by the worker's
/// number.
#[derive(Drop)]
struct Ways {
    channels: Vec<Sender<Vec<Packet>>>,
    gathered: [Vec<Packet>; 8],
}

/// A port that carries packets to the workers' channels, and signals to the channel of the thread that prints them. It
/// gathers packets, and sends all packets for one worker as one message, so that each worker wakes once. It carries the
/// resent packets and all signals; a flusher submits the packets of its flights itself (`SubmittingPort`). It never
/// waits. If memory for a packet runs out, the packet is lost. No clause can describe the values under its locks, so
/// contracts see nothing of it.
#[derive(Drop)]
pub struct LocalPort<R: Wait, O: SignalSource> {
    rt: R,
    alloc: Global,
    ways: Mutex<Ways>,
    signals: Mutex<Option<Sender<Signal<O>>>>,
}

impl<R: Wait, O: SignalSource> Model for LocalPort<R, O> {
    ghost Value = { Unit {0} };

    ghost view = { λ _. tt };
}

impl<R: Wait, O: SignalSource> LocalPort<R, O> {
    /// Creates a port. Channel i leads to worker i.
    pub fn new(
        rt: R,
        alloc: Global,
        channels: Vec<Sender<Vec<Packet>>>,
        signals: Sender<Signal<O>>,
    ) -> Self {
        LocalPort {
            rt,
            alloc,
            ways: Mutex::new(Ways {
                channels,
                gathered: array::from_fn(|_| Vec::new(alloc)),
            }),
            signals: Mutex::new(Some(signals)),
        }
    }

    /// Connects the port to these channels for packets.
    pub fn connect(&self, channels: Vec<Sender<Vec<Packet>>>) {
        self.ways.lock(&self.rt).channels = channels;
    }

    /// Closes the channels for packets. Packets already in them are still received.
    pub fn hang_up(&self) {
        self.ways.lock(&self.rt).channels.clear();
    }

    /// Closes the channel for signals. Signals already in it are still received.
    pub fn fall_silent(&self) {
        *self.signals.lock(&self.rt) = None;
    }
}

/// Returns the worker of the node to which a packet is carried.
fn worker_of(packet: &Packet) -> usize
    ensures { result ≡ worker_of packet.now }
{
    let node = match packet {
        Packet::Carried(data) => data.to,
        Packet::Receipted(receipt) => receipt.from,
    };
    usize::from(node.number() % WORKERS)
}

/// Sends the packets gathered for a worker, if any, and returns the number of packets that were lost.
fn send<R: Wait>(
    rt: &R,
    channels: &[Sender<Vec<Packet>>],
    worker: usize,
    packets: Vec<Packet>,
) -> u64 {
    let count = packets.len() as u64;
    if count == 0 {
        return 0;
    }
    let is_sent = match channels.get(worker) {
        Some(channel) => channel.send(rt, packets).is_ok(),
        None => false,
    };
    if is_sent { 0 } else { count }
}

impl Ways {
    /// Adds a packet to those gathered for its node's worker. Returns false if memory runs out.
    fn gather(&mut self, packet: Packet) -> bool {
        match self.gathered.get_mut(worker_of(&packet)) {
            Some(packets) => packets.push(packet).is_ok(),
            None => false,
        }
    }

    /// Sends the gathered packets to all workers, and returns the number of packets that were lost.
    fn hand_on<R: Wait>(&mut self, rt: &R, alloc: Global) -> u64 {
        let mut lost = 0u64;
        for (worker, gathered) in self.gathered.iter_mut().enumerate() {
            let packets = mem::replace(gathered, Vec::new(alloc));
            lost = lost.saturating_add(send(rt, &self.channels, worker, packets));
        }
        lost
    }
}

impl<R: Wait, O: SignalSource> Port for &LocalPort<R, O> {
    ghost use Rattle.coord_server.specs.Signals.{MaySignal};

    ghost may_signal = { MaySignal O.history O.gives };

    /// The packet names its node, so `_to` is not used.
    fn carry(&mut self, _to: NodeId, packet: Packet) -> bool {
        let port = *self;
        port.ways.lock(&port.rt).gather(packet)
    }

    fn signal(&mut self, reader: LogPrefix, step: u64, node: NodeId, epoch: u64) -> bool {
        let port = *self;
        let signal = Signal::new(reader, step, node, epoch);
        match &*port.signals.lock(&port.rt) {
            Some(signals) => signals.send(&port.rt, signal).is_ok(),
            None => false,
        }
    }

    fn hand_on(&mut self) -> u64 {
        let port = *self;
        port.ways.lock(&port.rt).hand_on(&port.rt, port.alloc)
    }
}
