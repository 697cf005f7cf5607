//! The worker: submits arrived packets as steps.

ghost use Rattle.std.specs.Prelude.{◌≡◌, List, Vec};
ghost use Rattle.std.specs.Iterator.{Drains, IsFinite};
ghost use Rattle.coord_types.specs.declared.packets.Packet.{Packet as Asked};
ghost use Rattle.coord_engine.specs.State.{based_on};
ghost use Rattle.coord_engine.specs.Working.{AddsPackets, TakesPacket, Tries, TriesAll, Works, WorksAndTries, all_packets, has_to_wait};

use crate::port::step_of;
use crate::{Engine, Guarded, Hand, Origin, PacketShare, Share, Waiting};
use coord_disk::Disk;
use coord_types::{Packet, Refusal};
use crossbeam_channel::Receiver;
use std::alloc::Global;
use std::sync::Wait;

/// Tests whether a packet has to wait after this refusal, because there was no room for its step.
fn has_to_wait(refusal: Refusal) -> bool
    ensures { result ≡ has_to_wait refusal }
{
    matches!(refusal, Refusal::PendingFull | Refusal::OutOfMemory)
}

/// Submits a packet's step and drops the reply. Returns whether the packet has to wait.
fn submit<D: Disk, L: Origin>(
    guarded: &mut Guarded<D, L>,
    packet: Packet,
    share: &mut Share<L>,
) -> bool
    ensures { Tries (based_on D.model L.base L.before) share.old packet result share.new }
{
    guarded.keeps();
    match guarded.submit(step_of(packet), share) {
        Ok(ticket) => {
            ticket.forget();
            false
        }
        Err(refusal) => has_to_wait(refusal),
    }
}

/// Submits the waiting packets in order, up to the first packet that still has to wait.
fn try_waiting<D: Disk, L: Origin>(
    guarded: &mut Guarded<D, L>,
    share: &mut Share<L>,
    waiting: &mut Waiting,
)
    ensures { TriesAll (based_on D.model L.base L.before) share.old waiting.old
        share.new waiting.new }
{
    for _tried in 0..waiting.len() {
        let Some(packet) = waiting.first() else {
            return;
        };
        if submit(guarded, packet, share) {
            return;
        }
        waiting.drop_first();
    }
}

/// Submits a packet, keeps it if it has to wait, and counts it as handled.
fn take<D: Disk, L: Origin>(
    guarded: &mut Guarded<D, L>,
    packet: &Packet,
    share: &mut Share<L>,
    hand: &mut Hand,
)
    ensures { TakesPacket (based_on D.model L.base L.before) share.old hand.old
        packet.now share.new hand.new }
{
    let has_to_wait = submit(guarded, *packet, share);
    hand.keep(packet, has_to_wait);
    hand.count(guarded.put_down());
}

/// Submits packets in order, and tries the waiting packets after each one.
fn take_each<D: Disk, L: Origin>(
    guarded: &mut Guarded<D, L>,
    packets: &[Packet],
    share: &mut Share<L>,
    hand: &mut Hand,
)
    ensures { Works (based_on D.model L.base L.before) share.old hand.old
        packets.now share.new hand.new }
{
    for packet in packets {
        take(guarded, packet, share, hand);
        try_waiting(guarded, share, &mut hand.waiting);
    }
}

/// Submits packets that arrived together, under one lock, and wakes the flusher once.
fn take_together<D: Disk, L: Origin, R: Wait>(
    rt: &R,
    engine: &Engine<D, L>,
    packets: &[Packet],
    share: &mut Share<L>,
    hand: &mut Hand,
)
    ensures { Works (based_on D.model L.base L.before) share.old hand.old
        packets.now share.new hand.new }
{
    let mut lock = engine.lock_for_change(rt);
    take_each(&mut lock.guarded, packets, share, hand);
    lock.unlock();
}

/// Submits packets that arrived together and tries the waiting packets again, under one lock, and
/// wakes the flusher once.
pub(crate) fn take_and_try<D: Disk, L: Origin, R: Wait>(
    rt: &R,
    engine: &Engine<D, L>,
    packets: &[Packet],
    share: &mut Share<L>,
    hand: &mut Hand,
)
    ensures { WorksAndTries (based_on D.model L.base L.before) share.old hand.old
        packets.now share.new hand.new }
{
    let mut lock = engine.lock_for_change(rt);
    take_each(&mut lock.guarded, packets, share, hand);
    try_waiting(&mut lock.guarded, share, &mut hand.waiting);
    lock.unlock();
}

/// Submits the arriving packets in order and drops their replies. Ends after the last packet.
/// Packets that arrive together are submitted under one lock.
///
/// After `PendingFull` or `OutOfMemory` the worker keeps the packet, and tries the kept packets
/// again before it submits the next one. After any other refusal it drops the packet. If memory to
/// keep a packet runs out, the packet is lost; if it is still needed, the server sends it again. In
/// each case the packet is counted as handled.
pub fn worker<D: Disk, L: Origin, I: Iterator<Item = Vec<Packet>>, R: Wait>(
    rt: &R,
    engine: &Engine<D, L>,
    parcels: I,
    share: Share<L>,
    hand: &mut Hand,
) -> Share<L>
    requires { I.can_next parcels × IsFinite (I.remaining parcels) }
    ensures worked { (came : List (Vec Asked Global)) × Drains I.next_gives parcels came ×
        Works (based_on D.model L.base L.before) share hand.old (all_packets came) result hand.new }
    ensures packets { AddsPackets share result }
{
    let mut share = share;
    for packets in parcels {
        take_together(rt, engine, &packets, &mut share, hand);
    }
    share
}

/// Runs a worker over a channel, for a separate thread. The type of the returned share guarantees
/// that all its notes are of packets. The worker ends when the channel closes.
pub fn packet_worker<D: Disk, L: Origin, R: Wait>(
    rt: &R,
    alloc: Global,
    engine: &Engine<D, L>,
    parcels: Receiver<Vec<Packet>>,
    share: PacketShare<L>,
) -> PacketShare<L>
    ensures { AddsPackets share result }
{
    let mut hand = Hand::new(alloc);
    PacketShare {
        share: worker(rt, engine, parcels.iter(rt), share.into_share(), &mut hand),
    }
}
