//! Runs one instance of a server: an engine with its threads, from a store to the remaining parts.

ghost use Rattle.std.specs.Prelude.{◌≡◌, ◌≤◌, [], false, length, IfErr, IfOk, IfSome, None, Some};
ghost use Rattle.coord_engine.specs.MonotoneLog.{StartsWith};
ghost use Rattle.coord_engine.specs.Past.{IsPastOf, StaysAlong};
ghost use Rattle.coord_engine.specs.Released.{MayPrint};
ghost use Rattle.coord_engine.specs.State.{based_on};
ghost use Rattle.coord_ledger.specs.ledger.State.{ledger_over};
ghost use Rattle.coord_store.specs.Kept.{has_stopped};
ghost use Rattle.coord_server.specs.Ending.{LeavesLedger, IsInstance, LeavesShares};
ghost use Rattle.coord_server.specs.Moments.{HasWritten, KeepsAlong};
ghost use Rattle.coord_server.specs.Signals.{MaySignal};
ghost use Rattle.coord_server.specs.declared.instance_end.InstanceEnd.TheVariants as InstanceEndAs;

use crate::instance_end::InstanceEnd;
use crate::printing::Opening;
use crate::setting::Setting;
use crate::threads::{Begun, JoinedThreads, run};
use crate::{ServerFault, SignalSource, WORKERS};
use coord_admin::Callers;
use coord_disk::Disk;
use coord_engine::{
    CloseFault, Closed, Engine, LogAuthority, LogPrefix, MonotoneLog, Origin, PacketShare, Retired,
    Share,
};
use coord_ledger::{Ledger, Seen};
use coord_store::Store;
use coord_types::Packet;
use crossbeam_channel::{Receiver, Sender};
use std::alloc::{AllocError, Global};
use std::marker::Brand;
use std::snapshot::Snapshot;
use std::sync::Wait;
use std::sync::ledger::Blank;
use std::thread::Threads;
use std::time::Clock;

/// The number of notes for which the desk's share and the flusher's share each allocate room when an instance begins.
/// Notes that stay within this room never move. The room takes more than 32 MiB, so the C library maps it separately
/// and returns it to the system when the instance ends. Smaller blocks would stay with the thread that allocated them.
const NOTES_ROOM: usize = 600_000;

/// The start of an instance: the ledger of a store, which has accepted nothing yet, and a handle to the server's
/// history.
#[derive(Drop)]
pub struct InstanceStart<D: Disk> {
    pub history: MonotoneLog,
    pub ledger: Ledger<D>,
    /// The store before the instance, for comparison.
    pub over: Snapshot<Store<D>>,
    pub ghost adopted: { ledger ≡ ledger_over over.value.world over.value.disk },
}

impl<D: Disk> InstanceStart<D> {
    /// Makes a ledger over a store. Errors: if memory runs out, returns the store.
    pub fn new(alloc: Global, history: &MonotoneLog, store: Store<D>) -> Result<Self, Store<D>>
        requires { has_stopped store ≡ false }
        ensures history { IfOk result (λ start. start.history ≡ history.now) }
        ensures over { IfOk result (λ start. start.over.value ≡ store) }
        ensures back { IfErr result (λ back. back ≡ store) }
    {
        let over = Snapshot::of(&store);
        let Ok(history) = history.another() else {
            return Err(store);
        };
        match Ledger::adopt(alloc, store) {
            Ok(ledger) => Ok(InstanceStart {
                history,
                ledger,
                over,
            }),
            Err((_, store)) => Err(store),
        }
    }
}

/// The remaining parts of an instance, the callers, and the authority to write the history, which already has the
/// instance's settled steps.
#[derive(Drop)]
pub struct Instance<D: Disk, C> {
    pub closed: Closed<D>,
    pub writer: LogAuthority,
    pub callers: C,
    pub left: InstanceEnd,
}

/// Serves the store of a ledger to the callers until a line closes it or the instance is old, and returns the engine's
/// parts in any case. Before that, all accepted steps are settled. The first instance opens the output.
///
/// If memory or threads are lacking, the instance serves nobody and leaves its engine unused; `left` reports that, and
/// whether the engine refused to be closed with all shares.
pub fn serve_instance<
    D: Disk + Send,
    C: Callers + Drop,
    O: SignalSource + Send + Sync,
    R: Threads + Wait + Clock + Sync,
>(
    setting: &Setting<'_, R, O>,
    start: InstanceStart<D>,
    writer: LogAuthority,
    callers: C,
    opening: Option<Opening>,
) -> Instance<D, C>
    requires here { writer.history ≡ O.history }
    requires history { start.history ≡ O.history }
    requires may_print { MayPrint writer.history writer.steps start.over.value.world
        (MaySignal O.history O.gives) }
    ensures instance { IsInstance (based_on D.model start.over.value.world []) C.talked C.failed
        setting.now.instance_steps callers result }
    ensures along { KeepsAlong D.model start.over.value
        result.closed.trail.items result.closed.store }
    ensures written { HasWritten writer.history writer.steps result.closed result.writer }
{
    let InstanceStart {
        history,
        ledger,
        over: _,
    } = start;
    let blank = Blank::new(65536);
    serve_ledger::<D, Brand, C, O, R>(setting, blank, history, writer, ledger, callers, opening)
}

/// Runs the threads of an instance over an engine, and takes the engine apart. `L` names the history
/// and the ledger.
fn serve_ledger<
    D: Disk + Send,
    L: Origin + Send + Sync,
    C: Callers + Drop,
    O: SignalSource + Send + Sync,
    R: Threads + Wait + Clock + Sync,
>(
    setting: &Setting<'_, R, O>,
    blank: Blank,
    history: MonotoneLog,
    writer: LogAuthority,
    ledger: Ledger<D>,
    callers: C,
    opening: Option<Opening>,
) -> Instance<D, C>
    requires name { blank.name ≡ L.name }
    requires parts { (blank.parts ≡ L.parts) × (L.parts ≡ 65536) }
    requires history { history ≡ L.history }
    requires earlier { writer ≡ record { history = L.history; steps = L.earlier } }
    requires home { ledger.out ≡ None }
    requires base { ledger.log.base ≡ L.base }
    requires before { (ledger.log.trail ≡ L.before) × (L.before ≡ []) }
    requires disk { IfSome ledger.disk (IsPastOf D.model L.disk) }
    requires here { O.history ≡ L.history }
    requires may_print { MayPrint L.history L.earlier L.base (MaySignal O.history O.gives) }
    ensures instance { IsInstance (based_on D.model L.base L.before) C.talked C.failed
        setting.now.instance_steps callers result }
    ensures along { StaysAlong D.model L.disk L.base
        result.closed.trail.items result.closed.store.disk }
    ensures written { HasWritten L.history L.earlier result.closed result.writer }
{
    let mut writer = writer;
    let reader = writer.reader(&history);
    let engine: Engine<D, L> = Engine::new(setting.alloc, blank, history, writer, ledger);
    let Some(begun) = begin(setting, &engine, reader) else {
        return unbegun(setting, engine, callers);
    };
    match run(setting, &engine, begun, callers, opening) {
        Ok(completed) => retired(setting.rt, setting.history, engine, completed),
        Err((callers, opening)) => {
            drop(opening);
            unbegun(setting, engine, callers)
        }
    }
}

/// Makes the shares of the desk and the flusher, allocates room for everything that an instance must
/// not lose, and connects the port to a channel for each worker. Returns None if memory runs out.
fn begin<D: Disk, L: Origin, O: SignalSource, R: Wait>(
    setting: &Setting<'_, R, O>,
    engine: &Engine<D, L>,
    reader: LogPrefix,
) -> Option<Begun<L>>
    requires { reader ≡ record { history = L.history; steps = L.earlier } }
{
    let own = share_with_room(setting.rt, engine)?;
    let flusher_share = PacketShare::new(share_with_room(setting.rt, engine)?);
    let room = Vec::with_capacity(setting.alloc, usize::from(WORKERS) + 2).ok()?;
    let (to, packets) = channels(setting.alloc).ok()?;
    setting.port.connect(to);
    Some(Begun {
        own,
        reader,
        flusher_share,
        room,
        packets,
    })
}

/// Returns a share with room for the notes of a whole instance.
fn share_with_room<D: Disk, L: Origin, R: Wait>(rt: &R, engine: &Engine<D, L>) -> Option<Share<L>>
    ensures { IfSome result (λ share. share ≡ []) }
{
    let mut share = engine.share(rt)?;
    share.reserve(NOTES_ROOM).ok()?;
    Some(share)
}

/// Returns what remains of an instance that did not begin: the parts of its engine, and the callers, none of whom was
/// served.
fn unbegun<D: Disk, L: Origin, C, O: SignalSource, R: Wait + Clock>(
    setting: &Setting<'_, R, O>,
    engine: Engine<D, L>,
    callers: C,
) -> Instance<D, C>
    requires parts { L.parts ≡ 65536 }
    ensures unserved { (result.callers ≡ callers) ×
        (result.left ≡ InstanceEndAs.Ended (Some ServerFault.NotBegun)) }
    ensures left { LeavesLedger (based_on D.model L.base L.before) result.closed }
    ensures along { StaysAlong D.model L.disk L.base
        result.closed.trail.items result.closed.store.disk }
    ensures written { HasWritten L.history L.earlier result.closed result.writer }
{
    let nothing = Seen::new();
    let Retired {
        closed,
        writer,
        refused: _,
    } = engine.retire(setting.rt, Vec::new(setting.alloc), &nothing);
    Instance {
        closed,
        writer,
        callers,
        left: InstanceEnd::Ended(Some(ServerFault::NotBegun)),
    }
}

/// Takes the engine apart after the threads of an instance have run, and returns the remaining parts. If the engine
/// refuses to be closed with the shares, it is taken apart nevertheless. The steps that the desk has read are a prefix
/// of the written history.
fn retired<D: Disk, L: Origin, C: Callers, R: Wait + Clock>(
    rt: &R,
    history: &MonotoneLog,
    engine: Engine<D, L>,
    completed: JoinedThreads<L, C>,
) -> Instance<D, C>
    requires parts { L.parts ≡ 65536 }
    requires all { length completed.shares.items ≡ 10 }
    requires here { history.now ≡ L.history }
    requires own { completed.reader.history ≡ L.history }
    ensures callers { result.callers ≡ completed.callers }
    ensures left { LeavesShares (based_on D.model L.base L.before) completed.shares.items
        completed.seen completed.left result }
    ensures begins { StartsWith (result.writer).steps completed.reader.steps }
    ensures along { StaysAlong D.model L.disk L.base
        result.closed.trail.items result.closed.store.disk }
    ensures written { HasWritten L.history L.earlier result.closed result.writer }
{
    let JoinedThreads {
        shares,
        seen,
        reader,
        callers,
        left,
    } = completed;
    let Retired {
        closed,
        mut writer,
        refused,
    } = engine.retire(rt, shares, &seen);
    writer.take_back(history, reader);
    Instance {
        closed,
        writer,
        callers,
        left: left_with(left, refused),
    }
}

/// Returns the end of an instance, given the end of its serving and the result of closing its engine.
fn left_with(served: InstanceEnd, refused: Option<CloseFault>) -> InstanceEnd
    ensures named { refused ≡ None → result ≡ served }
    ensures refused { IfSome refused (λ why.
        result ≡ InstanceEndAs.Ended (Some (ServerFault.NotClosed why))) }
{
    match refused {
        None => served,
        Some(why) => InstanceEnd::Ended(Some(ServerFault::NotClosed(why))),
    }
}

/// Creates a channel for each worker, and returns both ends of each.
fn channels(
    alloc: Global,
) -> Result<(Vec<Sender<Vec<Packet>>>, Vec<Receiver<Vec<Packet>>>), AllocError>
    ensures { IfOk result (λ ends. (length ends.0.items ≡ 8) × (length ends.1.items ≡ 8)) }
{
    let mut to = Vec::new(alloc);
    let mut from = Vec::new(alloc);
    for _ in 0..WORKERS {
        let (sender, receiver) = crossbeam_channel::unbounded(alloc)?;
        to.push(sender)?;
        from.push(receiver)?;
    }
    Ok((to, from))
}
