//! The threads of one instance of a server, which run while it serves connections.

ghost use Rattle.std.specs.Prelude.{◌≡◌, ◌⊎◌, ◌+◌, ◌≤◌, [], ◌∷◌, List, ℕ, IfErr, IfOk, IfSome, IsErr, None, Some, length, vec_capacity, vec_len};
ghost use Rattle.std.specs.Thread.{IsSend, IsSync};
ghost use Rattle.coord_engine.specs.Released.{HasReadSettled, MayPrint};
ghost use Rattle.coord_engine.specs.State.{based_on};
ghost use Rattle.coord_server.specs.EngineDesk.{HandsAgain};
ghost use Rattle.coord_server.specs.Ending.{AddsWorkers, EndsUnopened, HasRun, Local, ServesInstance, new_desk};
ghost use Rattle.coord_server.specs.Signals.{MaySignal};
ghost use Rattle.coord_types.specs.declared.steps.Step.{Step};

use crate::instance_end::InstanceEnd;
use crate::printing::Opening;
use crate::setting::Setting;
use crate::{EngineDesk, ServerFault, SignalSource};
use coord_admin::{Callers, Desk, Stop, serve_connections};
use coord_disk::Disk;
use coord_engine::{
    Engine, LogPrefix, Origin, PacketShare, Port, Share, SubmittingPort, flusher, packet_worker,
};
use coord_ledger::Seen;
use coord_types::Packet;
use crossbeam_channel::Receiver;
use std::sync::Wait;
use std::sync::ledger::Ledger as Count;
use std::thread;
use std::thread::{JoinHandle, Scope, Threads};
use std::time::Clock;

/// The parts that an instance's threads start with.
#[derive(Drop)]
pub struct Begun<L: Origin> {
    /// The desk's share.
    pub own: Share<L>,
    /// The desk's token, which has read the steps of earlier instances.
    pub reader: LogPrefix,
    /// The flusher's share.
    pub flusher_share: PacketShare<L>,
    /// Room for all shares, so that none is lost if memory runs out.
    pub room: Vec<Share<L>>,
    /// The receiving ends of the workers' channels.
    pub packets: Vec<Receiver<Vec<Packet>>>,
    pub ghost unused: { own ≡ [] },
    pub ghost unread: { reader ≡ record { history = L.history; steps = L.earlier } },
    pub ghost has_room: { (room.items ≡ []) × (10 ≤ vec_capacity room) },
    pub ghost eight: { length packets.items ≡ 8 },
}

/// The results of all threads: all shares, of which the desk's is the first; the desk's seen count; and the token that
/// has read the steps from which the desk's answers follow.
#[derive(Drop)]
pub struct JoinedThreads<L: Count, C> {
    pub shares: Vec<Share<L>>,
    pub seen: Seen,
    pub reader: LogPrefix,
    pub callers: C,
    pub left: InstanceEnd,
}

/// The threads of an instance: its flusher, and a worker for each of the eight channels. Serving takes
/// a crew as its argument, so nobody is served before all threads were started.
#[derive(Drop)]
struct Crew<L: Count> {
    flushing: JoinHandle<PacketShare<L>>,
    workers: Vec<JoinHandle<PacketShare<L>>>,
    ghost eight: { vec_len workers ≡ 8 },
}

/// Starts a flusher, and a worker on each channel. Once all of them run, opens the output, sends the packets again that
/// may have been lost, and serves the callers until the instance is old. Returns an error if a thread could not be
/// started. Then nothing was printed and nobody was served, and the callers and the opening are returned unchanged.
pub fn run<
    D: Disk + Send,
    L: Origin + Send + Sync,
    C: Callers + Drop,
    O: SignalSource + Send + Sync,
    R: Threads + Wait + Clock + Sync,
>(
    setting: &Setting<'_, R, O>,
    engine: &Engine<D, L>,
    begun: Begun<L>,
    callers: C,
    opening: Option<Opening>,
) -> Result<JoinedThreads<L, C>, (C, Option<Opening>)>
    requires { MayPrint L.history L.earlier L.base (MaySignal O.history O.gives) }
    ensures completed { IfOk result (λ completed.
        HasRun (based_on D.model L.base L.before) C.talked C.failed setting.now.instance_steps
        L.history L.earlier callers completed.callers completed.left completed.shares.items
        completed.seen completed.reader) }
    ensures unserved { IfErr result (λ back. (back.0 ≡ callers) × (back.1 ≡ opening)) }
{
    thread::scope(
        thread::scope_env(),
        setting.rt,
        |scope| -> Result<JoinedThreads<L, C>, (C, Option<Opening>)>
            requires { IsSend D.row × IsSend L.row × IsSync L.row × IsSync R.row × IsSend O.row × IsSync O.row ×
                MayPrint L.history L.earlier L.base (MaySignal O.history O.gives) }
            ensures completed { IfOk result (λ completed.
                HasRun (based_on D.model L.base L.before) C.talked C.failed
                setting.entry.now.instance_steps L.history L.earlier callers completed.callers
                completed.left completed.shares.items completed.seen completed.reader) }
            ensures unserved { IfErr result (λ back. (back.0 ≡ callers) × (back.1 ≡ opening)) }
        { run_in(scope, setting, engine, begun, callers, opening) },
    )
}

/// Serves while the threads of a scope run, and then ends them in order: first the flusher, after all
/// accepted steps are settled and their releases passed on; then the workers.
fn run_in<
    's,
    'r: 's,
    'e: 's,
    E,
    D: Disk + Send,
    L: Origin + Send + Sync,
    C: Callers + Drop,
    O: SignalSource + Send + Sync,
    R: Threads + Wait + Clock + Sync,
>(
    scope: &Scope<'s, E>,
    setting: &Setting<'r, R, O>,
    engine: &'e Engine<D, L>,
    begun: Begun<L>,
    callers: C,
    opening: Option<Opening>,
) -> Result<JoinedThreads<L, C>, (C, Option<Opening>)>
    requires { MayPrint L.history L.earlier L.base (MaySignal O.history O.gives) }
    ensures completed { IfOk result (λ completed.
        HasRun (based_on D.model L.base L.before) C.talked C.failed setting.now.instance_steps
        L.history L.earlier callers completed.callers completed.left completed.shares.items
        completed.seen completed.reader) }
    ensures unserved { IfErr result (λ back. (back.0 ≡ callers) × (back.1 ≡ opening)) }
{
    let rt = setting.rt;
    let Begun {
        own,
        reader,
        flusher_share,
        room,
        packets,
    } = begun;
    let Some(crew) = start(scope, setting, engine, flusher_share, packets) else {
        engine.finish(rt);
        setting.port.hang_up();
        return Err((callers, opening));
    };
    let mut callers = callers;
    let (own, seen, reader, left) = serve_over(
        setting,
        &*engine,
        &crew,
        own,
        reader,
        &mut callers,
        opening,
    );
    let Crew { flushing, workers } = crew;
    engine.finish(rt);
    let flushed = flushing.join(rt);
    setting.port.hang_up();
    Ok(JoinedThreads {
        shares: all_joined(rt, room, own, flushed, workers),
        seen,
        reader,
        callers,
        left,
    })
}

/// Starts a flusher, and a worker on each channel. Returns None if one of them can't be started.
fn start<
    's,
    'r: 's,
    'e: 's,
    E,
    D: Disk + Send,
    L: Origin + Send + Sync,
    O: SignalSource + Send + Sync,
    R: Wait + Clock + Sync,
>(
    scope: &Scope<'s, E>,
    setting: &Setting<'r, R, O>,
    engine: &'e Engine<D, L>,
    flusher_share: PacketShare<L>,
    packets: Vec<Receiver<Vec<Packet>>>,
) -> Option<Crew<L>>
    requires eight { vec_len packets ≡ 8 }
    requires may_print { MayPrint L.history L.earlier L.base (MaySignal O.history O.gives) }
{
    let flushing = start_flusher(scope, setting, engine, flusher_share)?;
    let workers = start_workers(scope, setting, engine, packets)?;
    Some(Crew { flushing, workers })
}

/// Starts a flusher with this share. The flusher submits the packets of its flights itself. Returns None if no thread
/// can be started.
fn start_flusher<
    's,
    'r: 's,
    'e: 's,
    E,
    D: Disk + Send,
    L: Origin + Send + Sync,
    O: SignalSource + Send + Sync,
    R: Wait + Clock + Sync,
>(
    scope: &Scope<'s, E>,
    setting: &Setting<'r, R, O>,
    engine: &'e Engine<D, L>,
    share: PacketShare<L>,
) -> Option<JoinHandle<PacketShare<L>>>
    requires { MayPrint L.history L.earlier L.base (MaySignal O.history O.gives) }
{
    let (rt, alloc, signals) = (setting.rt, setting.alloc, setting.port);
    scope
        .spawn(
            move || -> PacketShare<L>
                requires { MayPrint L.history L.earlier L.base (MaySignal O.history O.gives) }
            {
                let mut port = SubmittingPort::new(rt, alloc, engine, signals, share);
                flusher(rt, engine, &mut port);
                port.into_share()
            },
        )
        .ok()
}

/// Starts a worker on each channel. Returns None if one of them can't be started; the others then end
/// with the scope.
fn start_workers<
    's,
    'r: 's,
    'e: 's,
    E,
    D: Disk + Send,
    L: Origin + Send + Sync,
    O: SignalSource,
    R: Wait + Sync,
>(
    scope: &Scope<'s, E>,
    setting: &Setting<'r, R, O>,
    engine: &'e Engine<D, L>,
    packets: Vec<Receiver<Vec<Packet>>>,
) -> Option<Vec<JoinHandle<PacketShare<L>>>>
    ensures { IfSome result (λ running. vec_len running ≡ vec_len packets) }
{
    let mut running = Vec::new(setting.alloc);
    for inbox in packets {
        let worker = start_worker(scope, setting, engine, inbox)?;
        if running.push(worker).is_err() {
            return None;
        }
    }
    Some(running)
}

/// Starts a worker with its own share. Returns None if no thread can be started or no share is left.
fn start_worker<
    's,
    'r: 's,
    'e: 's,
    E,
    D: Disk + Send,
    L: Origin + Send + Sync,
    O: SignalSource,
    R: Wait + Sync,
>(
    scope: &Scope<'s, E>,
    setting: &Setting<'r, R, O>,
    engine: &'e Engine<D, L>,
    packets: Receiver<Vec<Packet>>,
) -> Option<JoinHandle<PacketShare<L>>> {
    let (rt, alloc) = (setting.rt, setting.alloc);
    let share = PacketShare::new(engine.share(rt)?);
    scope
        .spawn(move || packet_worker(rt, alloc, engine, packets, share))
        .ok()
}

/// Opens the output, and serves the callers through a desk with this share while the crew's threads run. Returns the
/// share, the desk's seen count, its token, and the end of the serving.
fn serve_over<D: Disk, L: Origin, C: Callers, O: SignalSource, R: Wait>(
    setting: &Setting<'_, R, O>,
    engine: &Engine<D, L>,
    _crew: &Crew<L>,
    own: Share<L>,
    reader: LogPrefix,
    callers: &mut C,
    opening: Option<Opening>,
) -> (Share<L>, Seen, LogPrefix, InstanceEnd)
    requires unused { own ≡ [] }
    requires unread { reader ≡ record { history = L.history; steps = L.earlier } }
    ensures { (port : Local) × (later : Local) × (read : List Step) × ServesInstance
        (based_on D.model L.base L.before) C.talked C.failed setting.now.instance_steps port
        callers.old callers.new
        (record { notes = result.0; seen = result.1; read = read; port = later }) result.3 ×
        HasReadSettled L.history L.earlier read result.2 }
{
    let opened = open(setting.rt, &*callers, opening);
    let mut desk = EngineDesk::new(setting.rt, engine, setting.port, own, reader);
    let left = serve_clients(setting, opened, callers, &mut desk);
    let (own, seen, reader) = desk.into_parts();
    (own, seen, reader, left)
}

/// Opens the output, unless an earlier instance did. Returns the end of the instance if the output
/// can't be opened.
fn open<C: Callers, R: Wait>(
    rt: &R,
    callers: &C,
    opening: Option<Opening>,
) -> Result<(), InstanceEnd>
    ensures unopened { IfErr result (EndsUnopened C.failed callers.now) }
    ensures given_up { IfSome opening (λ first. first.to ≡ None → IsErr result) }
{
    match opening {
        Some(opening) => opening.open(rt, callers),
        None => Ok(()),
    }
}

/// Once the output is open, sends the packets again that may have been lost, and serves the callers until the instance
/// is old. Returns why the serving ended; for example, because the output could not be opened.
fn serve_clients<D: Disk, L: Origin, C: Callers, P: Port, O: SignalSource, R: Wait>(
    setting: &Setting<'_, R, O>,
    opened: Result<(), InstanceEnd>,
    callers: &mut C,
    desk: &mut EngineDesk<'_, D, L, P, R>,
) -> InstanceEnd
    requires start { IfErr opened (EndsUnopened C.failed callers.old) }
    requires new { desk.old ≡ new_desk desk.old.port }
    ensures returned { IfErr opened (λ end. result ≡ end) }
    ensures resent { IfOk opened (λ _.
        (result ≡ InstanceEnd.Ended (Some ServerFault.OutOfMemory)) ⊎ ((count : ℕ) × (later : P) ×
        HandsAgain (based_on D.model L.base L.before) P.carried P.signalled
        P.handed_on count desk.old.port later × ServesInstance (based_on D.model L.base L.before)
        C.talked C.failed setting.now.instance_steps later callers.old callers.new desk.new result)) }
    ensures served { (port : P) × ServesInstance
        (based_on D.model L.base L.before) C.talked C.failed setting.now.instance_steps port
        callers.old callers.new desk.new result }
{
    if let Err(end) = opened {
        return end;
    }
    let Ok(_) = desk.resend() else {
        return InstanceEnd::Ended(Some(ServerFault::OutOfMemory));
    };
    serve_until_old(setting, callers, desk)
}

/// Serves the callers through a desk without notes, until a line closes it or the instance is old. Returns why the
/// serving ended.
fn serve_until_old<D: Disk, L: Origin, C: Callers, P: Port, O: SignalSource, R: Wait>(
    setting: &Setting<'_, R, O>,
    callers: &mut C,
    desk: &mut EngineDesk<'_, D, L, P, R>,
) -> InstanceEnd
    requires { desk.old ≡ new_desk desk.old.port }
    ensures { ServesInstance (based_on D.model L.base L.before) C.talked C.failed
        setting.now.instance_steps desk.old.port callers.old callers.new desk.new result }
{
    match serve_connections(
        setting.rt,
        setting.alloc,
        setting.instance_steps,
        callers,
        desk,
    ) {
        Ok(Stop::Closed) => InstanceEnd::Ended(None),
        Ok(Stop::Old) => InstanceEnd::Resting,
        Err(_) => InstanceEnd::Ended(Some(ServerFault::Socket)),
    }
}

/// Waits for the flusher and all workers, and returns all shares: the desk's, the flusher's and the
/// workers'.
fn all_joined<L: Count, R: Threads + Wait>(
    rt: &R,
    room: Vec<Share<L>>,
    own: Share<L>,
    flushed: PacketShare<L>,
    running: Vec<JoinHandle<PacketShare<L>>>,
) -> Vec<Share<L>>
    requires { (room.items ≡ []) × (vec_len running + 2 ≤ vec_capacity room) }
    ensures added { AddsWorkers (own ∷ []) result.items }
    ensures all { vec_len result ≡ vec_len running + 2 }
{
    let mut shares = room;
    let Ok(()) = shares.push(own) else {
        unreachable!()
    };
    let Ok(()) = shares.push(flushed.into_share()) else {
        unreachable!()
    };
    for worker in running {
        let Ok(()) = shares.push(worker.join(rt).into_share()) else {
            unreachable!()
        };
    }
    shares
}
