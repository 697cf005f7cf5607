//! Serves a store until a line closes it.

ghost use Rattle.std.specs.Prelude.{◌≡◌, List, [], false, IfErr, IfOk};
ghost use Rattle.coord_admin.specs.Times.{IsUsual};
ghost use Rattle.coord_engine.specs.Released.{MayPrint};
ghost use Rattle.coord_store.specs.Kept.{has_stopped};
ghost use Rattle.coord_server.specs.ServerRun.{HasServed, HasServedUsual};
ghost use Rattle.coord_server.specs.Signals.{MaySignal};
ghost use Rattle.coord_types.specs.declared.steps.Step.{Step};
ghost use Rattle.coord_world.specs.Facade.{fold};

use crate::instances::serve_instances;
use crate::{Printer, ServerEnd, SignalPrinter, SignalSource};
use coord_admin::{Accepted, Callers, Timeouts};
use coord_disk::Disk;
use coord_engine::{LogAuthority, MonotoneLog};
use coord_store::Store;
use std::alloc::Global;
use std::io::{Read, Write};
use std::net::{OpenListener, OpenStream};
use std::sync::Wait;
use std::thread::Threads;
use std::time::Clock;

/// The number of steps after which an instance of the server ends. At 100 to 150 bytes per step an
/// engine then keeps about 40 MB, or twice that if a connection stays open. Shorter instances would
/// spend a greater part of their time on their end, which takes some tenths of a second.
pub const INSTANCE_STEPS: usize = 262_144;

/// Serves a store to the connections of a listener, one after another, until a line closes it, and
/// returns the parts of the last instance's engine. It is `serve_callers` over these connections, with
/// the usual timeouts. The history is new, and `O` names it. If memory runs out at the beginning, the
/// store and the printer are returned unchanged.
///
/// A server that never returns has no postcondition. But whatever it does and wherever it stops, it
/// writes the disk only by commits of its store, and the output only by its printer's calls. Its type
/// ensures this: it is generic over the disk and the output, and does not require them to be `Takable`
/// and `TakableOutput`.
pub fn serve_store<
    'a,
    D: Disk + Send,
    S: Read + Write + OpenStream + Drop,
    A: OpenListener<Stream = S>,
    W: Write + Send + Drop,
    O: SignalSource + Send + Sync,
    R: Threads + Wait + Clock + Sync,
>(
    rt: &'a R,
    alloc: Global,
    store: Store<D>,
    listener: &'a A,
    printer: SignalPrinter<W, O>,
    written: (MonotoneLog, LogAuthority),
) -> Result<ServerEnd<D, Accepted<'a, A, R>, W>, (Store<D>, Printer<W>)>
    requires going { has_stopped store ≡ false }
    requires here { written.0 ≡ O.history }
    requires new { written.1 ≡ record { history = O.history; steps = [] } }
    requires may_print { (earlier : List Step) → MayPrint O.history earlier (fold store.world earlier)
        (MaySignal O.history O.gives) }
    ensures served { IfOk result (HasServedUsual D.model W.contents O.gives store printer) }
    ensures unserved { IfErr result (λ back. (back.0 ≡ store) × (back.1 ≡ printer)) }
{
    serve_accepted(
        rt,
        alloc,
        store,
        Accepted::new(rt, listener, Timeouts::usual()),
        printer,
        written,
    )
}

/// Serves a store to the connections of a listener, with the usual timeouts for its clients.
fn serve_accepted<
    'a,
    D: Disk + Send,
    S: Read + Write + OpenStream + Drop,
    A: OpenListener<Stream = S>,
    W: Write + Send + Drop,
    O: SignalSource + Send + Sync,
    R: Threads + Wait + Clock + Sync,
>(
    rt: &'a R,
    alloc: Global,
    store: Store<D>,
    callers: Accepted<'a, A, R>,
    printer: SignalPrinter<W, O>,
    written: (MonotoneLog, LogAuthority),
) -> Result<ServerEnd<D, Accepted<'a, A, R>, W>, (Store<D>, Printer<W>)>
    requires going { has_stopped store ≡ false }
    requires timeouts { IsUsual callers }
    requires here { written.0 ≡ O.history }
    requires new { written.1 ≡ record { history = O.history; steps = [] } }
    requires may_print { (earlier : List Step) → MayPrint O.history earlier (fold store.world earlier)
        (MaySignal O.history O.gives) }
    ensures served { IfOk result (HasServedUsual D.model W.contents O.gives store printer) }
    ensures unserved { IfErr result (λ back. (back.0 ≡ store) × (back.1 ≡ printer)) }
{
    serve_callers(rt, alloc, store, callers, printer, written)
}

/// Serves a store to the callers, one after another, until a line closes it, and returns the parts of
/// the last instance's engine. It is `serve_instances` with `INSTANCE_STEPS`. If memory runs out at the
/// beginning, the store and the printer are returned unchanged.
pub fn serve_callers<
    D: Disk + Send,
    C: Callers + Drop,
    W: Write + Send + Drop,
    O: SignalSource + Send + Sync,
    R: Threads + Wait + Clock + Sync,
>(
    rt: &R,
    alloc: Global,
    store: Store<D>,
    callers: C,
    printer: SignalPrinter<W, O>,
    written: (MonotoneLog, LogAuthority),
) -> Result<ServerEnd<D, C, W>, (Store<D>, Printer<W>)>
    requires going { has_stopped store ≡ false }
    requires here { written.0 ≡ O.history }
    requires new { written.1 ≡ record { history = O.history; steps = [] } }
    requires may_print { (earlier : List Step) → MayPrint O.history earlier (fold store.world earlier)
        (MaySignal O.history O.gives) }
    ensures served { IfOk result
        (HasServed D.model C.talked C.failed W.contents O.gives store callers printer) }
    ensures unserved { IfErr result (λ back. (back.0 ≡ store) × (back.1 ≡ printer)) }
{
    serve_instances(rt, alloc, INSTANCE_STEPS, store, callers, printer, written)
}
