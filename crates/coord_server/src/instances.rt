//! Runs the instances of a server, one after another.

ghost use Rattle.std.specs.Prelude.{◌≡◌, ◌⊎◌, List, [], false, true, IfErr, IfOk, None, Some};
ghost use Rattle.std.specs.Thread.{IsSend, IsSync};
ghost use Rattle.coord_store.specs.Kept.{has_stopped};
ghost use Rattle.coord_server.specs.declared.instance_end.InstanceEnd.TheVariants as InstanceEndAs;
ghost use Rattle.coord_server.specs.Instances.{IsLastInstance, MayGoOn};
ghost use Rattle.coord_server.specs.Moments.{HasLived};
ghost use Rattle.coord_server.specs.Printed.{IsPrinted, IsUnprintedFor};
ghost use Rattle.coord_server.specs.ServerRun.{ServerRun};
ghost use Rattle.coord_server.specs.Signals.{MaySignal};
ghost use Rattle.coord_engine.specs.MonotoneLog.{StartsWith};
ghost use Rattle.coord_engine.specs.Released.{MayPrint};
ghost use Rattle.coord_types.specs.declared.steps.Step.{Step};
ghost use Rattle.coord_world.specs.Facade.{fold};

use crate::instance::{Instance, InstanceStart, serve_instance};
use crate::instance_end::InstanceEnd;
use crate::printing::{Channels, Opening, Outlet, Printed, Printing, PrintsFrom};
use crate::setting::Setting;
use crate::{Printer, ServerEnd, ServerFault, SignalPrinter, SignalSource};
use coord_admin::Callers;
use coord_disk::Disk;
use coord_engine::{Closed, LogAuthority, MonotoneLog};
use coord_store::Store;
use std::alloc::Global;
use std::io::Write;
use std::sync::Wait;
use std::thread;
use std::thread::{PromisedHandle, Scope, Threads};
use std::time::Clock;

/// Serves a store to the callers, one after another, until a line closes it, and returns the parts of
/// the last instance's engine.
///
/// In each instance a flusher and the workers run. In the first instance, once all threads run,
/// `listening` and the address are printed. Then the packets that a crash or the end of the previous
/// instance may have lost are sent again, and the callers are served. A separate thread prints each
/// released signal as a line, in order, from an unbounded channel, so a slow output delays nothing
/// else. If a line can't be printed, no more lines are, and the server continues: the epochs that it
/// shows include signals that were not printed.
///
/// An instance ends between two connections once its engine keeps `most` steps; a connection is cut
/// after a reply once the engine keeps twice as many. At the end of each instance, also after a close
/// or a fault, all accepted steps are settled, then the flusher ends, and then the workers. At the end
/// of the server the remaining signals are printed, however long the output takes.
///
/// The server prints its address, and signals of the history that `O` names. This history is new, and
/// the server writes it. The printer can't print anything else, even if the server never returns.
///
/// `ServerEnd` reports why the server ended: for example, because memory ran out, or because a thread for an instance
/// or for printing could not be started. If memory runs out at the very beginning, and only then, the store and the
/// printer are returned unchanged, and nobody was served.
pub fn serve_instances<
    D: Disk + Send,
    C: Callers + Drop,
    W: Write + Send + Drop,
    O: SignalSource + Send + Sync,
    R: Threads + Wait + Clock + Sync,
>(
    rt: &R,
    alloc: Global,
    most: usize,
    store: Store<D>,
    callers: C,
    printer: SignalPrinter<W, O>,
    written: (MonotoneLog, LogAuthority),
) -> Result<ServerEnd<D, C, W>, (Store<D>, Printer<W>)>
    requires going { has_stopped store ≡ false }
    requires here { written.0 ≡ O.history }
    requires new { written.1 ≡ record { history = O.history; steps = [] } }
    requires may_print { (earlier : List Step) → MayPrint O.history earlier (fold store.world earlier)
        (MaySignal O.history O.gives) }
    ensures served { IfOk result (ServerRun D.model C.talked C.failed most W.contents O.gives
        store callers printer) }
    ensures unserved { IfErr result (λ back. (back.0 ≡ store) × (back.1 ≡ printer)) }
{
    let (history, mut writer) = written;
    let reader = writer.reader(&history);
    let (Ok(own), Ok(channels)) = (history.another(), Channels::new(alloc)) else {
        return Err((store, printer.into_printer()));
    };
    let start = match InstanceStart::new(alloc, &history, store) {
        Ok(start) => start,
        Err(store) => return Err((store, printer.into_printer())),
    };
    let Outlet {
        port,
        opening,
        printing,
    } = Outlet::<&R, W, O>::new(rt, alloc, channels, printer, own, reader);
    let setting = Setting {
        rt,
        alloc,
        port: &port,
        history: &history,
        instance_steps: most,
    };
    Ok(serve_and_print(&setting, start, writer, callers, opening, printing))
}

/// Runs the instances in a scope, together with the thread that prints the port's signals.
fn serve_and_print<
    D: Disk + Send,
    C: Callers + Drop,
    W: Write + Send + Drop,
    O: SignalSource + Send + Sync,
    R: Threads + Wait + Clock + Sync,
>(
    setting: &Setting<'_, R, O>,
    start: InstanceStart<D>,
    writer: LogAuthority,
    callers: C,
    opening: Opening,
    printing: Printing<W, O>,
) -> ServerEnd<D, C, W>
    requires history { start.history ≡ O.history }
    requires new { writer ≡ record { history = O.history; steps = [] } }
    requires may_print { (earlier : List Step) → MayPrint O.history earlier
        (fold start.over.value.world earlier) (MaySignal O.history O.gives) }
    ensures { ServerRun D.model C.talked C.failed setting.now.instance_steps W.contents O.gives
        start.over.value callers printing.printer result }
{
    thread::scope(
        thread::scope_env(),
        setting.rt,
        |scope| -> ServerEnd<D, C, W>
            requires { IsSend D.row × IsSend W.row × IsSend O.row × IsSync O.row × IsSync R.row ×
                (start.history ≡ O.history) × (writer ≡ record { history = O.history; steps = [] }) ×
                ((earlier : List Step) → MayPrint O.history earlier
                (fold start.over.value.world earlier) (MaySignal O.history O.gives)) }
            ensures { ServerRun D.model C.talked C.failed setting.entry.now.instance_steps W.contents
                O.gives start.over.value callers printing.printer result }
        {
            let mut opening = opening;
            match start_printing(scope, setting.rt, &mut opening, printing) {
                Ok(printing) => print_and_live(setting, start, writer, callers, opening, printing),
                Err(printed) => {
                    let instance = live(setting, start, writer, callers, opening);
                    end_of(setting.history, instance, printed)
                }
            }
        },
    )
}

/// Starts the thread that prints signals. If no thread can be started, the request for the first line
/// is dropped, and the printer is returned.
fn start_printing<
    's,
    'r: 's,
    E,
    W: Write + Send + Drop + 's,
    O: SignalSource + Send + Sync + 's,
    R: Wait + Sync,
>(
    scope: &Scope<'s, E>,
    rt: &'r R,
    opening: &mut Opening,
    printing: Printing<W, O>,
) -> Result<PromisedHandle<Printed<W>, PrintsFrom<W, O>>, Printed<W>>
    ensures started { IfOk result (λ handle. handle.promise.first.value ≡ printing.printer) }
    ensures given_up { IfErr result (λ _. opening.new.to ≡ None) }
    ensures refused { IfErr result (λ printed. (printed.reader.history ≡ O.history) ×
        IsPrinted W.contents (O.gives printed.reader.steps) printing.printer printed.printer ×
        IsUnprintedFor printed.printer printed.unprinted) }
{
    let promise = PrintsFrom::new(&printing.printer);
    match scope.spawn_with(promise, move || printing.print(rt)) {
        Ok(handle) => Ok(handle),
        Err(refused) => {
            opening.give_up();
            Err((refused.value)())
        }
    }
}

/// Runs the instances while a thread prints. That thread ends after the last signal.
fn print_and_live<
    D: Disk + Send,
    C: Callers + Drop,
    W: Write + Drop,
    O: SignalSource + Send + Sync,
    R: Threads + Wait + Clock + Sync,
>(
    setting: &Setting<'_, R, O>,
    start: InstanceStart<D>,
    writer: LogAuthority,
    callers: C,
    opening: Opening,
    printing: PromisedHandle<Printed<W>, PrintsFrom<W, O>>,
) -> ServerEnd<D, C, W>
    requires history { start.history ≡ O.history }
    requires new { writer ≡ record { history = O.history; steps = [] } }
    requires may_print { (earlier : List Step) → MayPrint O.history earlier
        (fold start.over.value.world earlier) (MaySignal O.history O.gives) }
    ensures { ServerRun D.model C.talked C.failed setting.now.instance_steps W.contents O.gives
        start.over.value callers printing.promise.first.value result }
{
    let instance = live(setting, start, writer, callers, opening);
    setting.port.fall_silent();
    let printed = printing.join(setting.rt);
    end_of(setting.history, instance, printed)
}

/// Runs one instance after another, each with the store and the callers that the previous one left, and returns the
/// last instance. The first instance opens the output; if no thread prints, it is also the last.
fn live<
    D: Disk + Send,
    C: Callers + Drop,
    O: SignalSource + Send + Sync,
    R: Threads + Wait + Clock + Sync,
>(
    setting: &Setting<'_, R, O>,
    start: InstanceStart<D>,
    writer: LogAuthority,
    callers: C,
    opening: Opening,
) -> Instance<D, C>
    requires history { start.history ≡ O.history }
    requires new { writer ≡ record { history = O.history; steps = [] } }
    requires may_print { (earlier : List Step) → MayPrint O.history earlier
        (fold start.over.value.world earlier) (MaySignal O.history O.gives) }
    ensures lived { HasLived D.model C.talked C.failed setting.now.instance_steps
        start.over.value callers result }
    ensures same { result.writer.history ≡ O.history }
    ensures last { result.left ≡ InstanceEndAs.Resting →
        ¬ MayGoOn setting.now.instance_steps result.closed }
{
    let mut start = start;
    let mut writer = writer;
    let mut callers = callers;
    let mut opening = Some(opening);
    for _ in setting.rt.forever() {
        let instance = serve_instance(setting, start, writer, callers, opening.take());
        match next_of(setting, instance) {
            Ok((next, written, others)) => {
                start = next;
                writer = written;
                callers = others;
            }
            Err(last) => return last,
        }
    }
    unreachable!()
}

/// Tests whether the next instance may begin: the store has not stopped, all accepted steps are
/// settled, and the instance has kept `most` steps.
fn goes_on<D: Disk>(most: usize, closed: &Closed<D>) -> bool
    ensures on { result ≡ true → MayGoOn most closed.now }
    ensures ends { result ≡ false → ¬ MayGoOn most closed.now }
{
    let base = closed.base.count();
    if closed.settled < base || closed.store.stopped() || closed.trail.len() < most {
        return false;
    }
    closed.settled - base == closed.trail.len() as u64
}

/// Starts the next instance over the parts of the last one. If memory runs out, returns these parts.
fn start_over<D: Disk, O: SignalSource, R: Wait>(
    setting: &Setting<'_, R, O>,
    closed: Closed<D>,
) -> Result<InstanceStart<D>, Closed<D>>
    requires { has_stopped closed.store ≡ false }
    ensures history { IfOk result (λ start. start.history ≡ O.history) }
    ensures over { IfOk result (λ start. start.over.value ≡ closed.store) }
    ensures back { IfErr result (λ back. back ≡ closed) }
{
    let Closed {
        store,
        base,
        trail,
        settled,
    } = closed;
    match InstanceStart::new(setting.alloc, setting.history, store) {
        Ok(start) => Ok(start),
        Err(store) => Err(Closed {
            store,
            base,
            trail,
            settled,
        }),
    }
}

/// Returns the start of the next instance, the authority to write the history, and the callers; or the last instance.
/// An instance is the last if it has ended, or if it rests but can't continue, because its store has stopped or memory
/// for the next one ran out.
fn next_of<D: Disk, C, O: SignalSource, R: Wait>(
    setting: &Setting<'_, R, O>,
    instance: Instance<D, C>,
) -> Result<(InstanceStart<D>, LogAuthority, C), Instance<D, C>>
    ensures goes_on { IfOk result (λ next. MayGoOn setting.now.instance_steps instance.closed) }
    ensures next { IfOk result (λ next. (instance.left ≡ InstanceEndAs.Resting) ×
        (next.0.history ≡ O.history) × (next.0.over.value ≡ instance.closed.store) ×
        (next.2 ≡ instance.callers)) }
    ensures writer { IfOk result (λ next. next.1 ≡ instance.writer) }
    ensures last { IfErr result (λ last. (last.closed ≡ instance.closed) × (last.writer ≡ instance.writer) ×
        (last.callers ≡ instance.callers) ×
        (((last.left ≡ instance.left) × (instance.left ≡ InstanceEndAs.Resting →
        ¬ MayGoOn setting.now.instance_steps instance.closed)) ⊎
        ((last.left ≡ InstanceEndAs.Unfollowed) × (instance.left ≡ InstanceEndAs.Resting)))) }
{
    if instance.left != InstanceEnd::Resting || !goes_on(setting.instance_steps, &instance.closed) {
        return Err(instance);
    }
    let Instance {
        closed,
        writer,
        callers,
        left: _,
    } = instance;
    match start_over(setting, closed) {
        Ok(start) => Ok((start, writer, callers)),
        Err(closed) => Err(Instance {
            closed,
            writer,
            callers,
            left: InstanceEnd::Unfollowed,
        }),
    }
}

/// Returns the end of a server, given its last instance. A resting instance is the last one only if the server can't
/// continue, for example because the store has stopped. If the first line was not printed, the printer has the reason.
/// All instances together have written the steps of all printed signals.
fn end_of<D: Disk, C, W: Write>(
    history: &MonotoneLog,
    instance: Instance<D, C>,
    printed: Printed<W>,
) -> ServerEnd<D, C, W>
    requires here { history.now ≡ instance.writer.history }
    requires same { printed.reader.history ≡ instance.writer.history }
    requires unprinted { IsUnprintedFor printed.printer printed.unprinted }
    ensures last { IsLastInstance instance.left result.served × (result.closed ≡ instance.closed) ×
        (result.callers ≡ instance.callers) × (result.printer ≡ printed.printer) }
    ensures write { instance.left ≡ InstanceEndAs.Unprinted → result.served ≡ Some ServerFault.Write →
        result.printer.is_broken ≡ true }
    ensures read { StartsWith instance.writer.steps printed.reader.steps }
{
    let Instance {
        closed,
        mut writer,
        callers,
        left,
    } = instance;
    let Printed {
        printer,
        reader,
        unprinted,
    } = printed;
    writer.take_back(history, reader);
    let served = match left {
        InstanceEnd::Resting => Some(ServerFault::Device),
        InstanceEnd::Unfollowed => Some(ServerFault::OutOfMemory),
        InstanceEnd::Unprinted => Some(unprinted.unwrap_or(ServerFault::OutOfMemory)),
        InstanceEnd::Ended(served) => served,
    };
    ServerEnd {
        closed,
        callers,
        served,
        printer,
    }
}
