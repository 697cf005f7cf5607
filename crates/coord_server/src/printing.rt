//! The thread that prints: first the address, then each signal.

ghost use Rattle.std.specs.Prelude.{◌≡◌, ◌⊎◌, List, Err, IfErr, IsErr, None, OnOk, true};
ghost use Rattle.std.specs.Iterator.{Drains, IsFinite};
ghost use Rattle.coord_server.specs.Ending.{EndsUnopened};
ghost use Rattle.coord_server.specs.Printed.{BreaksIn, HasPrinted, IsOfPrinting, IsPrinted, IsUnprintedFor, PrintsEach, PrintsAddress, listening_line};
ghost use Rattle.coord_server.specs.Signals.{StepSignal};

use crate::instance_end::InstanceEnd;
use crate::{LocalPort, Printer, ServerFault, Signal, SignalPrinter, SignalSource};
use coord_admin::Callers;
use coord_engine::{LogPrefix, MonotoneLog};
use crossbeam_channel::{Receiver, Sender};
use std::alloc::{AllocError, Global};
use std::io::Write;
use std::net::SocketAddr;
use std::snapshot::Snapshot;
use std::sync::Wait;
use std::thread::Promise;

/// The printer after the thread has ended, with a token that has read the step of each printed signal.
#[derive(Drop)]
pub struct Printed<W: Write> {
    pub printer: Printer<W>,
    pub reader: LogPrefix,
    /// If the first line was requested and not printed, the reason.
    pub unprinted: Option<ServerFault>,
}

/// Prints the arriving signals in order, up to the last one or to a line that can't be written. A
/// signal that may not follow the last one is lost.
#[tactic(auto, using(crate::proofs::Starts::returned_none))]
pub fn print_signals<W: Write, O: SignalSource, I: Iterator<Item = Signal<O>>>(
    history: &MonotoneLog,
    signals: I,
    printer: SignalPrinter<W, O>,
    reader: LogPrefix,
) -> Printed<W>
    requires signals { I.can_next signals × IsFinite (I.remaining signals) }
    requires here { history.now ≡ O.history }
    requires own { reader.history ≡ O.history }
    ensures each { (result.printer.is_broken ≡ true) ⊎
        ((came : List StepSignal) × Drains I.next_gives signals came ×
        PrintsEach W.contents printer came result.printer) }
    ensures returned { HasPrinted W.contents (O.gives result.reader.steps) printer result.printer }
    ensures own { result.reader.history ≡ O.history }
    ensures opened { result.unprinted ≡ None }
{
    let mut printer = printer;
    let mut reader = reader;
    for signal in signals {
        printer.print_signal(&signal);
        reader.join(history, signal.into_reader());
        if printer.is_broken() {
            return Printed {
                printer: printer.into_printer(),
                reader,
                unprinted: None,
            };
        }
    }
    Printed {
        printer: printer.into_printer(),
        reader,
        unprinted: None,
    }
}

/// The request for the first line: it asks the printing thread for the line, and waits until it is printed.
#[derive(Drop)]
pub struct Opening {
    to: Option<Sender<SocketAddr>>,
    printed: Receiver<()>,
}

impl Opening {
    /// Drops the request for the first line. The printing thread, which waits for the request, continues without it.
    pub fn give_up(&mut self)
        ensures { self.new.to ≡ None }
    {
        self.to = None;
    }

    /// Makes the printing thread print the address at which the server listens, and after that signals. Returns the end
    /// of the instance if the address was not printed, for example because no thread prints.
    pub fn open<C: Callers, R: Wait>(self, rt: &R, callers: &C) -> Result<(), InstanceEnd>
        ensures unopened { IfErr result (EndsUnopened C.failed callers.now) }
        ensures given_up { self.to ≡ None → IsErr result }
    {
        let Ok(address) = callers.address() else {
            return Err(InstanceEnd::Ended(Some(ServerFault::Socket)));
        };
        let Opening { to, printed } = self;
        let Some(to) = to else {
            return Err(InstanceEnd::Unprinted);
        };
        let Ok(()) = to.send(rt, address) else {
            return Err(InstanceEnd::Unprinted);
        };
        match printed.recv(rt) {
            Ok(()) => Ok(()),
            Err(_) => Err(InstanceEnd::Unprinted),
        }
    }
}

/// Prints the address at which the server listens, or returns the reason why it was not printed.
fn print_listening<W: Write, O: SignalSource>(
    address: SocketAddr,
    printer: &mut SignalPrinter<W, O>,
) -> Result<(), ServerFault>
    ensures printed { OnOk result (PrintsAddress W.contents printer.old printer.new) }
    ensures failed { IfErr result (λ _. (printer.new ≡ printer.old) ⊎
        BreaksIn W.contents printer.old (listening_line address) printer.new) }
    ensures fault { IfErr result IsOfPrinting }
    ensures write { result ≡ Err ServerFault.Write → printer.new.is_broken ≡ true }
{
    printer.print_address(address)
}

/// The printer, with the receiving ends of its thread's channels: for the address, and for signals.
#[derive(Drop)]
pub struct Printing<W: Write + Drop, O: SignalSource> {
    pub printer: SignalPrinter<W, O>,
    history: MonotoneLog,
    reader: LogPrefix,
    addresses: Receiver<SocketAddr>,
    printed: Sender<()>,
    signals: Receiver<Signal<O>>,
    ghost here: { history ≡ O.history },
    ghost own: { reader.history ≡ O.history },
}

#[tactic(auto, using(crate::proofs::Starts::printed_none))]
impl<W: Write + Drop, O: SignalSource> Printing<W, O> {
    /// Prints the received address, and then the received signals, and returns the printer. About the content of a
    /// channel, a clause can state only the invariant of the signal type.
    pub fn print<R: Wait>(self, rt: &R) -> Printed<W>
        ensures printed { IsPrinted W.contents (O.gives result.reader.steps)
            self.printer result.printer }
        ensures own { result.reader.history ≡ O.history }
        ensures unprinted { IsUnprintedFor result.printer result.unprinted }
    {
        let Printing {
            printer,
            history,
            reader,
            addresses,
            printed,
            signals,
        } = self;
        let mut printer = printer;
        let Ok(address) = addresses.recv(rt) else {
            return Printed {
                printer: printer.into_printer(),
                reader,
                unprinted: None,
            };
        };
        match print_listening(address, &mut printer) {
            Ok(()) => {
                let _heard = printed.send(rt, ());
                print_signals(&history, signals.iter(rt), printer, reader)
            }
            Err(fault) => Printed {
                printer: printer.into_printer(),
                reader,
                unprinted: Some(fault),
            },
        }
    }
}

/// A record that the printer, since its first state, has printed the address, and signals of steps that its token has
/// read.
#[derive(Drop)]
pub struct PrintsFrom<W: Write + Drop, O: SignalSource> {
    pub first: Snapshot<SignalPrinter<W, O>>,
}

impl<W: Write + Drop, O: SignalSource> PrintsFrom<W, O> {
    /// Records the printer's state before the thread starts.
    pub fn new(printer: &SignalPrinter<W, O>) -> Self
        ensures { result.first.value ≡ printer.now }
    {
        PrintsFrom {
            first: Snapshot::of(printer),
        }
    }
}

impl<W: Write + Drop, O: SignalSource> Promise<Printed<W>> for PrintsFrom<W, O> {
    ghost use Rattle.std.specs.Prelude.{◌≡◌};
    ghost use Rattle.coord_server.specs.Printed.{IsPrinted, IsUnprintedFor};

    ghost kept_by = { λ p r. (r.reader.history ≡ O.history) ×
        IsPrinted W.contents (O.gives r.reader.steps) p.first.value r.printer ×
        IsUnprintedFor r.printer r.unprinted };
}

/// The channels between the two sides of an output: for the address, for the confirmation that its line
/// was printed, and for signals.
#[derive(Drop)]
pub struct Channels<O: SignalSource> {
    addresses: (Sender<SocketAddr>, Receiver<SocketAddr>),
    printed: (Sender<()>, Receiver<()>),
    signals: (Sender<Signal<O>>, Receiver<Signal<O>>),
}

impl<O: SignalSource> Channels<O> {
    /// Creates the channels, or returns an error if memory runs out. The channel for signals is
    /// unbounded.
    pub fn new(alloc: Global) -> Result<Self, AllocError> {
        Ok(Channels {
            addresses: crossbeam_channel::bounded(alloc, 1)?,
            printed: crossbeam_channel::bounded(alloc, 1)?,
            signals: crossbeam_channel::unbounded(alloc)?,
        })
    }
}

/// The two sides of an output. One side is the port for signals, with the request for the first line; the other is the
/// side of the printing thread.
#[derive(Drop)]
pub struct Outlet<R: Wait, W: Write + Drop, O: SignalSource> {
    pub port: LocalPort<R, O>,
    pub opening: Opening,
    pub printing: Printing<W, O>,
}

impl<R: Wait + Drop, W: Write + Drop, O: SignalSource> Outlet<R, W, O> {
    /// Creates both sides for a printer and the history of its signals. No clause can state that the
    /// two ends of a channel belong together.
    pub fn new(
        rt: R,
        alloc: Global,
        channels: Channels<O>,
        printer: SignalPrinter<W, O>,
        history: MonotoneLog,
        reader: LogPrefix,
    ) -> Self
        requires here { history ≡ O.history }
        requires own { reader.history ≡ O.history }
        ensures { result.printing.printer ≡ printer }
    {
        let Channels {
            addresses: (to, addresses),
            printed: (printed, opened),
            signals: (signalled, signals),
        } = channels;
        Outlet {
            port: LocalPort::new(rt, alloc, Vec::new(alloc), signalled),
            opening: Opening {
                to: Some(to),
                printed: opened,
            },
            printing: Printing {
                printer,
                history,
                reader,
                addresses,
                printed,
                signals,
            },
        }
    }
}
