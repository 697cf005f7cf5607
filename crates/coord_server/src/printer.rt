//! The printer of a server's lines.

ghost use Rattle.std.specs.Prelude.{◌≡◌, ◌≢◌, Err, IfErr, IsErr, OnErr, OnOk, false, nat_le, true};
ghost use Rattle.std.specs.Io.KnownBytes.{Appends};
ghost use Rattle.std.specs.IoError.{error_kind};
ghost use Rattle.coord_server.specs.Lines.{after_line, is_next};
ghost use Rattle.coord_lines.specs.Written.{WritesFirstPart};
ghost use Rattle.coord_server.specs.Printed.{BreaksIn, IsOfPrinting, listening_line, new_printer, signal_line, with_lost};

use crate::last_line::LastLine;
use crate::signal_line::signal_line;
use crate::{ServerFault, Signal, SignalSource};
use coord_lines::write_whole;
use coord_types::NodeId;
use std::alloc::Global;
use std::io;
use std::io::{ErrorKind, Write};
use std::marker::{Model, PhantomData};
use std::net::SocketAddr;

/// An output that may be taken out of a `Printer`. Code that is generic over an output without this
/// bound can write to the output only through a `SignalPrinter`, even if the code never returns.
pub trait TakableOutput {}

impl TakableOutput for Vec<u8> {}

/// An output to which lines were printed, with the state of the printing. It can't print: only a
/// `SignalPrinter` can. Contracts see `PrinterState` (`specs/Printed.antt`).
#[derive(Drop)]
pub struct Printer<W: Write> {
    alloc: Global,
    output: W,
    is_broken: bool,
    /// The number of signals that were not printed because they may not follow the last one.
    lost: u64,
    last: LastLine,
}

impl<W: Write> Model for Printer<W> {
    ghost use Rattle.coord_server.specs.Printed.{PrinterState};

    ghost Value = { PrinterState W };

    ghost view = { λ p. record { output = p.output; is_broken = p.is_broken; lost = p.lost; last = p.last } };
}

impl<W: Write> Printer<W> {
    /// Tests whether a line could not be written.
    pub fn is_broken(&self) -> bool
        ensures { result ≡ self.now.is_broken }
    {
        self.is_broken
    }

    /// Tests whether all printed signals belong to the first `steps` steps.
    pub fn is_within(&self, steps: u64) -> bool
        ensures { result ≡ nat_le self.now.last.step steps }
    {
        self.last.step <= steps
    }

    /// Prints the line of a signal of this step, if the signal may follow the last one. Returns whether the line was
    /// written.
    fn print_step(&mut self, step: u64, node: NodeId, epoch: u64) -> bool
        ensures written { result ≡ true →
            Appends (W.contents self.old.output) (W.contents self.new.output)
            (signal_line node epoch) }
        ensures next { result ≡ true → (is_next self.old.last step node ≡ true) ×
            (self.new.last ≡ after_line self.old.last step node) }
        ensures whole { result ≡ true → (self.new.is_broken ≡ false) ×
            (self.new.lost ≡ self.old.lost) }
        ensures broken { self.old.is_broken ≡ true → (result ≡ false) × (self.new ≡ self.old) }
        ensures failed { result ≡ false → self.new.is_broken ≡ false →
            (is_next self.old.last step node ≡ false) × (self.new ≡ with_lost self.old) }
        ensures torn { self.old.is_broken ≡ false → self.new.is_broken ≡ true →
            (is_next self.old.last step node ≡ true) ×
            BreaksIn W.contents self.old (signal_line node epoch) self.new }
    {
        if self.is_broken {
            return false;
        }
        if !self.last.is_before(step, node) {
            self.lose();
            return false;
        }
        match self.print(signal_line(node, epoch).as_str()) {
            Ok(()) => {
                self.last = self.last.then(step, node);
                true
            }
            Err(_) => false,
        }
    }

    /// Counts a lost signal.
    fn lose(&mut self)
        ensures { self.new ≡ with_lost self.old }
    {
        self.lost = self.lost.saturating_add(1);
    }

    /// Writes a line and flushes it.
    fn print(&mut self, line: &str) -> Result<(), ServerFault>
        ensures written { OnOk result (Appends (W.contents self.old.output)
            (W.contents self.new.output) line.now) }
        ensures whole { OnOk result (self.new.is_broken ≡ false) }
        ensures broken { self.old.is_broken ≡ true → (result ≡ Err ServerFault.Write) × (self.new ≡ self.old) }
        ensures failed { OnErr result (self.new.is_broken ≡ true) }
        ensures torn { self.old.is_broken ≡ false → OnErr result
            (BreaksIn W.contents self.old line.now self.new) }
        ensures lost { (self.new.lost ≡ self.old.lost) × (self.new.last ≡ self.old.last) }
        ensures fault { IfErr result IsOfPrinting }
    {
        if self.is_broken {
            return Err(ServerFault::Write);
        }
        let written = write_line(&mut self.output, line);
        self.is_broken = written.is_err();
        written
    }
}

impl<W: Write + TakableOutput> Printer<W> {
    /// Returns the output.
    pub fn into_output(self) -> W
        ensures { result ≡ self.output }
    {
        self.output
    }
}

/// Prints a server's lines: its address, and signals of the history that `O` names. It can't print anything else. Each
/// line is written and flushed at once. If a write fails, a prefix of the line may have been written, and no more lines
/// are printed. Signals are printed in the order of their steps, each once. Contracts see `PrinterState`, as for a
/// `Printer`.
#[derive(Drop)]
pub struct SignalPrinter<W: Write, O: SignalSource> {
    printer: Printer<W>,
    of: PhantomData<O>,
}

impl<W: Write, O: SignalSource> Model for SignalPrinter<W, O> {
    ghost use Rattle.coord_server.specs.Printed.{PrinterState};

    ghost Value = { PrinterState W };

    ghost view = { λ p. p.printer };
}

impl<W: Write, O: SignalSource> SignalPrinter<W, O> {
    /// Creates a printer for an output to which nothing was printed yet. It prints only signals of
    /// steps after `since`.
    pub fn new(alloc: Global, output: W, since: u64) -> Self
        ensures { result ≡ new_printer output since }
    {
        SignalPrinter {
            printer: Printer {
                alloc,
                output,
                is_broken: false,
                lost: 0,
                last: LastLine::since(since),
            },
            of: PhantomData,
        }
    }

    /// Ends the printing, and returns the output with its state.
    pub fn into_printer(self) -> Printer<W>
        ensures { result ≡ self }
    {
        self.printer
    }

    /// Tests whether a line could not be written.
    pub fn is_broken(&self) -> bool
        ensures { result ≡ self.now.is_broken }
    {
        self.printer.is_broken()
    }

    /// Prints `signal N EPOCH`: a step has ended a reset at node N. Returns whether the line was written. If it was
    /// not, either the output has failed, or the signal may not follow the last one. In the second case no part of the
    /// line was written, and the signal counts as lost.
    pub fn print_signal(&mut self, signal: &Signal<O>) -> bool
        ensures written { result ≡ true →
            Appends (W.contents self.old.output) (W.contents self.new.output)
            (signal_line signal.now.node signal.now.epoch) }
        ensures next { result ≡ true →
            (is_next self.old.last signal.now.step signal.now.node ≡ true) ×
            (self.new.last ≡ after_line self.old.last signal.now.step signal.now.node) }
        ensures whole { result ≡ true → (self.new.is_broken ≡ false) ×
            (self.new.lost ≡ self.old.lost) }
        ensures broken { self.old.is_broken ≡ true → (result ≡ false) × (self.new ≡ self.old) }
        ensures failed { result ≡ false → self.new.is_broken ≡ false →
            (is_next self.old.last signal.now.step signal.now.node ≡ false) ×
            (self.new ≡ with_lost self.old) }
        ensures torn { self.old.is_broken ≡ false → self.new.is_broken ≡ true →
            (is_next self.old.last signal.now.step signal.now.node ≡ true) ×
            BreaksIn W.contents self.old (signal_line signal.now.node signal.now.epoch) self.new }
    {
        self.printer
            .print_step(signal.step(), signal.node(), signal.epoch())
    }

    /// Prints the address at which the server listens. Returns a fault if the output fails, or if
    /// memory for the line runs out; in the second case nothing was written, and later lines can be
    /// printed.
    pub fn print_address(&mut self, address: SocketAddr) -> Result<(), ServerFault>
        ensures written { OnOk result (Appends (W.contents self.old.output)
            (W.contents self.new.output) (listening_line address)) }
        ensures whole { OnOk result ((self.new.is_broken ≡ false) × (self.new.last ≡ self.old.last)) }
        ensures broken { self.old.is_broken ≡ true → IsErr result × (self.new ≡ self.old) }
        ensures failed { OnErr result (self.new.is_broken ≡ false → self.new ≡ self.old) }
        ensures torn { self.old.is_broken ≡ false → self.new.is_broken ≡ true →
            BreaksIn W.contents self.old (listening_line address) self.new }
        ensures fault { IfErr result IsOfPrinting }
        ensures write { result ≡ Err ServerFault.Write → self.new.is_broken ≡ true }
    {
        match format!(in self.printer.alloc; "listening {address}\n") {
            Ok(line) => self.printer.print(&line),
            Err(_) => Err(ServerFault::OutOfMemory),
        }
    }
}

/// Writes a line and flushes it. If either fails, exactly a prefix of the line was written.
fn write_line<W: Write>(output: &mut W, line: &str) -> Result<(), ServerFault>
    ensures written { OnOk result (Appends (W.contents output.old) (W.contents output.new)
        line.now) }
    ensures torn { OnErr result (WritesFirstPart (W.contents output.old) (W.contents output.new)
        line.now) }
    ensures fault { IfErr result IsOfPrinting }
{
    if let Err(error) = write_whole(output, line.as_bytes()) {
        return Err(fault_of(error));
    }
    match output.flush() {
        Ok(()) => Ok(()),
        Err(error) => Err(fault_of(error)),
    }
}

/// Returns the fault of a failed output: `OutOfMemory` if the error says so, otherwise `Write`.
fn fault_of(error: io::Error) -> ServerFault
    ensures memory { error_kind error ≡ ErrorKind.OutOfMemory → result ≡ ServerFault.OutOfMemory }
    ensures other { error_kind error ≢ ErrorKind.OutOfMemory → result ≡ ServerFault.Write }
    ensures fault { IsOfPrinting result }
{
    match error.kind() {
        ErrorKind::OutOfMemory => ServerFault::OutOfMemory,
        _ => ServerFault::Write,
    }
}
