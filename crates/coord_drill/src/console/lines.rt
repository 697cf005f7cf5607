//! Carries out the lines of a drill's input.

ghost use Rattle.std.specs.Prelude.{◌≡◌, ◌++◌, ◌<◌, ◌≤◌, ◌+◌, ◌-◌, ◌^◌, [], ◌∷◌, IfErr, IfOk, OnOk, Some, length, string_bytes};
ghost use Rattle.std.specs.Option.{option_copied};
ghost use Rattle.coord_ledger.specs.Facade.{disk_held};
ghost use Rattle.coord_lines.specs.Lines.{lines_on, IsWithin};
ghost use Rattle.coord_drill.specs.Drilled.{is_skipped};
ghost use Rattle.coord_drill.specs.Faults.{IsOfDisk, IsOfWork};
ghost use Rattle.coord_drill.specs.Holding.{IsReadyDrill, Reports};
ghost use Rattle.coord_drill.specs.Printed.{bad_line};
ghost use Rattle.coord_drill.specs.declared.fault.Fault.TheVariants.{OutOfMemory};
ghost use Rattle.coord_drill.specs.Lines.{CarriesLine, CarriesOut, CutsLine, LinesBreakOff, TakesPiece};
ghost use Rattle.coord_drill.specs.Written.{WritesPart};

use super::Console;
use crate::drill::Drill;
use crate::fault::Fault;
use crate::print::print_bad_line;
use crate::writing::write_text;
use coord_disk::{CrashDisk, Disk};
use std::io::Write;

impl<D: CrashDisk> Console<D> {
    /// Handles a piece of the input: carries out the lines that the piece completes, and writes their
    /// answers.
    pub(super) fn take<W: Write>(self, piece: &[u8], writer: &mut W) -> Result<Self, (Fault, D)>
        requires ready { IsReadyDrill self.drill }
        requires number { self.number + length piece.now < 2 ^ 64 - 1 }
        ensures ready { IfOk result (λ console. IsReadyDrill console.drill) }
        ensures number { IfOk result (λ console. console.number ≤ self.number + length piece.now) }
        ensures taken { IfOk result (λ console.
            WritesPart (W.contents writer.old) (W.contents writer.new)
            (λ text. TakesPiece D.model D.crashes self piece.now [] text console)) }
        ensures failed { IfErr result (λ refused.
            WritesPart (W.contents writer.old) (W.contents writer.new)
            (LinesBreakOff D.model D.crashes self (lines_on self.line piece.now) refused)) }
        ensures fault { IfErr result (λ refused. IsOfWork refused.0) }
    {
        let mut console = self;
        let mut rest = piece;
        while let Some(following) = console.line.take(rest) {
            console = console.end_line(writer)?;
            rest = following;
        }
        Ok(console)
    }

    /// Carries out the complete line, writes its answer, and begins the next line.
    pub(super) fn end_line<W: Write>(self, writer: &mut W) -> Result<Self, (Fault, D)>
        requires ready { IsReadyDrill self.drill }
        requires number { self.number < 2 ^ 64 - 1 }
        ensures ready { IfOk result (λ console. IsReadyDrill console.drill) }
        ensures carried { IfOk result (λ console.
            WritesPart (W.contents writer.old) (W.contents writer.new)
            (λ text. CarriesOut D.model D.crashes self (self.line ∷ []) text console)) }
        ensures failed { IfErr result (λ refused.
            WritesPart (W.contents writer.old) (W.contents writer.new)
            (LinesBreakOff D.model D.crashes self (self.line ∷ []) refused)) }
        ensures fault { IfErr result (λ refused. IsOfWork refused.0) }
        ensures number { IfOk result (λ console. console.number ≡ self.number + 1) }
        ensures line { IfOk result (λ console. console.line ≡ Some []) }
        ensures within { IsWithin self.line }
    {
        let console = self.answer_line()?;
        match write_text(writer, console.text.as_bytes()) {
            Ok(()) => Ok(console),
            Err(fault) => Err((fault, console.into_disk())),
        }
    }

    /// Carries out the complete line, stores its answer in the field `text`, and begins the next line.
    fn answer_line(self) -> Result<Self, (Fault, D)>
        requires ready { IsReadyDrill self.drill }
        requires number { self.number < 2 ^ 64 - 1 }
        ensures ready { IfOk result (λ console. IsReadyDrill console.drill) }
        ensures carried { IfOk result (λ console. CarriesLine D.model D.crashes
            self.drill (self.number + 1) self.line (string_bytes console.text) console.drill) }
        ensures cut { IfErr result (CutsLine D.model D.crashes self.drill self.line) }
        ensures fault { IfErr result (λ refused. IsOfDisk refused.0) }
        ensures number { IfOk result (λ console. console.number ≡ self.number + 1) }
        ensures line { IfOk result (λ console. console.line ≡ Some []) }
        ensures within { IsWithin self.line }
    {
        let Console {
            drill,
            mut line,
            number,
            mut text,
        } = self;
        let number = number + 1;
        text.clear();
        let drill = respond(drill, line.get(), number, &mut text)?;
        line.clear();
        Ok(Console {
            drill,
            line,
            number,
            text,
        })
    }
}

/// Carries out the request of line `number`, and appends its answer to a text. A skipped line or a bad
/// line makes no request. `line` is None if it was over the limit.
fn respond<D: CrashDisk>(
    drill: Drill<D>,
    line: Option<&[u8]>,
    number: u64,
    text: &mut String,
) -> Result<Drill<D>, (Fault, D)>
    requires ready { IsReadyDrill drill }
    ensures ready { IfOk result IsReadyDrill }
    ensures carried { IfOk result (λ new. Reports (string_bytes text.old) (string_bytes text.new)
        (λ reported. CarriesLine D.model D.crashes drill number (option_copied line.entry) reported
        new)) }
    ensures cut { IfErr result (CutsLine D.model D.crashes drill (option_copied line.entry)) }
    ensures fault { IfErr result (λ refused. IsOfDisk refused.0) }
{
    let Some(line) = line else {
        return report_bad(drill, number, text);
    };
    if is_skipped(line) {
        return Ok(drill);
    }
    match drill.read(line) {
        Some(request) => drill.answer(&request, text),
        None => report_bad(drill, number, text),
    }
}

/// Appends the answer to a bad line.
fn report_bad<D: CrashDisk>(
    drill: Drill<D>,
    number: u64,
    text: &mut String,
) -> Result<Drill<D>, (Fault, D)>
    ensures same { IfOk result (λ new. new ≡ drill) }
    ensures reported { OnOk result (string_bytes text.new ≡
        string_bytes text.old ++ bad_line number) }
    ensures lost { IfErr result (λ refused. disk_held drill.driver ≡ Some refused.1) }
    ensures fault { IfErr result (λ refused. refused.0 ≡ OutOfMemory) }
{
    match print_bad_line(text, number) {
        Ok(()) => Ok(drill),
        Err(_) => Err(drill.lost()),
    }
}

/// Tests whether a line is empty or a comment.
fn is_skipped(line: &[u8]) -> bool
    ensures { result ≡ is_skipped line.now }
{
    match line.first() {
        Some(byte) => *byte == b'#',
        None => true,
    }
}
