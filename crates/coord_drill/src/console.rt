//! A drill over a reader and a writer.

ghost use Rattle.std.specs.Prelude.{◌≡◌, ◌<◌, ◌≤◌, ◌+◌, ◌-◌, ◌^◌, [], true, OnOk, IfErr, IfOk, Some, length};
ghost use Rattle.std.specs.Io.KnownBytes.{IsAtEnd};
ghost use Rattle.coord_ledger.specs.Facade.{disk_held};
ghost use Rattle.coord_lines.specs.Lines.{lines_on};
ghost use Rattle.coord_lines.specs.declared.limits.TheConstants.{MOST_READS};
ghost use Rattle.coord_drill.specs.Course.{DrillFails, Drills, NotMade};
ghost use Rattle.coord_drill.specs.Faults.{IsOfDisk, IsOfWork};
ghost use Rattle.coord_drill.specs.Holding.{IsReadyDrill};
ghost use Rattle.coord_drill.specs.InMemory.{DrillsInMemory, FailsInMemory, IsBlank};
ghost use Rattle.coord_drill.specs.Lines.{EndsEarly, EndsWith, LinesBreakOff, TakesPiece};
ghost use Rattle.coord_drill.specs.Moments.{IsBegun};
ghost use Rattle.coord_drill.specs.Written.{Exchanges, WritesPart};
ghost use Rattle.coord_drill.specs.declared.fault.Fault.TheVariants.{TooManyReads};

mod lines;

use crate::answers::read_once;
use crate::drill::Drill;
use crate::fault::Fault;
use crate::writing::{fault_of, write_text};
use coord_disk::{Choice, CrashDisk, Disk, MemDisk};
use coord_lines::{LineBuffer, MOST_READS};
use std::alloc::Global;
use std::io::{Read, Write};

/// The maximum number of bytes of one read.
const READ_LEN: usize = 512;

/// Reads requests, one in each line, to the end of the input, and prints their results. The drill
/// runs over a new disk in memory, on which a crash keeps the bytes that a read returns.
/// `printed_is_drilled` describes the output for a whole input. If the drill fails, the output is a
/// prefix of such an output.
pub fn coord_drill<R: Read, W: Write>(
    alloc: Global,
    reader: &mut R,
    writer: &mut W,
) -> Result<(), Fault>
    ensures ended { OnOk result (DrillsInMemory (R.remaining reader.old) (R.remaining reader.new)
        (W.contents writer.old) (W.contents writer.new)) }
    ensures end { OnOk result (IsAtEnd (R.remaining reader.new)) }
    ensures broke { IfErr result (FailsInMemory (R.remaining reader.old) (R.remaining reader.new)
        (W.contents writer.old) (W.contents writer.new)) }
{
    match coord_drill_on(alloc, reader, writer, new_disk(alloc)) {
        Ok(_disk) => Ok(()),
        Err((fault, _disk)) => Err(fault),
    }
}

/// Reads requests, one in each line, to the end of the input, and prints their results. The store is
/// created on the given disk, which must be empty. The disk is returned even after a fault.
///
/// The main theorem, over a disk that keeps the model: at each moment of the whole input, between its
/// lines and inside them, until the end or the fault, whatever a crash may leave of the disk is the
/// legal world after a prefix of the accepted steps. This prefix includes every step whose reply,
/// packet or signal was printed (`specs/Course.antt`).
pub fn coord_drill_on<R: Read, W: Write, D: CrashDisk>(
    alloc: Global,
    reader: &mut R,
    writer: &mut W,
    disk: D,
) -> Result<D, (Fault, D)>
    ensures ended { D.model.keeps_model disk ≡ true → IfOk result (Drills D.model D.crashes disk
        (record { unread = R.remaining reader.old; written = W.contents writer.old })
        (record { unread = R.remaining reader.new; written = W.contents writer.new })) }
    ensures end { OnOk result (IsAtEnd (R.remaining reader.new)) }
    ensures failed { D.model.keeps_model disk ≡ true →
        IfErr result (DrillFails D.model D.crashes disk
        (record { unread = R.remaining reader.old; written = W.contents writer.old })
        (record { unread = R.remaining reader.new; written = W.contents writer.new })) }
{
    Console::new(alloc, disk)?.run(alloc, reader, writer)
}

/// Returns an empty disk in memory, on which a crash keeps the bytes that a read returns.
fn new_disk(alloc: Global) -> MemDisk
    ensures { IsBlank result }
{
    let mut disk = MemDisk::new(alloc);
    disk.choose(Choice::Kept);
    disk
}

/// A drill that gets its input in pieces of any length. Every console must be consumed by
/// `into_disk`. A call that fails returns the disk.
struct Console<D: CrashDisk> {
    drill: Drill<D>,
    line: LineBuffer,
    /// The number of complete lines.
    number: u64,
    /// The output of the current line.
    text: String,
}

impl<D: CrashDisk> Console<D> {
    fn new(alloc: Global, disk: D) -> Result<Self, (Fault, D)>
        ensures ready { IfOk result (λ console. IsReadyDrill console.drill) }
        ensures begun { D.model.keeps_model disk ≡ true →
            IfOk result (λ console. IsBegun D.model disk console.drill) }
        ensures line { IfOk result (λ console. console.line ≡ Some []) }
        ensures number { IfOk result (λ console. console.number ≡ 0) }
        ensures not_made { D.model.keeps_model disk ≡ true →
            IfErr result (NotMade D.model disk) }
        ensures fault { IfErr result (λ refused. IsOfDisk refused.0) }
    {
        Ok(Console {
            drill: Drill::new(alloc, disk)?,
            line: LineBuffer::new(),
            number: 0,
            text: String::new(alloc),
        })
    }

    /// Reads and carries out the input to its end, and returns the disk.
    fn run<R: Read, W: Write>(
        self,
        alloc: Global,
        reader: &mut R,
        writer: &mut W,
    ) -> Result<D, (Fault, D)>
        requires ready { IsReadyDrill self.drill }
        requires number { self.number ≡ 0 }
        ensures ended { IfOk result (λ last. Exchanges
            (record { unread = R.remaining reader.old; written = W.contents writer.old })
            (record { unread = R.remaining reader.new; written = W.contents writer.new })
            (λ seen text. EndsWith D.model D.crashes self (lines_on self.line seen) text last)) }
        ensures end { OnOk result (IsAtEnd (R.remaining reader.new)) }
        ensures failed { IfErr result (λ refused. Exchanges
            (record { unread = R.remaining reader.old; written = W.contents writer.old })
            (record { unread = R.remaining reader.new; written = W.contents writer.new })
            (λ seen text. EndsEarly D.model D.crashes self (lines_on self.line seen) refused text
            × (refused.0 ≡ TooManyReads → MOST_READS ≤ length seen))) }
    {
        let mut console = self;
        let mut bytes = [0; READ_LEN];
        for _ in 0..MOST_READS {
            let count = match read_once(reader, &mut bytes) {
                Ok(count) => count,
                Err(fault) => return Err((fault, console.into_disk())),
            };
            if count == 0 {
                return console.finish(writer);
            }
            console = console.answer(alloc, &bytes[..count], writer)?;
        }
        Err((Fault::TooManyReads, console.into_disk()))
    }

    /// Handles a piece of the input, and writes the output of its lines immediately. If a line fails,
    /// the output before it is still written.
    fn answer<W: Write>(
        self,
        alloc: Global,
        piece: &[u8],
        writer: &mut W,
    ) -> Result<Self, (Fault, D)>
        requires ready { IsReadyDrill self.drill }
        requires number { self.number + length piece.now < 2 ^ 64 - 1 }
        ensures ready { IfOk result (λ console. IsReadyDrill console.drill) }
        ensures number { IfOk result (λ console. console.number ≤ self.number + length piece.now) }
        ensures taken { IfOk result (λ console.
            WritesPart (W.contents writer.old) (W.contents writer.new)
            (λ text. TakesPiece D.model D.crashes self piece.now [] text console)) }
        ensures failed { IfErr result (λ refused.
            WritesPart (W.contents writer.old) (W.contents writer.new)
            (LinesBreakOff D.model D.crashes self (lines_on self.line piece.now) refused)) }
        ensures fault { IfErr result (λ refused. IsOfWork refused.0) }
    {
        let mut text = Vec::new(alloc);
        let taken = self.take(piece, &mut text);
        match write_text(writer, &text) {
            Ok(()) => taken,
            Err(fault) => match taken {
                Ok(console) => Err((fault, console.into_disk())),
                Err((_, disk)) => Err((fault, disk)),
            },
        }
    }

    /// Ends the input, and returns the disk. The last line need not have a line feed.
    fn finish<W: Write>(self, writer: &mut W) -> Result<D, (Fault, D)>
        requires ready { IsReadyDrill self.drill }
        requires number { self.number < 2 ^ 64 - 1 }
        ensures ended { IfOk result (λ last.
            WritesPart (W.contents writer.old) (W.contents writer.new)
            (λ text. EndsWith D.model D.crashes self (lines_on self.line []) text last)) }
        ensures failed { IfErr result (λ refused.
            WritesPart (W.contents writer.old) (W.contents writer.new)
            (EndsEarly D.model D.crashes self (lines_on self.line []) refused)) }
        ensures fault { IfErr result (λ refused. IsOfWork refused.0) }
    {
        let disk = self.end_line(writer)?.into_disk();
        match writer.flush() {
            Ok(()) => Ok(disk),
            Err(error) => Err((fault_of(&error), disk)),
        }
    }

    /// Ends the drill, and returns its disk.
    fn into_disk(self) -> D
        ensures { disk_held self.drill.driver ≡ Some result }
    {
        let Console {
            drill,
            line: _,
            number: _,
            text: _,
        } = self;
        drill.into_disk()
    }
}
