//! Laws about the definitions. Each is the contract of an empty function.

ghost use Rattle.coord_drill.specs.Laws.{BrokenIsDrilled, EndedIsDrilled, PrintedSurvives, SpelledIsRead};
ghost use Rattle.coord_drill.specs.WorkedLines.{WorkedLines};

use coord_disk::{CrashDisk, Disk};

/// A request that was written as a line is read from that line again, so no two requests share a line.
#[tactic(auto, using(crate::proofs::requests::Spelled::spelled_is_read))]
pub fn spelled_is_read()
    ensures { SpelledIsRead }
{}

/// On any disk, the output of a drill is an output that the event machine allows for the input's lines
/// in order (`specs/Drilled.antt`). If the drill broke off, its output is a prefix of such an output.
pub fn printed_is_drilled<D: CrashDisk>()
    ensures ended { EndedIsDrilled D.model D.crashes }
    ensures broke { BrokenIsDrilled D.model D.crashes }
{}

/// Printed output is durable: whatever a later crash may leave includes each step that was settled
/// before.
pub fn printed_survives()
    ensures { PrintedSurvives }
{}

/// A request of each verb is written as a given line, and that line is read as the request.
pub fn worked_lines()
    ensures { WorkedLines }
{}
