//! Worked examples of waiting packets, and the waiting times of a flusher. Each is the contract of
//! an empty function.

ghost use Rattle.coord_engine.specs.Flushing.{TimesAreUsual};
ghost use Rattle.coord_engine.specs.WorkedPackets.{BothKinds, LaterInPlace};

/// Later data of a lane replaces earlier data.
pub fn later_in_place()
    ensures { LaterInPlace }
{}

/// Data and a receipt of one lane both wait.
pub fn both_kinds()
    ensures { BothKinds }
{}

/// The waiting times of a flusher are the usual ones.
pub fn times_are_usual()
    ensures { TimesAreUsual }
{}
