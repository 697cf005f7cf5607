//! The laws of a start's file: functions without a body whose contracts state the laws.

ghost use Rattle.coord_kept.specs.Torn.{TornSaysNothing, WrittenIsOneLine};

/// A text of one line that a power cut has truncated says that nothing is begun.
#[tactic(auto, using(crate::proofs::Torn::torn_says_nothing))]
pub fn torn_says_nothing()
    ensures { TornSaysNothing }
{}

/// Each text that is written to the file of a start has one line.
#[tactic(auto, using(crate::proofs::Torn::written_is_one_line))]
pub fn written_is_one_line()
    ensures { WrittenIsOneLine }
{}
