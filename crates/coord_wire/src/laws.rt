//! Laws of the lines: functions without a body whose contracts state the laws.

ghost use Rattle.coord_wire.specs.Laws.{NamesAreRead};

/// Each name that the server prints for the result of an order, or for its refusal, is read as that
/// result or refusal.
#[tactic(auto, using(crate::proofs::NameTables::names_are_read))]
pub fn names_are_read()
    ensures { NamesAreRead }
{}
