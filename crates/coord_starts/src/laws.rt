//! The law of the starts of a store, and a worked example: functions without a body whose contracts
//! state the law and the example.

ghost use Rattle.coord_starts.specs.OneHistory.{StartsAreOne};
ghost use Rattle.coord_starts.specs.Worked.{WorkedLife};

/// Whatever the starts of a store are, from its creation on: the kept steps form one history, and
/// every reply or output that was returned or released in any start belongs to that history.
pub fn starts_are_one()
    ensures { StartsAreOne }
{}

/// A worked example of a small store: three starts that serve, and one that migrates the store.
#[tactic(auto, using(crate::proofs::Worked::worked_life))]
pub fn worked_life()
    ensures { WorkedLife }
{}
