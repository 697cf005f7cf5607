//! The laws. Each is the contract of an empty function.

ghost use Rattle.std.specs.Prelude.{◌≡◌};
ghost use Rattle.coord_journal.specs.declared.layout.TheConstants.{MAX_HALF as GREATEST, MIN_HALF as LEAST};
ghost use Rattle.coord_config.specs.declared.values.TheConstants.{MAX_HALF, MIN_HALF};
ghost use Rattle.coord_commands.specs.Laws.{CommandsAreTaken};

/// The arguments of each command are accepted, and request that command with the arguments after its
/// name.
#[tactic(auto, using(crate::proofs::CommandsTaken::commands_are_taken))]
pub fn commands_are_taken()
    ensures { CommandsAreTaken }
{}

/// The range of `half` in a topology file is equal to the range of a journal's half.
pub fn halves_are_the_same()
    ensures least { MIN_HALF ≡ LEAST }
    ensures greatest { MAX_HALF ≡ GREATEST }
{}
