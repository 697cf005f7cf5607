//! The origin of an engine: the ledger and the history over which it was created.

ghost use Rattle.std.specs.Prelude.{List, []};
ghost use Rattle.coord_types.specs.declared.steps.Step.{Step};
ghost use Rattle.coord_world.specs.protocol.NumberedWorld.{World, no_world};
ghost use Rattle.atomic_table.specs.Seated.{TableId};
ghost use Rattle.coord_engine.specs.MonotoneLog.{no_history};
ghost use Rattle.coord_engine.specs.Past.{Past, no_past};

use std::marker::Brand;
use std::sync::ledger::Ledger as Count;

/// Names an engine: the count of its shares, its history, and the ledger over which it was created.
/// `Engine::new` and `Engine::close` both have this name as a type parameter, because no clause can
/// describe the value under a lock.
///
/// The code that creates an engine is generic over this name, and is called with `Brand`. The call
/// fixes the name's history, its earlier steps, and the base, the accepted steps and the disk's
/// past of the given ledger.
pub trait Origin: Count {
    /// The history that the engine writes.
    ghost history: { TableId };

    /// The steps of that history that were settled by earlier instances of the store.
    ghost earlier: { List Step };

    /// The world before the ledger's first step.
    ghost base: { World };

    /// The steps that the ledger had accepted when the engine was created.
    ghost before: { List Step };

    /// The past of the ledger's disk at that time.
    ghost disk: { Past };
}

impl Origin for Brand {
    ghost history = { no_history };

    ghost earlier = { [] };

    ghost base = { no_world 1 };

    ghost before = { [] };

    ghost disk = { no_past };
}
