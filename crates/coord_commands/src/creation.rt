//! Creates the store of a topology on a disk.

ghost use Rattle.std.specs.Prelude.{◌≡◌, ◌≢◌, ◌⊎◌, ◌+◌, ◌<◌, true, length, IfErr, IfOk, MatchResult, None};
ghost use Rattle.coord_commands.specs.Creation.{IsOfCreation, LeavesNoStep, RefusesCommitted, failures_at};
ghost use Rattle.coord_commands.specs.Founding.{RefusesToBegin, orders};
ghost use Rattle.coord_commands.specs.declared.fault.Fault.TheVariants.{OutOfMemory, Refused, Store as Failed};
ghost use Rattle.coord_config.specs.Topology.{content};
ghost use Rattle.coord_disk.specs.Model.Moments.{IsUntouched};
ghost use Rattle.coord_store.specs.Halves.{HasHalves};
ghost use Rattle.coord_store.specs.Kept.{IsJustMade};
ghost use Rattle.coord_store.specs.declared.faults.StoreFault.TheVariants.{Device, HalfSize, NotEmpty, OutOfMemory as NoMemory};
ghost use Rattle.coord_types.specs.declared.refusals.Refusal.{Refusal as Reason};
ghost use Rattle.coord_world.specs.protocol.Next.{fold};
ghost use Rattle.coord_world.specs.protocol.NumberedWorld.{no_world};

use crate::fault::Fault;
use crate::founding::{VERSION, founding_steps};
use coord_config::Topology;
use coord_disk::{Disk, Takable};
use coord_store::Store;
use std::alloc::Global;

/// Creates a store on an empty disk, and commits the nodes and links of a topology in one commit. If
/// a node or link is refused, the store is left without any step.
pub fn create_store<D: Disk + Takable>(
    alloc: Global,
    disk: D,
    topology: &Topology,
) -> Result<Store<D>, (Fault, D)>
    ensures empty { D.model.keeps_model disk ≡ true →
        IfOk result (λ store. length (D.model.present disk).read ≡ 0) }
    ensures world { IfOk result (λ store. store.world ≡
        fold (no_world 2) (orders (content topology.now))) }
    ensures halves { D.model.keeps_model disk ≡ true →
        IfOk result (λ store. HasHalves topology.now.half (D.model.present store.disk).read) }
    ensures going { IfOk result (λ store. store.torn ≡ None) }
    ensures refused { (reason : Reason) → IfErr result (λ refused. refused.0 ≡ Refused reason →
        RefusesToBegin (orders (content topology.now)) reason) }
    ensures fault { D.model.keeps_model disk ≡ true →
        IfErr result (λ refused. RefusesCommitted
        (D.model.present disk).read topology.now.half refused.0) }
    ensures named { IfErr result (λ refused. IsOfCreation refused.0) }

    // The disk after a refusal, unless its device failed.
    ensures unchanged { D.model.keeps_model disk ≡ true →
        IfErr result (λ refused. (refused.0 ≡ Failed NotEmpty) ⊎ (refused.0 ≡ Failed HalfSize) →
        IsUntouched D.model disk refused.1) }
    ensures taken { D.model.keeps_model disk ≡ true → 0 < length (D.model.present disk).read →
        IfErr result (λ refused. refused.0 ≢ Failed Device →
        IsUntouched D.model disk refused.1) }
    ensures memory { D.model.keeps_model disk ≡ true →
        IfErr result (λ refused. (refused.0 ≡ OutOfMemory) ⊎ (refused.0 ≡ Failed NoMemory) →
        LeavesNoStep topology.now.half (D.model.present disk).read (D.model.present refused.1).read) }
    ensures left_empty { (reason : Reason) → D.model.keeps_model disk ≡ true →
        IfErr result (λ refused. refused.0 ≡ Refused reason
        → (length (D.model.present disk).read ≡ 0) ×
        IsJustMade topology.now.half 2 (D.model.present refused.1)) }

    ensures model { MatchResult result (λ store. D.model.keeps_model store.disk ≡ D.model.keeps_model disk)
        (λ refused. D.model.keeps_model refused.1 ≡ D.model.keeps_model disk) }
    ensures failures { MatchResult result (λ store. D.model.failures store.disk ≡ D.model.failures disk)
        (λ refused. D.model.failures refused.1 ≡ D.model.failures disk + failures_at refused.0) }
{
    let mut store = match Store::create(alloc, disk, topology.half, VERSION) {
        Ok(store) => store,
        Err((fault, disk)) => return Err((Fault::Store(fault), disk)),
    };
    let steps = match founding_steps(alloc, topology) {
        Ok(steps) => steps,
        Err(fault) => return Err((fault, store.into_disk())),
    };
    if steps.is_empty() {
        return Ok(store);
    }
    match store.commit(&steps) {
        Ok(()) => Ok(store),
        Err(fault) => Err((Fault::from(fault), store.into_disk())),
    }
}
