//! Worked runs from the empty world. Each is the contract of an empty function, which states the verdict on each step
//! and its outputs.

ghost use Rattle.coord_world.specs.laws.ReleasedRun.{ReleasedRun};
ghost use Rattle.coord_world.specs.laws.WorkedSteps.{Distances, DropInAbort, DropInConverge, DropsCount, NotAllAfterEach, Overlaps, StoredRun, StoredWave, TwoInitiators, TwoInitiatorsWithDistances};

/// Two nodes and one reset.
#[tactic(auto, using(crate::proofs::WorkedRuns::stored_computes))]
pub fn stored_run()
    ensures { StoredRun }
{}

/// The steps after the nodes are linked form a single wave from the first node.
#[tactic(auto, using(crate::proofs::waves::StoredWave::stored_is_wave))]
pub fn stored_wave()
    ensures { StoredWave }
{}

/// If both ends of a link start a reset, each node may be signalled once. If one end starts another reset before the
/// other end is Ready again, each node may be signalled twice.
#[tactic(auto, using(crate::proofs::waves::WorkedOverlaps::overlaps_compute))]
pub fn overlaps()
    ensures { Overlaps }
{}

/// Three resets on a path of three nodes. The last one is started at one end while the node in the
/// middle is still in the second reset, and the node at the other end is not signalled after that
/// start.
#[tactic(auto, using(crate::proofs::waves::WorkedOverlaps::not_all_after_each))]
pub fn not_all_after_each()
    ensures { NotAllAfterEach }
{}

/// Two resets and a dropped link on three nodes, each linked with both others. One node is signalled three times.
#[tactic(auto, using(crate::proofs::waves::WorkedDrop::drops_count))]
pub fn drops_count()
    ensures { DropsCount }
{}

/// Each packet of the reset of the stored run is refused until the step that sends it is settled.
pub fn released_run()
    ensures { ReleasedRun }
{}

/// Both ends of a link start a reset.
#[tactic(auto, using(crate::proofs::WorkedRuns::two_compute))]
pub fn two_initiators()
    ensures { TwoInitiators }
{}

/// The first link of a path of three nodes is dropped while the wave spreads.
#[tactic(auto, using(crate::proofs::WorkedRuns::abort_computes))]
pub fn drop_in_abort()
    ensures { DropInAbort }
{}

/// The first link of a path of three nodes is dropped after the acknowledgement has returned over
/// it.
#[tactic(auto, using(crate::proofs::WorkedRuns::converge_computes))]
pub fn drop_in_converge()
    ensures { DropInConverge }
{}

/// A wave of version 2 along a path of three nodes. The first link of the path is dropped.
#[tactic(auto, using(crate::proofs::WorkedRuns::distances_compute))]
pub fn distances()
    ensures { Distances }
{}

/// Two waves of version 2 that meet on a path of three nodes, up to the signals of all three.
#[tactic(auto, using(crate::proofs::WorkedRuns::two_waves_compute))]
pub fn two_initiators_with_distances()
    ensures { TwoInitiatorsWithDistances }
{}
