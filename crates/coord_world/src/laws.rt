//! Laws of the protocol, over the definitions alone. Each is the contract of an empty function.

ghost use Rattle.coord_world.specs.laws.Laws.{FreshOverItself, LanesAreShort, NextKeepsLegal, NextKeepsRanges, RowsGiveWorld, RowsHaveFewAborts, RowsOfWorldFit, ViewOfNext};
ghost use Rattle.coord_world.specs.laws.Cycles.{NoParentCycle};
ghost use Rattle.coord_world.specs.laws.Raised.{RaisedIsLegal};
ghost use Rattle.coord_world.specs.laws.KeptReplies.{KeptReplyLaw};
ghost use Rattle.coord_world.specs.laws.Release.{FreshWhereReleased, ReleaseLaw, ReleasedFromBase, ReleasedGrows, ReleaseStays, ResendLaw};
ghost use Rattle.coord_world.specs.laws.Trails.{FoldCounts, TrailGoesOn, TrailIsCut, TrailKeepsWorlds};
ghost use Rattle.coord_world.specs.laws.Version1.{Version1AsksNoDistance};
ghost use Rattle.coord_world.specs.laws.Waves.{OncePerWave};
ghost use Rattle.coord_world.specs.laws.Between.{BoundBetween, BoundWithDrops};
ghost use Rattle.coord_world.specs.laws.Drops.{NoMoreWithDrops};
ghost use Rattle.coord_world.specs.laws.Overlaps.{AllOrNone, AloneAsFinished, AskedIsSignalled, AskedReachesAll, EpochsCountSignals, EpochsRiseTogether, NoMoreThanStarted, OnceIfOneStarted, OnceOrMore};

/// If a world accepts a step over some settled world, it also accepts the step over itself.
#[tactic(auto, using(crate::proofs::Acceptance::itself))]
pub fn fresh_over_itself()
    ensures { FreshOverItself }
{}

/// A fresh step keeps the ranges of a world.
#[tactic(auto, using(crate::proofs::ranges::NextKeepsRanges::ranges_next))]
pub fn next_keeps_ranges()
    ensures { NextKeepsRanges }
{}

/// A fresh step keeps a world legal.
pub fn next_keeps_legal()
    ensures { NextKeepsLegal }
{}

/// A step changes the view as the ideal step does, if on each lane at most one message is taken and not yet cleared.
#[tactic(auto, using(crate::proofs::View::view_next))]
pub fn view_of_next()
    ensures { ViewOfNext }
{}

/// In a legal world, a lane has at most 3 messages in transit, and its queue has at most 4 messages, of which at most 2
/// are Aborts.
pub fn lanes_are_short()
    ensures { LanesAreShort }
{}

/// In a legal world of version 2, chains of parents have no cycle. A chain has only nodes in a
/// reset, and no Ready is in transit from a parent to its child.
#[tactic(auto, using(crate::proofs::legal::NoCycle::no_parent_cycle))]
pub fn no_parent_cycle()
    ensures { NoParentCycle }
{}

/// In a world of version 1 in its ranges, the predicates demand nothing of distances: H holds for each link, and N
/// holds for a node if N without its condition on the distance does.
#[tactic(auto, using(crate::proofs::legal::Versions::version_1_asks_no_distance))]
pub fn version_1_asks_no_distance()
    ensures { Version1AsksNoDistance }
{}

/// A legal world of version 1 in which every node is Ready stays legal and in its ranges, and keeps its resend list, if
/// its version is changed to 2: all its distances are 0.
pub fn raised_is_legal()
    ensures { RaisedIsLegal }
{}

/// The rows of a world in its ranges satisfy the conditions of `RowsFit`.
pub fn rows_of_world_fit()
    ensures { RowsOfWorldFit }
{}

/// The rows of a legal world have at most 2 Aborts in each queue.
#[tactic(auto, using(crate::proofs::listings::RowsOfWorldFit::rows_have_few_aborts))]
pub fn rows_have_few_aborts()
    ensures { RowsHaveFewAborts }
{}

/// Worlds in their ranges with the same rows are equal.
pub fn rows_give_world()
    ensures { RowsGiveWorld }
{}

/// Suppose that every node is Ready before and after a list of steps in turn, and that the steps do not add or remove
/// nodes or links, and start exactly one reset. Then each node that links connect with the initiator is signalled
/// exactly once, and every other signal comes from a step that is answered Finished.
pub fn once_per_wave()
    ensures { OncePerWave }
{}

/// If a reset of a node is accepted, whatever the reply, and the node is Ready at the end of the steps, then that step
/// or a later one signals the node. The steps may add and remove nodes and links.
pub fn asked_is_signalled()
    ensures { AskedIsSignalled }
{}

/// Suppose that no link leaves a part of the nodes, every node of the part is Ready before and after the steps, and the
/// steps do not add or remove nodes or links. Then each node that links connect with the node of a reset started in the
/// part is signalled at least once, however many resets were started.
pub fn once_or_more()
    ensures { OnceOrMore }
{}

/// Suppose that no link leaves a part of the nodes, every node of the part is Ready before the steps, and the steps do
/// not add or remove nodes or links. Then, at any time, a node of the part that has a link was signalled at most as
/// often as resets were started in the part.
pub fn no_more_than_started()
    ensures { NoMoreThanStarted }
{}

/// Suppose that no link leaves a part of the nodes, every node of the part is Ready before the steps, and the steps
/// never link a node of the part with a node outside it; they may add and remove nodes and links otherwise. Then a node
/// of the part is signalled at most as often, in total, as resets were started in the part, links of the part were
/// dropped, and resets of the node were answered Finished.
pub fn no_more_with_drops()
    ensures { NoMoreWithDrops }
{}

/// Under the conditions of `no_more_than_started`, a node of the part that has no link is signalled exactly as often as
/// its resets are answered Finished.
pub fn alone_as_finished()
    ensures { AloneAsFinished }
{}

/// Under the conditions of `once_or_more`, if exactly one reset was started in the part, each node that links connect
/// with the initiator is signalled exactly once.
pub fn once_if_one_started()
    ensures { OnceIfOneStarted }
{}

/// Under the conditions of `once_or_more`, of the nodes that links connect with each other, either all or none are
/// signalled.
pub fn all_or_none()
    ensures { AllOrNone }
{}

/// Under the conditions of `once_or_more`, if a reset of a node of the part was accepted, whatever the reply, each node
/// that links connect with this node is signalled at least once.
pub fn asked_reaches_all()
    ensures { AskedReachesAll }
{}

/// As long as no node or link is added or removed, a node's epoch rises by one with each of its
/// signals.
pub fn epochs_count_signals()
    ensures { EpochsCountSignals }
{}

/// Under the conditions of `once_or_more`, of the nodes that links connect with each other, either all or none enter a
/// new epoch.
pub fn epochs_rise_together()
    ensures { EpochsRiseTogether }
{}

/// The bounds of `asked_reaches_all` and `no_more_than_started` hold for the steps of a history between two moments at
/// which every node of a part that no link leaves is Ready, if these steps do not add or remove nodes or links.
pub fn bound_between()
    ensures { BoundBetween }
{}

/// The bound of `no_more_with_drops` holds for the steps of a history after a moment, if the conditions of that law
/// hold at this moment and for these steps.
pub fn bound_with_drops()
    ensures { BoundWithDrops }
{}

/// The world after the first n steps of a trail is legal and in its ranges.
pub fn trail_keeps_worlds()
    ensures { TrailKeepsWorlds }
{}

/// The first n steps of a trail are a trail, and the remaining steps are a trail from the world after them. Together
/// they have the world and the outputs of the whole trail.
pub fn trail_is_cut()
    ensures { TrailIsCut }
{}

/// A trail followed by a step is a trail, if the step is fresh over the trail's world, with the world after some of the
/// trail's first steps as the settled world.
pub fn trail_goes_on()
    ensures { TrailGoesOn }
{}

/// Each step adds one to the count.
#[tactic(auto, using(crate::proofs::release::Trails::fold_counts))]
pub fn fold_counts()
    ensures { FoldCounts }
{}

/// The release law: a packet that the front world would take is accepted if and only if a settled
/// step sent it or it is in the base's resend list.
pub fn release_law()
    ensures { ReleaseLaw }
{}

/// A step that the front world accepts over itself is accepted over the settled world if and only
/// if the packet that the step names is released.
pub fn fresh_where_released()
    ensures { FreshWhereReleased }
{}

/// A release stays: if a step is not refused as `NotReleased`, it gets the same verdict after more steps are settled.
pub fn release_stays()
    ensures { ReleaseStays }
{}

/// The resend law: every packet in the resend list of the settled world is released.
pub fn resend_law()
    ensures { ResendLaw }
{}

/// A released packet stays released as more steps are settled.
pub fn released_grows()
    ensures { ReleasedGrows }
{}

/// A packet that is released when a world of the trail is taken as the base of the later steps is also released from
/// the trail's own base.
pub fn released_from_base()
    ensures { ReleasedFromBase }
{}

/// The kept-reply law: a world keeps the reply to a client's last order, or the reply that the base keeps if the steps
/// have no order of the client.
#[tactic(auto, using(crate::proofs::release::KeptReplies::kept_reply_law))]
pub fn kept_reply_law()
    ensures { KeptReplyLaw }
{}
