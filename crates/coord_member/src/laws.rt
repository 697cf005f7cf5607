//! The laws of members. Each is the contract of an empty function.

ghost use Rattle.coord_member.specs.Cautious.{MoreOnlyForbids, NoMixWithMore};
ghost use Rattle.coord_member.specs.Fair.{NoMixFair};
ghost use Rattle.coord_member.specs.Fence.{LaterIsGreater, NewestIsAccepted, NoStartReturns};
ghost use Rattle.coord_member.specs.Honest.{NoMixHonest};
ghost use Rattle.coord_member.specs.NoMix.{NoMix};
ghost use Rattle.coord_member.specs.OnDisk.{LeftIsEnough};
ghost use Rattle.coord_member.specs.Refusals.{RefusersAsk};
ghost use Rattle.coord_member.specs.Text.{PartyTextInjective};
ghost use Rattle.coord_member.specs.WorkedRun.{WorkedRun};

/// No start ever hears of two starts of one member. All starts that a talking start has heard of have talked in its
/// run. No start talks in two runs, and at most one start of a member talks in a run. This holds for any number of
/// members that lose no files, whatever views they see, in any order, and however late or often messages are heard.
pub fn no_mix()
    ensures { NoMix }
{}

/// The conclusions of `no_mix` hold even if members may lose all their files at any moment, provided that the views that
/// they see are a store's history: a confirmed epoch does not fall while its node exists, and no removed link returns.
pub fn no_mix_where_files_are_lost()
    ensures { NoMixHonest }
{}

/// The conclusions of `no_mix` hold if some members keep their files and may see any views, while others may lose their
/// files and see a store's history.
pub fn no_mix_where_some_files_are_lost()
    ensures { NoMixFair }
{}

/// If a member's history has more parties than its starts talked with, the due action does not change, or becomes
/// waiting or a reset.
#[tactic(auto, using(crate::proofs::Cautious::more_only_forbids))]
pub fn more_only_forbids()
    ensures { MoreOnlyForbids }
{}

/// No runs are mixed even if members write a party into their histories before they know whether
/// they will talk with it, and forget that they did: at each look a history may have any number of
/// additional parties.
#[tactic(auto, using(crate::proofs::Fair::no_mix_with_more))]
pub fn no_mix_with_more_parties()
    ensures { NoMixWithMore }
{}

/// A member that reads back what `specs/OnDisk.antt` requires continues like a member that has crashed or lost its
/// work, and whose history has more parties.
#[tactic(auto, using(crate::proofs::OnDisk::left_is_enough))]
pub fn what_is_left_is_enough()
    ensures { LeftIsEnough }
{}

/// After a resource has accepted a fence, it accepts fences of other runs only with greater counts.
#[tactic(auto, using(crate::proofs::Fences::later_is_greater))]
pub fn later_fences_are_greater()
    ensures { LaterIsGreater }
{}

/// If a resource accepts a start, and then a start of another run, it never accepts the first start again, whatever
/// fences are presented, in any order, late or repeated.
#[tactic(auto, using(crate::proofs::Fences::no_start_returns))]
pub fn no_start_returns()
    ensures { NoStartReturns }
{}

/// A fence with a positive count that is greater than the counts of all other runs is accepted whenever it arrives.
#[tactic(auto, using(crate::proofs::Fences::newest_is_accepted))]
pub fn newest_fence_is_accepted()
    ensures { NewestIsAccepted }
{}

/// Two talking members that see the same party and refuse each other's messages both ask for a
/// reset.
pub fn refusers_ask()
    ensures { RefusersAsk }
{}

/// Parties with equal texts are equal.
#[tactic(auto, using(crate::proofs::Texts::party_text_injective))]
pub fn party_text_injective()
    ensures { PartyTextInjective }
{}

/// Worked runs. A member that has lost its files begins an epoch a second time, after its node was removed and added
/// again, and only its second start is heard. A store is restored, and a member sees a party that it has already talked
/// with.
pub fn worked_run()
    ensures { WorkedRun }
{}
