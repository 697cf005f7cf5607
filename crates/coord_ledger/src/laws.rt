//! Laws of the event machine, which follow from its definitions alone. Each is the contract of an empty function.

ghost use Rattle.coord_ledger.specs.laws.Commits.{CommitIsSafe};
ghost use Rattle.coord_ledger.specs.laws.Laws.{AdoptedIsConsistent, FinishKeepsKept, HasAnswer, KeptIsSafe, LogStays, NoSignalTwice, PrefixFromImages, RunGoesOn, RunIsConsistent, SettledStays, StaysConsistent, SubmitOrder};
ghost use Rattle.coord_ledger.specs.laws.SignalsBetween.{ReleasedBetween, ReleasedWithDrops};
ghost use Rattle.coord_ledger.specs.laws.Rebasing.{CrashReopens, RebasedAnswersAlike, RebasedGoesOn, RebasedIsConsistent};

/// A step is refused by the first refusal that applies: `Stopped`; then, if the step is not a
/// repeat, `PendingFull`, `Exhausted`, and the step's own refusals in the order of their numbers.
#[tactic(auto, using(crate::proofs::machine::Verdicts::submit_order))]
pub fn submit_order()
    ensures { SubmitOrder }
{}

/// A log stays consistent when a step is accepted, when steps are settled, and when a crash cuts it.
/// Each pending step stays fresh when more steps are settled.
#[tactic(auto, using(crate::proofs::machine::Logs::log_stays))]
pub fn log_stays()
    ensures { LogStays }
{}

/// Each event has an answer.
#[tactic(auto, using(crate::proofs::machine::Silent::has_answer))]
pub fn has_answer()
    ensures { HasAnswer }
{}

/// Each event, including a crash, keeps the settled steps.
#[tactic(auto, using(crate::proofs::machine::SettledStays::settled_stays))]
pub fn settled_stays()
    ensures { SettledStays }
{}

/// A ledger that was just created over a store is consistent.
#[tactic(auto, using(crate::proofs::machine::Consistent::adopted_is_consistent))]
pub fn adopted_is_consistent()
    ensures { AdoptedIsConsistent }
{}

/// An event leaves a consistent ledger consistent, whatever the answer.
#[tactic(auto, using(crate::proofs::machine::Consistent::stays_consistent))]
pub fn stays_consistent()
    ensures { StaysConsistent }
{}

/// A run of events keeps a consistent machine consistent.
#[tactic(auto, using(crate::proofs::machine::Consistent::run_is_consistent))]
pub fn run_is_consistent()
    ensures { RunIsConsistent }
{}

/// A run followed by one more event, with one of its possible answers, is again a run.
#[tactic(auto, using(crate::proofs::machine::Consistent::run_goes_on))]
pub fn run_goes_on()
    ensures { RunGoesOn }
{}

/// Whatever a crash may keep is a legal world after accepted steps alone. It includes every step
/// with a released or collected output.
#[tactic(auto, using(crate::proofs::machine::Safe::kept_is_safe))]
pub fn kept_is_safe()
    ensures { KeptIsSafe }
{}

/// While a flight is committed, the worlds before and after its steps are both legal. Both are worlds
/// after accepted steps alone, and include every step with a released or collected output.
pub fn commit_is_safe()
    ensures { CommitIsSafe }
{}

/// No step releases a signal of a node twice, even in runs with crashes.
pub fn signals_once()
    ensures { NoSignalTwice }
{}

/// Bounds the number of signals between two moments of the settled steps at which every node of a
/// part is Ready. No link leaves the part, and meanwhile no node or link comes or goes. Then a
/// ledger releases at most as many signals of a linked node as resets were started in the part. It
/// signals each node that is connected with a node whose reset was accepted.
pub fn released_between()
    ensures { ReleasedBetween }
{}

/// Bounds the number of signals if nodes and links come and go, but no link joins the part with the
/// rest. From a moment at which every node of the part is Ready, a ledger releases at most as many
/// signals of a node of the part as resets were started and links dropped there, plus the node's
/// own resets that were answered Finished.
pub fn released_with_drops()
    ensures { ReleasedWithDrops }
{}

/// Taking a flight back at the end of a run does not change what a crash may keep.
pub fn finish_keeps_kept()
    ensures { FinishKeepsKept }
{}

/// The headline follows if the store's statement about the images of its disk holds.
pub fn prefix_from_images()
    ensures { PrefixFromImages }
{}

/// A log stays consistent if its base moves forward over some of its settled steps.
#[tactic(auto, using(crate::proofs::machine::Logs::rebased_is_consistent))]
pub fn rebased_is_consistent()
    ensures { RebasedIsConsistent }
{}

/// A ledger whose base moves forward over settled steps, like the base of a ledger after a crash,
/// gives the same answers.
#[tactic(auto, using(crate::proofs::machine::Rebased::rebased_answers_alike))]
pub fn rebased_answers_alike()
    ensures { RebasedAnswersAlike }
{}

/// After each event except a crash, a ledger whose base was moved is still the other ledger with
/// its base moved.
#[tactic(auto, using(crate::proofs::machine::Rebased::rebased_goes_on))]
pub fn rebased_goes_on()
    ensures { RebasedGoesOn }
{}

/// After a crash a ledger behaves like a ledger that was just created over a store with the kept
/// world.
pub fn crash_reopens()
    ensures { CrashReopens }
{}
