//! The laws of members that follow one coordinator. Each is the contract of an empty function.

ghost use Rattle.coord_following.specs.Fences.{NewerHasMore, OlderStaysOut};
ghost use Rattle.coord_following.specs.Ledgers.{NoMixOverALedger};
ghost use Rattle.coord_following.specs.Stores.{NoMixOverAStore};

/// Members that see a store's worlds, begin with empty files and follow the rule mix no runs, even if they lose their
/// files at any moment. The store's history begins with a sound world and may include the migration. A look may see any
/// world that is not earlier than the world that the member saw last.
#[tactic(auto, using(crate::proofs::OverStores::no_mix_over_a_store))]
pub fn no_mix_over_a_store()
    ensures { NoMixOverAStore }
{}

/// Members that see a ledger's settled worlds, begin with empty files and follow the rule mix no
/// runs, even if they lose their files at any moment. The ledger was just created with a sound
/// world; it may receive any events, give any possible answers and crash at any moment.
#[tactic(auto, using(crate::proofs::OverLedgers::no_mix_over_a_ledger))]
pub fn no_mix_over_a_ledger()
    ensures { NoMixOverALedger }
{}

/// One start is newer than another if its party has the other start's node in a later life, or in the same life at a
/// greater epoch. The fence of the newer start has the greater count, whichever members' looks fixed the two parties.
pub fn newer_fences_have_more()
    ensures { NewerHasMore }
{}

/// A resource that has accepted the newer start never accepts the older one, however late the older start's fence
/// arrives.
pub fn older_starts_stay_out()
    ensures { OlderStaysOut }
{}
