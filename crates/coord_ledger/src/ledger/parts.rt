//! Reads a ledger's trail, and takes the ledger apart.

ghost use Rattle.std.specs.Prelude.{◌≡◌, ◌+◌, ◌≤◌, is_none, is_some, length, None, Some, IfErr, IfOk, IfSome};
ghost use Rattle.coord_store.specs.Kept.{has_stopped};
ghost use Rattle.coord_ledger.specs.Facade.{FitsOut, IsConsistentLog, kinds_of, pending, settled_count, settled_world};

use super::Ledger;
use coord_disk::Disk;
use coord_store::Store;
use coord_types::{Kind, Step};
use coord_world::World;

impl<D: Disk> Ledger<D> {
    /// Returns the steps accepted since the base.
    pub fn trail(&self) -> &[Step]
        ensures { result.now ≡ self.now.log.trail }
    {
        &self.trail
    }

    /// Returns the kinds of the replies to the trail's steps.
    #[tactic(auto, using(crate::proofs::follows::Kept::kinds_within))]
    pub fn kinds(&self) -> &[Kind]
        ensures kinds { result.now ≡ kinds_of self.now.log.base self.now.log.trail }
        ensures all { length result.now ≡ length self.now.log.trail }
    {
        &self.kinds
    }

    /// Returns the number of accepted steps that are not settled.
    pub fn pending(&self) -> usize
        ensures { result ≡ length (pending self.now.log) }
    {
        self.trail.len() - self.done
    }

    /// Takes the ledger apart into its store, base, trail and settled count. If a flight carries the
    /// store, returns the ledger. Allocates nothing.
    pub fn into_parts(self) -> Result<(Store<D>, World, Vec<Step>, u64), Self>
        ensures home { IfOk result (λ parts. self.disk ≡ Some parts.0.disk) }
        ensures world { IfOk result (λ parts. parts.0.world ≡ settled_world self.log) }
        ensures stopped { IfOk result (λ parts. has_stopped parts.0 ≡ is_some self.log.doubt) }
        ensures base { IfOk result (λ parts. parts.1 ≡ self.log.base) }
        ensures trail { IfOk result (λ parts. parts.2.items ≡ self.log.trail) }
        ensures settled { IfOk result (λ parts. parts.3 ≡ settled_count self.log) }
        ensures out { IfErr result (λ ledger. (ledger ≡ self) × (self.disk ≡ None)) }
    {
        if self.store.is_none() {
            return Err(self);
        }
        let count = self.settled_count();
        let Ledger {
            alloc: _,
            base,
            trail,
            kinds,
            given,
            done: _,
            front,
            settled,
            out: _,
            doubt: _,
            store,
        } = self;
        drop(kinds);
        drop(given);
        drop(front);
        drop(settled);
        match store {
            Some(store) => Ok((store, base, trail, count)),
            None => unreachable!(),
        }
    }

    /// Tests whether a flight carries the store.
    pub fn is_out(&self) -> bool
        ensures out { result ≡ is_some self.now.out }
        ensures disk { result ≡ is_none self.now.disk }
    {
        self.store.is_none()
    }

    /// Does nothing. Its contract states the invariant of the type. The log is consistent, also with
    /// the steps in flight and the steps in doubt. While steps are in flight, the store is away with
    /// them. A stopped ledger has its store.
    pub fn lemma_log_is_consistent(&self)
        ensures log { IsConsistentLog self.now.log }
        ensures out { IfSome self.now.out (FitsOut self.now.log) }
        ensures doubted { IfSome self.now.log.doubt (λ size. (1 ≤ size) ×
            (self.now.log.settled + size ≤ length self.now.log.trail)) }
        ensures stopped { IfSome self.now.log.doubt (λ _. self.now.out ≡ None) }
        ensures home { is_some self.now.out ≡ is_none self.now.disk }
    {
        let _ = &self.base;
    }
}
