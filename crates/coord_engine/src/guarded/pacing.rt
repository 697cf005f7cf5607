//! When a flight starts (`specs/Pacing.antt`).
//!
//! `in_hand` counts the released packets that a port or a worker has in hand. The count may be
//! wrong: a port may lose a packet or carry it twice. `awaited` is the number of steps that are
//! likely to be pending soon. It may be wrong too: an answered caller may or may not order again.
//! So both are only hints for when to start a flight.

ghost use Rattle.std.specs.Prelude.{◌≡◌, ◌+◌, ◌-◌, ◌^◌, min, take};
ghost use Rattle.std.specs.List.{count_by};
ghost use Rattle.coord_engine.specs.Pacing.{is_gathered, is_idle, is_order, is_over, leaving_orders, starts_at_once, wakes_flusher, with_awaited, with_callers_awaited, with_in_hand};
ghost use Rattle.coord_types.specs.declared.limits.TheConstants.{MAX_BATCH_STEPS};
ghost use Rattle.coord_ledger.specs.machine.Log.{pending};

use super::Guarded;
use super::closing::steps_from;
use crate::Origin;
use coord_disk::Disk;
use coord_types::{MAX_BATCH_STEPS, Step};

/// The maximum number of steps that a flight waits for. If more steps are expected, the flight
/// waits for none: with that many callers a flight is well filled without a wait (about 50 of 64
/// callers are in each flight), and over a fast disk the wait costs more than the few missing
/// steps.
const MOST_AWAITED: u64 = 32;

/// Proof that the count of packets in hand was lowered by one. Only `put_down` returns it.
#[derive(Drop)]
pub struct PutDown(());

/// Returns the number of orders among these steps.
fn count_orders(steps: &[Step]) -> usize
    ensures { result ≡ count_by is_order steps.now }
{
    steps
        .iter()
        .filter(|step| matches!(step, Step::Order(..)))
        .count()
}

/// Returns the first of these steps, at most as many as fit in a flight.
fn next_steps(steps: &[Step]) -> &[Step]
    ensures { result.now ≡ take MAX_BATCH_STEPS steps.now }
{
    &steps[..MAX_BATCH_STEPS.min(steps.len())]
}

impl<D: Disk, L: Origin> Guarded<D, L> {
    /// Counts this many more packets as passed to a port.
    pub fn raise_in_hand(&mut self, count: u64)
        ensures { self.new ≡ with_in_hand self.old (min (self.old.in_hand + count) (2 ^ 64 - 1)) }
    {
        self.in_hand = self.in_hand.saturating_add(count);
    }

    /// Counts this many packets as handled.
    pub fn lower_in_hand(&mut self, count: u64)
        ensures { self.new ≡ with_in_hand self.old (self.old.in_hand - count) }
    {
        self.in_hand = self.in_hand.saturating_sub(count);
    }

    /// Counts one packet as handled: it was submitted, dropped, kept or lost.
    pub fn put_down(&mut self) -> PutDown
        ensures { self.new ≡ with_in_hand self.old (self.old.in_hand - 1) }
    {
        self.lower_in_hand(1);
        PutDown(())
    }

    /// Stops waiting for the packets that are still being handled.
    pub fn forget_in_hand(&mut self)
        ensures { self.new ≡ with_in_hand self.old 0 }
    {
        self.in_hand = 0;
    }

    /// Returns the accepted steps that are not settled.
    fn pending_steps(&self) -> &[Step]
        ensures { result.now ≡ pending self.now.ledger.log }
    {
        let trail = self.ledger.trail();
        steps_from(trail, trail.len() - self.ledger.pending())
    }

    /// Records the number of orders in the next flight.
    pub fn count_leaving(&mut self)
        ensures { self.new ≡ with_awaited self.old (leaving_orders self.old) }
    {
        self.awaited = count_orders(next_steps(self.pending_steps())) as u64;
    }

    /// Makes the next flight wait for the callers of a flight that returned, since they may order
    /// again, and for the steps that are already pending. If there are too many, the flight waits for
    /// none.
    pub fn await_callers(&mut self)
        ensures { self.new ≡ with_callers_awaited self.old }
    {
        let steps = self.awaited.saturating_add(self.pending() as u64);
        self.awaited = if steps <= MOST_AWAITED { steps } else { 0 };
    }

    /// Stops waiting for callers.
    pub fn forget_awaited(&mut self)
        ensures { self.new ≡ with_awaited self.old 0 }
    {
        self.awaited = 0;
    }

    /// Tests whether nothing will ever be flushed again.
    pub fn is_over(&self) -> bool
        ensures { result ≡ is_over self.now }
    {
        self.ledger.stopped() || (self.finishing && self.pending() == 0)
    }

    /// Tests whether nothing can be flushed yet.
    pub fn is_idle(&self) -> bool
        ensures { result ≡ is_idle self.now }
    {
        !self.is_over() && (self.pending() == 0 || self.ledger.is_out())
    }

    /// Tests whether a flight need not wait for anything.
    fn is_gathered(&self) -> bool
        ensures { result ≡ is_gathered self.now }
    {
        self.in_hand == 0 && self.pending() as u64 >= self.awaited
    }

    /// Tests whether a flight starts at once.
    pub fn starts_at_once(&self) -> bool
        ensures { result ≡ starts_at_once self.now }
    {
        self.is_gathered() || self.pending() >= MAX_BATCH_STEPS || self.finishing
    }

    /// Tests whether a waiting flusher must be woken. `was_idle` says whether nothing could be flushed
    /// before.
    pub fn wakes_flusher(&self, was_idle: bool) -> bool
        ensures { result ≡ wakes_flusher was_idle self.now }
    {
        !self.is_idle() && (was_idle || self.starts_at_once())
    }
}
