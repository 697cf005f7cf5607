//! Sends flights out, and takes them back.

ghost use Rattle.std.specs.Prelude.{◌≡◌, ◌≢◌, ◌+◌, ◌↔◌, ◌≤◌, false, true, is_some, None, Ok, Some, drop, length, take, IfErr, IfOk, IsSomeAnd, IsTrue, OnErr, OnOk};
ghost use Rattle.coord_types.specs.declared.limits.TheConstants.{MAX_BATCH_STEPS};
ghost use Rattle.coord_world.specs.protocol.Next.{fold};
ghost use Rattle.coord_ledger.specs.Facade.{IsOut, RefusesFlight, keeps_store, next_flight, pending, releases_in, settled_world, taken_back, with_store_out};

use super::Ledger;
use crate::settling::{are_same, drop_first, is_same_world, released};
use crate::{Flight, Mark, Release, Releases};
use coord_disk::Disk;
use coord_store::take_all;
use coord_types::{MAX_BATCH_STEPS, Refusal, Step};
use coord_world::World;
use std::alloc::AllocError;
use std::mem::replace;

/// Returns the next `size` steps after the first `done` steps, which are settled.
fn next_steps(trail: &[Step], done: usize, size: usize) -> &[Step]
    requires { done + size ≤ length trail.now }
    ensures { result.now ≡ take size (drop done trail.now) }
{
    &trail[done..done + size]
}

impl<D: Disk> Ledger<D> {
    /// Returns the world after these steps, which are the next pending steps. If they are all pending
    /// steps, the world is a copy of the front world. Errors: out of memory.
    fn flown_world(&self, steps: &[Step]) -> Result<World, AllocError>
        requires { steps.now ≡ take (length steps.now) (pending self.now.log) }
        ensures { IfOk result (λ world. world ≡ fold (settled_world self.now.log) steps.now) }
    {
        if steps.len() == self.pending() {
            return self.front.copy();
        }
        let mut next = self.settled.copy()?;
        match take_all(&mut next, steps) {
            Ok(()) => Ok(next),
            Err(fault) => {
                drop(next);
                Err(fault)
            }
        }
    }

    /// Returns the next unsettled steps, at most 256, and the world after them. Errors: out of memory.
    fn next_flown(&self) -> Result<(Vec<Step>, World), AllocError>
        ensures steps { IfOk result (λ flown. flown.0.items ≡
            take MAX_BATCH_STEPS (pending self.now.log)) }
        ensures world { IfOk result (λ flown. flown.1 ≡
            fold (settled_world self.now.log) flown.0.items) }
    {
        let size = MAX_BATCH_STEPS.min(self.trail.len() - self.done);
        let steps = Vec::from_slice(self.alloc, next_steps(&self.trail, self.done, size))?;
        match self.flown_world(&steps) {
            Ok(next) => Ok((steps, next)),
            Err(fault) => {
                drop(steps);
                Err(fault)
            }
        }
    }

    /// Sends the store out with the next steps. `later` is the world after these steps.
    fn send_out(&mut self, steps: Vec<Step>, later: World) -> Flight<D>
        requires home { is_some self.old.disk ≡ true }
        requires going { self.old.log.doubt ≡ None }
        requires next { steps.items ≡ take MAX_BATCH_STEPS (pending self.old.log) }
        requires some { 1 ≤ length steps.items }
        requires led { later ≡ fold (settled_world self.old.log) steps.items }
        ensures flight { result ≡ next_flight self.old.log result.disk }
        ensures disk { self.old.disk ≡ Some result.disk }
        ensures out { self.new ≡ with_store_out self.old (length result.steps) }
    {
        let first = self.settled_count() + 1;
        let size = steps.len();
        let store = match self.store.take() {
            Some(store) => store,
            None => unreachable!(),
        };
        self.out = size;
        Flight {
            first,
            steps,
            before: None,
            next: Some(later),
            mark: Mark::New,
            store,
        }
    }

    /// Sends the store out with the next unsettled steps, at most 256. Returns None if nothing is
    /// pending, a flight is already out, or the ledger has stopped. Errors: out of memory.
    pub fn begin_flush(&mut self) -> Result<Option<Flight<D>>, AllocError>
        ensures nothing { keeps_store self.old ≡ true → (result ≡ Ok None) × (self.new ≡ self.old) }
        ensures begun { keeps_store self.old ≡ false →
            IfOk result (λ begun. IsSomeAnd begun (λ flight.
            (flight ≡ next_flight self.old.log flight.disk) × (self.old.disk ≡ Some flight.disk) ×
            (self.new ≡ with_store_out self.old (length flight.steps)))) }
        ensures err { OnErr result (self.new ≡ self.old) }
        ensures log { self.new.log ≡ self.old.log }
    {
        if self.doubt.is_some() || self.done >= self.trail.len() {
            return Ok(None);
        }
        if self.store.is_none() {
            return Ok(None);
        }
        let (steps, later) = match self.next_flown() {
            Ok(flown) => flown,
            Err(fault) => return Err(fault),
        };
        Ok(Some(self.send_out(steps, later)))
    }

    /// Tests whether a flight is the flight that this ledger has sent out.
    fn is_own(&self, flight: &Flight<D>) -> bool
        ensures { IsTrue result ↔ IsOut self.now flight.now }
    {
        if self.store.is_some() || flight.steps.len() != self.out {
            return false;
        }
        if flight.first != self.settled_count() + 1 {
            return false;
        }
        if !is_same_world(flight.world(), &self.settled) {
            return false;
        }
        are_same(&flight.steps, next_steps(&self.trail, self.done, self.out))
    }

    /// Returns the settled world after a committed flight, and the releases of the flight's steps.
    /// Errors: out of memory.
    fn settled_by(&self, flight: &Flight<D>) -> Result<(World, Vec<Release>), AllocError>
        requires own { IsOut self.now flight.now }
        requires good { flight.now.mark ≡ Mark.Good }
        ensures world { IfOk result (λ r. r.0 ≡ fold flight.now.world flight.now.steps) }
        ensures released { IfOk result (λ r. r.1.items ≡ releases_in flight.now Mark.Good) }
    {
        let world = flight.store.world().copy()?;
        let first = 1 + self.settled_count();
        match released(self.alloc, first, &self.given, flight.steps.len()) {
            Ok(rows) => Ok((world, rows)),
            Err(fault) => {
                drop(world);
                Err(fault)
            }
        }
    }

    /// Takes back the ledger's own flight, which was torn or never committed.
    fn take_back(&mut self, flight: Flight<D>)
        requires own { IsOut self.old flight }
        requires uncommitted { flight.mark ≢ Mark.Good }
        ensures { self.new ≡ taken_back self.old (length flight.steps) flight.mark flight.disk }
    {
        let (size, mark, store) = flight.into_parts();
        drop(self.store.replace(store));
        if mark == Mark::Torn {
            self.doubt = Some(size);
        }
    }

    /// Takes back the ledger's own flight, which was committed. Its steps are now settled, and
    /// `settled` is the world after them.
    fn take_settled(&mut self, flight: Flight<D>, settled: World)
        requires own { IsOut self.old flight }
        requires good { flight.mark ≡ Mark.Good }
        requires led { settled ≡ fold flight.world flight.steps }
        ensures { self.new ≡ taken_back self.old (length flight.steps) flight.mark flight.disk }
    {
        let (size, _mark, store) = flight.into_parts();
        drop(self.store.replace(store));
        self.done += size;
        drop_first(&mut self.given, size);
        drop(replace(&mut self.settled, settled));
    }

    /// Takes back the ledger's own flight. If memory runs out, returns the flight.
    fn land(&mut self, flight: Flight<D>) -> Result<Releases, Flight<D>>
        requires { IsOut self.old flight }
        ensures own { IsOut self.old flight }
        ensures taken { OnOk result (self.new ≡
            taken_back self.old (length flight.steps) flight.mark flight.disk) }
        ensures released { IfOk result (λ releases. releases ≡ releases_in flight flight.mark) }
        ensures good { OnErr result (flight.mark ≡ Mark.Good) }
        ensures back { IfErr result (λ back. back ≡ flight) }
        ensures unchanged { OnErr result (self.new ≡ self.old) }
    {
        if flight.mark != Mark::Good {
            self.take_back(flight);
            return Ok(Releases::of(Vec::new(self.alloc)));
        }
        match self.settled_by(&flight) {
            Ok((settled, rows)) => {
                self.take_settled(flight, settled);
                Ok(Releases::of(rows))
            }
            Err(_) => Err(flight),
        }
    }

    /// Takes back the ledger's flight, with its store. A committed flight settles its steps, and their
    /// releases are returned. Any other flight settles nothing; if it is torn, the ledger stops.
    ///
    /// Refuses as `Stranger` a flight that this ledger has not sent out: the first numbers, the steps
    /// and the worlds before the steps are compared. A refusal returns the flight.
    pub fn end_flush(&mut self, flight: Flight<D>) -> Result<Releases, (Refusal, Flight<D>)>
        ensures own { OnOk result (IsOut self.old flight) }
        ensures taken { OnOk result (self.new ≡
            taken_back self.old (length flight.steps) flight.mark flight.disk) }
        ensures released { IfOk result (λ releases. releases ≡ releases_in flight flight.mark) }
        ensures refused { IfErr result (λ refused. RefusesFlight self.old flight refused.0) }
        ensures back { IfErr result (λ refused. refused.1 ≡ flight) }
        ensures unchanged { OnErr result (self.new ≡ self.old) }
    {
        if !self.is_own(&flight) {
            return Err((Refusal::Stranger, flight));
        }
        match self.land(flight) {
            Ok(releases) => Ok(releases),
            Err(flight) => Err((Refusal::OutOfMemory, flight)),
        }
    }
}
