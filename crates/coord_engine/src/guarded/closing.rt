//! Takes the value under the lock apart.

ghost use Rattle.std.specs.Prelude.{◌≡◌, ◌↔◌, ◌+◌, ◌≤◌, drop, false, true, length, is_none, is_some, sum_by, IfErr, IfNone, IfOk, IfSome, IsTrue, Some};
ghost use Rattle.coord_engine.specs.Closing.{IsSince, MayClose, RefusesClosing};
ghost use Rattle.coord_engine.specs.Named.{AreNoted};
ghost use Rattle.coord_engine.specs.Past.{StaysAlong};
ghost use Rattle.coord_engine.specs.Released.{HasReadSettled};
ghost use Rattle.coord_ledger.specs.machine.Log.{kinds_of, settled_count, settled_steps, settled_world};
ghost use Rattle.coord_engine.specs.Threads.{IsLeftOf};
ghost use Rattle.coord_store.specs.Kept.{has_stopped};

use super::Guarded;
use super::comparing::{all_ascending, all_noted};
use crate::{CloseFault, Closed, LogAuthority, Origin, Retired, Share};
use coord_disk::Disk;
use coord_ledger::{Ledger, Seen};
use coord_types::{Kind, Step};
use std::sync::ledger::{Book, Ledger as Count, Share as Part};

/// Joins all parts of the count. This shows that the shares have as many notes as steps were
/// counted.
fn gather<L: Count>(book: Book<L>, rest: Part<L>, shares: Vec<Share<L>>)
    requires parts { rest.parts + length shares.items ≡ L.parts }
    requires amount { rest.amount ≡ 0 }
    ensures { sum_by (λ notes. length notes) shares.items ≡ book.total }
{
    let mut left = shares;
    let mut all = rest;
    let mut book = book;
    while let Some(share) = left.pop() {
        let Share { part, notes: _ } = share;
        all.merge(part);
    }
    book.audit(&mut all);
}

/// Returns the kinds from this index on.
fn kinds_from(kinds: &[Kind], start: usize) -> &[Kind]
    requires { start ≤ length kinds.now }
    ensures { result.now ≡ drop start kinds.now }
{
    &kinds[start..]
}

/// Returns the steps from this index on.
pub fn steps_from(trail: &[Step], start: usize) -> &[Step]
    requires { start ≤ length trail.now }
    ensures { result.now ≡ drop start trail.now }
{
    &trail[start..]
}

/// Takes apart a ledger that has no flight out. Allocates nothing.
fn left_of<D: Disk>(ledger: Ledger<D>) -> Closed<D>
    requires home { is_none ledger.disk ≡ false }
    ensures store { (ledger.disk ≡ Some result.store.disk) ×
        (result.store.world ≡ settled_world ledger.log) ×
        (has_stopped result.store ≡ is_some ledger.log.doubt) }
    ensures log { (result.base ≡ ledger.log.base) × (result.trail.items ≡ ledger.log.trail) ×
        (result.settled ≡ settled_count ledger.log) }
{
    match ledger.into_parts() {
        Ok((store, base, trail, settled)) => Closed {
            store,
            base,
            trail,
            settled,
        },
        Err(_) => unreachable!(),
    }
}

impl<D: Disk, L: Origin> Guarded<D, L> {
    /// Tests whether the shares noted every step accepted since the engine was created, with the kind
    /// of its reply, and whether each share noted its steps in order. If so, the count implies that
    /// they noted nothing else.
    fn are_noted(&self, shares: &[Share<L>]) -> bool
        ensures { IsTrue result ↔ AreNoted shares.now
            (self.now.ledger.log.base.count + self.now.start)
            (drop self.now.start self.now.ledger.log.trail)
            (drop self.now.start (kinds_of self.now.ledger.log.base self.now.ledger.log.trail)) }
    {
        if !all_ascending(shares) {
            return false;
        }
        let steps = steps_from(self.ledger.trail(), self.start);
        let kinds = kinds_from(self.ledger.kinds(), self.start);
        let others = self.ledger.accepted_count() - steps.len() as u64;
        all_noted(shares, others, steps, kinds)
    }

    /// Takes the ledger apart. Refuses unless no flight is out, all shares are returned, everything
    /// that callers have seen is settled, and the shares noted exactly the steps accepted since the
    /// engine was created, with the kinds of their replies. Also returns the authority of the history,
    /// which has written the settled steps. Allocates nothing.
    pub fn close(
        self,
        shares: Vec<Share<L>>,
        seen: &Seen,
    ) -> Result<(Closed<D>, LogAuthority), (CloseFault, Self, Vec<Share<L>>)>
        requires { L.parts ≡ 65536 }
        ensures may { IfOk result (λ left. MayClose self shares.items) }
        ensures since { IfOk result (λ left.
            IsSince L.base L.before shares.items left.0.base left.0.trail.items) }
        ensures store { IfOk result (λ left. (self.ledger.disk ≡ Some left.0.store.disk) ×
            (left.0.store.world ≡ settled_world self.ledger.log) ×
            (has_stopped left.0.store ≡ is_some self.ledger.log.doubt)) }
        ensures log { IfOk result (λ left. (left.0.base ≡ self.ledger.log.base) ×
            (left.0.trail.items ≡ self.ledger.log.trail) ×
            (left.0.settled ≡ settled_count self.ledger.log)) }
        ensures along { IfOk result (λ left.
            StaysAlong D.model L.disk L.base left.0.trail.items left.0.store.disk) }
        ensures written { IfOk result (λ left.
            HasReadSettled L.history L.earlier (settled_steps self.ledger.log) left.1) }
        ensures seen { IfOk result (λ left. seen.now ≤ left.0.settled) }
        ensures refused { IfErr result (λ refused.
            RefusesClosing self shares.items seen.now refused.0) }
        ensures back { IfErr result (λ refused. (refused.1 ≡ self) ×
            (refused.2.items ≡ shares.items)) }
    {
        if self.ledger.is_out() {
            return Err((CloseFault::FlightOut, self, shares));
        }
        if shares.len() != self.given as usize {
            return Err((CloseFault::SharesMissing, self, shares));
        }
        if !seen.is_within(self.ledger.settled_count()) {
            return Err((CloseFault::NotSettled, self, shares));
        }
        if !self.are_noted(&shares) {
            return Err((CloseFault::NotNamed, self, shares));
        }
        let Guarded {
            alloc: _,
            ledger,
            book,
            writer,
            rest,
            given: _,
            start: _,
            finishing: _,
            in_hand: _,
            awaited: _,
        } = self;
        gather(book, rest, shares);
        ledger.lemma_log_is_consistent();
        Ok((left_of(ledger), writer))
    }

    /// Takes the ledger apart, whatever the shares noted, and also returns the authority of the
    /// history. Allocates nothing.
    fn abandon(self) -> (Closed<D>, LogAuthority)
        requires home { is_none self.ledger.disk ≡ false }
        ensures store { (self.ledger.disk ≡ Some result.0.store.disk) ×
            (result.0.store.world ≡ settled_world self.ledger.log) ×
            (has_stopped result.0.store ≡ is_some self.ledger.log.doubt) }
        ensures log { (result.0.base ≡ self.ledger.log.base) ×
            (result.0.trail.items ≡ self.ledger.log.trail) ×
            (result.0.settled ≡ settled_count self.ledger.log) }
        ensures along { StaysAlong D.model L.disk L.base result.0.trail.items result.0.store.disk }
        ensures written { HasReadSettled L.history L.earlier (settled_steps self.ledger.log) result.1 }
    {
        let Guarded {
            alloc: _,
            ledger,
            book: _,
            writer,
            rest: _,
            given: _,
            start: _,
            finishing: _,
            in_hand: _,
            awaited: _,
        } = self;
        ledger.lemma_log_is_consistent();
        (left_of(ledger), writer)
    }

    /// Takes the ledger apart, whether or not it can be closed, unless a flight is out. If `close`
    /// would refuse these shares, the result has the reason. Allocates nothing.
    pub fn retire(
        self,
        shares: Vec<Share<L>>,
        seen: &Seen,
    ) -> Result<Retired<D>, (Self, Vec<Share<L>>)>
        requires { L.parts ≡ 65536 }
        ensures left { IfOk result (λ left. IsLeftOf left.closed.store left.closed.base
            left.closed.trail.items left.closed.settled self) }
        ensures closed { IfOk result (λ left. IfNone left.refused (MayClose self shares.items)) }
        ensures refused { IfOk result (λ left.
            IfSome left.refused (RefusesClosing self shares.items seen.now)) }
        ensures since { IfOk result (λ left. IfNone left.refused
            (IsSince L.base L.before shares.items left.closed.base left.closed.trail.items)) }
        ensures seen { IfOk result (λ left. IfNone left.refused (seen.now ≤ left.closed.settled)) }
        ensures along { IfOk result (λ left.
            StaysAlong D.model L.disk L.base left.closed.trail.items left.closed.store.disk) }
        ensures written { IfOk result (λ left.
            HasReadSettled L.history L.earlier (settled_steps self.ledger.log) left.writer) }
        ensures out { IfErr result (λ back. (back.0 ≡ self) × (back.1.items ≡ shares.items) ×
            (is_none self.ledger.disk ≡ true)) }
    {
        if self.ledger.is_out() {
            return Err((self, shares));
        }
        match self.close(shares, seen) {
            Ok((closed, writer)) => Ok(Retired {
                closed,
                writer,
                refused: None,
            }),
            Err((fault, guarded, shares)) => {
                drop(shares);
                let (closed, writer) = guarded.abandon();
                Ok(Retired {
                    closed,
                    writer,
                    refused: Some(fault),
                })
            }
        }
    }
}
