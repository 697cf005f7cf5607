//! The engine: a value under a lock, and the conditions on which callers and flushers wait.

ghost use Rattle.std.specs.Prelude.{◌≡◌, ◌<◌, ◌≤◌, [], length, Err, None, Ok, Some, IfErr, IfNone, IfOk, IfSome, MatchResult};
ghost use Rattle.std.specs.Sync.Mutex.{mutex_guard_value};
ghost use Rattle.coord_ledger.specs.ledger.Calls.{releases_in};
ghost use Rattle.coord_engine.specs.Calls.{IsReturnedToTicket};
ghost use Rattle.coord_engine.specs.Closing.{IsSince, RefusesClosing};
ghost use Rattle.coord_engine.specs.Flights.{AnswersBegin, AnswersFlush, ComesBack};
ghost use Rattle.coord_engine.specs.MonotoneLog.{StartsWith};
ghost use Rattle.coord_engine.specs.Past.{IsPastOf, StaysAlong};
ghost use Rattle.coord_engine.specs.Released.{HasReadSettled, first_settled};
ghost use Rattle.coord_engine.specs.State.{based_on, most_shares};
ghost use Rattle.coord_engine.specs.Threads.{AnswersShow, AnswersTicket, AtSomeMoment, Closes, Retires, SendsAgain, Submits};

use crate::flushing::rest;
use crate::{
    CloseFault, Closed, Collected, Guarded, LogAuthority, LogPrefix, MonotoneLog, Origin,
    OwnFlight, Released, Retired, Share,
};
use coord_disk::Disk;
use coord_ledger::{Ledger, Seen, Ticket};
use coord_store::CommitFault;
use coord_types::{Refusal, Reply, Step};
use coord_view::View;
use std::alloc::{AllocError, Global};
use std::sync::ledger::Blank;
use std::sync::{Condvar, Mutex, MutexGuard, Wait};
use std::time::Clock;

/// Returns the result of a flush, given the result of its commit and the releases of the returned
/// flight. A flight that was not settled has no releases.
fn answer_of<L: Origin>(
    committed: Result<(), CommitFault>,
    releases: Released<L>,
) -> Result<Option<Released<L>>, CommitFault>
    ensures { MatchResult committed (λ _. result ≡ Ok (Some releases)) (λ fault. result ≡ Err fault) }
{
    match committed {
        Ok(()) => Ok(Some(releases)),
        Err(fault) => {
            releases.lose_rest();
            Err(fault)
        }
    }
}

/// A ledger that threads share. Every call but `collect`, `flush_once` and `close` takes the lock
/// once.
#[derive(Drop)]
pub struct Engine<D: Disk, L: Origin> {
    pub(crate) guarded: Mutex<Guarded<D, L>>,
    /// The history. The value under the lock writes it, and flights read it.
    pub(crate) history: MonotoneLog,
    /// The condition on which callers wait for their replies.
    pub(crate) changed: Condvar,
    /// The condition on which flushers wait for steps.
    pub(crate) work: Condvar,
    ghost here: { history ≡ L.history },
}

impl<D: Disk, L: Origin> Engine<D, L> {
    /// Makes an engine over a ledger that has no flight out. `L` names the history, which has the steps
    /// of earlier instances, and the ledger's base, accepted steps and disk. The blank has 65,536
    /// parts. No clause can describe the value under a lock. So the contract of `Guarded::new` states
    /// the promises, and `close` states its result in terms of `L`.
    pub fn new(
        alloc: Global,
        blank: Blank,
        history: MonotoneLog,
        writer: LogAuthority,
        ledger: Ledger<D>,
    ) -> Self
        requires name { blank.name ≡ L.name }
        requires parts { (blank.parts ≡ L.parts) × (L.parts ≡ 65536) }
        requires here { history ≡ L.history }
        requires earlier { writer ≡ record { history = L.history; steps = L.earlier } }
        requires home { ledger.out ≡ None }
        requires base { ledger.log.base ≡ L.base }
        requires before { ledger.log.trail ≡ L.before }
        requires disk { IfSome ledger.disk (IsPastOf D.model L.disk) }
    {
        let guarded = Guarded::new(alloc, blank, &history, writer, ledger);
        Engine {
            guarded: Mutex::new(guarded),
            history,
            changed: Condvar::new(),
            work: Condvar::new(),
        }
    }

    /// Returns a share without notes, or None if all 65,535 shares are taken.
    pub fn share<R: Wait>(&self, rt: &R) -> Option<Share<L>>
        ensures given { IfSome result (λ share. (share ≡ []) ×
            AtSomeMoment (based_on D.model L.base L.before) (λ g. g.given < most_shares)) }
        ensures none { IfNone result (AtSomeMoment
            (based_on D.model L.base L.before) (λ g. g.given ≡ most_shares)) }
    {
        let mut guarded = self.guarded.lock(rt);
        guarded.keeps();
        guarded.share()
    }

    /// Accepts a step, like `Ledger::submit`, and appends its note to the caller's share. A repeat is
    /// not noted. A finishing engine refuses every step as `Stopped`.
    pub fn submit<R: Wait>(
        &self,
        rt: &R,
        step: Step,
        mine: &mut Share<L>,
    ) -> Result<Ticket, Refusal>
        ensures { AtSomeMoment (based_on D.model L.base L.before)
            (Submits {D = D} step result mine.old mine.new) }
    {
        let mut lock = self.lock_for_change(rt);
        lock.guarded.keeps();
        let answer = lock.guarded.submit(step, mine);
        lock.unlock();
        answer
    }

    /// Accepts a step, like `submit`, but does not wake the flusher. A caller that posts several steps
    /// wakes the flusher after the last one, so that one flight takes all of them.
    pub fn post<R: Wait>(&self, rt: &R, step: Step, mine: &mut Share<L>) -> Result<Ticket, Refusal>
        ensures { AtSomeMoment (based_on D.model L.base L.before)
            (Submits {D = D} step result mine.old mine.new) }
    {
        let mut guarded = self.guarded.lock(rt);
        guarded.keeps();
        guarded.submit(step, mine)
    }

    /// Wakes a flusher that waits for steps, if something can be flushed. No clause can state that a
    /// thread wakes.
    pub fn wake_flusher<R: Wait>(&self, rt: &R) {
        if !self.guarded.lock(rt).is_idle() {
            self.work.notify_all();
        }
    }

    /// Waits until the ticket's step is settled, and returns its reply. Refuses a ticket of another
    /// ledger as `Stranger`, and a ticket whose step will never be settled as `Stopped`; both refusals
    /// return the ticket. The reader's token reads on: the answer holds in a state whose settled steps
    /// the token has read.
    pub fn collect<R: Wait>(
        &self,
        rt: &R,
        ticket: Ticket,
        reader: &mut LogPrefix,
    ) -> Result<Reply, (Refusal, Ticket)>
        requires { reader.old.history ≡ L.history }
        ensures answered { AnswersTicket (based_on D.model L.base L.before)
            L.history L.earlier reader.new ticket result }
        ensures begins { StartsWith reader.new.steps reader.old.steps }
    {
        let (mut guarded, answer) = self.lock_to_answer(rt, ticket);
        guarded.keeps();
        guarded.read_on(&self.history, reader);
        answer
    }

    /// Waits until a ticket can be answered, and returns the lock with the answer. If the answer is a
    /// reply, the ticket's step is settled in the ledger under the lock.
    fn lock_to_answer<'g, R: Wait>(
        &'g self,
        rt: &R,
        ticket: Ticket,
    ) -> (
        MutexGuard<'g, Guarded<D, L>>,
        Result<Reply, (Refusal, Ticket)>,
    )
        ensures { IsReturnedToTicket (mutex_guard_value result.0).ledger ticket result.1 }
    {
        let mut waiting = ticket;
        let mut guarded = self.guarded.lock(rt);
        for _ in rt.forever() {
            match guarded.collect(waiting) {
                Collected::Settled(reply) => return (guarded, Ok(reply)),
                Collected::Refused(refusal, back) => return (guarded, Err((refusal, back))),
                Collected::Waiting(back) => waiting = back,
            }
            guarded = self.changed.wait(rt, guarded);
        }
        unreachable!()
    }

    /// Returns a view of the settled world, unless the caller has seen a later world. The reader's
    /// token reads on: the view shows the world after exactly the settled steps that the token has then
    /// read.
    pub fn show<R: Wait>(
        &self,
        rt: &R,
        seen: &mut Seen,
        reader: &mut LogPrefix,
    ) -> Result<View, Refusal>
        requires { reader.old.history ≡ L.history }
        ensures answered { AnswersShow (based_on D.model L.base L.before)
            L.history L.earlier reader.new result seen.old seen.new }
        ensures begins { StartsWith reader.new.steps reader.old.steps }
    {
        let mut guarded = self.guarded.lock(rt);
        guarded.keeps();
        guarded.read_on(&self.history, reader);
        guarded.ledger().show(seen)
    }

    /// Returns the number of steps in the trail: the steps that the ledger had accepted when the engine
    /// was created, and all steps accepted since.
    pub fn kept<R: Wait>(&self, rt: &R) -> usize
        ensures { AtSomeMoment (based_on D.model L.base L.before) (λ g. result ≡
            length g.ledger.log.trail) }
    {
        let guarded = self.guarded.lock(rt);
        guarded.keeps();
        guarded.ledger().trail().len()
    }

    /// Returns the packets to be sent again because they may have been lost. Their step number is 0.
    /// Errors: out of memory.
    pub fn resend<R: Wait>(&self, rt: &R) -> Result<Released<L>, AllocError>
        ensures { IfOk result (λ releases. AtSomeMoment (based_on D.model L.base L.before)
            (SendsAgain {D = D} releases)) }
    {
        let mut guarded = self.guarded.lock(rt);
        guarded.keeps();
        guarded.resend(&self.history)
    }

    /// Sends a flight out under the lock, commits it outside the lock, and takes it back under the
    /// lock. Returns None if nothing is pending, a flight is already out, or the ledger has stopped.
    ///
    /// After `OutOfMemory` the caller may try again. After `Device` the ledger has stopped.
    pub fn flush_once<R: Wait + Clock>(&self, rt: &R) -> Result<Option<Released<L>>, CommitFault>
        ensures { AnswersFlush (based_on D.model L.base L.before) result }
    {
        let mut flight = match self.begin(rt) {
            Ok(Some(flight)) => flight,
            Ok(None) => return Ok(None),
            Err(_) => return Err(CommitFault::OutOfMemory),
        };
        let committed = flight.commit();
        let releases = self.end(rt, flight);
        answer_of(committed, releases)
    }

    /// Sends the next flight out, or returns None if no flight can leave. Errors: out of memory.
    pub(crate) fn begin<R: Wait>(&self, rt: &R) -> Result<Option<OwnFlight<D, L>>, AllocError>
        ensures { AnswersBegin (based_on D.model L.base L.before) result }
    {
        let mut guarded = self.guarded.lock(rt);
        guarded.count_leaving();
        guarded.keeps();
        guarded.begin(&self.history)
    }

    /// Takes a flight back, whether committed or not, and wakes all waiting threads. If memory runs
    /// out, it pauses and tries again.
    pub(crate) fn end<R: Wait + Clock>(&self, rt: &R, flight: OwnFlight<D, L>) -> Released<L>
        ensures released { result ≡ releases_in flight flight.mark }
        ensures back { AtSomeMoment (based_on D.model L.base L.before) (ComesBack flight) }
    {
        let mut out = flight;
        for _ in rt.forever() {
            let mut guarded = self.guarded.lock(rt);
            match guarded.end(&self.history, out) {
                Ok((releases, due)) => {
                    guarded.keeps();
                    guarded.await_callers();
                    drop(guarded);
                    due.wake_all(&self.changed, &self.work);
                    return releases;
                }
                Err((_, back)) => out = back,
            }
            drop(guarded);
            rest(rt);
        }
        unreachable!()
    }

    /// Stops accepting steps. Pending steps are still settled. No clause can describe the effect of a
    /// call under a lock; the contract of `Guarded::finish` describes it.
    pub fn finish<R: Wait>(&self, rt: &R) {
        let due = self.guarded.lock(rt).finish();
        due.wake_all(&self.changed, &self.work);
    }

    /// Takes the engine apart. Refuses unless no flight is out, all shares are returned, everything
    /// that callers have seen is settled, and the shares' notes are exactly the steps accepted since
    /// the engine was created. The result has the base of the ledger over which the engine was created,
    /// and a trail that begins with that ledger's trail. A crash at any moment since the engine was
    /// created has left only worlds after a prefix of the returned trail. The authority of the history
    /// is returned too: it has written the steps of earlier instances and then the settled steps of the
    /// trail. Allocates nothing.
    pub fn close(
        self,
        shares: Vec<Share<L>>,
        seen: &Seen,
    ) -> Result<(Closed<D>, LogAuthority), (CloseFault, Self, Vec<Share<L>>)>
        requires { L.parts ≡ 65536 }
        ensures since { IfOk result (λ left.
            IsSince L.base L.before shares.items left.0.base left.0.trail.items) }
        ensures along { IfOk result (λ left.
            StaysAlong D.model L.disk L.base left.0.trail.items left.0.store.disk) }
        ensures written { IfOk result (λ left. HasReadSettled L.history L.earlier
            (first_settled left.0.base left.0.trail.items left.0.settled) left.1) }
        ensures closed { IfOk result (λ left. AtSomeMoment (based_on D.model L.base L.before)
            (Closes left.0.store left.0.base left.0.trail.items left.0.settled shares.items)) }
        ensures seen { IfOk result (λ left. seen.now ≤ left.0.settled) }
        ensures refused { IfErr result (λ refused.
            AtSomeMoment (based_on D.model L.base L.before) (λ g.
            RefusesClosing g shares.items seen.now refused.0)) }
        ensures back { IfErr result (λ refused. refused.2.items ≡ shares.items) }
    {
        let Engine {
            guarded,
            history,
            changed,
            work,
        } = self;
        let guarded = guarded.into_inner();
        guarded.keeps();
        match guarded.close(shares, seen) {
            Ok(left) => Ok(left),
            Err((fault, guarded, shares)) => Err((
                fault,
                Engine {
                    guarded: Mutex::new(guarded),
                    history,
                    changed,
                    work,
                },
                shares,
            )),
        }
    }

    /// Takes the engine apart, whether or not it can be closed. If `close` would refuse these shares,
    /// the result has the reason, and it is unknown which caller submitted which step. The promises of
    /// `close` about the disk and about the authority of the history hold in either case. A flight that
    /// is out would be awaited forever, but no call of this crate leaves a flight out. Allocates
    /// nothing.
    pub fn retire<R: Wait + Clock>(self, rt: &R, shares: Vec<Share<L>>, seen: &Seen) -> Retired<D>
        requires { L.parts ≡ 65536 }
        ensures left { AtSomeMoment (based_on D.model L.base L.before)
            (Retires result.closed.store result.closed.base result.closed.trail.items
            result.closed.settled result.refused shares.items seen.now) }
        ensures since { IfNone result.refused
            (IsSince L.base L.before shares.items result.closed.base result.closed.trail.items) }
        ensures seen { IfNone result.refused (seen.now ≤ result.closed.settled) }
        ensures along { StaysAlong D.model L.disk L.base
            result.closed.trail.items result.closed.store.disk }
        ensures written { HasReadSettled L.history L.earlier
            (first_settled result.closed.base result.closed.trail.items result.closed.settled)
            result.writer }
    {
        let Engine {
            guarded,
            history,
            changed: _,
            work: _,
        } = self;
        drop(history);
        let mut guarded = guarded.into_inner();
        let mut shares = shares;
        for _ in rt.forever() {
            guarded.keeps();
            match guarded.retire(shares, seen) {
                Ok(left) => return left,
                Err((back, all)) => {
                    guarded = back;
                    shares = all;
                }
            }
            rest(rt);
        }
        unreachable!()
    }
}
