//! The flusher, which flushes on demand and passes the releases to a port.

ghost use Rattle.std.specs.Prelude.{◌≡◌, false, true, length};
ghost use Rattle.std.specs.Sync.Mutex.{mutex_guard_value};
ghost use Rattle.coord_engine.specs.Flights.{AnswersFlush};
ghost use Rattle.coord_engine.specs.Flushing.{HasFlushed, finds_no_memory};
ghost use Rattle.coord_engine.specs.Pacing.{is_idle, is_over};
ghost use Rattle.coord_engine.specs.Port.{AreAsked, AreHanded, IsAsked, MayAsk, MayAskAll, deliveries_of};
ghost use Rattle.coord_engine.specs.Released.{MayHand, MayPrint};
ghost use Rattle.coord_engine.specs.State.{based_on};
ghost use Rattle.coord_engine.specs.Threads.{AtSomeMoment};

use crate::port::{Delivery, Port};
use crate::{Engine, Guarded, LogPrefix, MonotoneLog, Origin, Released};
use coord_disk::Disk;
use coord_ledger::Releases;
use coord_store::CommitFault;
use std::sync::{MutexGuard, Wait};
use std::time::{Clock, Duration, Instant};
use std::{io, thread};

/// The number of milliseconds that a flight waits for packets in hand.
const TIMEOUT: u64 = 5;

/// A flight waits for returning callers for at most the last flight's time divided by this number.
/// An unnecessary wait costs a sixteenth of a flight; a caller who returns in time saves a whole
/// flight.
const CALLERS_PART: u32 = 16;

/// The number of milliseconds that a flusher pauses after it ran out of memory.
const REST: u64 = 1;

/// Waits for `REST` milliseconds.
pub(crate) fn rest<R: Clock>(rt: &R) {
    thread::sleep(rt, Duration::from_millis(REST));
}

/// Returns how long the next flight waits for callers, after a flight that left at `start`: zero if
/// the clock can't be read.
fn timeout_since<R: Clock>(rt: &R, start: io::Result<Instant>) -> Duration {
    let Ok(start) = start else {
        return Duration::ZERO;
    };
    match start.elapsed(rt) {
        Ok(passed) => passed / CALLERS_PART,
        Err(_) => Duration::ZERO,
    }
}

impl<D: Disk, L: Origin> Engine<D, L> {
    /// Counts packets that are about to be passed to a port. They are counted first because a worker
    /// may handle a packet before the port's call returns.
    fn take_in_hand<R: Wait>(&self, rt: &R, count: u64) {
        self.guarded.lock(rt).raise_in_hand(count);
    }

    /// Subtracts from the count the packets that no port or worker has in hand any more.
    fn let_go<R: Wait>(&self, rt: &R, count: u64) {
        if count == 0 {
            return;
        }
        let mut lock = self.lock_for_change(rt);
        lock.guarded.lower_in_hand(count);
        lock.unlock();
    }

    /// Takes the lock once something can be flushed, or once it is certain that nothing will ever be
    /// flushed.
    fn lock_for_flight<'g, R: Wait>(&'g self, rt: &R) -> MutexGuard<'g, Guarded<D, L>>
        ensures { is_idle (mutex_guard_value result) ≡ false }
    {
        let mut guarded = self.guarded.lock(rt);
        for _ in rt.forever() {
            if !guarded.is_idle() {
                return guarded;
            }
            guarded = self.work.wait(rt, guarded);
        }
        unreachable!()
    }

    /// Waits until a flight can start. Then waits briefly for packets that are being handled and, for
    /// at most `for_callers`, for callers that may order again. Returns false once no flight will ever
    /// start again.
    fn waits_for_flight<R: Wait + Clock>(&self, rt: &R, for_callers: Duration) -> bool
        ensures starts { result ≡ true → AtSomeMoment (based_on D.model L.base L.before) (λ g.
            is_idle g ≡ false) }
        ensures ends { result ≡ false → AtSomeMoment (based_on D.model L.base L.before) (λ g.
            is_over g ≡ true) }
    {
        let guarded = self.lock_for_flight(rt);
        guarded.keeps();
        let (mut guarded, waited) = self
            .work
            .wait_timeout_while(rt, guarded, for_callers, |guarded| {
                !guarded.starts_at_once()
            });
        if waited.timed_out() {
            guarded.forget_awaited();
        }
        let for_packets = Duration::from_millis(TIMEOUT);
        let (mut guarded, waited) = self
            .work
            .wait_timeout_while(rt, guarded, for_packets, |guarded| {
                !guarded.starts_at_once()
            });
        if waited.timed_out() {
            guarded.forget_in_hand();
        }
        guarded.keeps();
        !guarded.is_over()
    }
}

/// Requests a delivery from a port. Returns whether the port now has a packet in hand: false for a
/// signal, and for a packet that the port reports as lost.
fn ask<P: Port>(
    port: &mut P,
    history: &MonotoneLog,
    reader: &mut LogPrefix,
    delivery: Delivery,
) -> bool
    requires here { history.now ≡ reader.old.history }
    requires may { MayAsk (P.may_signal reader.old) delivery }
    ensures asked { IsAsked P.carried P.signalled port.old delivery port.new }
    ensures same { reader.new ≡ reader.old }
{
    match delivery {
        Delivery::Signal(step, node, epoch) => {
            port.signal(reader.another(history), step, node, epoch);
            false
        }
        Delivery::Carry(to, packet) => port.carry(to, packet),
    }
}

/// Requests a delivery from a port for each release, in order. Returns the number of packets that the
/// port now has in hand.
fn ask_for_all<P: Port>(
    port: &mut P,
    history: &MonotoneLog,
    reader: LogPrefix,
    releases: Releases,
) -> u64
    requires here { history.now ≡ reader.history }
    requires may { MayAskAll (P.may_signal reader) releases }
    ensures { AreAsked P.carried P.signalled port.old (deliveries_of releases) port.new }
{
    let mut reader = reader;
    let mut left = releases;
    let count = left.len();
    let mut in_hand = 0u64;
    for _handed in 0..count {
        if let Some(release) = left.next() {
            let delivery = Delivery::of(release.step, release.output);
            let is_in_hand = ask(port, history, &mut reader, delivery);
            in_hand = in_hand.saturating_add(u64::from(is_in_hand));
        }
    }
    left.lose_rest();
    in_hand
}

/// Requests each delivery of these releases from a port, once and in order, and makes the port hand
/// on its packets. Returns the number of releases. Packets that the port reports as lost are not
/// tried again here.
pub fn hand_over<D: Disk, L: Origin, P: Port, R: Wait>(
    rt: &R,
    engine: &Engine<D, L>,
    port: &mut P,
    released: Released<L>,
) -> u64
    requires { MayHand L.history L.earlier L.base P.may_signal released }
    ensures count { result ≡ length released }
    ensures handed { AreHanded P.carried P.signalled P.handed_on port.old (deliveries_of released) port.new }
{
    let count = released.len();
    engine.take_in_hand(rt, count);
    let Released {
        releases,
        reader,
        of: _,
    } = released;
    let in_hand = ask_for_all(port, &engine.history, reader, releases);
    let lost = port.hand_on();
    let carried = in_hand.saturating_sub(lost);
    engine.let_go(rt, count.saturating_sub(carried));
    count
}

/// The outcome of a flusher's last flush: how long the next flight waits for the answered callers,
/// and whether a pause is due because memory ran out.
#[derive(Drop)]
struct Pace {
    timeout: Duration,
    rest_is_due: bool,
}

impl Pace {
    /// Returns the state before the first flush.
    fn at_first() -> Self
        ensures { result.rest_is_due ≡ false }
    {
        Pace {
            timeout: Duration::ZERO,
            rest_is_due: false,
        }
    }

    /// Pauses if a pause is due. Nothing else clears a due pause.
    fn rest<R: Clock>(&mut self, rt: &R)
        ensures { self.new.rest_is_due ≡ false }
    {
        rest(rt);
        self.rest_is_due = false;
    }
}

/// Flushes, and records how the flusher continues. No pause may be due.
fn flush<D: Disk, L: Origin, R: Wait + Clock>(
    rt: &R,
    engine: &Engine<D, L>,
    pace: &mut Pace,
) -> Result<Option<Released<L>>, CommitFault>
    requires { pace.old.rest_is_due ≡ false }
    ensures flushed { AnswersFlush (based_on D.model L.base L.before) result }
    ensures rest { pace.new.rest_is_due ≡ finds_no_memory result }
{
    let start = Instant::now(rt);
    let flushed = engine.flush_once(rt);
    pace.timeout = timeout_since(rt, start);
    pace.rest_is_due = matches!(flushed, Err(CommitFault::OutOfMemory));
    flushed
}

/// Flushes accepted steps as long as flights start, and passes the releases of each flight to the
/// port. Before a flight it waits for two things. Callers that the last flight answered may order
/// again: if they are few, it waits up to a sixteenth of that flight's time. Packets that the last
/// flight released may come back as steps: it waits some milliseconds.
///
/// The port must accept a request for each signal of a settled step. The flusher ends after a fault of
/// the device, and after `Engine::finish` once nothing is pending. If memory runs out, it pauses and
/// tries again.
pub fn flusher<D: Disk, L: Origin, P: Port, R: Wait + Clock>(
    rt: &R,
    engine: &Engine<D, L>,
    port: &mut P,
)
    requires { MayPrint L.history L.earlier L.base P.may_signal }
    ensures { HasFlushed (based_on D.model L.base L.before)
        P.carried P.signalled P.handed_on port.old port.new }
{
    let mut pace = Pace::at_first();
    for _ in rt.forever() {
        if !engine.waits_for_flight(rt, pace.timeout) {
            return;
        }
        match flush(rt, engine, &mut pace) {
            Ok(None) => {}
            Ok(Some(released)) => {
                hand_over(rt, engine, port, released);
            }
            Err(CommitFault::OutOfMemory) => pace.rest(rt),
            Err(_) => return,
        }
    }
}
