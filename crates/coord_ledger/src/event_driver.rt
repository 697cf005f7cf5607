//! Runs of events, with a driver of a ledger in one thread.

ghost use Rattle.std.specs.Prelude.{◌≡◌, ◌+◌, ℕ, IfErr, IfOk, MatchResult, None, Some, length, take};
ghost use Rattle.std.specs.Option.{option_map};
ghost use Rattle.coord_ledger.specs.Facade.{Completed, EndedEarly, HasCauseToEnd, HasFailed, Promised, failed_in_run, failed_until, started};

mod broken;
mod crashes;
mod ending;
mod events;
mod released;
mod run;

use crate::{Driver, Event, Ledger, RunFault, Seen, Trace};
use coord_disk::{CrashDisk, Disk};
use run::Run;
use std::alloc::Global;

/// Runs events on a ledger in one thread, and returns an answer to each event, all releases, and
/// the ledger. Tickets are numbered from 0 in the order in which the steps were submitted. A crash
/// drops the tickets, the flight and the views, crashes the disk and opens it again. At the end, a
/// flight that is out is taken back, and its releases are lost.
///
/// The main theorem: stop the run at any point, before, within or after any write. Whatever the disk
/// then holds, opening it gives the world after a prefix of the accepted steps, none skipped and none
/// in part. That prefix includes every step whose reply, packet or signal had been released, and every
/// link predicate holds in that world.
///
/// This holds at each moment of the run, between two events and inside each event. `EachMoment`
/// states the effect of the run on its disk, event by event: each event begins with the disk that
/// the previous event left, and the last event leaves the disk of the returned ledger.
///
/// A fault names the event at which the run ended. It has the answers to the earlier events, and
/// all releases up to the end. The ledger, its flight and its tickets are dropped. The disk is
/// returned as the earlier events left it. If the run ended in a crash, the disk is returned as the
/// opening after the crash left it (`EndedEarly`).
pub fn run_events<D: CrashDisk>(
    alloc: Global,
    ledger: Ledger<D>,
    events: &[Event],
) -> Result<(Trace, Ledger<D>), (RunFault, D)>
    requires home { ledger.out ≡ None }

    // For a run with all its answers: the main theorem, and the remaining ledger.
    ensures ran { IfOk result (λ r. (before : D) → (after : D) → ledger.disk ≡ Some before →
        r.1.disk ≡ Some after
        → Promised (D.model.keeps_model before) events.now (Completed D.model D.crashes
        (started ledger) events.now r.0.answers.items r.0.released.items r.1
        (D.model.keeps_model after) before after)) }
    ensures at_home { IfOk result (λ r. r.1.out ≡ None) }
    ensures same_model { IfOk result (λ r. option_map D.model.keeps_model r.1.disk ≡
        option_map D.model.keeps_model ledger.disk) }

    // For a run that ended early.
    ensures broke { IfErr result (λ r. (before : D) → ledger.disk ≡ Some before
        → Promised (D.model.keeps_model before) events.now (EndedEarly D.model D.crashes
        (started ledger) events.now r.0.at r.0.trace.answers.items r.0.trace.released.items r.0.kind
        (D.model.keeps_model before) before r.1)) }
    ensures cause { IfErr result (λ r. (before : D) → ledger.disk ≡ Some before →
        HasCauseToEnd (D.model.keeps_model before) events.now r.0.at r.0.trace.released.items r.0.kind) }

    // On any disk: the number of answers, and the number of device failures.
    ensures answers { MatchResult result (λ r. length r.0.answers.items ≡ length events.now) (λ r.
        length r.0.trace.answers.items ≡ r.0.at) }
    ensures failures { (n : ℕ) → HasFailed D.model.failures ledger.disk n
        → MatchResult result (λ r.
        HasFailed D.model.failures r.1.disk (n + failed_until events.now r.0.answers.items)) (λ r.
        D.model.failures r.1 ≡ (n + failed_until (take r.0.at events.now) r.0.trace.answers.items) +
        failed_in_run r.0.kind) }
{
    let driver = Driver::over(ledger);
    driver.lemma_begins();
    let mut held = Run {
        driver,
        tickets: Vec::new(alloc),
        seen: Seen::new(),
        released: Vec::new(alloc),
    };
    let mut answers = Vec::new(alloc);
    if answers.reserve(events.len()).is_err() {
        return Err(held.lose().at(0, answers));
    }
    for (at, event) in events.iter().enumerate() {
        match held.meet(alloc, *event) {
            Ok((answer, next)) => {
                next.driver.lemma_survives();
                answers.push_reserved(answer);
                held = next;
            }
            Err(broken) => return Err(broken.at(at, answers)),
        }
    }
    match held.end() {
        Ok((released, ledger)) => Ok((Trace { answers, released }, ledger)),
        Err(broken) => Err(broken.at(events.len(), answers)),
    }
}
