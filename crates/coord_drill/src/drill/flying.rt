//! Settles pending steps in flights, and prints the outputs of these steps.

ghost use Rattle.std.specs.Prelude.{◌≡◌, ◌≤◌, ◌-◌, ◌∷◌, ◌++◌, ℕ, List, [], None, Some, OnOk, IfOk, IfSome, IfNone, string_bytes, IfErr};
ghost use Rattle.std.specs.List.{AllByRecursion};
ghost use Rattle.coord_ledger.specs.declared.events.Answer.TheVariants.{Finished};
ghost use Rattle.coord_ledger.specs.declared.events.Event.TheVariants.{Finish};
ghost use Rattle.coord_ledger.specs.declared.release.Release.{Release as Row};
ghost use Rattle.coord_ledger.specs.Facade.{IsGranted, disk_held, next_size, reply_of, settled_count, settled_world, settling_releases};
ghost use Rattle.coord_drill.specs.Drill.{flight_events, landing_events};
ghost use Rattle.coord_drill.specs.Faults.{IsOfMemory};
ghost use Rattle.coord_drill.specs.Holding.{AreGranted, FlownTo, IsReadyDrill, Lands, Reports, after_step, collected_lines, flown_answers, flown_lines, landed_answers, left, left_by, released_lines, waiting};
ghost use Rattle.coord_drill.specs.Moments.{CarriesIf, CutsIf, Flies, GoesBy, Leads, LeadsPart};
ghost use Rattle.coord_drill.specs.declared.asked.Asked.TheVariants as ask;
ghost use Rattle.coord_drill.specs.declared.fault.Fault.TheVariants.{OutOfMemory};

use super::{Drill, forget};
use crate::fault::Fault;
use crate::print::{print_commit_fault, print_count, print_output, print_reply};
use coord_disk::{CrashDisk, Disk};
use coord_ledger::{Answer, Driver, Ledger, Release, Releases, Ticket};
use coord_store::CommitFault;
use coord_types::{Reply, Version};
use std::alloc::AllocError;
use std::collections::VecDeque;

/// The result of a flight.
enum Flown {
    /// No flight left.
    Nothing,
    /// The steps of the flight are settled.
    Settled(Releases),
    /// The flight was not committed.
    Failed(CommitFault),
}

/// The result of a flight, and the driver after it, which has no flight out.
struct Landing<D: CrashDisk> {
    flown: Flown,
    driver: Driver<D>,
}

impl<D: CrashDisk> Drill<D> {
    /// Settles pending steps in one flight, and prints the number of settled steps.
    pub(super) fn flush(self, text: &mut String) -> Result<Self, (Fault, D)>
        requires ready { IsReadyDrill self }
        ensures ready { IfOk result IsReadyDrill }
        ensures reported { IfOk result (λ drill. Reports (string_bytes text.old) (string_bytes text.new)
            (λ reported. CarriesIf D.model D.crashes self ask.Flush reported drill)) }
        ensures cut { IfErr result (CutsIf D.model D.crashes ask.Flush self) }
        ensures fault { IfErr result (λ refused. IsOfMemory refused.0) }
    {
        self.driver.lemma_begins();
        let drill = self.fly(text)?;
        match print_count(text, drill.driver.ledger().settled().count()) {
            Ok(()) => Ok(drill),
            Err(_) => Err(drill.lost()),
        }
    }

    /// Settles the next pending steps in one flight, if a flight may leave. Prints the outputs of these
    /// steps, or the fault of the commit.
    pub(super) fn fly(self, text: &mut String) -> Result<Self, (Fault, D)>
        requires ready { IsReadyDrill self }
        ensures ready { IfOk result IsReadyDrill }
        ensures reported { IfOk result (λ drill. Reports (string_bytes text.old) (string_bytes text.new)
            (λ reported. Flies D.model D.crashes self reported drill)) }
        ensures cut { IfErr result (λ refused.
            LeadsPart D.model D.crashes self.driver flight_events refused.1) }
        ensures fault { IfErr result (λ refused. IsOfMemory refused.0) }
    {
        let Drill {
            alloc,
            driver,
            mut tickets,
            holds,
            has_begun,
        } = self;
        driver.lemma_begins();
        let Landing { flown, driver } = match send_out(driver) {
            Ok(landing) => landing,
            Err(refused) => {
                forget(tickets);
                return Err(refused);
            }
        };
        let printed = print_flown(driver.ledger(), &mut tickets, flown, text);
        let drill = Drill {
            alloc,
            driver,
            tickets,
            holds,
            has_begun,
        };
        match printed {
            Ok(()) => Ok(drill),
            Err(_) => Err(drill.lost()),
        }
    }
}

/// Prints the result of a flight: the outputs of its steps, or the fault of the commit.
fn print_flown<D: CrashDisk>(
    ledger: &Ledger<D>,
    tickets: &mut VecDeque<Ticket>,
    flown: Flown,
    text: &mut String,
) -> Result<(), AllocError>
    requires granted { AreGranted ledger.now.log flown tickets.old.items }
    ensures printed { OnOk result (string_bytes text.new ≡ string_bytes text.old ++ flown_lines
        (settled_world ledger.now.log) flown tickets.old.items) }
    ensures left { OnOk result (tickets.new.items ≡
        left_by (settled_world ledger.now.log) flown tickets.old.items) }
{
    match flown {
        Flown::Nothing => Ok(()),
        Flown::Settled(releases) => print_settled(ledger, tickets, releases, text),
        Flown::Failed(fault) => print_commit_fault(text, fault),
    }
}

/// Sends the next steps out, commits them, and takes the flight back. If memory runs out, returns the
/// disk.
fn send_out<D: CrashDisk>(mut driver: Driver<D>) -> Result<Landing<D>, (Fault, D)>
    requires home { driver.flight ≡ None }
    ensures flown { IfOk result (λ r. FlownTo driver.ledger.log r.flown r.driver.ledger.log) }
    ensures moments { IfOk result (λ r. GoesBy D.model D.crashes driver
        (flown_answers r.flown (next_size driver.ledger.log) (settled_count r.driver.ledger.log))
        r.driver) }
    ensures cut { IfErr result (λ refused.
        LeadsPart D.model D.crashes driver flight_events refused.1) }
    ensures fault { IfErr result (λ refused. IsOfMemory refused.0) }
{
    driver.lemma_begins();
    driver.lemma_survives();
    let begun = driver.begin();
    driver.lemma_survives();
    match begun {
        Answer::Begun(_) => land(driver),
        Answer::Nothing => Ok(Landing {
            flown: Flown::Nothing,
            driver,
        }),
        _ => Err(lost(driver)),
    }
}

/// Commits the flight that is out, and takes it back.
fn land<D: CrashDisk>(mut driver: Driver<D>) -> Result<Landing<D>, (Fault, D)>
    ensures lands { IfOk result (λ r. Lands driver.ledger.log r.flown r.driver.ledger.log) }
    ensures moments { IfOk result (λ r. Leads D.model D.crashes driver landing_events
        (landed_answers r.flown (settled_count r.driver.ledger.log)) r.driver) }
    ensures cut { IfErr result (λ refused.
        LeadsPart D.model D.crashes driver (λ _. landing_events) refused.1) }
    ensures fault { IfErr result (λ refused. IsOfMemory refused.0) }
{
    driver.lemma_survives();
    let answer = driver.commit();
    driver.lemma_survives();
    let (releases, driver) = take_back(driver)?;
    match answer {
        Answer::Committed => Ok(Landing {
            flown: Flown::Settled(releases),
            driver,
        }),
        Answer::Failed(fault) => {
            releases.lose_rest();
            Ok(Landing {
                flown: Flown::Failed(fault),
                driver,
            })
        }
        _ => {
            releases.lose_rest();
            Err(lost(driver))
        }
    }
}

/// Takes back the flight that is out. If memory for the flight's releases runs out, drops the driver
/// and returns the disk.
fn take_back<D: CrashDisk>(mut driver: Driver<D>) -> Result<(Releases, Driver<D>), (Fault, D)>
    ensures base { IfOk result (λ r. r.1.ledger.log.base ≡ driver.ledger.log.base) }
    ensures released { IfOk result (λ r. r.0 ≡ settling_releases driver.ledger.log
        (r.1.ledger.log.settled - driver.ledger.log.settled)) }
    ensures moments { IfOk result (λ r. Leads D.model D.crashes driver (Finish ∷ [])
        (Finished (settled_count r.1.ledger.log) ∷ []) r.1) }
    ensures disk { IfErr result (λ refused. disk_held driver ≡ Some refused.1) }
    ensures fault { IfErr result (λ refused. IsOfMemory refused.0) }
{
    driver.lemma_survives();
    let landed = driver.finish();
    match landed {
        Ok(Some(releases)) => {
            driver.lemma_survives();
            Ok((releases, driver))
        }
        _ => Err(lost(driver)),
    }
}

/// Drops a driver because memory ran out. Returns its disk and the fault `OutOfMemory`.
fn lost<D: CrashDisk>(driver: Driver<D>) -> (Fault, D)
    ensures fault { result.0 ≡ OutOfMemory }
    ensures disk { disk_held driver ≡ Some result.1 }
{
    (Fault::OutOfMemory, driver.into_disk())
}

/// Collects the replies of the settled steps, and prints each reply before the outputs of its step.
#[tactic(auto, using(crate::proofs::does::Settled::looked_at))]
fn print_settled<D: CrashDisk>(
    ledger: &Ledger<D>,
    tickets: &mut VecDeque<Ticket>,
    mut releases: Releases,
    text: &mut String,
) -> Result<(), AllocError>
    requires granted { AllByRecursion (IsGranted ledger.now.log) tickets.old.items }
    ensures printed { OnOk result (string_bytes text.new ≡ string_bytes text.old ++ collected_lines
        (settled_world ledger.now.log).version
        (settled_world ledger.now.log).count tickets.old.items releases) }
    ensures waiting { OnOk result (tickets.new.items ≡
        waiting (settled_world ledger.now.log).count tickets.old.items) }
{
    let printed = print_collected(ledger, tickets, &mut releases, text);
    releases.lose_rest();
    printed
}

#[tactic(auto, using(crate::proofs::does::Settled::looked_at))]
fn print_collected<D: CrashDisk>(
    ledger: &Ledger<D>,
    tickets: &mut VecDeque<Ticket>,
    releases: &mut Releases,
    text: &mut String,
) -> Result<(), AllocError>
    requires granted { AllByRecursion (IsGranted ledger.now.log) tickets.old.items }
    ensures printed { OnOk result (string_bytes text.new ≡ string_bytes text.old ++ collected_lines
        (settled_world ledger.now.log).version
        (settled_world ledger.now.log).count tickets.old.items releases.old) }
    ensures waiting { OnOk result (tickets.new.items ≡
        waiting (settled_world ledger.now.log).count tickets.old.items) }
{
    let settled = ledger.settled().count();
    let version = ledger.settled().version();
    let mut ahead = releases.next();
    while let Some(ticket) = next_settled(tickets, settled) {
        let reply = collected(ledger, ticket);
        print_reply(text, reply)?;
        print_released(text, version, reply.step, &mut ahead, releases)?;
    }
    Ok(())
}

/// Removes and returns the oldest ticket if its step is settled, that is, if its number is at most
/// `settled`.
fn next_settled(tickets: &mut VecDeque<Ticket>, settled: u64) -> Option<Ticket>
    ensures some { IfSome result (λ ticket. (tickets.old.items ≡ ticket ∷ tickets.new.items) ×
        (ticket.step ≤ settled)) }
    ensures none { IfNone result ((waiting settled tickets.old.items ≡ tickets.old.items) ×
        (tickets.new.items ≡ tickets.old.items)) }
    ensures nothing { IfNone result ((version : ℕ) (releases : List Row) →
        collected_lines version settled tickets.old.items releases ≡ []) }
{
    match tickets.front() {
        Some(ticket) if ticket.step() <= settled => tickets.pop_front(),
        _ => None,
    }
}

/// Returns the reply to a settled step.
#[tactic(auto, using(crate::proofs::does::Settled::collectable))]
fn collected<D: CrashDisk>(ledger: &Ledger<D>, ticket: Ticket) -> Reply
    requires granted { IsGranted ledger.now.log ticket }
    requires settled { ticket.step ≤ (settled_world ledger.now.log).count }
    ensures { result ≡ reply_of ticket }
{
    match ledger.collect(ticket) {
        Ok(reply) => reply,
        Err(ticket) => {
            ticket.forget();
            unreachable!()
        }
    }
}

/// Prints the next releases, as long as they belong to this step.
pub(super) fn print_released(
    text: &mut String,
    version: Version,
    step: u64,
    ahead: &mut Option<Release>,
    releases: &mut Releases,
) -> Result<(), AllocError>
    ensures printed { OnOk result (string_bytes text.new ≡
        string_bytes text.old ++ released_lines version step (left ahead.old releases.old)) }
    ensures rest { OnOk result (left ahead.new releases.new ≡
        after_step step (left ahead.old releases.old)) }
{
    while let Some(release) = *ahead {
        if release.step != step {
            return Ok(());
        }
        print_output(text, version, &release.output)?;
        *ahead = releases.next();
    }
    Ok(())
}
