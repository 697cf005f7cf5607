//! Submits steps.

ghost use Rattle.std.specs.Prelude.{◌≡◌, ◌++◌, OnOk, IfOk, IfErr, string_bytes};
ghost use Rattle.coord_ledger.specs.Facade.{IsGranted, reply_of, settled_count};
ghost use Rattle.coord_drill.specs.Answered.{kept_line};
ghost use Rattle.coord_drill.specs.Faults.{IsOfMemory};
ghost use Rattle.coord_drill.specs.Holding.{IsReadyDrill, Reports};
ghost use Rattle.coord_drill.specs.Moments.{CarriesIf, CutsIf, Hands};
ghost use Rattle.coord_drill.specs.declared.asked.Asked.TheVariants as ask;

use super::Drill;
use crate::fault::Fault;
use crate::print::{print_pending, print_refusal, print_reply};
use coord_disk::{CrashDisk, Disk};
use coord_ledger::{Driver, Handed, Ledger, Ticket};
use coord_types::{Refusal, Step};
use std::alloc::AllocError;

impl<D: CrashDisk> Drill<D> {
    /// Submits a step. An accepted step is settled at once, unless steps are held.
    pub(super) fn submit(self, step: Step, text: &mut String) -> Result<Self, (Fault, D)>
        requires ready { IsReadyDrill self }
        ensures ready { IfOk result IsReadyDrill }
        ensures reported { IfOk result (λ drill. Reports (string_bytes text.old) (string_bytes text.new)
            (λ reported. CarriesIf D.model D.crashes self (ask.Submit step) reported drill)) }
        ensures cut { IfErr result (CutsIf D.model D.crashes (ask.Submit step) self) }
        ensures fault { IfErr result (λ refused. IsOfMemory refused.0) }
    {
        let mut drill = self;
        drill.driver.lemma_begins();
        drill.driver.lemma_survives();
        if drill.tickets.reserve(1).is_err() {
            return Err(drill.lost());
        }
        match hand_in(&mut drill.driver, step) {
            Ok(Handed::Accepted(ticket)) => {
                let number = ticket.step();
                drill.tickets.push_back_reserved(ticket);
                drill.has_begun = true;
                if !drill.holds {
                    return drill.fly(text);
                }
                match print_pending(text, number) {
                    Ok(()) => Ok(drill),
                    Err(_) => Err(drill.lost()),
                }
            }
            Ok(Handed::Repeated(ticket)) => {
                match print_kept(drill.driver.ledger(), ticket, text) {
                    Ok(()) => Ok(drill),
                    Err(_) => Err(drill.lost()),
                }
            }
            Err(Refusal::OutOfMemory) => Err(drill.lost()),
            Err(refusal) => match print_refusal(text, refusal) {
                Ok(()) => Ok(drill),
                Err(_) => Err(drill.lost()),
            },
        }
    }
}

/// Submits a step to a driver.
fn hand_in<D: CrashDisk>(driver: &mut Driver<D>, step: Step) -> Result<Handed, Refusal>
    ensures { Hands D.model D.crashes driver.old step result driver.new }
{
    driver.lemma_survives();
    let handed = driver.submit(step);
    driver.lemma_survives();
    step.lemma_in_range();
    handed
}

/// Prints the answer to a repeat: the kept reply if its step is settled, otherwise the line for a
/// pending step.
fn print_kept<D: CrashDisk>(
    ledger: &Ledger<D>,
    ticket: Ticket,
    text: &mut String,
) -> Result<(), AllocError>
    requires { IsGranted ledger.now.log ticket }
    ensures { OnOk result (string_bytes text.new ≡
        string_bytes text.old ++ kept_line (settled_count ledger.now.log) (reply_of ticket)) }
{
    match ledger.collect(ticket) {
        Ok(reply) => print_reply(text, reply),
        Err(ticket) => {
            let step = ticket.step();
            ticket.forget();
            print_pending(text, step)
        }
    }
}
