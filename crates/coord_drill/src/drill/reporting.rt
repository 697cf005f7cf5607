//! Answers that change nothing: refusals, resent packets, the check, and views.

ghost use Rattle.std.specs.Prelude.{◌≡◌, ◌++◌, [], false, true, OnOk, IfErr, IfOk, string_bytes};
ghost use Rattle.coord_world.specs.protocol.Outputs.{again};
ghost use Rattle.coord_ledger.specs.Facade.{settled_world};
ghost use Rattle.coord_drill.specs.Answered.{asked_lines, shown_lines};
ghost use Rattle.coord_drill.specs.Drill.{changes_nothing};
ghost use Rattle.coord_drill.specs.Faults.{IsOfMemory};
ghost use Rattle.coord_drill.specs.Holding.{IsReadyDrill, Reports, drill_of};
ghost use Rattle.coord_drill.specs.Moments.{CarriesIf, CutsIf};
ghost use Rattle.coord_drill.specs.Printed.{output_lines};
ghost use Rattle.coord_drill.specs.declared.asked.Asked.TheVariants as ask;

use super::Drill;
use super::flying::print_released;
use crate::asked::Asked;
use crate::fault::Fault;
use crate::print::{print_fault, print_idle, print_refusal};
use coord_check::check;
use coord_disk::{CrashDisk, Disk};
use coord_ledger::{Ledger, Seen};
use coord_types::Refusal;
use coord_view::print_view;
use std::alloc::AllocError;

impl<D: CrashDisk> Drill<D> {
    /// Prints the answer to a request that changes nothing.
    pub(super) fn report(self, wanted: Asked, text: &mut String) -> Result<Self, (Fault, D)>
        requires ready { IsReadyDrill self }
        requires nothing { changes_nothing wanted ≡ true }
        ensures ready { IfOk result IsReadyDrill }
        ensures reported { IfOk result (λ drill. Reports (string_bytes text.old) (string_bytes text.new)
            (λ reported. CarriesIf D.model D.crashes self wanted reported drill)) }
        ensures cut { IfErr result (CutsIf D.model D.crashes wanted self) }
        ensures fault { IfErr result (λ refused. IsOfMemory refused.0) }
    {
        self.driver.lemma_survives();
        let printed = print_answer(self.driver.ledger(), wanted, text);
        match printed {
            Ok(()) => Ok(self),
            Err(_) => Err(self.lost()),
        }
    }

    /// Holds accepted steps from now on, instead of settling each at once.
    pub(super) fn hold(self) -> Self
        requires ready { IsReadyDrill self }
        ensures ready { IsReadyDrill result }
        ensures reported { CarriesIf D.model D.crashes self ask.Hold [] result }
    {
        let mut drill = self;
        drill.driver.lemma_survives();
        drill.holds = true;
        drill
    }
}

/// Prints the answer to a request that changes nothing.
#[tactic(auto, unfolding(crate::specs::Answered::asked_lines))]
fn print_answer<D: CrashDisk>(
    ledger: &Ledger<D>,
    wanted: Asked,
    text: &mut String,
) -> Result<(), AllocError>
    requires { changes_nothing wanted ≡ true }
    ensures { OnOk result (string_bytes text.new ≡
        string_bytes text.old ++ asked_lines (drill_of ledger.now false false) wanted []) }
{
    match wanted {
        Asked::Refuse(refusal) => print_refusal(text, refusal),
        Asked::Nothing => print_idle(text),
        Asked::Resend => print_resent(ledger, text),
        Asked::Check => print_fault(text, check(ledger.front())),
        Asked::Show => print_shown(ledger, text),
        _ => unreachable!(),
    }
}

/// Prints the packets that a ledger sends again. Their releases have 0 as the step's number.
#[tactic(auto, using(crate::proofs::does::Settled::resent_lines, crate::proofs::does::Settled::looked_at))]
fn print_resent<D: CrashDisk>(ledger: &Ledger<D>, text: &mut String) -> Result<(), AllocError>
    ensures { OnOk result (string_bytes text.new ≡ string_bytes text.old ++ output_lines
        (settled_world ledger.now.log).version (again (settled_world ledger.now.log))) }
{
    let mut releases = ledger.resend()?;
    let mut ahead = releases.next();
    let version = ledger.settled().version();
    let printed = print_released(text, version, 0, &mut ahead, &mut releases);
    releases.lose_rest();
    printed
}

/// Prints the view of a ledger.
fn print_shown<D: CrashDisk>(ledger: &Ledger<D>, text: &mut String) -> Result<(), AllocError>
    ensures { OnOk result (string_bytes text.new ≡
        string_bytes text.old ++ shown_lines ledger.now.log) }
{
    match ledger.show(&mut Seen::new()) {
        Ok(view) => print_view(text, &view),
        Err(Refusal::OutOfMemory) => Err(AllocError),
        Err(refusal) => print_refusal(text, refusal),
    }
}
