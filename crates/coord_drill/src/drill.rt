//! A drill: the driver of a ledger, and a ticket for each step that is not settled.

ghost use Rattle.std.specs.Prelude.{◌≡◌, [], true, None, Some, IfOk, IfErr, string_bytes};
ghost use Rattle.coord_ledger.specs.Facade.{disk_held, ledger_over};
ghost use Rattle.coord_world.specs.protocol.NumberedWorld.{no_world};
ghost use Rattle.coord_drill.specs.Asked.{asked};
ghost use Rattle.coord_drill.specs.Course.{NotMade};
ghost use Rattle.coord_drill.specs.Drill.{drill_over};
ghost use Rattle.coord_drill.specs.Drilled.{asked_by};
ghost use Rattle.coord_drill.specs.Faults.{IsOfDisk, MayEnd};
ghost use Rattle.coord_drill.specs.Holding.{IsReadyDrill, Reports, front_of, state_of};
ghost use Rattle.coord_drill.specs.Moments.{CarriesIf, CutsIf, IsBegun, IsMade};
ghost use Rattle.coord_drill.specs.declared.fault.Fault.TheVariants.{OutOfMemory};

mod crashing;
mod flying;
mod raising;
mod reporting;
mod submitting;

use crate::asked::{Asked, wanted_by};
use crate::fault::Fault;
use crate::reading::parse;
use crate::request::Request;
use coord_disk::{CrashDisk, Disk};
use coord_ledger::{Driver, Ledger, Ticket};
use coord_store::Store;
use std::alloc::Global;
use std::collections::VecDeque;

/// The size of a half of the drill's disk, in bytes.
const HALF_SIZE: u64 = 65_536;

/// The driver of a ledger, and a ticket for each pending step, in order. Every drill must be consumed
/// by `into_disk`. A call that fails returns the disk.
pub struct Drill<D: CrashDisk> {
    alloc: Global,
    driver: Driver<D>,
    tickets: VecDeque<Ticket>,
    /// Whether accepted steps wait for `flush`; otherwise each is settled at once.
    holds: bool,
    /// Whether a step was ever accepted, even if a crash lost it.
    has_begun: bool,
}

impl<D: CrashDisk> Drill<D> {
    /// Makes a drill without any step: creates its store on the disk, with halves of 65,536 bytes. If
    /// that fails, returns the disk with the fault.
    pub fn new(alloc: Global, disk: D) -> Result<Self, (Fault, D)>
        ensures ready { IfOk result IsReadyDrill }
        ensures begun { D.model.keeps_model disk ≡ true → IfOk result (IsBegun D.model disk) }
        ensures state { IfOk result (λ drill. state_of drill ≡ drill_over (no_world 1)) }
        ensures fault { IfErr result (λ refused. IsOfDisk refused.0) }
        ensures not_made { D.model.keeps_model disk ≡ true →
            IfErr result (NotMade D.model disk) }
    {
        let driver = Driver::over(new_ledger(alloc, disk)?);
        driver.lemma_begins();
        Ok(Drill {
            alloc,
            driver,
            tickets: VecDeque::new(alloc),
            holds: false,
            has_begun: false,
        })
    }

    /// Returns the request of a line, or None for a bad line.
    pub fn read(&self, line: &[u8]) -> Option<Request>
        ensures { result ≡ asked_by (state_of self.now) line.now }
    {
        match parse(self.driver.ledger().front().version(), line)? {
            Request::Version2 if self.has_begun => None,
            request => Some(request),
        }
    }

    /// Carries out a request, and appends its output to a text. The headline holds for the drill's disk
    /// at each moment of the call. A call that fails returns the disk.
    pub fn answer(self, request: &Request, text: &mut String) -> Result<Self, (Fault, D)>
        requires ready { IsReadyDrill self }
        ensures ready { IfOk result IsReadyDrill }
        ensures reported { IfOk result (λ drill. Reports (string_bytes text.old) (string_bytes text.new)
            (λ reported. CarriesIf D.model D.crashes self (asked (front_of self) request.now) reported
            drill)) }
        ensures cut { IfErr result (CutsIf D.model D.crashes (asked (front_of self) request.now) self) }
        ensures fault { IfErr result (λ refused.
            MayEnd (asked (front_of self) request.now) refused.0) }
    {
        let wanted = wanted_by(self.driver.ledger().front(), request);
        self.carry_out(wanted, text)
    }

    /// Carries out the request, and appends its output to a text.
    fn carry_out(self, wanted: Asked, text: &mut String) -> Result<Self, (Fault, D)>
        requires ready { IsReadyDrill self }
        ensures ready { IfOk result IsReadyDrill }
        ensures reported { IfOk result (λ drill. Reports (string_bytes text.old) (string_bytes text.new)
            (λ reported. CarriesIf D.model D.crashes self wanted reported drill)) }
        ensures cut { IfErr result (CutsIf D.model D.crashes wanted self) }
        ensures fault { IfErr result (λ refused. MayEnd wanted refused.0) }
    {
        match wanted {
            Asked::Submit(step) => self.submit(step, text),
            Asked::Flush => self.flush(text),
            Asked::Crash => self.crash(text),
            Asked::Version2 => self.begin_version_2(),
            Asked::Hold => Ok(self.hold()),
            Asked::Refuse(_) | Asked::Nothing | Asked::Resend | Asked::Check | Asked::Show => {
                self.report(wanted, text)
            }
        }
    }

    /// Ends the drill, and returns its disk. Pending steps are lost.
    pub fn into_disk(self) -> D
        ensures { disk_held self.driver ≡ Some result }
    {
        let Drill {
            alloc: _,
            driver,
            tickets,
            holds: _,
            has_begun: _,
        } = self;
        forget(tickets);
        driver.into_disk()
    }

    /// Drops the drill because memory ran out. Returns its disk and the fault `OutOfMemory`.
    pub fn lost(self) -> (Fault, D)
        ensures fault { result.0 ≡ OutOfMemory }
        ensures disk { disk_held self.driver ≡ Some result.1 }
    {
        (Fault::OutOfMemory, self.into_disk())
    }
}

/// Creates a store of version 1 on a disk, and a ledger over the store.
fn new_ledger<D: CrashDisk>(alloc: Global, disk: D) -> Result<Ledger<D>, (Fault, D)>
    ensures made { IfOk result (IsMade D.model disk) }
    ensures fault { IfErr result (λ refused. IsOfDisk refused.0) }
    ensures not_made { D.model.keeps_model disk ≡ true →
        IfErr result (NotMade D.model disk) }
{
    match Store::create(alloc, disk, HALF_SIZE, 1) {
        Ok(store) => adopt(alloc, store),
        Err((fault, disk)) => Err((fault.into(), disk)),
    }
}

/// Makes a ledger over a store that has not stopped. If memory runs out, returns the disk.
fn adopt<D: CrashDisk>(alloc: Global, store: Store<D>) -> Result<Ledger<D>, (Fault, D)>
    requires { store.torn ≡ None }
    ensures adopted { IfOk result (λ ledger. ledger ≡ ledger_over store.world store.disk) }
    ensures lost { IfErr result (λ refused. refused ≡ (OutOfMemory, store.disk)) }
{
    match Ledger::adopt(alloc, store) {
        Ok(ledger) => Ok(ledger),
        Err((_, store)) => Err((Fault::OutOfMemory, store.into_disk())),
    }
}

/// Drops all tickets without collecting their replies.
fn forget(mut tickets: VecDeque<Ticket>) {
    forget_all(&mut tickets);
    tickets.destroy_empty();
}

/// Drops all tickets of a list.
fn forget_all(tickets: &mut VecDeque<Ticket>)
    ensures { tickets.new.items ≡ [] }
{
    while let Some(ticket) = tickets.pop_front() {
        ticket.forget();
    }
}
