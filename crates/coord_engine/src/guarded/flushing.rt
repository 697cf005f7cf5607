//! Sends flights out, and takes them back.

ghost use Rattle.std.specs.Prelude.{◌≡◌, ◌-◌, ◌++◌, false, true, None, Ok, length, take, IfErr, IfOk, IfSome, IsSomeAnd, OnErr, OnOk, Some, ◌≤◌};
ghost use Rattle.coord_engine.specs.MonotoneLog.{StartsWith};
ghost use Rattle.coord_engine.specs.Past.{FliesFrom};
ghost use Rattle.coord_engine.specs.Released.{HasReadSettled};
ghost use Rattle.coord_engine.specs.State.{with_ledger};
ghost use Rattle.coord_ledger.specs.ledger.Calls.{RefusesFlight, keeps_store, next_flight, releases_in, taken_back, with_store_out};
ghost use Rattle.coord_ledger.specs.ledger.Flights.{IsOut};
ghost use Rattle.coord_ledger.specs.machine.After.{resent};
ghost use Rattle.coord_ledger.specs.machine.Log.{pending, settled_steps, settled_world};

use super::{Guarded, PendingWake};
use crate::{LogAuthority, MonotoneLog, Origin, OwnFlight, Released};
use coord_disk::Disk;
use coord_ledger::Ledger;
use coord_types::{Refusal, Step};
use std::alloc::AllocError;
use std::marker::PhantomData;

/// Returns the first `count` steps.
fn first_steps(steps: &[Step], count: usize) -> &[Step]
    requires { count ≤ length steps.now }
    ensures { result.now ≡ take count steps.now }
{
    &steps[..count]
}

/// Writes the settled steps of a ledger to the history, after the steps of earlier instances.
pub(super) fn write_settled<D: Disk, L: Origin>(
    writer: &mut LogAuthority,
    history: &MonotoneLog,
    ledger: &Ledger<D>,
)
    requires here { history.now ≡ writer.old.history }
    requires on { StartsWith (L.earlier ++ settled_steps ledger.now.log) writer.old.steps }
    ensures { HasReadSettled writer.old.history L.earlier (settled_steps ledger.now.log) writer.new }
{
    ledger.lemma_log_is_consistent();
    let trail = ledger.trail();
    writer.write_on::<L>(history, first_steps(trail, trail.len() - ledger.pending()));
}

impl<D: Disk, L: Origin> Guarded<D, L> {
    /// Returns the number of accepted steps that are not settled.
    pub fn pending(&self) -> usize
        ensures { result ≡ length (pending self.now.ledger.log) }
    {
        self.ledger.pending()
    }

    /// Sends the next flight out, like `Ledger::begin_flush`. The flight's token has read the settled
    /// steps. Errors: out of memory.
    pub fn begin(&mut self, history: &MonotoneLog) -> Result<Option<OwnFlight<D, L>>, AllocError>
        requires here { history.now ≡ L.history }
        ensures nothing { keeps_store self.old.ledger ≡ true → (result ≡ Ok None) ×
            (self.new ≡ self.old) }
        ensures begun { keeps_store self.old.ledger ≡ false →
            IfOk result (λ begun. IsSomeAnd begun (λ flight.
            (flight ≡ next_flight self.old.ledger.log flight.disk) ×
            (self.old.ledger.disk ≡ Some flight.disk) ×
            (self.new ≡ with_ledger self.old (with_store_out self.old.ledger (length flight.steps))))) }
        ensures err { OnErr result (self.new ≡ self.old) }
        ensures leaves { IfOk result (λ begun. IfSome begun
            (FliesFrom D.model L.disk L.base (settled_steps self.old.ledger.log))) }
    {
        self.ledger.lemma_log_is_consistent();
        match self.ledger.begin_flush() {
            Ok(Some(flight)) => {
                let reader = self.writer.reader(history);
                Ok(Some(OwnFlight {
                    flight,
                    reader,
                    of: PhantomData,
                }))
            }
            Ok(None) => Ok(None),
            Err(fault) => Err(fault),
        }
    }

    /// Takes back the flight that is out, like `Ledger::end_flush`. The token of its releases has read
    /// the settled steps, including the flight's own steps. Waiting threads must be woken: a reply may
    /// be ready, or the ledger has stopped.
    pub fn end(
        &mut self,
        history: &MonotoneLog,
        flight: OwnFlight<D, L>,
    ) -> Result<(Released<L>, PendingWake), (Refusal, OwnFlight<D, L>)>
        requires here { history.now ≡ L.history }
        ensures own { OnOk result (IsOut self.old.ledger flight) }
        ensures taken { OnOk result (self.new ≡
            with_ledger self.old (taken_back self.old.ledger
            (length flight.steps) flight.mark flight.disk)) }
        ensures released { IfOk result (λ back. back.0 ≡ releases_in flight flight.mark) }
        ensures refused { IfErr result (λ refused. RefusesFlight self.old.ledger flight refused.0) }
        ensures back { IfErr result (λ refused. refused.1 ≡ flight) }
        ensures unchanged { OnErr result (self.new ≡ self.old) }
    {
        let OwnFlight {
            flight,
            reader,
            of: _,
        } = flight;
        match self.ledger.end_flush(flight) {
            Ok(releases) => {
                self.writer.take_back(history, reader);
                write_settled::<D, L>(&mut self.writer, history, &self.ledger);
                let released = Released::new(releases, self.writer.reader(history));
                Ok((released, PendingWake::new()))
            }
            Err((refusal, flight)) => Err((
                refusal,
                OwnFlight {
                    flight,
                    reader,
                    of: PhantomData,
                },
            )),
        }
    }

    /// Returns the packets to be sent again because they may have been lost. No signal is among them,
    /// and their step number is 0. Errors: out of memory.
    pub fn resend(&mut self, history: &MonotoneLog) -> Result<Released<L>, AllocError>
        requires here { history.now ≡ L.history }
        ensures again { IfOk result (λ releases. releases ≡ resent (settled_world self.old.ledger.log)) }
        ensures same { self.new ≡ self.old }
    {
        let releases = self.ledger.resend()?;
        Ok(Released::new(releases, self.writer.reader(history)))
    }
}
