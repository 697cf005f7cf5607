//! Resets that name an epoch. Each reset is sent to the server alone, right after a view that permits it, over the
//! connection that brought the view. The core sends such a reset in no other way. If that connection is lost before the
//! answer, the reset is not sent again. The last number of the proxy's client then shows whether the reset was carried
//! out. If it was not, the reset is judged by another view.

ghost use Rattle.std.specs.Prelude.{◌≡◌, [], false, None, Some};
ghost use Rattle.std.specs.Duration.{as_nanos};

use crate::connection::NOT_ALLOWED;
use crate::event_loop::EventLoop;
use crate::gateway::{ExchangeKind, Gateway, Verdict};
use crate::number::place_of;
use crate::unclear::Unclear;
use coord_types::NodeId;
use proxy_core::Admission;
use std::alloc::{AllocError, Global};
use std::collections::VecDeque;
use std::time::Duration;

/// How many milliseconds after a view the next one is requested, while a reset waits for another reset to end.
const PAUSE: u64 = 20;

/// The resets that name an epoch and have no answer yet.
#[derive(Drop)]
pub(crate) struct Resets {
    /// The places of the connections whose next line is a reset that waits to be judged.
    pub waiting: VecDeque<usize>,
    /// The places of the connections whose next line waits until the resets are judged.
    pub parked: VecDeque<usize>,
    /// Whether no line is taken, so that no line goes to the server between the view and the reset.
    pub is_holding: bool,
    /// Whether the resets were judged by the last view.
    pub is_judged: bool,
    /// When the waiting resets are judged next.
    pub judge_at: Duration,
    /// The number of the connection whose reset was handed to the core and has no answer yet.
    pub on_its_way: Option<u64>,
}

impl Resets {
    /// Returns the state in which there are no resets.
    pub fn new(alloc: Global) -> Self
        ensures none { (result.waiting.items ≡ []) × (result.parked.items ≡ []) × (result.on_its_way ≡ None) }
        ensures idle { (result.is_holding ≡ false) × (result.is_judged ≡ false) × (as_nanos result.judge_at ≡ 0) }
    {
        Resets {
            waiting: VecDeque::new(alloc),
            parked: VecDeque::new(alloc),
            is_holding: false,
            is_judged: false,
            judge_at: Duration::ZERO,
            on_its_way: None,
        }
    }

    /// Records that the connection with this number got an answer, so its reset is no longer on its way.
    pub fn note_answer(&mut self, number: u64)
        ensures answered { self.old.on_its_way ≡ Some number → self.new.on_its_way ≡ None }
        ensures others { (self.new.waiting ≡ self.old.waiting) × (self.new.parked ≡ self.old.parked) × (self.new.is_judged ≡ self.old.is_judged) × (self.new.is_holding ≡ self.old.is_holding) }
    {
        if self.on_its_way == Some(number) {
            self.on_its_way = None;
        }
    }
}

impl<G: Gateway> EventLoop<G> {
    /// Defers the next line of the connection at a place, a reset that names an epoch. Once all earlier lines of the
    /// connection have their answers, the reset waits to be judged. Errors: out of memory.
    pub(crate) fn take_reset(
        &mut self,
        place: usize,
        node: NodeId,
        epoch: u64,
    ) -> Result<(), AllocError> {
        let Some(connection) = self.connections.get_mut(place) else {
            return Ok(());
        };
        connection.is_deferred = true;
        if self.core.is_awaiting_nothing(connection.number) && connection.reset.is_none() {
            self.resets.waiting.push_back(place)?;
            connection.asked.push_back(self.at.now)?;
            connection.reset = Some((node, epoch));
        }
        Ok(())
    }

    /// Keeps the next line of the connection at a place until the resets are judged. Errors: out of memory.
    pub(crate) fn park(&mut self, place: usize) -> Result<(), AllocError> {
        if let Some(connection) = self.connections.get_mut(place) {
            if !connection.is_parked {
                self.resets.parked.push_back(place)?;
                connection.is_parked = true;
            }
        }
        Ok(())
    }

    /// Returns when the waiting resets are judged next. Returns None if no reset waits, or if the loop already holds
    /// back other lines to judge them.
    pub(crate) fn judged_at(&self) -> Option<Duration> {
        if self.resets.waiting.is_empty() || self.resets.is_holding {
            None
        } else {
            Some(self.resets.judge_at)
        }
    }

    /// If waiting resets are due to be judged, holds back all other lines. Once no line is without an answer and the
    /// last number is known, also requests the view to judge by. Called before each flight. Errors: out of memory.
    pub(crate) fn prepare_resets(&mut self) -> Result<(), AllocError> {
        if self.resets.waiting.is_empty()
            || self.resets.is_judged
            || self.at.now < self.resets.judge_at
        {
            return Ok(());
        }
        self.resets.is_holding = true;
        if self.core.is_idle() && self.core.is_counted() && !self.own.awaits_view {
            self.own.wants_view = true;
        }
        Ok(())
    }

    /// Judges the waiting resets by the view that was just heard, if no line is without an answer. The first reset that
    /// may go is sent alone. Called before anything else is sent. Errors: out of memory.
    pub(crate) fn judge_resets(&mut self) -> Result<(), AllocError> {
        let is_fresh = self.views.is_fresh;
        self.views.is_fresh = false;
        if !is_fresh
            || !self.resets.is_holding
            || self.resets.is_judged
            || !self.core.is_idle()
            || !self.core.is_counted()
            || self.core.view().is_none()
        {
            return Ok(());
        }
        for _ in 0..self.resets.waiting.len() {
            let Some(place) = self.resets.waiting.pop_front() else {
                break;
            };
            if self.judge_at(place)? {
                break;
            }
        }
        self.resets.is_judged = true;
        Ok(())
    }

    /// Judges the reset of the connection at a place. Returns true if no other reset may be judged by this view.
    /// Errors: out of memory.
    fn judge_at(&mut self, place: usize) -> Result<bool, AllocError> {
        let Some(connection) = self.connections.get_mut(place) else {
            return Ok(false);
        };
        let (Some((node, epoch)), Some(role)) = (connection.reset, connection.role) else {
            return Ok(false);
        };
        let Some(view) = self.core.view() else {
            self.resets.waiting.push_back(place)?;
            return Ok(true);
        };
        match self.gateway.judge_reset(self.alloc, view, node, epoch)? {
            Verdict::Answer(answer) => {
                let (gateway, answer) = (&mut self.gateway, answer.as_slice());
                connection.refuse(self.alloc, gateway, ExchangeKind::Order, answer, self.at)?;
                self.activate(place)?;
                Ok(false)
            }
            Verdict::Waits => {
                self.resets.waiting.push_back(place)?;
                self.resets.judge_at = self.at.now.saturating_add(Duration::from_millis(PAUSE));
                Ok(true)
            }
            Verdict::Goes => {
                let Some(line) = connection.inbox.line() else {
                    return Ok(false);
                };
                let number = connection.number;
                let admission = self
                    .core
                    .start_after_view(self.alloc, &self.gateway, number, role, line)?;
                match admission {
                    // It stays the next line until its answer comes: it may have to be judged again.
                    Admission::Queued => {
                        self.resets.on_its_way = Some(number);
                        self.begin_flight(1)?;
                    }
                    Admission::Denied => {
                        let gateway = &mut self.gateway;
                        let (kind, answer) = (ExchangeKind::Denied, NOT_ALLOWED);
                        connection.refuse(self.alloc, gateway, kind, answer, self.at)?;
                        self.activate(place)?;
                    }
                    Admission::Deferred => self.resets.waiting.push_back(place)?,
                }
                Ok(true)
            }
        }
    }

    /// Lets other lines be taken again, once the resets are judged and the one that may go is on its way. Errors: out
    /// of memory.
    pub(crate) fn release(&mut self) -> Result<(), AllocError> {
        if !self.resets.is_judged || (self.in_flight == 0 && !self.core.is_idle()) {
            return Ok(());
        }
        self.resets.is_judged = false;
        self.resets.is_holding = false;
        for _ in 0..self.resets.parked.len() {
            let Some(place) = self.resets.parked.pop_front() else {
                break;
            };
            if let Some(connection) = self.connections.get_mut(place) {
                connection.is_parked = false;
            }
            self.activate(place)?;
        }
        Ok(())
    }

    /// Has the reset of the connection at a place judged again, after the server refused the reset's number. Errors:
    /// out of memory.
    pub(crate) fn judge_again(&mut self, place: usize) -> Result<(), AllocError> {
        if self.renumber(place)?.is_some() {
            self.resets.waiting.push_back(place)?;
        }
        Ok(())
    }

    /// Gives the connection at a place another number, and returns this number. The core drops the connection's waiting
    /// lines. If no number is left, ends the connection and returns None. Errors: out of memory.
    pub(crate) fn renumber(&mut self, place: usize) -> Result<Option<u64>, AllocError> {
        let Some(number) = self.next_number(place) else {
            self.end(place)?;
            return Ok(None);
        };
        let Some(connection) = self.connections.get_mut(place) else {
            return Ok(None);
        };
        self.core.forget(connection.number);
        connection.number = number;
        Ok(Some(number))
    }

    /// Takes back the reset that is on its way, after the server's connection was lost. If the core had sent the reset,
    /// the loop first has to find the last number. If not, the reset is judged again. Errors: out of memory.
    pub(crate) fn withdraw_reset(&mut self) -> Result<(), AllocError> {
        let Some(connection) = self.resets.on_its_way.take() else {
            return Ok(());
        };
        let sent = self.core.take_back(connection);
        if sent.is_some() {
            self.in_flight = self.in_flight.saturating_sub(1);
        }
        let place = place_of(connection);
        if !self.is_at(place, connection) {
            self.core.forget(connection);
            self.forget_departed(connection);
            return Ok(());
        }
        let Some(connection) = self.renumber(place)? else {
            return Ok(());
        };
        match sent {
            Some(number) => {
                let line = None;
                self.unclear.push_back(Unclear {
                    connection,
                    number,
                    line,
                })?;
            }
            None => {
                self.resets.waiting.push_back(place)?;
                self.resets.is_judged = false;
            }
        }
        Ok(())
    }
}
