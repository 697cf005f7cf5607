//! The proxy's own requests to the server, for the last number of its client and for views.

ghost use Rattle.std.specs.Prelude.{◌≡◌, ◌+◌, ◌*◌, ◌^◌, ◌<◌, ◌≤◌, ◌||◌, [], false, None};
ghost use Rattle.std.specs.Option.{unwrap_or};
ghost use Rattle.std.specs.Duration.{as_nanos};
ghost use Rattle.proxy_streams.specs.NumberSearches.{search_from};

use crate::event_loop::EventLoop;
use crate::gateway::Gateway;
use crate::number::number_of;
use crate::settings::FAILURE_PAUSE;
use proxy_core::Admission;
use proxy_streams::NumberSearch;
use std::alloc::{AllocError, Global};
use std::collections::VecDeque;
use std::time::Duration;

/// The maximum number of probes that are sent at once.
const MOST_PROBES: u32 = 32;

const SHOW: &[u8] = b"{\"op\":\"show\"}";

const NUMBER_REUSED: &[u8] = b"{\"name\":\"NumberReused\",\"refused\":5}";

/// A line of the proxy itself that has no answer yet.
#[derive(Clone, Copy, Debug)]
pub(crate) enum OwnLine {
    /// An order with this number, which the server refuses in any case.
    Probe(u64),
    /// A request for a view.
    Show,
}

#[derive(Drop)]
pub(crate) struct Own {
    /// The number of the proxy's own connection.
    pub number: u64,
    pub asked: VecDeque<OwnLine>,
    pub search: Option<NumberSearch>,
    pub wants_view: bool,
    /// Whether a view was requested that has not arrived.
    pub awaits_view: bool,
    /// The number of views that were requested.
    pub views: u64,
    /// When probes may be sent again, after an answer that implied nothing about the number.
    pub probe_at: Duration,
}

impl Own {
    /// Returns the proxy's own connection before its first request.
    pub fn new(alloc: Global) -> Self
        ensures none { (result.number ≡ 0) × (result.asked.items ≡ []) × (result.search ≡ None) × (as_nanos result.probe_at ≡ 0) }
        ensures blind { (result.wants_view ≡ false) × (result.awaits_view ≡ false) × (result.views ≡ 0) }
    {
        Own {
            number: 0,
            asked: VecDeque::new(alloc),
            search: None,
            wants_view: false,
            awaits_view: false,
            views: 0,
            probe_at: Duration::ZERO,
        }
    }

    /// Begins again as a new connection, after an answer that left open what became of a line. Drops all unanswered
    /// requests; a requested view will be requested again.
    pub fn begin_again(&mut self, came: &mut u64)
        ensures number { came.old < 2 ^ 43 → (came.new ≡ came.old + 1) × (self.new.number ≡ came.old * 2 ^ 20) }
        ensures last { 2 ^ 43 ≤ came.old → (came.new ≡ came.old) × (self.new.number ≡ self.old.number) }
        ensures dropped { (self.new.asked.items ≡ []) × (self.new.search ≡ None) × (self.new.awaits_view ≡ false) }
        ensures view { self.new.wants_view ≡ (self.old.wants_view || self.old.awaits_view) }
        ensures others { (self.new.views ≡ self.old.views) × (self.new.probe_at ≡ self.old.probe_at) }
    {
        if *came < 1 << 43 {
            self.number = number_of(*came, 0);
            *came += 1;
        }
        self.asked.clear();
        self.search = None;
        self.wants_view = self.wants_view || self.awaits_view;
        self.awaits_view = false;
    }

    /// Takes the search for the last number that is under way. If there is none, begins one at a number that the server
    /// is known to have used.
    fn take_search(&mut self, used: u64) -> NumberSearch
        ensures search { result ≡ unwrap_or self.old.search (search_from used) }
        ensures taken { self.new ≡ record self.old { search = None } }
    {
        match self.search.take() {
            Some(search) => search,
            None => NumberSearch::new(used),
        }
    }
}

impl<G: Gateway> EventLoop<G> {
    /// Makes the proxy's own requests that are due: probes for the last number, and a request for a view. Errors: out
    /// of memory.
    pub(crate) fn ask_for_itself(&mut self) -> Result<(), AllocError> {
        if self.wants_number() && self.at.now >= self.own.probe_at {
            self.send_probes()?;
        }
        if self.own.wants_view && !self.own.awaits_view {
            if self.ask(SHOW, OwnLine::Show)? {
                self.own.wants_view = false;
                self.own.awaits_view = true;
                self.own.views = self.own.views.saturating_add(1);
            }
        }
        Ok(())
    }

    /// Returns whether the proxy should search for the last number: the number is unknown, some line, reset or unclear
    /// order waits, and no request of the proxy is unanswered.
    pub(crate) fn wants_number(&self) -> bool {
        !self.core.is_counted()
            && self.own.asked.is_empty()
            && !(self.core.is_idle() && self.has_nothing_to_settle())
    }

    /// Returns whether no reset waits for a view and no unclear order waits for the last number.
    pub(crate) fn has_nothing_to_settle(&self) -> bool {
        self.resets.waiting.is_empty() && self.unclear.is_empty()
    }

    fn send_probes(&mut self) -> Result<(), AllocError> {
        let mut search = self.own.take_search(self.core.last_number());
        for _ in 0..MOST_PROBES {
            let number = search.try_next();
            let line = self.gateway.probe(self.alloc, number)?;
            self.ask(line.as_slice(), OwnLine::Probe(number))?;
        }
        self.own.search = Some(search);
        Ok(())
    }

    /// Passes a line of the proxy to the core. Returns whether the core took the line. Errors: out of memory.
    fn ask(&mut self, line: &[u8], own_line: OwnLine) -> Result<bool, AllocError> {
        self.own.asked.reserve(1)?;
        let role = self.gateway.own_role();
        let admission = self
            .core
            .admit(self.alloc, &self.gateway, self.own.number, role, line)?;
        if admission == Admission::Queued {
            self.own.asked.push_back_reserved(own_line);
            return Ok(true);
        }
        Ok(false)
    }

    /// Handles the answer to the oldest line of the proxy. Errors: out of memory.
    pub(crate) fn hear_own(&mut self, answer: &[u8]) -> Result<(), AllocError> {
        match self.own.asked.pop_front() {
            Some(OwnLine::Probe(number)) => self.hear_probe(number, answer),
            Some(OwnLine::Show) => {
                self.own.awaits_view = false;
                self.hear_view(answer)
            }
            None => Ok(()),
        }
    }

    /// Handles the answer to the probe with this number. Errors: out of memory.
    fn hear_probe(&mut self, number: u64, answer: &[u8]) -> Result<(), AllocError> {
        if self.core.is_counted() {
            return Ok(());
        }
        if answer == NUMBER_REUSED {
            return self.find(number);
        }
        if self.gateway.is_refusal(answer) {
            return self.find(number.saturating_sub(1));
        }
        if !self.gateway.refuses_number(answer) {
            self.own.search = None;
            self.own.probe_at = self
                .at
                .now
                .saturating_add(Duration::from_millis(FAILURE_PAUSE));
        }
        Ok(())
    }

    fn find(&mut self, last: u64) -> Result<(), AllocError> {
        self.core.set_last_number(last);
        self.own.search = None;
        self.clear_up(last)
    }
}
