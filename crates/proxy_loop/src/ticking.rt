//! What the loop does when a time is reached.

use crate::event_loop::EventLoop;
use crate::gateway::Gateway;
use crate::settings::HEADER_TIME;
use std::alloc::AllocError;
use std::time::Duration;

impl<G: Gateway> EventLoop<G> {
    /// Returns how long the loop may wait for events. None means without a limit.
    pub(crate) fn timeout(&self) -> Option<Duration> {
        if !self.active.is_empty() || self.has_waiting_connections() {
            return Some(Duration::ZERO);
        }
        let mut next = earlier(self.silent_at(), self.idle_at());
        if self.server.is_none() && !self.core.is_idle() {
            next = earlier(next, Some(self.retry_at));
        }
        if self.at.now < self.accept_at {
            next = earlier(next, Some(self.accept_at));
        }
        if self.wants_number() {
            next = earlier(next, Some(self.own.probe_at));
        }
        next = earlier(next, self.view_at());
        next = earlier(next, self.signals_at());
        next = earlier(next, self.judged_at());
        next = earlier(next, Some(self.gateway.refresh_at()));
        if self.needs_sweep() {
            next = earlier(next, Some(self.sweep_at));
        }
        match next {
            Some(at) => Some(at.saturating_sub(self.at.now)),
            None => None,
        }
    }

    /// Returns whether new connections wait to be accepted and may be accepted now.
    pub(crate) fn has_waiting_connections(&self) -> bool {
        self.at.now >= self.accept_at && self.listeners.iter().any(|listener| listener.is_ready)
    }

    /// Returns whether a connection may become late: a client has not sent its header, a line waits for its answer, or
    /// an answer waits for its client.
    fn needs_sweep(&self) -> bool {
        self.has_blocked
            || self.open.contains_key(&0)
            || !self.has_nothing_to_settle()
            || !self.core.is_idle()
    }

    /// Closes the connection to a silent server, or an idle one, requests a view, and ends late connections, each when
    /// it is due. Errors: out of memory.
    pub(crate) fn tick(&mut self) -> Result<(), AllocError> {
        if let Some(at) = self.silent_at() {
            if self.at.now >= at {
                self.lose_server()?;
            }
        }
        if let Some(at) = self.idle_at() {
            if self.at.now >= at {
                self.let_go()?;
            }
        }
        self.watch();
        if self.at.now >= self.sweep_at {
            self.sweep()?;
            let shorter = self.settings.answer_timeout.min(self.settings.stuck);
            let quarter = shorter.min(Duration::from_millis(4000)).as_millis() / 4;
            let pause = Duration::from_millis((quarter as u64).max(10));
            self.sweep_at = self.at.now.saturating_add(pause);
        }
        Ok(())
    }

    /// Ends each connection whose header or answer is late, or whose client has taken no bytes for too long. Errors:
    /// out of memory.
    fn sweep(&mut self) -> Result<(), AllocError> {
        self.has_blocked = false;
        for place in 0..self.connections.capacity() {
            if self.is_late(place) {
                self.end(place)?;
            } else if self.is_blocked(place) {
                self.has_blocked = true;
            }
        }
        Ok(())
    }

    fn is_blocked(&self, place: usize) -> bool {
        match self.connections.get(place) {
            Some(connection) => connection.blocked_since.is_some(),
            None => false,
        }
    }

    /// Returns whether a line that came at this moment has had no answer for too long.
    fn is_unanswered(&self, since: Option<Duration>) -> bool {
        match since {
            Some(since) => self.at.now.saturating_sub(since) >= self.settings.answer_timeout,
            None => false,
        }
    }

    fn is_late(&self, place: usize) -> bool {
        let Some(connection) = self.connections.get(place) else {
            return false;
        };
        if connection.role.is_none()
            && self.at.now.saturating_sub(connection.since) >= Duration::from_millis(HEADER_TIME)
        {
            return true;
        }
        if self.is_unanswered(connection.asked.front().copied())
            || self.is_unanswered(connection.kept_since)
        {
            return true;
        }
        match connection.blocked_since {
            Some(since) => self.at.now.saturating_sub(since) >= self.settings.stuck,
            None => false,
        }
    }
}

/// Returns the earlier of two times. None means never.
fn earlier(one: Option<Duration>, other: Option<Duration>) -> Option<Duration> {
    match (one, other) {
        (Some(one), Some(other)) => Some(one.min(other)),
        (Some(one), None) => Some(one),
        (None, other) => other,
    }
}
