//! Connections that watch: the loop sends them each new view.

ghost use Rattle.std.specs.Prelude.{◌≡◌, [], false};
ghost use Rattle.std.specs.Duration.{as_nanos, max_nanos};

use crate::event_loop::EventLoop;
use crate::gateway::Gateway;
use crate::settings::{BEAT, RESET_PAUSE};
use memchr::{memchr, memmem, memrchr};
use std::alloc::{AllocError, Global};
use std::fs;
use std::fs::Files;
use std::time::Duration;

/// How many milliseconds pass between two checks of the length of the signals file, while somebody watches.
const SIGNALS_PAUSE: u64 = 5;

/// The view that was heard last, and when the next view is requested while somebody watches.
#[derive(Drop)]
pub(crate) struct Views {
    /// The line of the last view that the server sent; empty before the first view.
    pub line: Vec<u8>,
    /// Whether the view was heard just now.
    pub is_fresh: bool,
    /// When the next view is requested.
    pub ask_at: Duration,
    /// The time from which watchers are sent the next view even if its rows have not changed.
    pub beat_at: Duration,
    /// The path of the file that the server's signals are printed to.
    pub signals: Option<String>,
    /// The length of this file at the last check.
    pub signals_length: u64,
    /// When the length of this file is checked next, while somebody watches.
    pub signals_at: Duration,
}

impl Views {
    /// Returns the state before the first view. `signals` is the path of the file that the server's signals are printed
    /// to.
    pub fn new(alloc: Global, signals: Option<String>) -> Self
        ensures none { (result.line.items ≡ []) × (result.is_fresh ≡ false) × (as_nanos result.ask_at ≡ max_nanos) × (as_nanos result.beat_at ≡ max_nanos) }
        ensures signals { (result.signals ≡ signals) × (result.signals_length ≡ 0) × (as_nanos result.signals_at ≡ 0) }
    {
        Views {
            line: Vec::new(alloc),
            is_fresh: false,
            ask_at: Duration::MAX,
            beat_at: Duration::MAX,
            signals,
            signals_length: 0,
            signals_at: Duration::ZERO,
        }
    }
}

impl<G: Gateway> EventLoop<G> {
    /// Takes the next line of the connection at a place, a `watch`, once all earlier lines have their answers. The next
    /// view that is requested after this call answers it, and later lines wait for that view. Errors: out of memory.
    pub(crate) fn take_watch(&mut self, place: usize) -> Result<(), AllocError> {
        let Some(connection) = self.connections.get_mut(place) else {
            return Ok(());
        };
        if !self.core.is_awaiting_nothing(connection.number) {
            connection.is_deferred = true;
            return Ok(());
        }
        connection.inbox.drop_line();
        if !connection.is_watching {
            self.watchers.push(place)?;
            connection.is_watching = true;
        }
        connection.view_after = Some(self.own.views);
        let since = connection.kept_since.take().unwrap_or(self.at.now);
        connection.asked.push_back(since)?;
        connection.is_deferred = true;
        self.own.wants_view = true;
        Ok(())
    }

    /// Takes the answer to a request for a view. If the answer is a view, has it sent to each watcher for which it is
    /// new. Errors: out of memory.
    pub(crate) fn hear_view(&mut self, answer: &[u8]) -> Result<(), AllocError> {
        if !answer.starts_with(b"{\"accepted\":") {
            return Ok(());
        }
        let is_beat = self.at.now >= self.views.beat_at;
        let is_new = is_beat || rows_of(answer) != rows_of(self.views.line.as_slice());
        self.views.line = Vec::from_slice(self.alloc, answer)?;
        self.views.is_fresh = true;
        for index in 0..self.watchers.len() {
            let Some(place) = self.watchers.get(index).copied() else {
                break;
            };
            self.show(place, is_new)?;
        }
        self.views.ask_at = self.at.now.saturating_add(Duration::from_millis(if is_in_reset(
            answer,
        ) {
            RESET_PAUSE
        } else {
            BEAT
        }));
        if is_new {
            self.views.beat_at = self.at.now.saturating_add(Duration::from_millis(BEAT));
        }
        Ok(())
    }

    /// Has the newest view sent to the connection at a place, if the view answers a `watch` of the connection or is
    /// new. Errors: out of memory.
    fn show(&mut self, place: usize, is_new: bool) -> Result<(), AllocError> {
        if let Some(connection) = self.connections.get_mut(place) {
            let is_awaited = match connection.view_after {
                Some(views) => views < self.own.views,
                None => is_new,
            };
            if is_awaited {
                connection.owes_view = true;
                self.activate(place)?;
            }
        }
        Ok(())
    }

    /// Adds the newest view to the answers of the connection at a place, if a view is owed and all earlier answers are
    /// sent. After the first view of a `watch`, the connection's next line may be taken. Errors: out of memory.
    pub(crate) fn send_view(&mut self, place: usize) -> Result<(), AllocError> {
        let Some(connection) = self.connections.get_mut(place) else {
            return Ok(());
        };
        if !connection.owes_view || connection.unsent() > 0 {
            return Ok(());
        }
        connection.owes_view = false;
        connection.show(self.views.line.as_slice())?;
        if connection.view_after.take().is_some() {
            connection.asked.pop_front();
            connection.is_deferred = false;
            self.activate(place)?;
        }
        Ok(())
    }

    /// Requests a view if one is due.
    pub(crate) fn watch(&mut self) {
        if let Some(at) = self.view_at() {
            if self.at.now >= at {
                self.views.ask_at = Duration::MAX;
                self.own.wants_view = true;
            }
        }
    }

    /// Requests a view if the length of the signals file has changed, while somebody watches.
    pub(crate) fn watch_signals<R: Files>(&mut self, rt: &R) {
        if self.watchers.is_empty() || self.at.now < self.views.signals_at {
            return;
        }
        let Some(path) = &self.views.signals else {
            return;
        };
        if let Ok(found) = fs::metadata(rt, path.as_str()) {
            if found.len() != self.views.signals_length {
                self.views.signals_length = found.len();
                self.own.wants_view = true;
            }
        }
        self.views.signals_at = self
            .at
            .now
            .saturating_add(Duration::from_millis(SIGNALS_PAUSE));
    }

    /// Returns when the length of the signals file is checked next. Returns None if nobody watches, or if there is no
    /// such file.
    pub(crate) fn signals_at(&self) -> Option<Duration> {
        if self.watchers.is_empty() || self.views.signals.is_none() {
            None
        } else {
            Some(self.views.signals_at)
        }
    }

    /// Returns when the next view is requested. Returns None if nobody watches, or if a view is already requested.
    pub(crate) fn view_at(&self) -> Option<Duration> {
        if self.watchers.is_empty() || self.own.wants_view || self.own.awaits_view {
            None
        } else {
            Some(self.views.ask_at)
        }
    }
}

/// Returns the part of a view's line that has the rows of nodes and links, between the counts at both ends.
fn rows_of(view: &[u8]) -> &[u8] {
    match (memchr(b',', view), memrchr(b',', view)) {
        (Some(begin), Some(end)) => view.get(begin..end).unwrap_or(view),
        _ => view,
    }
}

/// Returns whether a node takes part in a reset, according to the line of a view.
fn is_in_reset(view: &[u8]) -> bool {
    memmem::find(view, b"\"abort\"").is_some() || memmem::find(view, b"\"converge\"").is_some()
}
