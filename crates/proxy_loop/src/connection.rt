//! A client's connection.

ghost use Rattle.std.specs.Prelude.{◌≡◌, ◌⊎◌, ◌++◌, ◌∷◌, [], length, true, false, OnOk, List, ℕ, None, Some};
ghost use Rattle.std.specs.Option.{unwrap_or};
ghost use Rattle.std.specs.Duration.{as_nanos};
ghost use Rattle.proxy_core.specs.declared.proxy.Admission.TheVariants.{Queued, Denied, Deferred};
ghost use Rattle.proxy_streams.specs.Inboxes.{after_line, new_inbox};
ghost use Rattle.proxy_loop.specs.Answers.{not_allowed};
ghost use Rattle.proxy_loop.specs.Waiting.{role_of, waited_since};

use crate::gateway::{Exchange, ExchangeKind, Gateway, Moment};
use crate::recording::{Recorded, Written, record};
use coord_types::NodeId;
use mio::net::UnixStream;
use proxy_core::Admission;
use proxy_streams::{Inbox, MOST_PIECE_BYTES, Outbox, Sending};
use std::alloc::{AllocError, Global};
use std::collections::VecDeque;
use std::io;
use std::io::{ErrorKind, Read};
use std::time::Duration;

/// The answer to a line that its sender may not send, without its line feed.
pub(crate) const NOT_ALLOWED: &[u8] = b"{\"fault\":\"NotAllowed\"}";

/// A client's connection, with its lines and answers.
#[derive(Drop)]
pub(crate) struct Connection {
    pub stream: UnixStream,
    pub number: u64,
    /// The client's role. None until the header that says who the client is has arrived.
    pub role: Option<u32>,
    /// The bytes of this header that have arrived.
    pub header: Vec<u8>,
    /// When the connection was accepted.
    pub since: Duration,
    pub inbox: Inbox,
    outbox: Outbox,
    /// For each line without an answer, oldest first, when the line was taken, or when it was first kept back.
    pub asked: VecDeque<Duration>,
    /// Whether there may be bytes to read.
    pub is_readable: bool,
    /// Whether the client has closed its sending side. No further event comes then, so the stream is read to its end.
    pub is_closing: bool,
    /// Whether the input has ended.
    pub has_ended: bool,
    /// Whether the next line waits for the answer to an earlier line.
    pub is_deferred: bool,
    /// The node and the epoch that the next line names, if it is a reset that waits to be judged or is on its way.
    pub reset: Option<(NodeId, u64)>,
    /// Whether the next line waits until the resets are judged.
    pub is_parked: bool,
    /// Since when the next line is kept back because a reset is judged. None if the line is not kept back.
    pub kept_since: Option<Duration>,
    /// Whether the connection is in the list of connections that have something to do.
    pub is_active: bool,
    /// Since when the client has taken no bytes of its unsent answers. None if sending is not blocked.
    pub blocked_since: Option<Duration>,
    pub is_watching: bool,
    /// If the last line is a `watch` without an answer, the number of views that were requested before it. A view that
    /// is requested later answers the `watch`.
    pub view_after: Option<u64>,
    /// Whether the newest view is to be sent after all earlier answers.
    pub owes_view: bool,
}

impl Connection {
    /// Returns a connection that has received no bytes yet.
    pub fn new(
        alloc: Global,
        stream: UnixStream,
        number: u64,
        role: Option<u32>,
        since: Duration,
    ) -> Self
        ensures arguments { (result.stream ≡ stream) × (result.number ≡ number) × (result.role ≡ role) × (result.since ≡ since) }
        ensures empty { (result.header.items ≡ []) × (result.inbox ≡ new_inbox) × (result.outbox ≡ []) × (result.asked.items ≡ []) }
        ensures open { (result.is_readable ≡ true) × (result.is_closing ≡ false) × (result.has_ended ≡ false) × (result.blocked_since ≡ None) }
        ensures idle { (result.is_deferred ≡ false) × (result.reset ≡ None) × (result.is_parked ≡ false) × (result.kept_since ≡ None) × (result.is_active ≡ false) }
        ensures blind { (result.is_watching ≡ false) × (result.view_after ≡ None) × (result.owes_view ≡ false) }
    {
        Connection {
            stream,
            number,
            role,
            header: Vec::new(alloc),
            since,
            inbox: Inbox::new(alloc),
            outbox: Outbox::new(alloc),
            asked: VecDeque::new(alloc),
            is_readable: true,
            is_closing: false,
            has_ended: false,
            is_deferred: false,
            reset: None,
            is_parked: false,
            kept_since: None,
            is_active: false,
            blocked_since: None,
            is_watching: false,
            view_after: None,
            owes_view: false,
        }
    }

    /// Reads from the stream once, if all bytes read before are in the next line and this line is not complete. Errors:
    /// out of memory.
    pub fn fill(&mut self) -> Result<(), AllocError>
        ensures others { self.new ≡ record self.old { stream = self.new.stream; inbox = self.new.inbox; is_readable = self.new.is_readable; has_ended = self.new.has_ended } }
        ensures line { (self.new.inbox.line ≡ self.old.inbox.line) × (self.new.inbox.is_whole ≡ self.old.inbox.is_whole) }
        ensures waits { self.old.inbox.is_whole ≡ true → self.new.inbox ≡ self.old.inbox }
        ensures ended { self.old.has_ended ≡ false → self.new.has_ended ≡ true → (self.new.is_readable ≡ false) × (self.new.inbox ≡ self.old.inbox) }
    {
        if !self.inbox.is_drained() {
            return Ok(());
        }
        let mut chunk = [0u8; MOST_PIECE_BYTES];
        match self.stream.read(&mut chunk) {
            Ok(0) => self.end_input(),
            Ok(count) => {
                if count < MOST_PIECE_BYTES && !self.is_closing {
                    self.is_readable = false;
                }
                self.inbox.fill(&chunk[..count])?;
            }
            Err(error) => match error.kind() {
                ErrorKind::WouldBlock => self.is_readable = false,
                ErrorKind::Interrupted => {}
                _ => self.end_input(),
            },
        }
        Ok(())
    }

    fn end_input(&mut self)
        ensures { self.new ≡ record self.old { has_ended = true; is_readable = false } }
    {
        self.has_ended = true;
        self.is_readable = false;
    }

    /// Returns the number of answer bytes that are not sent yet.
    pub fn unsent(&self) -> usize
        ensures { result ≡ length self.now.outbox }
    {
        self.outbox.len()
    }

    /// Returns how long the oldest line without an answer has waited, or zero if every line has its answer.
    pub fn waited(&self, now: Duration) -> Duration
        ensures { as_nanos result ≡ waited_since (as_nanos now) self.now.asked.items }
    {
        match self.asked.front() {
            Some(asked) => now.saturating_sub(*asked),
            None => Duration::ZERO,
        }
    }

    /// Notes that the next line is kept back, unless that was noted before.
    pub fn keep(&mut self, now: Duration)
        ensures { self.new ≡ record self.old { kept_since = Some (unwrap_or self.old.kept_since now) } }
    {
        self.kept_since = Some(self.kept_since.unwrap_or(now));
    }

    /// Returns the exchange for the answer to the oldest line without an answer.
    pub fn exchange<'l, 'a>(
        &self,
        kind: ExchangeKind,
        line: Option<&'l [u8]>,
        answer: &'a [u8],
        at: Moment,
    ) -> Exchange<'l, 'a>
        ensures given { (result.kind ≡ kind) × (result.line ≡ line.entry) × (result.answer ≡ answer.entry) × (result.at ≡ at) }
        ensures role { result.role ≡ role_of self.now.role }
        ensures waited { as_nanos result.waited ≡ waited_since (as_nanos at.now) self.now.asked.items }
    {
        Exchange {
            role: self.role.unwrap_or(0),
            kind,
            line,
            answer,
            waited: self.waited(at.now),
            at,
        }
    }

    /// Does what the core's admission of the next line requires: a queued line is taken, a denied line is answered and
    /// taken, and a deferred line stays. Errors: out of memory.
    pub fn settle<G: Gateway>(
        &mut self,
        alloc: Global,
        gateway: &mut G,
        admission: Admission,
        at: Moment,
    ) -> Result<(), AllocError>
        ensures others { self.new ≡ record self.old { inbox = self.new.inbox; outbox = self.new.outbox; asked = self.new.asked; kept_since = self.new.kept_since; is_deferred = self.new.is_deferred; reset = self.new.reset } }
        ensures queued { admission ≡ Queued → OnOk result ((self.new.inbox ≡ after_line self.old.inbox) × (self.new.outbox ≡ self.old.outbox)) }
        ensures denied { admission ≡ Denied → OnOk result ((self.new.inbox ≡ after_line self.old.inbox) × (self.new.outbox ≡ self.old.outbox ++ (not_allowed ++ 10 ∷ []))) }
        ensures since { admission ≡ Queued → OnOk result (self.new.asked.items ≡ self.old.asked.items ++ (unwrap_or self.old.kept_since at.now ∷ [])) }
        ensures deferred { admission ≡ Deferred → OnOk result ((self.new.inbox ≡ self.old.inbox) × (self.new.outbox ≡ self.old.outbox) × (self.new.is_deferred ≡ true)) }
    {
        match admission {
            Admission::Queued => {
                let since = self.kept_since.take().unwrap_or(at.now);
                self.asked.push_back(since)?;
                self.inbox.drop_line();
            }
            Admission::Denied => {
                self.refuse(alloc, gateway, ExchangeKind::Denied, NOT_ALLOWED, at)?;
            }
            Admission::Deferred => self.is_deferred = true,
        }
        Ok(())
    }

    /// Answers the next line without the server, after all earlier answers. The answer is recorded before it is sent.
    /// Errors: out of memory.
    pub fn refuse<G: Gateway>(
        &mut self,
        alloc: Global,
        gateway: &mut G,
        kind: ExchangeKind,
        answer: &[u8],
        at: Moment,
    ) -> Result<(), AllocError>
        ensures sent { OnOk result (self.new.outbox ≡ self.old.outbox ++ (answer.now ++ 10 ∷ [])) }
        ensures taken { OnOk result (self.new.inbox ≡ after_line self.old.inbox) }
        ensures others { self.new ≡ record self.old { inbox = self.new.inbox; outbox = self.new.outbox; asked = self.new.asked; kept_since = self.new.kept_since; is_deferred = self.new.is_deferred; reset = self.new.reset } }
        ensures resumed { OnOk result (self.new.is_deferred ≡ false) }
    {
        let exchange = self.exchange(kind, self.inbox.line(), answer, at);
        let recorded = record(alloc, gateway, exchange)?;
        self.outbox.push_line(recorded.answer())?;
        self.asked.pop_front();
        self.inbox.drop_line();
        self.kept_since = None;
        self.is_deferred = false;
        self.reset = None;
        Ok(())
    }

    /// Takes the answer to the oldest line without an answer, to be sent after all earlier answers. Then the next line
    /// may be taken. Errors: out of memory.
    pub fn give(&mut self, answer: &Recorded<'_>) -> Result<(), AllocError>
        ensures sent { OnOk result (self.new.outbox ≡ self.old.outbox ++ (answer.now.answer.now ++ 10 ∷ [])) }
        ensures taken { self.old.reset ≡ None → OnOk result (self.new.inbox ≡ self.old.inbox) }
        ensures others { self.new ≡ record self.old { inbox = self.new.inbox; outbox = self.new.outbox; asked = self.new.asked; kept_since = self.new.kept_since; is_deferred = self.new.is_deferred; reset = self.new.reset } }
        ensures resumed { OnOk result (self.new.is_deferred ≡ false) }
    {
        self.outbox.push_line(answer.answer())?;
        self.asked.pop_front();
        if self.reset.is_some() {
            self.inbox.drop_line();
            self.kept_since = None;
            self.reset = None;
        }
        self.is_deferred = false;
        Ok(())
    }

    /// Adds a view after the unsent answers. Errors: out of memory.
    pub fn show(&mut self, view: &[u8]) -> Result<(), AllocError>
        ensures sent { OnOk result (self.new.outbox ≡ self.old.outbox ++ (view.now ++ 10 ∷ [])) }
        ensures others { self.new ≡ record self.old { outbox = self.new.outbox } }
    {
        self.outbox.push_line(view)
    }

    /// Sends as many bytes of the unsent answers as the client takes. Returns false if the connection has failed.
    pub fn send<G: Gateway>(&mut self, _written: &Written<'_, G>, now: Duration) -> bool
        ensures sent { (part : List ℕ) × (self.old.outbox ≡ part ++ self.new.outbox) }
        ensures whole { result ≡ true → self.new.blocked_since ≡ None → self.new.outbox ≡ [] }
        ensures since { (self.new.blocked_since ≡ None) ⊎ (self.new.blocked_since ≡ Some now) ⊎ (self.new.blocked_since ≡ self.old.blocked_since) }
        ensures others { self.new ≡ record self.old { stream = self.new.stream; outbox = self.new.outbox; blocked_since = self.new.blocked_since } }
    {
        let before = self.outbox.len();
        match self.outbox.send(&mut self.stream) {
            Sending::Whole => {
                self.blocked_since = None;
                true
            }
            Sending::Blocked => {
                if self.blocked_since.is_none() || self.outbox.len() < before {
                    self.blocked_since = Some(now);
                }
                true
            }
            Sending::Failed => false,
        }
    }
}
