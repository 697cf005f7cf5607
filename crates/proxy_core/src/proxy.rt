//! The proxy's state machine.

ghost use Rattle.std.specs.Prelude.{◌≡◌, ◌≤◌, ◌<◌, ◌↔◌, [], ◌∷◌, true, IfOk, OnErr, IsTrue, IsSome, length, filter, count_by, take, option_map, ◌&&◌, ◌||◌, not};
ghost use Rattle.proxy_core.specs.Rules.{Rules, as_sent, needs_number};
ghost use Rattle.proxy_core.specs.Pending.{is_from};
ghost use Rattle.std.specs.Option.{option_copied};
ghost use Rattle.std.specs.VecDeque.{deque_capacity, deque_len};
ghost use Rattle.proxy_core.specs.Machine.{begins_order, is_denied, is_none, lost_of, picked, picks_of, put_back, begins_query, view_after};
ghost use Rattle.proxy_core.specs.NextOrder.{next_number, next_order};

use crate::choice::{choose, take_out};
use crate::counts::{held_by, hold, release};
use crate::pending::Pending;
use crate::policy::Policy;
use std::alloc::{AllocError, Global};
use std::collections::{BTreeMap, VecDeque};
use std::marker::Model;

/// The maximum number of a connection's lines that have no answer. Further lines are deferred.
pub const MOST_HELD: usize = 64;

/// The maximum number of lines in a flight. The server commits a flight at once.
pub const MOST_FLIGHT_LINES: usize = 256;

/// What becomes of a line that arrives.
#[derive(Clone, Copy, Debug, PartialEq, Eq)]
pub enum Admission {
    /// The line was taken: it waits for the server, or is the next flight.
    Queued,
    /// The sender may not send the line. The loop answers so at once.
    Denied,
    /// The line was not taken. The loop offers it again after the next answer to its connection, or after another view.
    Deferred,
}

/// Where a server's answer goes.
#[derive(Clone, Copy, Debug, PartialEq, Eq)]
pub enum Outcome {
    /// The answer goes to this connection.
    To(u64),
    /// The answer does not say whether a line of this connection was carried out, or refuses the number of a line that
    /// gets no other number, or would come before the answer to an older line. The loop ends the connection.
    Ended(u64),
    /// The answer refuses the number of a line of this connection. The line waits again, for another number.
    Retry(u64),
    /// No line was in flight. The loop closes the connection to the server.
    Unsolicited,
}

/// The state machine. It holds the request lines of all connections that have no answer.
#[derive(Debug, Drop)]
pub struct Proxy {
    flight: VecDeque<Pending>,
    waiting: VecDeque<Pending>,
    refused: usize,
    held: BTreeMap<u64, usize>,
    is_up: bool,
    is_resent: bool,
    number: u64,
    last: u64,
    is_counted: bool,
    has_refusal: bool,
    needs_view: bool,
    view: Option<Vec<u8>>,
}

impl Model for Proxy {
    ghost use Rattle.std.specs.Prelude.{◌≤◌, length, option_map};
    ghost use Rattle.proxy_core.specs.Held.{AreHeld};
    ghost use Rattle.proxy_core.specs.Machine.{Proxy};

    ghost Value = { Proxy };

    ghost invariant = { λ f. AreHeld f.held f.flight.items f.waiting.items × (f.refused ≤ length f.waiting.items) };

    ghost view = { λ f. record { flight = f.flight.items; waiting = f.waiting.items; refused = f.refused; is_up = f.is_up; is_resent = f.is_resent; number = f.number; last = f.last; is_counted = f.is_counted; has_refusal = f.has_refusal; needs_view = f.needs_view; view = option_map (λ v. v.items) f.view } };
}

impl Proxy {
    ghost use Rattle.proxy_core.specs.Pending.{is_from, new_pending, text_of};
    ghost use Rattle.proxy_core.specs.Machine.{after_broken, after_connection, after_following, after_number, after_outcome, after_admission, after_taken, counted, without_connection, outcome, flown, has_denied, held, is_late, lost, may_go, new_proxy, picks_of, admission, admission_after_view, denial, may_connect, may_follow, taken_back};

    /// Returns a proxy without lines and without a connection to the server.
    pub fn new(alloc: Global) -> Self
        ensures { result ≡ new_proxy }
    {
        Proxy {
            flight: VecDeque::new(alloc),
            waiting: VecDeque::new(alloc),
            refused: 0,
            held: BTreeMap::new(alloc),
            is_up: false,
            is_resent: false,
            number: 0,
            last: 0,
            is_counted: false,
            has_refusal: false,
            needs_view: false,
            view: None,
        }
    }

    /// Returns whether fewer than `most` lines of a connection are without an answer.
    fn holds_fewer(&self, connection: u64, most: usize) -> bool
        ensures { IsTrue result ↔ (held connection self.now < most) }
    {
        held_by(&self.held, connection) < most
    }

    /// Takes a line that arrived from a connection in this role, and returns what becomes of the line. A line that
    /// needs a view is deferred: `start_after_view` takes it. Errors: out of memory; nothing changes.
    pub fn admit<P: Policy>(
        &mut self,
        alloc: Global,
        policy: &P,
        connection: u64,
        role: u32,
        line: &[u8],
    ) -> Result<Admission, AllocError>
        ensures returned { IfOk result (λ t. t ≡ admission (P.rules policy.now) connection role line.now self.old) }
        ensures taken { IfOk result (λ t. self.new ≡ after_admission t
            (new_pending connection line.now ((P.rules policy.now).is_once line.now) ((P.rules policy.now).is_query line.now) (needs_number (P.rules policy.now) line.now)) self.old) }
        ensures err { OnErr result (self.new ≡ self.old) }
    {
        let judgement = policy.judge(alloc, role, line)?;
        if !judgement.is_allowed {
            return Ok(self.denial(connection));
        }
        if judgement.needs_view || !self.holds_fewer(connection, MOST_HELD) {
            return Ok(Admission::Deferred);
        }
        let copy = Vec::from_slice(alloc, line)?;
        let is_unnumbered = judgement.is_unnumbered && !judgement.is_once;
        let pending = Pending::new(
            connection,
            copy,
            judgement.is_once,
            judgement.is_query,
            is_unnumbered,
        );
        self.waiting.reserve(1)?;
        let count = held_by(&self.held, connection);
        hold(&mut self.held, connection, count + 1)?;
        self.waiting.push_back_reserved(pending);
        Ok(Admission::Queued)
    }

    /// Returns what becomes of a line that its sender may not send: the line is deferred until all earlier lines of its
    /// connection have their answers, and then denied.
    fn denial(&self, connection: u64) -> Admission
        ensures { result ≡ denial connection self.now }
    {
        if self.holds_fewer(connection, 1) {
            Admission::Denied
        } else {
            Admission::Deferred
        }
    }

    /// Returns whether a connection in this role has a waiting line that the policy does not allow. After the policy
    /// changes, the loop ends each such connection. Errors: out of memory.
    pub fn has_denied<P: Policy>(
        &self,
        alloc: Global,
        policy: &P,
        connection: u64,
        role: u32,
    ) -> Result<bool, AllocError>
        ensures { IfOk result (λ denied. denied ≡ has_denied (P.rules policy.now) connection role self.now) }
    {
        for i in 0..self.waiting.len() {
            if is_denied(alloc, policy, connection, role, &self.waiting[i])? {
                return Ok(true);
            }
        }
        Ok(false)
    }

    /// Makes a flight of waiting lines, and returns the number of its lines, which the loop writes to the
    /// server. Returns 0 if there is a flight already, if the proxy is not connected, or if no line may fly.
    ///
    /// The flight is the oldest line that may fly, with all lines of the same kind that may: queries fly
    /// together, and so do orders. A line does not fly before an older line of its connection. After an
    /// unnumbered order that flies, a later line of its connection flies only if it is an unnumbered order too.
    /// An unnumbered order flies only while the last number is known. After a flight with an order that was
    /// refused on its merits, only one unnumbered order of each connection flies, since the server refuses the
    /// numbers of all orders after a refused one. If there are too many lines, each connection gets one line
    /// in before any connection gets its second.
    /// Errors: out of memory; nothing changes.
    #[tactic(auto, using(crate::proofs::Picks::picks_length, crate::proofs::Picks::picks_may_go))]
    pub fn start_flight(&mut self, alloc: Global) -> Result<usize, AllocError>
        ensures went { IfOk result (λ n. 0 < n → (may_go (picks_of self.old.is_counted (not self.old.has_refusal) self.old.waiting) self.old ≡ true)
            × (self.new ≡ flown (picks_of self.old.is_counted (not self.old.has_refusal) self.old.waiting) self.old)) }
        ensures stays { IfOk result (λ n. n ≡ 0 → self.new ≡ self.old) }
        ensures goes { IfOk result (λ n. self.old.is_up ≡ true → self.old.flight ≡ [] → n ≡ length (picked (picks_of self.old.is_counted (not self.old.has_refusal) self.old.waiting) self.old.waiting)) }
        ensures err { OnErr result (self.new ≡ self.old) }
    {
        if !self.is_up || !is_none(&self.flight) {
            return Ok(0);
        }
        let Some(picks) = choose(alloc, &self.waiting, self.is_counted, !self.has_refusal)? else {
            return Ok(0);
        };
        let flight = take_out(alloc, &mut self.waiting, picks.as_slice())?;
        let count = flight.len();
        self.flight = flight;
        self.refused = 0;
        self.is_resent = false;
        self.has_refusal = false;
        self.number = self.last;
        self.needs_view = false;
        self.view = None;
        Ok(count)
    }

    /// Takes a line that needs a view, from a connection in this role, and returns what becomes of the line. The
    /// line alone becomes the next flight if no line is without an answer, the last number is known (if the line
    /// gets a number), and the view that was just heard permits the line. This view is the answer to the last line
    /// that was sent, over the same connection to the server. Otherwise the line is deferred until after another
    /// view. Errors: out of memory; nothing changes.
    pub fn start_after_view<P: Policy>(
        &mut self,
        alloc: Global,
        policy: &P,
        connection: u64,
        role: u32,
        line: &[u8],
    ) -> Result<Admission, AllocError>
        ensures returned { IfOk result (λ t. t ≡ admission_after_view (P.rules policy.now) connection role line.now self.old) }
        ensures taken { IfOk result (λ t. self.new ≡ after_following t
            (new_pending connection line.now ((P.rules policy.now).is_once line.now) ((P.rules policy.now).is_query line.now) (needs_number (P.rules policy.now) line.now)) self.old) }
        ensures err { OnErr result (self.new ≡ self.old) }
    {
        let judged = policy.judge(alloc, role, line)?;
        if !judged.is_allowed {
            return Ok(self.denial(connection));
        }
        let is_unnumbered = judged.is_unnumbered && !judged.is_once;
        if !self.may_follow(alloc, policy, is_unnumbered, line)? {
            return Ok(Admission::Deferred);
        }
        let copy = Vec::from_slice(alloc, line)?;
        let pending = Pending::new(
            connection,
            copy,
            judged.is_once,
            judged.is_query,
            is_unnumbered,
        );
        self.flight.reserve(1)?;
        let count = held_by(&self.held, connection);
        hold(&mut self.held, connection, count + 1)?;
        self.flight.push_back_reserved(pending);
        self.refused = 0;
        self.is_resent = false;
        self.has_refusal = false;
        self.number = self.last;
        self.needs_view = true;
        self.view = None;
        Ok(Admission::Queued)
    }

    /// Returns whether a line that needs a view may be sent now. Errors: out of memory.
    fn may_follow<P: Policy>(
        &self,
        alloc: Global,
        policy: &P,
        is_unnumbered: bool,
        line: &[u8],
    ) -> Result<bool, AllocError>
        requires { is_unnumbered ≡ needs_number (P.rules policy.now) line.now }
        ensures { IfOk result (λ may. may ≡ may_follow (P.rules policy.now) line.now self.now) }
    {
        if !self.is_up || !is_none(&self.flight) || !is_none(&self.waiting) {
            return Ok(false);
        }
        if !self.is_counted && is_unnumbered {
            return Ok(false);
        }
        match &self.view {
            Some(view) => policy.permits(alloc, view.as_slice(), line),
            None => Ok(false),
        }
    }

    /// Returns the bytes of the flight as they are written to the server. Errors: out of memory.
    pub fn flight_text<P: Policy>(&self, alloc: Global, policy: &P) -> Result<Vec<u8>, AllocError>
        ensures { IfOk result (λ text. text.items ≡ text_of (P.rules policy.now) self.now.number self.now.flight) }
    {
        let mut text = Vec::new(alloc);
        let mut number = self.number;
        for i in 0..self.flight.len() {
            let pending = &self.flight[i];
            let line = written(alloc, policy, number.saturating_add(1), pending)?;
            text.extend_from_slice(line.as_slice())?;
            text.push(b'\n')?;
            if pending.is_unnumbered() {
                number = number.saturating_add(1);
            }
        }
        Ok(text)
    }

    /// Takes an answer line of the server, and returns where the answer goes. If the line that it answers is a
    /// query and the last line that was sent, the answer is kept as a view that another line may need. Errors: out
    /// of memory; nothing changes, and the loop closes the connection to the server.
    pub fn answer<P: Policy>(
        &mut self,
        alloc: Global,
        policy: &P,
        answer: &[u8],
    ) -> Result<Outcome, AllocError>
        ensures returned { IfOk result (λ g. g ≡ outcome (P.rules policy.now) answer.now self.old) }
        ensures after { IfOk result (λ g. self.new ≡ after_outcome (P.rules policy.now) answer.now g self.old) }
        ensures err { OnErr result (self.new ≡ self.old) }
    {
        self.waiting.reserve(1)?;
        let view = view_after(alloc, &self.flight, answer)?;
        let outcome = self.outcome(policy, answer);
        if outcome == Outcome::Unsolicited {
            self.is_up = false;
            self.view = None;
            return Ok(outcome);
        }
        self.view = view;
        // An answer that was asked for is to the first line of the flight, so there is one.
        let Some(first) = self.flight.pop_front() else {
            return Ok(outcome);
        };
        if let Outcome::Retry(_) = outcome {
            put_back(&mut self.waiting, self.refused, first);
            self.refused += 1;
            self.count(policy, answer);
            return Ok(outcome);
        }
        release(&mut self.held, first.from(), 1);
        if first.is_unnumbered() {
            self.count(policy, answer);
        }
        if let Outcome::Ended(connection) = outcome {
            self.forget(connection);
        }
        Ok(outcome)
    }

    /// Returns where an answer of the server goes.
    fn outcome<P: Policy>(&self, policy: &P, answer: &[u8]) -> Outcome
        ensures { result ≡ outcome (P.rules policy.now) answer.now self.now }
    {
        if !self.is_up {
            return Outcome::Unsolicited;
        }
        let Some(first) = self.flight.front() else {
            return Outcome::Unsolicited;
        };
        let connection = first.from();
        if refuses_number(policy, answer, first) {
            return if self.is_resent || self.needs_view {
                Outcome::Ended(connection)
            } else {
                Outcome::Retry(connection)
            };
        }
        if self.ends(policy, answer, connection) {
            return Outcome::Ended(connection);
        }
        Outcome::To(connection)
    }

    /// Returns whether an answer ends this connection: the answer does not say whether a line that was sent twice was
    /// carried out, or would come before the answer to an older line.
    fn ends<P: Policy>(&self, policy: &P, answer: &[u8], connection: u64) -> bool
        ensures { result ≡ ((self.now.is_resent && (P.rules policy.now).is_inconclusive answer.now) || is_late self.now connection) }
    {
        (self.is_resent && policy.is_inconclusive(answer)) || self.is_late(connection)
    }

    /// Returns whether an older line of a connection waits again, because the server refused the line's number in this
    /// flight.
    fn is_late(&self, connection: u64) -> bool
        ensures { result ≡ is_late self.now connection }
    {
        count_from(&self.waiting, self.refused, connection) > 0
    }

    /// Updates the numbers after an answer to the first line of the flight, an order that the proxy gave a number.
    fn count<P: Policy>(&mut self, policy: &P, answer: &[u8])
        ensures { self.new ≡ after_number (P.rules policy.now) answer.now self.old }
    {
        let uses = policy.uses_number(answer);
        let is_refusal = policy.is_refusal(answer);
        let is_explained = policy.refuses_number(answer) && self.has_refusal && !self.is_resent;
        self.number = self.number.saturating_add(1);
        if uses {
            self.last = self.last.max(self.number);
        }
        self.is_counted = self.is_counted && (uses || is_refusal || is_explained);
        self.has_refusal = self.has_refusal || is_refusal;
    }

    /// Sets the last number of the proxy's client. The loop found it while no unnumbered order was in flight.
    pub fn set_last_number(&mut self, last: u64)
        ensures { self.new ≡ counted last self.old }
    {
        self.last = last;
        self.is_counted = true;
    }

    /// Drops the waiting lines of a connection that has ended. The connection's lines in flight stay in the flight.
    pub fn forget(&mut self, connection: u64)
        ensures { self.new ≡ without_connection connection self.old }
    {
        let refused = count_from(&self.waiting, self.refused, connection);
        self.refused = self.refused.saturating_sub(refused);
        let before = self.waiting.len();
        keep_others(&mut self.waiting, connection);
        release(
            &mut self.held,
            connection,
            before.saturating_sub(self.waiting.len()),
        );
    }

    /// Records that the connection to the server broke. The flight is to be sent again with the same bytes. Only a
    /// line that must not be sent twice is dropped: then this returns the line's connection, and the loop ends the
    /// connection, since nobody knows whether the line was carried out.
    pub fn server_lost(&mut self) -> Option<u64>
        ensures returned { result ≡ lost self.old }
        ensures after { self.new ≡ after_broken result self.old }
    {
        self.is_up = false;
        self.is_resent = true;
        self.view = None;
        if !begins_once(&self.flight) {
            return None;
        }
        let first = self.flight.pop_front()?;
        let connection = first.from();
        release(&mut self.held, connection, 1);
        self.forget(connection);
        Some(connection)
    }

    /// Takes back the first line of the flight after the connection to the server broke, if the line is an unnumbered
    /// order of this connection. Returns the number that the line was sent with, or None if no line is taken back. The
    /// line is not sent again, and its connection counts as ended. Nobody knows yet whether the number was used, so
    /// unnumbered orders wait until the loop finds the last number.
    pub fn take_back(&mut self, connection: u64) -> Option<u64>
        ensures returned { result ≡ taken_back connection self.old }
        ensures after { self.new ≡ after_taken result self.old }
    {
        if self.is_up || !begins_order(&self.flight, connection) {
            return None;
        }
        let first = self.flight.pop_front()?;
        let sender = first.from();
        let number = self.number.saturating_add(1);
        self.number = number;
        self.is_counted = false;
        release(&mut self.held, sender, 1);
        self.forget(sender);
        Some(number)
    }

    /// Records that the proxy is connected to the server. Returns true if it was not connected before: then the loop
    /// writes the flight. If the flight is a line that needs a view, nothing changes and this returns false: the loop
    /// takes the line back first.
    pub fn server_connected(&mut self) -> bool
        ensures returned { result ≡ may_connect self.old }
        ensures up { self.new ≡ after_connection self.old }
    {
        let may = !self.is_up && (!self.needs_view || is_none(&self.flight));
        self.is_up = self.is_up || may;
        may
    }

    /// Returns whether no line of a connection is in flight or waits.
    pub fn is_awaiting_nothing(&self, connection: u64) -> bool
        ensures { IsTrue result ↔ (held connection self.now < 1) }
    {
        self.holds_fewer(connection, 1)
    }

    /// Returns the line that the server's next answer belongs to, if this line is an order.
    pub fn next_order(&self) -> Option<&[u8]>
        ensures { option_copied result ≡ next_order self.now.flight }
    {
        let first = self.flight.front()?;
        if first.is_query() {
            return None;
        }
        Some(first.line())
    }

    /// Returns the number that the proxy gave to the line that the server's next answer belongs to, if this line is an
    /// unnumbered order.
    pub fn next_number(&self) -> Option<u64>
        ensures { result ≡ next_number self.now.number self.now.flight }
    {
        if self.flight.front()?.is_unnumbered() {
            Some(self.number.saturating_add(1))
        } else {
            None
        }
    }

    /// Returns the view that was just heard: the answer to the last line that was sent, if that line is a query and the
    /// connection to the server has not broken since.
    pub fn view(&self) -> Option<&[u8]>
        ensures { option_copied result ≡ self.now.view }
    {
        match &self.view {
            Some(view) => Some(view.as_slice()),
            None => None,
        }
    }

    /// Returns the highest number of the proxy's client that the server is known to have used. The numbers after it that
    /// the server may have used too are those of one flight.
    pub fn last_number(&self) -> u64
        ensures { result ≡ self.now.last }
    {
        self.last
    }

    /// Returns whether the last number of the proxy's client is known. While it is unknown, unnumbered orders wait.
    pub fn is_counted(&self) -> bool
        ensures { result ≡ self.now.is_counted }
    {
        self.is_counted
    }

    /// Returns whether the proxy is connected to the server.
    pub fn is_up(&self) -> bool
        ensures { result ≡ self.now.is_up }
    {
        self.is_up
    }

    /// Returns whether no line is in flight and no line waits.
    pub fn is_idle(&self) -> bool
        ensures { IsTrue result ↔ ((self.now.flight ≡ []) × (self.now.waiting ≡ [])) }
    {
        self.flight.is_empty() && self.waiting.is_empty()
    }
}

/// Returns a copy of this answer, if it is to the last line of a flight and that line is a query. Errors: out of
/// memory.
fn view_after(
    alloc: Global,
    flight: &VecDeque<Pending>,
    answer: &[u8],
) -> Result<Option<Vec<u8>>, AllocError>
    ensures { IfOk result (λ view. option_map (λ v. v.items) view ≡ view_after answer.now flight.now.items) }
{
    if flight.len() != 1 || !begins_query(flight) {
        return Ok(None);
    }
    Ok(Some(Vec::from_slice(alloc, answer)?))
}

/// Returns whether the first line of the flight is a query.
fn begins_query(flight: &VecDeque<Pending>) -> bool
    ensures { result ≡ begins_query flight.now.items }
{
    match flight.front() {
        Some(first) => first.is_query(),
        None => false,
    }
}

/// Returns whether a line is from this connection, and connections in this role may not send it. Errors: out of
/// memory.
fn is_denied<P: Policy>(
    alloc: Global,
    policy: &P,
    connection: u64,
    role: u32,
    pending: &Pending,
) -> Result<bool, AllocError>
    ensures { IfOk result (λ denied. denied ≡ is_denied (P.rules policy.now) connection role pending.now) }
{
    if pending.from() != connection {
        return Ok(false);
    }
    let judgement = policy.judge(alloc, role, pending.line())?;
    Ok(!judgement.is_allowed)
}

/// Returns a line as it is written to the server, without its line feed. An unnumbered order gets this number. Errors:
/// out of memory.
fn written<P: Policy>(
    alloc: Global,
    policy: &P,
    number: u64,
    pending: &Pending,
) -> Result<Vec<u8>, AllocError>
    ensures { IfOk result (λ text. text.items ≡ as_sent (P.rules policy.now) number pending.now.is_unnumbered pending.now.line) }
{
    if pending.is_unnumbered() {
        policy.spell(alloc, number, pending.line())
    } else {
        Vec::from_slice(alloc, pending.line())
    }
}

/// Returns whether an answer refuses the number that the proxy gave to a line.
fn refuses_number<P: Policy>(policy: &P, answer: &[u8], pending: &Pending) -> bool
    ensures { result ≡ (pending.now.is_unnumbered && (P.rules policy.now).refuses_number answer.now) }
{
    pending.is_unnumbered() && policy.refuses_number(answer)
}

/// Returns how many of the first `most` lines are from this connection.
fn count_from(lines: &VecDeque<Pending>, most: usize, connection: u64) -> usize
    requires { most ≤ length lines.now.items }
    ensures { result ≡ count_by (is_from connection) (take most lines.now.items) }
{
    let mut count = 0;
    for i in 0..most {
        if lines[i].from() == connection {
            count += 1;
        }
    }
    count
}

/// Inserts a line into the waiting lines, after the first `refused` lines, whose numbers were refused before.
fn put_back(waiting: &mut VecDeque<Pending>, refused: usize, pending: Pending)
    requires within { refused ≤ length waiting.old.items }
    requires reserved { deque_len waiting.old < deque_capacity waiting.old }
    ensures { waiting.new.items ≡ put_back refused (pending ∷ []) waiting.old.items }
{
    // The room is reserved, so this takes no memory.
    let _ = waiting.insert(refused, pending);
}

/// Drops the waiting lines of a connection.
fn keep_others(waiting: &mut VecDeque<Pending>, connection: u64)
    ensures { waiting.new.items ≡ filter (λ a. not (is_from connection a)) waiting.old.items }
{
    waiting.retain(|pending| pending.from() != connection);
}

/// Returns whether there is no line.
fn is_none(lines: &VecDeque<Pending>) -> bool
    ensures { result ≡ is_none lines.now.items }
{
    lines.is_empty()
}

/// Returns whether the first line of the flight must not be sent twice.
fn begins_once(flight: &VecDeque<Pending>) -> bool
    ensures { IsTrue result ↔ IsSome (lost_of flight.now.items) }
{
    match flight.front() {
        Some(first) => first.is_once(),
        None => false,
    }
}

/// Returns whether the first line of the flight is an unnumbered order of this connection.
fn begins_order(flight: &VecDeque<Pending>, connection: u64) -> bool
    ensures { result ≡ begins_order connection flight.now.items }
{
    match flight.front() {
        Some(first) => first.is_unnumbered() && first.from() == connection,
        None => false,
    }
}
