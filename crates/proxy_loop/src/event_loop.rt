//! The state of the event loop.

ghost use Rattle.std.specs.Prelude.{◌≡◌, ◌==◌, [], false, None, MatchOption};
ghost use Rattle.slab.specs.Slab.{get, slab_len};
ghost use Rattle.proxy_core.specs.Machine.{new_proxy};

use crate::connection::Connection;
use crate::departing::Departed;
use crate::gateway::{Counts, Gateway, Moment};
use crate::listener::Listener;
use crate::number::{PLACES, number_of, place_of};
use crate::own::Own;
use crate::ready::Ready;
use crate::resetting::Resets;
use crate::settings::Settings;
use crate::unclear::Unclear;
use crate::upstream::Server;
use crate::watching::Views;
use mio::{Interest, Registry, Token};
use proxy_core::Proxy;
use proxy_streams::Addresses;
use slab::Slab;
use std::alloc::{AllocError, Global};
use std::collections::{BTreeMap, VecDeque};
use std::io;
use std::time::{Duration, UNIX_EPOCH};

/// The token of the server's connection. The tokens of listeners follow it.
pub(crate) const SERVER: usize = PLACES;

pub(crate) const LISTENERS: usize = SERVER + 1;

/// The event loop: all connections, and the core that passes lines and answers between them.
#[derive(Drop)]
pub struct EventLoop<G: Gateway> {
    pub(crate) alloc: Global,
    pub(crate) settings: Settings,
    pub(crate) gateway: G,
    pub(crate) listeners: Vec<Listener>,
    pub(crate) connections: Slab<Connection>,
    /// The number of connections of each role.
    pub(crate) open: BTreeMap<u32, usize>,
    /// The connections that have ended but still have lines in flight, by number.
    pub(crate) departed: BTreeMap<u64, Departed>,
    pub(crate) core: Proxy,
    pub(crate) addresses: Addresses,
    pub(crate) server: Option<Server>,
    /// Whether the server answers; None until that is known.
    pub(crate) is_answering: Option<bool>,
    /// The last `is_answering` that was reported.
    pub(crate) reported: Option<bool>,
    /// The number of lines of the flight that have no answer yet.
    pub(crate) in_flight: usize,
    /// The order whose answer is being passed on.
    pub(crate) order: Vec<u8>,
    pub(crate) counts: Counts,
    pub(crate) own: Own,
    /// The number of connections that have arrived, including the proxy's own.
    pub(crate) came: u64,
    /// The places of connections that have something to do.
    pub(crate) active: VecDeque<usize>,
    /// The places of connections that watch.
    pub(crate) watchers: Vec<usize>,
    pub(crate) views: Views,
    pub(crate) resets: Resets,
    /// The orders that may or may not have been carried out.
    pub(crate) unclear: VecDeque<Unclear>,
    /// Whether some client had not accepted all its answers when the connections were last checked.
    pub(crate) has_blocked: bool,
    /// When the proxy may try to connect to the server again.
    pub(crate) retry_at: Duration,
    /// When connections are accepted again, after a failure.
    pub(crate) accept_at: Duration,
    /// When the connections are next checked for lines that wait too long and clients that accept no answers.
    pub(crate) sweep_at: Duration,
    /// The time of the current turn of the loop.
    pub(crate) at: Moment,
}

impl<G: Gateway> EventLoop<G> {
    /// Returns an event loop over these listeners. `signals` is the path of the file that the server's signals are
    /// printed to.
    pub fn new(
        alloc: Global,
        settings: Settings,
        gateway: G,
        listeners: Vec<Listener>,
        addresses: Addresses,
        signals: Option<String>,
    ) -> Self
        ensures core { result.core ≡ new_proxy }
        ensures arguments { (result.settings ≡ settings) × (result.gateway ≡ gateway) × (result.listeners ≡ listeners) × (result.addresses ≡ addresses) × (result.views.signals ≡ signals) }
        ensures none { (slab_len result.connections ≡ 0) × (result.in_flight ≡ 0) × (result.server ≡ None) × (result.unclear.items ≡ []) }
    {
        EventLoop {
            alloc,
            settings,
            gateway,
            listeners,
            connections: Slab::new(alloc),
            open: BTreeMap::new(alloc),
            departed: BTreeMap::new(alloc),
            core: Proxy::new(alloc),
            addresses,
            server: None,
            is_answering: None,
            reported: None,
            in_flight: 0,
            order: Vec::new(alloc),
            counts: Counts {
                connections: 0,
                flights: 0,
                resends: 0,
                open: 0,
                watchers: 0,
                is_answering: None,
            },
            own: Own::new(alloc),
            came: 1,
            active: VecDeque::new(alloc),
            watchers: Vec::new(alloc),
            views: Views::new(alloc, signals),
            resets: Resets::new(alloc),
            unclear: VecDeque::new(alloc),
            has_blocked: false,
            retry_at: Duration::ZERO,
            accept_at: Duration::ZERO,
            sweep_at: Duration::ZERO,
            at: Moment {
                now: Duration::ZERO,
                time: UNIX_EPOCH,
            },
        }
    }

    /// Registers each listener, so that its connections are reported as events.
    pub(crate) fn register(&mut self, registry: &Registry) -> io::Result<()> {
        for index in 0..self.listeners.len() {
            if let Some(listener) = self.listeners.get_mut(index) {
                let token = Token(LISTENERS.saturating_add(index));
                registry.register(&mut listener.socket, token, Interest::READABLE)?;
            }
        }
        Ok(())
    }

    /// Records what an event's source is ready for.
    pub(crate) fn note(&mut self, ready: Ready) -> io::Result<()> {
        let token = ready.token;
        if token >= LISTENERS {
            if let Some(listener) = self.listeners.get_mut(token - LISTENERS) {
                listener.is_ready = true;
            }
            return Ok(());
        }
        if token == SERVER {
            return self.server_ready(ready);
        }
        if let Some(connection) = self.connections.get_mut(token) {
            if ready.is_readable || ready.is_closing {
                connection.is_readable = true;
                connection.is_closing = connection.is_closing || ready.is_closing;
            }
            self.activate(token)?;
        }
        Ok(())
    }

    /// Adds the connection at a place to the active ones, which have something to do. Errors: out of memory.
    pub(crate) fn activate(&mut self, place: usize) -> Result<(), AllocError> {
        if let Some(connection) = self.connections.get_mut(place) {
            if !connection.is_active {
                self.active.push_back(place)?;
                connection.is_active = true;
            }
        }
        Ok(())
    }

    /// Counts one more connection of a role, unless the role has reached its limit. Returns whether the connection was
    /// counted. Errors: out of memory.
    pub(crate) fn open_one(&mut self, role: Option<u32>) -> Result<bool, AllocError> {
        let role = counted_as(role);
        let open = self.open_in(role);
        if open >= self.settings.connections {
            return Ok(false);
        }
        self.open.insert(role, open.saturating_add(1))?;
        Ok(true)
    }

    /// Counts one connection fewer for a role.
    pub(crate) fn close_one(&mut self, role: Option<u32>) {
        let role = counted_as(role);
        let left = self.open_in(role).saturating_sub(1);
        if left == 0 {
            self.open.remove(&role);
        } else {
            // The entry is there, so this takes no memory.
            let _ = self.open.insert(role, left);
        }
    }

    fn open_in(&self, role: u32) -> usize {
        match self.open.get(&role) {
            Some(count) => *count,
            None => 0,
        }
    }

    /// Returns whether the connection at a place has this number.
    pub(crate) fn is_at(&self, place: usize, number: u64) -> bool
        ensures { MatchOption (get self.now.connections place) (result ≡ false) (λ connection. result ≡ (connection.number == number)) }
    {
        match self.connections.get(place) {
            Some(connection) => connection.number == number,
            None => false,
        }
    }

    /// Returns the number for a new connection at a place, or None if the numbers or the places are used up.
    pub(crate) fn next_number(&mut self, place: usize) -> Option<u64> {
        if self.came >= 1 << 44 || place >= PLACES {
            return None;
        }
        let number = number_of(self.came, place);
        self.came += 1;
        Some(number)
    }
}

/// Returns the role that a connection is counted under. A connection without a role is counted under the proxy's own
/// role.
fn counted_as(role: Option<u32>) -> u32 {
    role.unwrap_or(0)
}
