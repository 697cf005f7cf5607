//! The addresses of the server.

ghost use Rattle.std.specs.Prelude.{◌≡◌, ◌<◌, ◌*◌, [], length, slice_get, MatchOption, Some};
ghost use Rattle.std.specs.Duration.{as_nanos};
ghost use Rattle.proxy_streams.specs.Addresses.{following, longer};

use std::net::SocketAddr;
use std::time::Duration;

/// The first pause before another attempt, in milliseconds.
pub const FIRST_PAUSE: u64 = 20;

/// The longest pause, in milliseconds.
pub const LONGEST_PAUSE: u64 = 1000;

/// The addresses of the server, the index of the address in use, and the pause before the next attempt.
#[derive(Drop)]
pub struct Addresses {
    all: Vec<SocketAddr>,
    index: usize,
    pause: u64,
    ghost some: { index < length all.items },
}

impl Addresses {
    /// Returns these addresses with the first in use, or None if the list is empty.
    pub fn new(all: Vec<SocketAddr>) -> Option<Self>
        ensures { MatchOption result (all.items ≡ []) (λ a. (a.all ≡ all) × (a.index ≡ 0) × (a.pause ≡ FIRST_PAUSE)) }
    {
        if all.is_empty() {
            return None;
        }
        Some(Addresses {
            all,
            index: 0,
            pause: FIRST_PAUSE,
        })
    }

    /// Returns the address in use.
    pub fn used(&self) -> SocketAddr
        ensures { slice_get self.now.all.items self.now.index ≡ Some result }
    {
        self.all[self.index]
    }

    /// Changes to the next address, and returns the pause before the proxy tries it. Each pause is twice as long as the
    /// last, from 20 milliseconds up to one second.
    pub fn leave(&mut self) -> Duration
        ensures pause { as_nanos result ≡ self.old.pause * 1000000 }
        ensures next { self.new.index ≡ following (length self.old.all.items) self.old.index }
        ensures longer { self.new.pause ≡ longer self.old.pause }
        ensures all { self.new.all ≡ self.old.all }
    {
        let pause = Duration::from_millis(self.pause);
        self.pause = self.pause.saturating_mul(2).min(LONGEST_PAUSE);
        self.index = if self.index + 1 < self.all.len() {
            self.index + 1
        } else {
            0
        };
        pause
    }

    /// Records that the server answered: the next pause is the shortest.
    pub fn answered(&mut self)
        ensures pause { self.new.pause ≡ FIRST_PAUSE }
        ensures index { self.new.index ≡ self.old.index }
        ensures all { self.new.all ≡ self.old.all }
    {
        self.pause = FIRST_PAUSE;
    }
}
