//! One direction of a link.

ghost use Rattle.std.specs.Prelude.{◌≡◌, ◌<◌, ◌≤◌, ◌-◌, ◌^◌, ◌↔◌, [], ◌∷◌, length, IsTrue};
ghost use Rattle.coord_link.specs.LaneMachine.{new_lane, sent, took, cleared, is_front_taken, transit, front_of, judged_take, judged_clear};

use coord_types::{Msg, Refusal};
use std::marker::Model;

/// The maximum number of messages in a lane.
pub const PLACES: usize = 4;

/// The padding after the queue in its array. It is never read.
const BEHIND: Msg = Msg::Ack;

/// One direction of a link: the messages from one node to its neighbour, numbered from 1 since the
/// link was made. Contracts see it as a lane of `specs/LaneMachine.antt`.
#[derive(Clone, Copy, PartialEq, Eq, Debug)]
pub struct Lane {
    inc: u64,
    base: u64,
    got: u64,
    /// The first `len` entries are the messages without a receipt, oldest first; the others are
    /// `BEHIND`, so equal lanes have equal arrays.
    queue: [Msg; PLACES],
    len: usize,
}

impl Model for Lane {
    ghost use Rattle.std.specs.Prelude.{◌≡◌, ◌≤◌, length, take};
    ghost use Rattle.coord_link.specs.Padded.{padded};
    ghost use Rattle.coord_link.specs.LaneMachine.{Lane as Machine, lane_code};

    ghost Value = { Machine };

    ghost coded = { lane_code };

    ghost view = { λ a. record {
      inc = a.inc;
      base = a.base;
      got = a.got;
      queue = take a.len a.queue;
    } };

    ghost invariant = { λ a. (a.queue ≡ padded (take a.len a.queue)) ×
        (a.len ≡ length (take a.len a.queue)) };

    ghost inverse = { λ l. record {
      inc = l.inc;
      base = l.base;
      got = l.got;
      queue = padded l.queue;
      len = length l.queue;
    } };

    ghost use Rattle.std.proofs.Common.{sym};

    ghost inverse_ok = { λ a h. λ i. record {
      inc = a.inc;
      base = a.base;
      got = a.got;
      queue = sym h.0 i;
      len = sym h.1 i;
    } };
}

impl Lane {
    /// Returns the empty lane of a link that step number `inc` made.
    pub fn new(inc: u64) -> Self
        ensures { result ≡ new_lane inc }
    {
        Lane {
            inc,
            base: 0,
            got: 0,
            queue: [BEHIND; PLACES],
            len: 0,
        }
    }

    /// Returns the lane with these numbers and this queue, oldest message first.
    pub fn restore(inc: u64, base: u64, got: u64, queue: &[Msg]) -> Self
        requires { length queue.now ≤ PLACES }
        ensures { result ≡ record { inc = inc; base = base; got = got; queue = queue.now } }
    {
        let mut lane = Lane {
            base,
            got,
            ..Lane::new(inc)
        };
        for msg in queue {
            lane.send(*msg);
        }
        lane
    }

    /// Returns the number of the step that made the link.
    pub fn inc(&self) -> u64
        ensures { result ≡ self.now.inc }
    {
        self.inc
    }

    /// Returns the number of receipted messages.
    pub fn base(&self) -> u64
        ensures { result ≡ self.now.base }
    {
        self.base
    }

    /// Returns the number of messages that the other end has taken.
    pub fn got(&self) -> u64
        ensures { result ≡ self.now.got }
    {
        self.got
    }

    /// Returns the messages without a receipt, oldest first.
    pub fn queue(&self) -> &[Msg]
        ensures value { result.now ≡ self.now.queue }
        ensures most { length self.now.queue ≤ PLACES }
    {
        &self.queue[..self.len]
    }

    /// Tests whether the queue is full.
    pub fn is_full(&self) -> bool
        ensures full { IsTrue result ↔ (length self.now.queue ≡ PLACES) }
        ensures most { length self.now.queue ≤ PLACES }
    {
        self.len == PLACES
    }

    /// Appends a message to the queue.
    pub fn send(&mut self, msg: Msg)
        requires { length self.old.queue < PLACES }
        ensures { self.new ≡ sent (msg ∷ []) self.old }
    {
        self.queue[self.len] = msg;
        self.len += 1;
    }

    /// Returns the number and the message of the front, or None if the queue is empty.
    pub fn current(&self) -> Option<(u64, Msg)>
        requires { self.now.base < 2 ^ 64 - 1 }
        ensures { result ≡ front_of self.now }
    {
        if self.len == 0 {
            None
        } else {
            Some((self.base + 1, self.queue[0]))
        }
    }

    /// Returns the number and the message of the next front: what `current` will return once the front is cleared.
    pub fn next(&self) -> Option<(u64, Msg)>
        requires front { 0 < length self.now.queue }
        requires room { self.now.base < 2 ^ 64 - 2 }
        ensures { result ≡ front_of (cleared self.now) }
    {
        if self.len < 2 {
            None
        } else {
            Some((self.base + 2, self.queue[1]))
        }
    }

    /// Returns whether the message with this number can be taken now. Errors: Old if the message was already taken;
    /// Early if it is not the next message, or the message before it has no receipt; Differs if it differs from the
    /// front.
    pub fn judge_take(&self, number: u64, msg: Msg) -> Result<(), Refusal>
        ensures { result ≡ judged_take self.now number msg }
    {
        if number <= self.got {
            return Err(Refusal::Old);
        }
        if number - 1 > self.got || self.got != self.base || self.len == 0 {
            return Err(Refusal::Early);
        }
        if self.queue[0] != msg {
            return Err(Refusal::Differs);
        }
        Ok(())
    }

    /// Records that the other end has taken the front. `judge_take` must have allowed it.
    pub fn take(&mut self)
        requires { self.old.got < 2 ^ 64 - 1 }
        ensures { self.new ≡ took self.old }
    {
        self.got += 1;
    }

    /// Returns whether a receipt with this number clears the front. Errors: Old if the receipt's message was already
    /// cleared; Early if that message was not taken or is not the front.
    pub fn judge_clear(&self, number: u64) -> Result<(), Refusal>
        ensures { result ≡ judged_clear self.now number }
    {
        if number <= self.base {
            return Err(Refusal::Old);
        }
        if number > self.got || number - 1 > self.base || self.len == 0 {
            return Err(Refusal::Early);
        }
        Ok(())
    }

    /// Removes the front, whose receipt has arrived. `judge_clear` must have allowed it.
    pub fn clear(&mut self)
        requires front { 0 < length self.old.queue }
        requires room { self.old.base < 2 ^ 64 - 1 }
        ensures { self.new ≡ cleared self.old }
    {
        self.base += 1;
        self.queue = [self.queue[1], self.queue[2], self.queue[3], BEHIND];
        self.len -= 1;
    }

    /// Tests whether the other end has taken the front, and so one message more than is receipted.
    pub fn is_front_taken(&self) -> bool
        ensures { result ≡ is_front_taken self.now }
    {
        self.got > self.base && self.got - self.base == 1
    }

    /// Returns the messages in transit: the queue, without its front if the other end has taken the front.
    pub fn transit(&self) -> &[Msg]
        ensures { result.now ≡ transit self.now }
    {
        let on_the_way = &self.queue[..self.len];
        if self.is_front_taken() && self.len != 0 {
            &on_the_way[1..]
        } else {
            on_the_way
        }
    }
}
