//! The state of a worker.

ghost use Rattle.std.specs.Prelude.{◌≡◌, []};
ghost use Rattle.coord_engine.specs.Working.{Keeps, one_more, with_put_down};

use crate::{PutDown, Waiting};
use coord_types::Packet;
use std::alloc::Global;

/// The packets that a worker keeps for another attempt, the number of packets that it has handled, and
/// the number that it has lost because memory ran out. The counts stop at the greatest u64.
#[derive(Drop)]
pub struct Hand {
    pub(crate) waiting: Waiting,
    put_down: u64,
    lost: u64,
}

impl Hand {
    /// Returns the state of a worker before its first packet.
    pub fn new(alloc: Global) -> Self
        ensures waiting { result.waiting ≡ [] }
        ensures counts { (result.put_down ≡ 0) × (result.lost ≡ 0) }
    {
        Hand {
            waiting: Waiting::new(alloc),
            put_down: 0,
            lost: 0,
        }
    }

    /// Keeps the packet if it has to wait. If memory runs out, the packet is lost; the server sends it
    /// again later.
    pub(crate) fn keep(&mut self, packet: &Packet, has_to_wait: bool)
        ensures { Keeps has_to_wait self.old packet.now self.new }
    {
        if !has_to_wait {
            return;
        }
        let Err(_) = self.waiting.put(*packet) else {
            return;
        };
        self.lost = one_more(self.lost);
    }

    /// Counts a packet as handled.
    pub(crate) fn count(&mut self, _put_down: PutDown)
        ensures { self.new ≡ with_put_down self.old }
    {
        self.put_down = one_more(self.put_down);
    }
}

fn one_more(count: u64) -> u64
    ensures { result ≡ one_more count }
{
    count.saturating_add(1)
}
