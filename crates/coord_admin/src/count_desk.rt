//! A desk that only counts its orders.

ghost use Rattle.std.specs.Prelude.{◌≡◌};
ghost use Rattle.coord_admin.specs.CountDesk.{answer_of, count_after, Counts};

use crate::desk::Desk;
use coord_types::{Client, Command, Kind, Refusal, Reply};
use coord_view::View;
use std::alloc::Global;
use std::marker::Model;

/// A desk in memory that replies to its n-th order with step n and kind Done. Contracts see its count.
#[derive(Drop)]
pub struct CountDesk {
    alloc: Global,
    count: u64,
}

impl Model for CountDesk {
    ghost use Rattle.std.specs.Prelude.{ℕ};

    ghost Value = { ℕ };

    ghost view = { λ a. a.count };
}

impl CountDesk {
    /// Returns a desk that starts from this count.
    pub fn new(alloc: Global, count: u64) -> Self
        ensures { result ≡ count }
    {
        CountDesk { alloc, count }
    }
}

/// A counted order, with its reply.
pub struct Counted {
    reply: Result<Reply, Refusal>,
}

impl Desk for CountDesk {
    ghost use Rattle.coord_admin.specs.Counted.{counted_answered, counted_apart, counted_keeps};

    type Posted = Counted;

    ghost answers = { λ n request answer m. (answer ≡ answer_of n request) ×
        (m ≡ count_after n request) };

    ghost posts = { λ n request posted m. Counts n request posted.reply m };

    ghost replies = { λ n posted reply m. (reply ≡ posted.reply) × (m ≡ n) };

    ghost keeps = { λ n kept. kept ≡ n };

    fn kept(&self) -> usize {
        self.count as usize
    }

    fn post(&mut self, _client: Client, _number: u64, _command: Command) -> Counted {
        if self.count == u64::MAX {
            return Counted {
                reply: Err(Refusal::Exhausted),
            };
        }
        self.count += 1;
        Counted {
            reply: Ok(Reply {
                step: self.count,
                kind: Kind::Done,
            }),
        }
    }

    fn reply(&mut self, posted: Counted) -> Result<Reply, Refusal> {
        let Counted { reply } = posted;
        reply
    }

    fn show(&mut self) -> Result<View, Refusal> {
        Ok(View {
            accepted: self.count,
            settled: self.count,
            nodes: Vec::new(self.alloc),
            links: Vec::new(self.alloc),
        })
    }

    fn resend(&mut self) -> Result<u64, Refusal> {
        Ok(0)
    }

    fn close(&mut self) {}

    ghost is_answered = { λ a b c r p x put replied. counted_answered a b c r p.reply x put replied };

    ghost stays_apart = { λ a b c r p q x put replied.
        counted_apart a b c r p.reply q.reply x put replied };

    ghost loses_none = { λ a b p x kept replied is. counted_keeps a b kept replied.1 is };
}
