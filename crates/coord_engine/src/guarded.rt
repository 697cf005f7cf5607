//! The value under an engine's lock: the ledger, and the count of the callers' accepted steps.
//!
//! Each call of an engine takes the lock and calls a method of this module. The method's contract
//! states the effect of the call.

ghost use Rattle.std.specs.Prelude.{◌≡◌, ◌<◌, [], IfNone, IfSome, None};
ghost use Rattle.coord_engine.specs.MonotoneLog.{Beginning};
ghost use Rattle.coord_engine.specs.Past.{IsPastOf};
ghost use Rattle.coord_engine.specs.State.{CanHold, based_on, guarded_over, most_shares, with_finish, with_share};

mod closing;
mod collecting;
mod comparing;
mod flushing;
mod pacing;
mod pending_wake;
mod submitting;

use crate::{LogAuthority, MonotoneLog, Origin, Share};
use coord_disk::Disk;
use coord_ledger::Ledger;
pub use pacing::PutDown;
pub use pending_wake::PendingWake;
use std::alloc::Global;
use std::marker::Model;
use std::sync::ledger::{Blank, Book, Share as Part};

/// The maximum number of shares of an engine. The count of accepted steps has one part for each
/// share and one more part, which stays with the engine.
const MOST_SHARES: u32 = 65_535;

/// The value under the lock. Contracts see `GuardedState` (`specs/State.antt`).
///
/// In addition to the ledger's invariant, the type guarantees the following. The trail begins with
/// the trail of the ledger that `L` names, and has grown by as many steps as all shares have noted.
/// Once the ledger has stopped, no flight is out. A crash at any moment since the engine was
/// created has left only worlds after a prefix of the accepted steps (`specs/Past.antt`).
#[derive(Drop)]
pub struct Guarded<D: Disk, L: Origin> {
    alloc: Global,
    ledger: Ledger<D>,
    /// The count of the steps accepted for shares.
    book: Book<L>,
    /// The token that has written the steps of earlier instances and then the settled steps.
    writer: LogAuthority,
    /// The parts of the count that are in no share.
    rest: Part<L>,
    given: u32,
    start: usize,
    finishing: bool,
    in_hand: u64,
    awaited: u64,
}

impl<D: Disk, L: Origin> Model for Guarded<D, L> {
    ghost use Rattle.std.specs.Prelude.{◌≡◌, ◌+◌, ◌≤◌, length, take, IfSome, None};
    ghost use Rattle.coord_engine.specs.Released.{HasReadSettled};
    ghost use Rattle.coord_engine.specs.Past.{StaysAlong, last_steps};
    ghost use Rattle.coord_engine.specs.State.{GuardedState, most_shares};
    ghost use Rattle.coord_ledger.specs.machine.Log.{settled_steps};

    ghost Value = { GuardedState D };

    ghost view = { λ g. record {
      ledger = g.ledger;
      start = g.start;
      noted = g.book.total;
      given = g.given;
      finishing = g.finishing;
      in_hand = g.in_hand;
      awaited = g.awaited;
    } };

    ghost invariant = { λ g.
        (g.given ≤ most_shares) × (g.rest.parts + g.given ≡ most_shares + 1) × (g.rest.amount ≡ 0)
        × (length g.ledger.log.trail ≡ g.start + g.book.total)
        × (g.ledger.log.base ≡ L.base) × (g.start ≡ length L.before) ×
        (take g.start g.ledger.log.trail ≡ L.before)
        × IfSome g.ledger.log.doubt (λ _. g.ledger.out ≡ None)
        × IfSome g.ledger.disk (StaysAlong D.model L.disk L.base (last_steps g.ledger.log g.ledger.log.doubt))
        × HasReadSettled L.history L.earlier (settled_steps g.ledger.log) g.writer };
}

impl<D: Disk, L: Origin> Guarded<D, L> {
    /// Wraps a ledger that `L` names and that has no flight out. The blank has 65,536 parts. The
    /// history has the steps of earlier instances.
    pub fn new(
        alloc: Global,
        blank: Blank,
        history: &MonotoneLog,
        writer: LogAuthority,
        ledger: Ledger<D>,
    ) -> Self
        requires name { blank.name ≡ L.name }
        requires parts { (blank.parts ≡ L.parts) × (L.parts ≡ 65536) }
        requires here { history.now ≡ L.history }
        requires earlier { writer ≡ record { history = L.history; steps = L.earlier } }
        requires home { ledger.out ≡ None }
        requires base { ledger.log.base ≡ L.base }
        requires before { ledger.log.trail ≡ L.before }
        requires disk { IfSome ledger.disk (IsPastOf D.model L.disk) }
        ensures { result ≡ guarded_over ledger }
    {
        ledger.lemma_log_is_consistent();
        ledger.lemma_images_give_settled();
        let mut writer = writer;
        flushing::write_settled::<D, L>(&mut writer, history, &ledger);
        let (book, rest) = blank.open::<L>();
        let start = ledger.trail().len();
        Guarded {
            alloc,
            ledger,
            book,
            writer,
            rest,
            given: 0,
            start,
            finishing: false,
            in_hand: 0,
            awaited: 0,
        }
    }

    /// Returns a share without notes, or None if all 65,535 shares are taken.
    pub fn share(&mut self) -> Option<Share<L>>
        ensures some { IfSome result (λ share. (share ≡ []) × (self.old.given < most_shares) ×
            (self.new ≡ with_share self.old)) }
        ensures none { IfNone result ((self.old.given ≡ most_shares) × (self.new ≡ self.old)) }
    {
        if self.given >= MOST_SHARES {
            return None;
        }
        let part = self.rest.split_off(1, 0);
        self.given += 1;
        Some(Share {
            part,
            notes: Vec::new(self.alloc),
        })
    }

    /// Returns the ledger.
    pub fn ledger(&self) -> &Ledger<D>
        ensures { result.now ≡ self.now.ledger }
    {
        &self.ledger
    }

    /// Stops accepting steps. A waiting flusher must be woken, so that it can end.
    pub fn finish(&mut self) -> PendingWake
        ensures { self.new ≡ with_finish self.old }
    {
        self.finishing = true;
        PendingWake::new()
    }

    /// Does nothing. Its contract states the invariant of the type, which holds whenever the lock is
    /// taken.
    pub fn keeps(&self)
        ensures { CanHold (based_on D.model L.base L.before) self.now }
    {
        self.ledger.lemma_log_is_consistent();
        self.ledger.lemma_images_give_settled();
    }
}
