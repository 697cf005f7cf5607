//! The callers' claims to the replies of the steps that they submitted.

ghost use Rattle.std.specs.Prelude.{◌≡◌};

use coord_types::{Kind, Reply, Step};
use std::marker::Model;

/// A step, its number, and the kind of its reply.
#[derive(Clone, Copy, PartialEq, Eq)]
pub struct Note {
    pub step: u64,
    pub what: Step,
    pub kind: Kind,
}

/// The claim to the reply of a step that may not be settled yet. The ticket must be consumed, by
/// `forget` or by a ledger's `collect`. Contracts see its claim (`specs/ledger/State.antt`).
pub struct Ticket {
    pub(crate) step: u64,
    pub(crate) what: Step,
    pub(crate) kind: Kind,
}

impl Model for Ticket {
    ghost use Rattle.coord_ledger.specs.ledger.State.{Claim};

    ghost Value = { Claim };

    ghost view = { λ t. record { step = t.step; what = t.what; kind = t.kind } };
}

impl Ticket {
    ghost use Rattle.coord_ledger.specs.ledger.Calls.{claimed};
    ghost use Rattle.coord_ledger.specs.ledger.State.{reply_of};

    // Makes a ticket for a step with this reply.
    pub(crate) fn of(what: Step, reply: Reply) -> Self
        ensures { result ≡ claimed what reply }
    {
        Ticket {
            step: reply.step,
            what,
            kind: reply.kind,
        }
    }

    // Returns the claimed reply.
    pub(crate) fn reply(&self) -> Reply
        ensures { result ≡ reply_of self.now }
    {
        Reply {
            step: self.step,
            kind: self.kind,
        }
    }

    /// Returns the number of the ticket's step.
    pub fn step(&self) -> u64
        ensures { result ≡ self.now.step }
    {
        self.step
    }

    /// Returns the ticket's step, with its number and the kind of its reply.
    pub fn note(&self) -> Note
        ensures step { result.step ≡ self.now.step }
        ensures what { result.what ≡ self.now.what }
        ensures kind { result.kind ≡ self.now.kind }
    {
        Note {
            step: self.step,
            what: self.what,
            kind: self.kind,
        }
    }

    /// Drops the claim to the reply. (No postcondition: nothing remains.)
    pub fn forget(self) {
        let Ticket {
            step: _,
            what: _,
            kind: _,
        } = self;
    }
}
