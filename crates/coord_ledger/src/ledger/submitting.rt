//! How steps are accepted.

ghost use Rattle.std.specs.Prelude.{◌≡◌, Err, IfOk, IsOkAnd, MatchResult, Ok, OnErr};
ghost use Rattle.coord_types.specs.declared.refusals.Refusal.TheVariants.{OutOfMemory};
ghost use Rattle.coord_types.specs.declared.refusals.Refusal.{Refusal as Why};
ghost use Rattle.coord_types.specs.declared.steps.Kind.{Kind as Sort};
ghost use Rattle.coord_types.specs.declared.steps.Reply.{Reply as Answered};
ghost use Rattle.coord_world.specs.protocol.Next.{reply};
ghost use Rattle.coord_ledger.specs.Facade.{HandedTo, claimed, front_world, verdict, with_accepted};

use super::Ledger;
use crate::{Handed, Ticket};
use coord_disk::Disk;
use coord_types::{Kind, MAX_PENDING, Refusal, Reply, Step};
use coord_world::{StepOutcome, Verdict};
use std::alloc::AllocError;

impl<D: Disk> Ledger<D> {
    /// Returns the ledger's verdict about a step, if memory does not run out.
    fn judge(&self, step: &Step) -> Result<Verdict, Refusal>
        ensures { result ≡ verdict self.now.log step.now }
    {
        if self.doubt.is_some() {
            return Err(Refusal::Stopped);
        }
        let verdict = self.front.judge(&self.settled, step);
        if let Ok(Verdict::Repeat(_)) = verdict {
            return verdict;
        }
        if self.trail.len() - self.done >= MAX_PENDING {
            return Err(Refusal::PendingFull);
        }
        verdict
    }

    /// Accepts a fresh step, and returns its reply, which has this kind. Errors: out of memory.
    fn accept(&mut self, step: Step, kind: Kind) -> Result<Reply, AllocError>
        requires { verdict self.old.log step ≡ Ok (Verdict.Fresh kind) }
        ensures accepted { IfOk result (λ _. self.new ≡ with_accepted self.old step) }
        ensures replied { IfOk result (λ r. r ≡ reply (front_world self.old.log) step) }
        ensures err { OnErr result (self.new ≡ self.old) }
    {
        step.lemma_in_range();
        self.trail.reserve(1)?;
        self.kinds.reserve(1)?;
        self.given.reserve(1)?;
        let outcome = self.front.apply(&step)?;
        let StepOutcome { reply, outputs } = outcome;
        self.trail.push_reserved(step);
        self.kinds.push_reserved(kind);
        self.given.push_back_reserved(outputs);
        Ok(reply)
    }

    /// Submits a step, like [`Ledger::submit`] and with the same refusals, and also returns whether the
    /// step is new. A client's last order, sent again, is not new.
    pub fn hand_in(&mut self, step: Step) -> Result<Handed, Refusal>
        ensures { HandedTo self.old step result self.new }
    {
        match self.judge(&step)? {
            Verdict::Fresh(kind) => match self.accept(step, kind) {
                Ok(reply) => Ok(Handed::Accepted(Ticket::of(step, reply))),
                Err(_) => Err(Refusal::OutOfMemory),
            },
            Verdict::Repeat(reply) => Ok(Handed::Repeated(Ticket::of(step, reply))),
        }
    }

    /// Accepts a step, and returns a ticket for its reply. A client's last order, sent again, is not a
    /// step; its ticket is for the kept reply.
    ///
    /// Refuses with the first of these that applies: `Stopped`; `PendingFull` if 1,024 steps are not
    /// settled (a repeat is still answered); `Exhausted`; the step's own refusals in the order of
    /// `World::judge`; `OutOfMemory`.
    pub fn submit(&mut self, step: Step) -> Result<Ticket, Refusal>
        ensures fresh { (kind : Sort) → verdict self.old.log step ≡ Ok (Verdict.Fresh kind) →
            MatchResult result (λ ticket.
            (ticket ≡ claimed step (reply (front_world self.old.log) step)) ×
            (self.new ≡ with_accepted self.old step)) (λ refusal. refusal ≡ OutOfMemory) }
        ensures repeated { (kept : Answered) →
            verdict self.old.log step ≡ Ok (Verdict.Repeat kept) →
            IsOkAnd result (λ ticket. (ticket ≡ claimed step kept) × (self.new ≡ self.old)) }
        ensures refused { (why : Why) → verdict self.old.log step ≡ Err why → result ≡ Err why }
        ensures unchanged { OnErr result (self.new ≡ self.old) }
    {
        Ok(self.hand_in(step)?.ticket())
    }
}
