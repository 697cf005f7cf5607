//! How the replies to settled steps are returned.

ghost use Rattle.std.specs.Prelude.{◌≡◌, ◌↔◌, ◌<◌, false, true, length, slice_get, IfErr, IfOk, IsTrue, Some};
ghost use Rattle.coord_ledger.specs.ledger.State.{IsCollectable, IsKeptBy, reply_of};

use super::Ledger;
use crate::Ticket;
use crate::settling::is_same_step;
use coord_disk::Disk;
use coord_types::{Kind, Reply, Step};
use coord_world::World;

/// Tests whether a world keeps the ticket's reply as the reply to the ticket's order.
fn is_kept(world: &World, ticket: &Ticket) -> bool
    ensures { IsTrue result ↔ IsKeptBy world.now ticket.now }
{
    let Step::Order(client, number, command) = ticket.what else {
        return false;
    };
    match world.last(client) {
        None => false,
        Some(last) => {
            last.number == number && last.command == command && last.reply == ticket.reply()
        }
    }
}

/// Tests whether the trail has the ticket's step at this place.
fn is_step_at(trail: &[Step], place: usize, ticket: &Ticket) -> bool
    requires { place < length trail.now }
    ensures { IsTrue result ↔ (slice_get trail.now place ≡ Some ticket.now.what) }
{
    is_same_step(&trail[place], &ticket.what)
}

/// Tests whether this list has the ticket's kind of reply at this place.
fn is_kind_at(kinds: &[Kind], place: usize, ticket: &Ticket) -> bool
    requires { place < length kinds.now }
    ensures { IsTrue result ↔ (slice_get kinds.now place ≡ Some ticket.now.kind) }
{
    kinds[place] == ticket.kind
}

/// Tests whether the trail has the ticket's step at this place, and `kinds` has the ticket's kind
/// of reply.
fn stands_at(trail: &[Step], kinds: &[Kind], place: usize, ticket: &Ticket) -> bool
    requires in_trail { place < length trail.now }
    requires in_kinds { place < length kinds.now }
    ensures { IsTrue result ↔ ((slice_get trail.now place ≡ Some ticket.now.what) ×
        (slice_get kinds.now place ≡ Some ticket.now.kind)) }
{
    if !is_step_at(trail, place, ticket) {
        return false;
    }
    is_kind_at(kinds, place, ticket)
}

/// Returns the reply if the ticket's step is settled, otherwise the ticket.
fn replied(ticket: Ticket, settled: bool) -> Result<Reply, Ticket>
    ensures settled { IfOk result (λ reply. (reply ≡ reply_of ticket) × (settled ≡ true)) }
    ensures waiting { IfErr result (λ back. (back ≡ ticket) × (settled ≡ false)) }
{
    if !settled {
        return Err(ticket);
    }
    let reply = ticket.reply();
    ticket.forget();
    Ok(reply)
}

impl<D: Disk> Ledger<D> {
    /// Tests whether the settled part of the trail has the ticket's step, with the ticket's kind of
    /// reply. The number of the ticket's step must be above the base's count.
    fn is_settled(&self, ticket: &Ticket) -> bool
        requires { self.now.log.base.count < ticket.now.step }
        ensures { IsTrue result ↔ IsCollectable self.now.log ticket.now }
    {
        let place = (ticket.step - self.base.count() - 1) as usize;
        if place >= self.done {
            return false;
        }
        stands_at(&self.trail, &self.kinds, place, ticket)
    }

    /// Tests whether the ticket's step is settled in this ledger, with the ticket's kind of reply.
    fn is_collectable(&self, ticket: &Ticket) -> bool
        ensures { IsTrue result ↔ IsCollectable self.now.log ticket.now }
    {
        if ticket.step <= self.base.count() {
            is_kept(&self.base, ticket)
        } else {
            self.is_settled(ticket)
        }
    }

    /// Returns the reply to the ticket's step if the step is settled. Before that, or if the ticket
    /// belongs to another ledger, returns the ticket. A stopped ledger answers too.
    pub fn collect(&self, ticket: Ticket) -> Result<Reply, Ticket>
        ensures settled { IfOk result (λ reply. (reply ≡ reply_of ticket) ×
            IsCollectable self.now.log ticket) }
        ensures waiting { IfErr result (λ back. (back ≡ ticket) ×
            ¬ IsCollectable self.now.log ticket) }
    {
        let settled = self.is_collectable(&ticket);
        match replied(ticket, settled) {
            Ok(reply) => Ok(reply),
            Err(ticket) => Err(ticket),
        }
    }
}
