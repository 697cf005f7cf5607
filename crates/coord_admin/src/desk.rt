//! The desk: the handler of administration requests.

ghost use Rattle.std.specs.Prelude.{ℕ, Result};
ghost use Rattle.coord_types.specs.declared.refusals.Refusal.{Refusal};
ghost use Rattle.coord_types.specs.declared.steps.Reply.{Reply};
ghost use Rattle.coord_admin.specs.declared.request.Request.{Request};
ghost use Rattle.coord_admin.specs.declared.request.Request.TheVariants as request;
ghost use Rattle.coord_admin.specs.declared.answer.Answer.{Answer};
ghost use Rattle.coord_admin.specs.declared.answer.Answer.TheVariants as answer;
ghost use Rattle.coord_admin.specs.Replies.{order_answer, show_answer, resend_answer};

use coord_types::{Client, Command, Refusal, Reply};
use coord_view::View;

/// The handler to which `serve` passes requests. Its ghost members define which answers it may give to
/// each request, and its possible states afterwards.
///
/// An order is carried out in two halves: the caller posts it, and then waits for its reply. Orders
/// that are posted in between change no reply. So orders that are posted together and replied to in
/// turn get the same answers as orders that are carried out one after another
/// (`laws::posted_together_answered_in_turn`).
pub trait Desk {
    /// A posted order without a reply yet. The caller must pass it to `reply`.
    type Posted;

    /// The possible answers to a request, each with the possible states afterwards.
    ghost answers: { Self → Request → Answer → Self → Type 0 };

    /// The values that may represent a posted order, each with the possible states afterwards.
    ghost posts: { Self → Request → Self.Posted → Self → Type 0 };

    /// The possible replies to a posted order, each with the possible states afterwards.
    ghost replies: { Self → Self.Posted → Result Reply Refusal → Self → Type 0 };

    /// The numbers of steps that the desk may keep.
    ghost keeps: { Self → ℕ → Type 0 };

    /// Returns the number of steps that the desk keeps in memory. `serve_connections` limits an
    /// instance by this number.
    fn kept(&self) -> usize
        ensures { keeps self.now result };

    /// Submits a client's order without waiting.
    fn post(&mut self, client: Client, number: u64, command: Command) -> Self::Posted
        ensures { posts self.old (request.Order client number command) result self.new };

    /// Waits for the reply to a posted order.
    fn reply(&mut self, posted: Self::Posted) -> Result<Reply, Refusal>
        ensures { replies self.old posted result self.new };

    /// Carries out a client's order, once for each order number.
    fn order(&mut self, client: Client, number: u64, command: Command) -> Result<Reply, Refusal>
        ensures { answers self.old (request.Order client number command)
            (order_answer result) self.new }
    {
        let posted = self.post(client, number, command);
        self.reply(posted)
    }

    /// Returns a view of the settled world.
    fn show(&mut self) -> Result<View, Refusal>
        ensures { answers self.old request.Show (show_answer result) self.new };

    /// Sends again the packets that may have been lost, and returns their number.
    fn resend(&mut self) -> Result<u64, Refusal>
        ensures { answers self.old request.Resend (resend_answer result) self.new };

    /// Closes the desk. It accepts no more requests.
    fn close(&mut self)
        ensures { answers self.old request.Close answer.Closed self.new };

    /// A law: a posted order with its reply is an answered order.
    ghost is_answered: { (a b c : Self) (r : Request) (p : Self.Posted) (x : Result Reply Refusal) →
        posts a r p b → replies b p x c → answers a r (order_answer x) c };

    /// A law: the reply to a posted order does not change if another order is posted before
    /// the reply.
    ghost stays_apart: { (a b c : Self) (r : Request) (p q : Self.Posted)
        (x : Result Reply Refusal) → posts a r q b → replies b p x c →
        (m : Self) × replies a p x m × posts m r q c };

    /// A law: the number of steps that the desk may keep does not fall while it waits for a reply.
    ghost loses_none: { (a b : Self) (p : Self.Posted) (x : Result Reply Refusal) (kept : ℕ) →
        replies a p x b → keeps a kept → keeps b kept };
}
