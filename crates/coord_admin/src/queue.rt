//! Posted orders that wait for their replies.

ghost use Rattle.std.specs.Prelude.{◌≡◌, ◌+◌, ◌<◌, ◌≤◌, ◌++◌, ◌∷◌, false, true, [], List, ℕ, map, IfOk, OnErr, OnOk, Result, nat_lt, vec_capacity, vec_len};
ghost use Rattle.std.specs.VecDeque.{deque_capacity, deque_len};
ghost use Rattle.coord_lines.specs.Lines.{Line};
ghost use Rattle.coord_types.specs.declared.limits.TheConstants.{MAX_BATCH_STEPS};
ghost use Rattle.coord_types.specs.declared.refusals.Refusal.{Refusal};
ghost use Rattle.coord_types.specs.declared.steps.Reply.{Reply};
ghost use Rattle.coord_admin.specs.declared.answer.Answer.{Answer};
ghost use Rattle.coord_admin.specs.Replies.{order_answer, reply_lines};
ghost use Rattle.coord_admin.specs.Stream.{AllGet, BreaksOff, GoesOn};
ghost use Rattle.coord_admin.specs.Together.{AllReplied, AwaitReplies, is_order};

use crate::answer::Answer;
use crate::asking::order_answer;
use crate::desk::Desk;
use crate::duplex::{Duplex, NotWritten};
use crate::request::Request;
use crate::writing::write_answers;
use coord_types::MAX_BATCH_STEPS;
use std::alloc::{AllocError, Global};
use std::collections::VecDeque;

/// Posted orders that have no reply yet, at most as many as fit into a flight. All memory of a queue is
/// allocated when the queue is created.
pub struct Queue<D: Desk> {
    pub(crate) posted: VecDeque<D::Posted>,
    /// A buffer for the replies to the posted orders, empty except while they are written.
    answers: Vec<Answer>,
    ghost few: { deque_len posted ≤ MAX_BATCH_STEPS },
    ghost has_room: { (MAX_BATCH_STEPS ≤ deque_capacity posted) ×
        (MAX_BATCH_STEPS ≤ vec_capacity answers) × (vec_len answers ≡ 0) },
}

impl<D: Desk> Queue<D> {
    /// Returns an empty queue.
    pub fn new(alloc: Global) -> Result<Self, AllocError>
        ensures { IfOk result (λ queue. queue.posted.items ≡ []) }
    {
        let answers = Vec::with_capacity(alloc, MAX_BATCH_STEPS)?;
        let posted = VecDeque::with_capacity(alloc, MAX_BATCH_STEPS)?;
        Ok(Queue { posted, answers })
    }

    /// Drops an empty queue. (No postcondition: nothing remains.)
    pub fn destroy(self)
        requires { self.posted.items ≡ [] }
    {
        let Queue { posted, answers } = self;
        drop(answers);
        posted.destroy_empty();
    }

    /// Posts an order.
    pub fn post(&mut self, desk: &mut D, order: Request)
        requires room { deque_len self.old.posted < MAX_BATCH_STEPS }
        requires order { is_order order ≡ true }
        ensures { (p : D.Posted) × D.posts desk.old order p desk.new ×
            (self.new.posted.items ≡ self.old.posted.items ++ p ∷ []) }
    {
        match order {
            Request::Order(client, number, command) => {
                let posted = desk.post(client, number, command);
                self.posted.push_back_reserved(posted);
            }
            _ => unreachable!(),
        }
    }

    /// Tests whether the queue has room for another order.
    fn has_room(&self) -> bool
        ensures { result ≡ nat_lt (deque_len self.now.posted) MAX_BATCH_STEPS }
    {
        self.posted.len() < MAX_BATCH_STEPS
    }

    /// Answers all orders, unless more input has already arrived and the queue has room.
    pub fn answer_unless_more<C: Duplex>(
        &mut self,
        more: bool,
        alloc: Global,
        connection: &mut C,
        desk: &mut D,
    ) -> Result<(), NotWritten>
        ensures room { OnOk result (deque_len self.new.posted < MAX_BATCH_STEPS) }
        ensures all { more ≡ false → self.new.posted.items ≡ [] }
        ensures whole { OnOk result ((d : D) (lines : List Line) →
            AwaitReplies D.posts d lines self.old.posted.items desk.old → (returned : List Answer)
            × GoesOn D.answers D.posts d lines returned self.new.posted.items desk.new
            × C.exchanged connection.old [] (reply_lines returned) connection.new) }
        ensures part { OnErr result ((d : D) (lines : List Line) →
            AwaitReplies D.posts d lines self.old.posted.items desk.old → (part : List ℕ)
            × C.exchanged connection.old [] part connection.new
            × ((left : List Line) → BreaksOff D.answers d (lines ++ left) part desk.new)) }
        ensures failed { OnErr result (C.has_failed connection.new) }
        ensures empty { OnErr result (self.new.posted.items ≡ []) }
    {
        if more && self.has_room() {
            return Ok(());
        }
        self.answer_all(alloc, connection, desk)
    }

    /// Waits for the reply to each order, in turn, and writes the replies. If a reply can't be written,
    /// the call still waits for all replies.
    pub fn answer_all<C: Duplex>(
        &mut self,
        alloc: Global,
        connection: &mut C,
        desk: &mut D,
    ) -> Result<(), NotWritten>
        ensures whole { OnOk result ((d : D) (lines : List Line) →
            AwaitReplies D.posts d lines self.old.posted.items desk.old → (returned : List Answer)
            × AllGet D.answers d lines returned desk.new
            × C.exchanged connection.old [] (reply_lines returned) connection.new) }
        ensures part { OnErr result ((d : D) (lines : List Line) →
            AwaitReplies D.posts d lines self.old.posted.items desk.old → (part : List ℕ)
            × C.exchanged connection.old [] part connection.new
            × ((left : List Line) → BreaksOff D.answers d (lines ++ left) part desk.new)) }
        ensures failed { OnErr result (C.has_failed connection.new) }
        ensures empty { self.new.posted.items ≡ [] }
        ensures kept { (kept : ℕ) → D.keeps desk.old kept → D.keeps desk.new kept }
        ensures still { C.has_failed connection.old → C.has_failed connection.new }
        ensures end { C.has_ended connection.old → C.has_ended connection.new }
    {
        if self.posted.is_empty() {
            return Ok(());
        }
        reply_all(desk, &mut self.posted, &mut self.answers);
        let written = write_answers(alloc, connection, &self.answers);
        self.answers.clear();
        written
    }
}

/// Waits for the reply to each order, in turn.
fn reply_all<D: Desk>(desk: &mut D, posted: &mut VecDeque<D::Posted>, answers: &mut Vec<Answer>)
    requires { vec_len answers.old + deque_len posted.old ≤ vec_capacity answers.old }
    ensures replied { (results : List (Result Reply Refusal))
        × AllReplied D.replies desk.old posted.old.items results desk.new
        × (answers.new.items ≡ answers.old.items ++ map order_answer results) }
    ensures none_left { posted.new.items ≡ [] }
    ensures room { deque_capacity posted.new ≡ deque_capacity posted.old }
    ensures memory { vec_capacity answers.old ≤ vec_capacity answers.new }
{
    while let Some(order) = posted.pop_front() {
        answers.push_reserved(order_answer(desk.reply(order)));
    }
}
