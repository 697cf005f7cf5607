//! A desk over an engine.

ghost use Rattle.std.specs.Prelude.{◌≡◌, [], IfOk, Ok};
ghost use Rattle.coord_types.specs.declared.refusals.Refusal.TheVariants.{OutOfMemory};
ghost use Rattle.coord_engine.specs.Released.{HasReadSettled};
ghost use Rattle.coord_engine.specs.State.{based_on};
ghost use Rattle.coord_server.specs.EngineDesk.{HandsAgain, IsReadIn, Replies, Resends, ShowsTo, read_in, without_ticket};

use coord_admin::Desk;
use coord_disk::Disk;
use coord_engine::{Engine, LogPrefix, Origin, Port, Share, hand_over};
use coord_ledger::{Seen, Ticket};
use coord_types::{Client, Command, Refusal, Reply, Step};
use coord_view::View;
use std::marker::Model;
use std::sync::Wait;

/// A desk over an engine. It passes resent packets to a port. Contracts see the notes of its share, its seen count, the
/// settled steps that it has read, and the port. Each answer follows from the settled steps that the desk has read by
/// then.
#[derive(Drop)]
pub struct EngineDesk<'a, D: Disk, L: Origin, P: Port, R: Wait> {
    rt: &'a R,
    engine: &'a Engine<D, L>,
    port: P,
    share: Share<L>,
    seen: Seen,
    /// A token that has read the settled steps from which the desk's answers follow.
    reader: LogPrefix,
}

impl<'a, D: Disk, L: Origin, P: Port, R: Wait> Model for EngineDesk<'a, D, L, P, R> {
    ghost use Rattle.coord_server.specs.EngineDesk.{DeskState, IsReadIn, read_in};

    ghost Value = { DeskState P };

    ghost view = { λ d. record {
      notes = d.share;
      seen = d.seen;
      read = read_in L.earlier d.reader;
      port = d.port;
    } };

    ghost invariant = { λ d. IsReadIn L.history L.earlier d.reader };
}

impl<'a, D: Disk, L: Origin, P: Port + Drop, R: Wait> EngineDesk<'a, D, L, P, R> {
    /// Makes a desk that has seen nothing yet. Its reader has read the steps of earlier instances.
    pub fn new(
        rt: &'a R,
        engine: &'a Engine<D, L>,
        port: P,
        share: Share<L>,
        reader: LogPrefix,
    ) -> Self
        requires { reader ≡ record { history = L.history; steps = L.earlier } }
        ensures { result ≡ record { notes = share; seen = 0; read = []; port = port } }
    {
        EngineDesk {
            rt,
            engine,
            port,
            share,
            seen: Seen::new(),
            reader,
        }
    }

    /// Returns the desk's share, with the notes of its accepted steps, its seen count, and its token.
    pub fn into_parts(self) -> (Share<L>, Seen, LogPrefix)
        ensures notes { result.0 ≡ self.entry.notes }
        ensures seen { result.1 ≡ self.entry.seen }
        ensures read { HasReadSettled L.history L.earlier self.entry.read result.2 }
    {
        let EngineDesk {
            rt: _,
            engine: _,
            port: _,
            share,
            seen,
            reader,
        } = self;
        (share, seen, reader)
    }
}

/// Returns the reply to a posted step, or the reason why there is none. Advances the reader.
fn reply_to<D: Disk, L: Origin, R: Wait>(
    rt: &R,
    engine: &Engine<D, L>,
    posted: Result<Ticket, Refusal>,
    reader: &mut LogPrefix,
) -> Result<Reply, Refusal>
    requires { IsReadIn L.history L.earlier reader.old }
    ensures replied { Replies (based_on D.model L.base L.before) posted result
        (read_in L.earlier reader.old) (read_in L.earlier reader.new) }
    ensures read { IsReadIn L.history L.earlier reader.new }
{
    match posted {
        Ok(ticket) => collect(rt, engine, ticket, reader),
        Err(refusal) => Err(refusal),
    }
}

/// Wakes the flusher, and waits for the reply to an accepted step. Advances the reader.
#[tactic(auto, using(crate::proofs::Reading::read_collected))]
fn collect<D: Disk, L: Origin, R: Wait>(
    rt: &R,
    engine: &Engine<D, L>,
    ticket: Ticket,
    reader: &mut LogPrefix,
) -> Result<Reply, Refusal>
    requires { IsReadIn L.history L.earlier reader.old }
    ensures replied { Replies (based_on D.model L.base L.before) (Ok ticket) result
        (read_in L.earlier reader.old) (read_in L.earlier reader.new) }
    ensures read { IsReadIn L.history L.earlier reader.new }
{
    engine.wake_flusher(rt);
    without_ticket(engine.collect(rt, ticket, reader))
}

/// Returns the answer to a ticket, without the ticket that a refusal gives back.
fn without_ticket(answer: Result<Reply, (Refusal, Ticket)>) -> Result<Reply, Refusal>
    ensures { result ≡ without_ticket answer }
{
    match answer {
        Ok(reply) => Ok(reply),
        Err((refusal, ticket)) => {
            ticket.forget();
            Err(refusal)
        }
    }
}

/// Shows the settled world to a caller with this seen count. Advances the reader.
#[tactic(auto, using(crate::proofs::Reading::shows_to, crate::proofs::Reading::read_shown))]
fn show<D: Disk, L: Origin, R: Wait>(
    rt: &R,
    engine: &Engine<D, L>,
    seen: &mut Seen,
    reader: &mut LogPrefix,
) -> Result<View, Refusal>
    requires { IsReadIn L.history L.earlier reader.old }
    ensures shown { ShowsTo (based_on D.model L.base L.before) result seen.old seen.new
        (read_in L.earlier reader.old) (read_in L.earlier reader.new) }
    ensures read { IsReadIn L.history L.earlier reader.new }
{
    engine.show(rt, seen, reader)
}

/// Passes to a port again the packets that may have been lost, and returns their number.
fn resend<D: Disk, L: Origin, P: Port, R: Wait>(
    rt: &R,
    engine: &Engine<D, L>,
    port: &mut P,
) -> Result<u64, Refusal>
    ensures counted { Resends (based_on D.model L.base L.before) result }
    ensures handed { IfOk result (λ count. HandsAgain
        (based_on D.model L.base L.before) P.carried P.signalled P.handed_on count
        port.old port.new) }
{
    match engine.resend(rt) {
        Ok(releases) => Ok(hand_over(rt, engine, port, releases)),
        Err(_) => Err(Refusal::OutOfMemory),
    }
}

impl<'a, D: Disk, L: Origin, P: Port, R: Wait> Desk for EngineDesk<'a, D, L, P, R> {
    ghost use Rattle.coord_engine.specs.State.{based_on};
    ghost use Rattle.coord_admin.specs.Replies.{resend_answer};
    ghost use Rattle.coord_admin.specs.declared.request.Request.TheVariants as request;
    ghost use Rattle.coord_server.specs.EngineDesk.{DeskAnswers, DeskKeeps, DeskPosts, DeskReplies, HandsAgain};
    ghost use Rattle.coord_server.specs.Halves.{desk_answered, desk_apart, desk_loses_none};

    /// A ticket for the reply, or the refusal of the order.
    type Posted = Result<Ticket, Refusal>;

    ghost answers = { DeskAnswers (based_on D.model L.base L.before) };

    ghost posts = { DeskPosts (based_on D.model L.base L.before) };

    ghost replies = { DeskReplies (based_on D.model L.base L.before) };

    ghost keeps = { DeskKeeps (based_on D.model L.base L.before) };

    /// Returns the number of steps that the engine keeps. The desk's own notes are among these steps, but no clause can
    /// state that, because the engine is under a lock; so the function returns at least the number of notes.
    fn kept(&self) -> usize {
        self.engine.kept(self.rt).max(self.share.notes().len())
    }

    fn post(&mut self, client: Client, number: u64, command: Command) -> Result<Ticket, Refusal> {
        let step = Step::Order(client, number, command);
        self.engine.post(self.rt, step, &mut self.share)
    }

    fn reply(&mut self, posted: Result<Ticket, Refusal>) -> Result<Reply, Refusal> {
        let reply = reply_to(self.rt, self.engine, posted, &mut self.reader)?;
        self.seen.note(reply.step);
        Ok(reply)
    }

    fn show(&mut self) -> Result<View, Refusal> {
        show(self.rt, self.engine, &mut self.seen, &mut self.reader)
    }

    fn resend(&mut self) -> Result<u64, Refusal>
        ensures answered { DeskAnswers (based_on D.model L.base L.before) self.old
            request.Resend (resend_answer result) self.new }
        ensures handed { IfOk result (λ count. HandsAgain
            (based_on D.model L.base L.before) P.carried P.signalled P.handed_on
            count self.old.port self.new.port) }
    {
        resend(self.rt, self.engine, &mut self.port)
    }

    fn close(&mut self) {}

    ghost is_answered = { desk_answered (based_on D.model L.base L.before) };

    ghost stays_apart = { desk_apart (based_on D.model L.base L.before) };

    ghost loses_none = { desk_loses_none (based_on D.model L.base L.before) };
}
