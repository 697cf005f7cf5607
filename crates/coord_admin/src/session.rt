//! Serves one connection: reads lines and replies to each.

ghost use Rattle.std.specs.Prelude.{◌≡◌, ◌*◌, ◌++◌, ◌∷◌, ◌<◌, [], length, List, ℕ, Err, Ok, OnOk, OnErr, IfOk, IfSome, IfNone, true, false, vec_len};
ghost use Rattle.std.specs.Option.{option_copied};
ghost use Rattle.coord_lines.specs.Lines.{Line, lines_on, IsWithin};
ghost use Rattle.coord_admin.specs.declared.answer.Answer.{Answer};
ghost use Rattle.coord_admin.specs.declared.answer.Answer.TheVariants.{Closed, Faulted};
ghost use Rattle.coord_admin.specs.declared.fault.LineFault.TheVariants.{Unfinished};
ghost use Rattle.coord_admin.specs.declared.fault.ServeFault.TheVariants as ServeAs;
ghost use Rattle.coord_admin.specs.declared.session.Ended.TheVariants.{Cut, Input};
ghost use Rattle.coord_admin.specs.InstanceLimit.{HasKept};
ghost use Rattle.coord_admin.specs.Replies.{reply_line, reply_lines};
ghost use Rattle.coord_admin.specs.Stream.{last_answers, Gets, GoesOn, AllGet, Closes, BreaksOff, Served, WritesPart, has_begun};
ghost use Rattle.coord_admin.specs.Together.{AwaitReplies, is_order};

use crate::asking::answer_to;
use crate::desk::Desk;
use crate::duplex::{Duplex, NotWritten};
use crate::fault::{LineFault, ServeFault};
use crate::instance_limit::{Unread, receive_in_instance};
use crate::queue::Queue;
use crate::reading::read_line;
use crate::request::Request;
use crate::writing::write_answer;
use coord_lines::{LineBuffer, MOST_READS};
use std::alloc::{AllocError, Global};

/// The maximum number of bytes of one read.
const READ_LEN: usize = 512;

/// The way in which a successful call of `serve` ended.
#[derive(Clone, Copy, Debug, PartialEq, Eq)]
pub enum Ended {
    /// The input has ended.
    Input,
    /// A line closed the desk. The lines after it are not answered.
    Closed,
    /// The desk's instance is over, so nothing more was read.
    Cut,
}

/// Reads lines from a connection up to the end of its input or a line that closes the desk, and writes
/// the reply to each before it waits for more input.
///
/// Orders that have already arrived are posted together, at most as many as fit into a flight, and
/// their replies are written together once all are ready. Any other line is answered after the lines
/// before it.
///
/// The call stops reading once the desk keeps twice `most` steps.
///
/// Each line that was read gets its reply, in order, and nothing else is written; if memory runs out,
/// the reply may say so instead. `OutOfMemory` is returned before anything is read, `Turns` after
/// `MOST_READS` reads, and `Read` and `Write` after a failed read or write. Orders accepted until then
/// stay accepted. If the reply to one of several orders posted together could not be written, all of
/// them may have been accepted.
pub fn serve<C: Duplex, D: Desk>(
    alloc: Global,
    most: usize,
    connection: &mut C,
    desk: &mut D,
) -> Result<Ended, ServeFault>
    ensures served { (seen : List ℕ) × (text : List ℕ)
        × C.exchanged connection.old seen text connection.new
        × Served D.answers desk.old seen text result desk.new }
    ensures end { result ≡ Ok Input → C.has_ended connection.new }
    ensures read { result ≡ Err ServeAs.Read → C.has_failed connection.new }
    ensures write { result ≡ Err ServeAs.Write → C.has_failed connection.new }
    ensures cut { result ≡ Ok Cut → HasKept D.keeps desk.new (2 * most) }
{
    let (mut buffer, mut queue) = room(alloc)?;
    let ended = serve_lines(
        alloc,
        most,
        buffer.as_mut_slice(),
        &mut queue,
        connection,
        desk,
    );
    queue.destroy();
    ended
}

/// Allocates what `serve` needs before it reads: a buffer, and an empty queue.
fn room<D: Desk>(alloc: Global) -> Result<(Vec<u8>, Queue<D>), AllocError>
    ensures buffer { IfOk result (λ room. 0 < vec_len room.0) }
    ensures queue { IfOk result (λ room. room.1.posted.items ≡ []) }
{
    let buffer = vec![in alloc; 0; READ_LEN]?;
    let queue = Queue::new(alloc)?;
    Ok((buffer, queue))
}

/// Reads input into a buffer and handles it, with at most `MOST_READS` reads.
fn serve_lines<C: Duplex, D: Desk>(
    alloc: Global,
    most: usize,
    buffer: &mut [u8],
    queue: &mut Queue<D>,
    connection: &mut C,
    desk: &mut D,
) -> Result<Ended, ServeFault>
    requires buffer { 0 < length buffer.old }
    requires queue { queue.old.posted.items ≡ [] }
    ensures served { (seen : List ℕ) × (text : List ℕ)
        × C.exchanged connection.old seen text connection.new
        × Served D.answers desk.old seen text result desk.new }
    ensures end { result ≡ Ok Input → C.has_ended connection.new }
    ensures read { result ≡ Err ServeAs.Read → C.has_failed connection.new }
    ensures write { result ≡ Err ServeAs.Write → C.has_failed connection.new }
    ensures cut { result ≡ Ok Cut → HasKept D.keeps desk.new (2 * most) }
    ensures queue { queue.new.posted.items ≡ [] }
{
    let mut line = LineBuffer::new();
    for _ in 0..MOST_READS {
        queue.answer_unless_more(connection.has_more(), alloc, connection, desk)?;
        match receive_in_instance(most, connection, desk, buffer, has_begun(&line)) {
            Ok(0) => {
                queue.answer_all(alloc, connection, desk)?;
                finish(&line, connection)?;
                return Ok(Ended::Input);
            }
            Ok(count) => {
                if take(alloc, queue, &mut line, &buffer[..count], connection, desk)? {
                    return Ok(Ended::Closed);
                }
            }
            Err(Unread::Failed) => {
                queue.answer_all(alloc, connection, desk)?;
                return Err(ServeFault::Read);
            }
            Err(Unread::Over) => {
                queue.answer_all(alloc, connection, desk)?;
                return Ok(Ended::Cut);
            }
        }
    }
    queue.answer_all(alloc, connection, desk)?;
    Err(ServeFault::Turns)
}

/// Tests whether the current line has a byte.
fn has_begun(line: &LineBuffer) -> bool
    ensures { result ≡ has_begun line.now }
{
    match line.get() {
        Some(bytes) => !bytes.is_empty(),
        None => true,
    }
}

/// Handles a piece of the input. An order that the piece completes is posted; any other line is
/// answered after the posted orders. Returns whether a line closed the desk.
fn take<C: Duplex, D: Desk>(
    alloc: Global,
    queue: &mut Queue<D>,
    line: &mut LineBuffer,
    piece: &[u8],
    connection: &mut C,
    desk: &mut D,
) -> Result<bool, NotWritten>
    ensures open { result ≡ Ok false → (d : D) (waiting : List Line) →
        AwaitReplies D.posts d waiting queue.old.posted.items desk.old →
        (lines : List Line) × (returned : List Answer)
        × GoesOn D.answers D.posts d lines returned queue.new.posted.items desk.new
        × C.exchanged connection.old [] (reply_lines returned) connection.new
        × ((more : List ℕ) → waiting ++ lines_on line.old (piece.now ++ more) ≡
        lines ++ lines_on line.new more) }
    ensures closed { result ≡ Ok true → (d : D) (waiting : List Line) →
        AwaitReplies D.posts d waiting queue.old.posted.items desk.old → (text : List ℕ)
        × C.exchanged connection.old [] text connection.new
        × Closes D.answers d (waiting ++ lines_on line.old piece.now) text desk.new }
    ensures failed { OnErr result ((d : D) (waiting : List Line) →
        AwaitReplies D.posts d waiting queue.old.posted.items desk.old → (text : List ℕ)
        × C.exchanged connection.old [] text connection.new
        × BreaksOff D.answers d (waiting ++ lines_on line.old piece.now) text desk.new) }
    ensures broken { OnErr result (C.has_failed connection.new) }
    ensures over { result ≡ Ok true → queue.new.posted.items ≡ [] }
    ensures empty { OnErr result (queue.new.posted.items ≡ []) }
{
    let mut rest = piece;
    while let Some(following) = line.take(rest) {
        let closed = end_line(alloc, queue, line.get(), connection, desk)?;
        if closed {
            return Ok(true);
        }
        line.clear();
        rest = following;
    }
    Ok(false)
}

/// Posts the order of a complete line, or answers the line after the posted orders. Returns whether the
/// line closed the desk.
fn end_line<C: Duplex, D: Desk>(
    alloc: Global,
    queue: &mut Queue<D>,
    line: Option<&[u8]>,
    connection: &mut C,
    desk: &mut D,
) -> Result<bool, NotWritten>
    ensures open { IfOk result (λ closed. closed ≡ false → (d : D) (waiting : List Line) →
        AwaitReplies D.posts d waiting queue.old.posted.items desk.old → (returned : List Answer)
        × GoesOn D.answers D.posts d (waiting ++ option_copied line.entry ∷ []) returned
        queue.new.posted.items desk.new
        × C.exchanged connection.old [] (reply_lines returned) connection.new) }
    ensures closed { IfOk result (λ closed. closed ≡ true → (d : D) (waiting : List Line) →
        AwaitReplies D.posts d waiting queue.old.posted.items desk.old → (returned : List Answer)
        × (f : D) × AllGet D.answers d waiting returned f
        × Gets D.answers f (option_copied line.entry) Closed desk.new
        × C.exchanged connection.old [] (reply_lines returned ++ reply_line Closed) connection.new) }
    ensures failed { OnErr result ((d : D) (waiting : List Line) →
        AwaitReplies D.posts d waiting queue.old.posted.items desk.old → (text : List ℕ)
        × C.exchanged connection.old [] text connection.new
        × ((left : List Line) → BreaksOff D.answers d
        (waiting ++ option_copied line.entry ∷ left) text desk.new)) }
    ensures broken { OnErr result (C.has_failed connection.new) }
    ensures over { IfOk result (λ closed. closed ≡ true → queue.new.posted.items ≡ []) }
    ensures empty { OnErr result (queue.new.posted.items ≡ []) }
{
    let asked = read_line(alloc, line);
    match order_of(&asked) {
        Some(order) => {
            queue.answer_unless_more(true, alloc, connection, desk)?;
            queue.post(desk, order);
            Ok(false)
        }
        None => {
            queue.answer_all(alloc, connection, desk)?;
            let answer = answer_to(desk, asked);
            write_answer(alloc, connection, &answer)?;
            Ok(answer.is_closed())
        }
    }
}

/// Returns the order that a line asks for, or None if it is no order.
fn order_of(asked: &Result<Request, LineFault>) -> Option<Request>
    ensures some { IfSome result (λ order. (asked.now ≡ Ok order) × (is_order order ≡ true)) }
    ensures none { IfNone result (IfOk asked.now (λ request. is_order request ≡ false)) }
{
    match asked {
        Ok(request) if request.is_order() => Some(*request),
        _ => None,
    }
}

/// Handles the end of the input. A last line without a line feed is `Unfinished`, unless it is empty.
fn finish<C: Duplex>(line: &LineBuffer, connection: &mut C) -> Result<(), NotWritten>
    ensures printed { OnOk result
        (C.exchanged connection.old [] (reply_lines (last_answers line.now)) connection.new) }
    ensures failed { OnErr result (WritesPart C.exchanged connection.old connection.new
        (reply_line (Faulted Unfinished))) }
    ensures broken { OnErr result (C.has_failed connection.new) }
    ensures within { IsWithin line.now }
    ensures end { C.has_ended connection.old → C.has_ended connection.new }
{
    match line.get() {
        Some(bytes) if bytes.is_empty() => Ok(()),
        _ => connection.reply(LineFault::Unfinished.line().as_bytes()),
    }
}
