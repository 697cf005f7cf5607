//! Passes the request of a line to the desk.

ghost use Rattle.std.specs.Prelude.{◌≡◌};
ghost use Rattle.coord_admin.specs.Replies.{order_answer, refused};
ghost use Rattle.coord_admin.specs.Stream.{MayAnswer};

use crate::answer::Answer;
use crate::desk::Desk;
use crate::fault::LineFault;
use crate::request::Request;
use coord_types::{Refusal, Reply};

/// Passes the request of a line to the desk, and returns the desk's answer. A line with a fault gets
/// the fault as its answer, and the desk is not called.
pub fn answer_to<D: Desk>(desk: &mut D, asked: Result<Request, LineFault>) -> Answer
    ensures { MayAnswer D.answers desk.old asked result desk.new }
{
    match asked {
        Ok(request) => ask(desk, request),
        Err(fault) => Answer::Faulted(fault),
    }
}

fn ask<D: Desk>(desk: &mut D, request: Request) -> Answer
    ensures { D.answers desk.old request result desk.new }
{
    match request {
        Request::Order(client, number, command) => {
            order_answer(desk.order(client, number, command))
        }
        Request::Show => match desk.show() {
            Ok(view) => Answer::Shown(view),
            Err(refusal) => refused(refusal),
        },
        Request::Resend => match desk.resend() {
            Ok(count) => Answer::Resent(count),
            Err(refusal) => refused(refusal),
        },
        Request::Close => {
            desk.close();
            Answer::Closed
        }
    }
}

/// Returns the answer to an order.
pub fn order_answer(reply: Result<Reply, Refusal>) -> Answer
    ensures { result ≡ order_answer reply }
{
    match reply {
        Ok(reply) => Answer::Replied(reply),
        Err(refusal) => refused(refusal),
    }
}

/// Returns the answer for a refusal. If the desk ran out of memory, the answer is a fault of the line.
fn refused(refusal: Refusal) -> Answer
    ensures { result ≡ refused refusal }
{
    match refusal {
        Refusal::OutOfMemory => Answer::Faulted(LineFault::OutOfMemory),
        _ => Answer::Refused(refusal),
    }
}
