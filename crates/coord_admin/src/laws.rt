//! Laws about orders posted together, about worked examples of lines, and about counts. Each is the
//! contract of an empty function.

ghost use Rattle.coord_admin.specs.Times.{CountsAreUsual};
ghost use Rattle.coord_admin.specs.Together.{AnswersInTurn};
ghost use Rattle.coord_admin.specs.WorkedLines.{WorkedRequests, WorkedReplies};

use crate::desk::Desk;

/// Orders that are posted together and replied to in turn get the same answers as orders that are
/// carried out one after another.
pub fn posted_together_answered_in_turn<D: Desk>()
    ensures { AnswersInTurn D.answers D.posts D.replies }
{}

/// Examples of lines with their requests or faults.
#[tactic(auto, using(crate::proofs::Computes::requests_compute))]
pub fn worked_requests()
    ensures { WorkedRequests }
{}

/// Examples of answers with their reply lines.
#[tactic(auto, using(crate::proofs::Computes::replies_compute))]
pub fn worked_replies()
    ensures { WorkedReplies }
{}

/// The usual numbers of attempts to accept, and of reads after a close.
pub fn counts_are_usual()
    ensures { CountsAreUsual }
{}
