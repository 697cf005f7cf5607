//! Laws about the instances of a server, over the definitions alone. Each is the contract of an empty
//! function.

ghost use Rattle.std.specs.Prelude.{ℕ};
ghost use Rattle.coord_server.specs.InOrder.{AnsweredInOrder};
ghost use Rattle.coord_server.specs.Instances.{InstancesAreOne};
ghost use Rattle.coord_server.specs.RunReturned.{RunAnswersFromOneHistory};
ghost use Rattle.coord_server.specs.SignalsBetween.{PrintedBetween, PrintedWithDrops};
ghost use Rattle.coord_server.specs.Returned.{InstancesLeaveSteps, NotesAreReplies, NotesEndAnInstance, RepliesNameSteps, ReturnedIsSettled};
ghost use Rattle.coord_server.specs.WorkedReturned.{ReturnUpToThird};

use crate::SignalSource;
use coord_admin::Callers;
use coord_disk::Disk;
use coord_engine::Port;
use std::io::Write;

/// All instances of a server are one history: one trail from the world of the first store. Each
/// instance began where the previous one ended, and each step has its own number.
pub fn instances_are_one<D: Disk, C: Callers>()
    ensures { (most : ℕ) → InstancesAreOne D.model C.talked C.failed most }
{}

/// If an order gets a reply, the order was just noted with the reply's number and kind, or it is a repeat. In the log
/// of its instance, the settled step with that number is the order, and was answered with that kind; or the base kept
/// that reply for the order.
pub fn replies_name_steps<D: Disk>()
    ensures { RepliesNameSteps D }
{}

/// Each reply that a desk noted in an instance is the reply of its step in the remaining history: the trail has the
/// step at the reply's number, and the step gets a reply of that kind there.
pub fn notes_are_replies<D: Disk, P: Port>()
    ensures { NotesAreReplies D P }
{}

/// All replies and views of an instance's desk, over each connection that ended, come from settled steps: no reply
/// names a later step, and no view counts a later step as settled.
pub fn returned_is_settled<D: Disk, C: Callers, P: Port>()
    ensures { ReturnedIsSettled D P C.talked }
{}

/// Everything that an instance's desk replied or showed over its connections follows from the settled steps that the
/// desk had read at that time: a reply belongs to the order's own step, and a view shows the world after those steps.
/// The number of those steps never decreases from one answer to the next.
pub fn answered_in_order<D: Disk, C: Callers, P: Port>()
    ensures { AnsweredInOrder D P C.talked }
{}

/// Everything that a server answered over the connections of its instances follows from the first n
/// settled steps of its one history. The number n never decreases, even from one connection or instance
/// to the next. A view shows the world of the store after these n steps.
pub fn run_answers_from_one_history<D: Disk, C: Callers, W: Write, O: SignalSource>()
    ensures { RunAnswersFromOneHistory D.model C.talked C.failed W.contents O.gives }
{}

/// Bounds the printed signals between two moments of the settled steps at which every node of a part is Ready. No link
/// leaves the part, and in between no node or link is added or removed. Then a server prints at most as many signals of
/// a linked node of the part as resets were started in the part. The steps in between signal, at least once, each node
/// that is connected with a node of the part whose reset was accepted.
pub fn printed_between<D: Disk, C: Callers, W: Write>()
    ensures { PrintedBetween D.model C.talked C.failed W.contents }
{}

/// The bound if nodes and links come and go, but no link joins the part with the rest. After a moment at which every
/// node of the part was Ready, a server prints at most as many signals of one of its nodes as resets were started and
/// links dropped in the part, plus the node's own resets that were answered Finished.
pub fn printed_with_drops<D: Disk, C: Callers, W: Write>()
    ensures { PrintedWithDrops D.model C.talked C.failed W.contents }
{}

/// A reply to the third step and a view with three settled steps name the third step, and no later one. A client that
/// reads only the reply's line learns the same.
pub fn return_up_to_third()
    ensures { ReturnUpToThird }
{}

/// After a crash, the disk of an instance opens as the world after the settled steps. If the store had stopped, it may
/// also open as the world after some more steps, whose commit is in doubt.
pub fn instances_leave_steps<D: Disk, P: Port>()
    ensures { InstancesLeaveSteps D P }
{}

/// No connection begins at a desk that has noted as many steps as an instance has, whatever its engine
/// keeps.
pub fn notes_end_an_instance<D: Disk, P: Port>()
    ensures { NotesEndAnInstance D P }
{}
