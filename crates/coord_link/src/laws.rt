//! Laws of the lane machine. Each is the contract of an empty function.

ghost use Rattle.coord_link.specs.Moves.{LaneLaw};
ghost use Rattle.coord_link.specs.WorkedRun.{ResetLane};

/// The lane law. Whatever is sent, taken and cleared on a new lane, with any numbers, the taken messages are the first
/// `got` sent messages, in order, and the queue holds the sent messages after the first `base`.
pub fn lane_law()
    ensures { LaneLaw }
{}

/// A worked run: the lane from the initiator of a reset to its only neighbour,
/// with packets and receipts that arrive twice or too early.
pub fn reset_lane()
    ensures { ResetLane }
{}
