//! Counts the messages in transit on a lane.

ghost use Rattle.std.specs.Prelude.{◌≡◌};
ghost use Rattle.coord_world.specs.protocol.Links.{readies_after, strays};
ghost use Rattle.coord_check.specs.LinkEnds.{count, is_of_kind};

use coord_types::Msg;

/// Returns the number of messages in transit that are of this kind.
pub(crate) fn count_of(messages: &[Msg], kind: Msg) -> usize
    ensures { result ≡ count kind messages.now }
{
    let mut many = 0;
    for msg in messages {
        if is_of_kind(*msg, kind) {
            many += 1;
        }
    }
    many
}

/// Tests whether a message is of this kind, whatever distance it carries.
fn is_of_kind(msg: Msg, kind: Msg) -> bool
    ensures { result ≡ is_of_kind msg kind }
{
    match (msg, kind) {
        (Msg::Abort(_), Msg::Abort(_)) | (Msg::Ack, Msg::Ack) | (Msg::Ready, Msg::Ready) => true,
        _ => false,
    }
}

/// Returns the number of Aborts that carry a distance other than `carried`.
pub(crate) fn strays_of(messages: &[Msg], carried: u64) -> usize
    ensures { result ≡ strays carried messages.now }
{
    let mut many = 0;
    for msg in messages {
        if let Msg::Abort(distance) = *msg
            && distance != carried
        {
            many += 1;
        }
    }
    many
}

/// Returns the number of Readies after the first Abort.
pub(crate) fn late_readies(messages: &[Msg]) -> usize
    ensures { result ≡ readies_after messages.now }
{
    for (i, msg) in messages.iter().enumerate() {
        if is_of_kind(*msg, Msg::Abort(0)) {
            return count_of(&messages[i + 1..], Msg::Ready);
        }
    }
    0
}
