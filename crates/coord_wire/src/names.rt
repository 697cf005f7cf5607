//! The names in an answer's line, and their meanings.

ghost use Rattle.std.specs.Prelude.{◌≡◌};
ghost use Rattle.coord_wire.specs.AnswerLine.{kind_named, refusal_named};

use coord_types::{Kind, Refusal};

/// Returns the kind of reply to an order that has this name, or None.
pub(crate) fn kind_named(name: &str) -> Option<Kind>
    ensures { result ≡ kind_named name.now }
{
    match name {
        "done" => Some(Kind::Done),
        "started" => Some(Kind::Started),
        "finished" => Some(Kind::Finished),
        "joined" => Some(Kind::Joined),
        _ => None,
    }
}

/// Returns the refusal of an order that has this name, or None.
pub(crate) fn refusal_named(name: &str) -> Option<Refusal>
    ensures { result ≡ refusal_named name.now }
{
    match name {
        "Stopped" => Some(Refusal::Stopped),
        "OutOfMemory" => Some(Refusal::OutOfMemory),
        "Exhausted" => Some(Refusal::Exhausted),
        "OutOfTurn" => Some(Refusal::OutOfTurn),
        "NumberReused" => Some(Refusal::NumberReused),
        "UnknownNode" => Some(Refusal::UnknownNode),
        "NodeExists" => Some(Refusal::NodeExists),
        "HasLinks" => Some(Refusal::HasLinks),
        "SameNode" => Some(Refusal::SameNode),
        "OtherGroup" => Some(Refusal::OtherGroup),
        "LinkExists" => Some(Refusal::LinkExists),
        "NoLink" => Some(Refusal::NoLink),
        "DegreeFull" => Some(Refusal::DegreeFull),
        "LinksFull" => Some(Refusal::LinksFull),
        "BadEpoch" => Some(Refusal::BadEpoch),
        "PendingFull" => Some(Refusal::PendingFull),
        _ => None,
    }
}
