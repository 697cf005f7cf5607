//! The reasons for which a step or a call is refused.

ghost use Rattle.std.specs.Prelude.{◌≡◌, Some};
ghost use Rattle.coord_types.specs.Names.{refusal_name, refusal_number, refusal_text};

use std::fmt;

/// A reason for which a step or a call is refused (`docs/PROTOCOL.md`, "Acceptance and refusals").
#[derive(Clone, Copy, Debug, PartialEq, Eq)]
pub enum Refusal {
    Stopped,
    OutOfMemory,
    Exhausted,
    OutOfTurn,
    NumberReused,
    UnknownNode,
    NodeExists,
    HasLinks,
    SameNode,
    OtherGroup,
    LinkExists,
    NoLink,
    DegreeFull,
    LinksFull,
    BadEpoch,
    Old,
    Early,
    Differs,
    NotReleased,
    PendingFull,
    /// The caller has seen a later step than the last settled one.
    Behind {
        /// The number of settled steps.
        settled: u64,
    },
    Stranger,
}

impl Refusal {
    /// Returns the refusal's number, from 1 to 22.
    pub fn number(self) -> u8
        ensures { result ≡ refusal_number self }
    {
        match self {
            Refusal::Stopped => 1,
            Refusal::OutOfMemory => 2,
            Refusal::Exhausted => 3,
            Refusal::OutOfTurn => 4,
            Refusal::NumberReused => 5,
            Refusal::UnknownNode => 6,
            Refusal::NodeExists => 7,
            Refusal::HasLinks => 8,
            Refusal::SameNode => 9,
            Refusal::OtherGroup => 10,
            Refusal::LinkExists => 11,
            Refusal::NoLink => 12,
            Refusal::DegreeFull => 13,
            Refusal::LinksFull => 14,
            Refusal::BadEpoch => 15,
            Refusal::Old => 16,
            Refusal::Early => 17,
            Refusal::Differs => 18,
            Refusal::NotReleased => 19,
            Refusal::PendingFull => 20,
            Refusal::Behind { .. } => 21,
            Refusal::Stranger => 22,
        }
    }

    /// Returns the refusal's printed name.
    pub fn name(self) -> &'static str
        ensures { result.now ≡ refusal_name self }
    {
        match self {
            Refusal::Stopped => "Stopped",
            Refusal::OutOfMemory => "OutOfMemory",
            Refusal::Exhausted => "Exhausted",
            Refusal::OutOfTurn => "OutOfTurn",
            Refusal::NumberReused => "NumberReused",
            Refusal::UnknownNode => "UnknownNode",
            Refusal::NodeExists => "NodeExists",
            Refusal::HasLinks => "HasLinks",
            Refusal::SameNode => "SameNode",
            Refusal::OtherGroup => "OtherGroup",
            Refusal::LinkExists => "LinkExists",
            Refusal::NoLink => "NoLink",
            Refusal::DegreeFull => "DegreeFull",
            Refusal::LinksFull => "LinksFull",
            Refusal::BadEpoch => "BadEpoch",
            Refusal::Old => "Old",
            Refusal::Early => "Early",
            Refusal::Differs => "Differs",
            Refusal::NotReleased => "NotReleased",
            Refusal::PendingFull => "PendingFull",
            Refusal::Behind { .. } => "Behind",
            Refusal::Stranger => "Stranger",
        }
    }
}

impl fmt::Display for Refusal {
    ghost output = { λ refusal. Some (refusal_text refusal) };

    fn fmt<W: fmt::Write>(&self, f: &mut fmt::Formatter<W>) -> fmt::Result {
        let number = self.number();
        let name = self.name();
        write!(f, "{number} {name}")
    }
}
