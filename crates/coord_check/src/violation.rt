//! The fault that the checker reports for a world that is not legal.

ghost use Rattle.std.specs.Prelude.{◌≡◌};
ghost use Rattle.coord_check.specs.Names.{letter_name};

use coord_types::NodeId;
use std::fmt;

/// The predicate that fails. `N` concerns one node; the others concern a link, seen from one end.
#[derive(Clone, Copy, Debug, PartialEq, Eq)]
pub enum Letter {
    /// The node's mode, parent, awaited neighbours and epochs agree.
    N,
    /// Of the messages in the queue, the other end has taken none, or only the front.
    A,
    /// If an end awaits the other, exactly one of these three holds: an Abort is in transit to the other
    /// end, the other end is in Abort and its parent is this end, or an Ack is in transit back. If an end
    /// does not await the other, none of the three holds.
    B,
    /// At most one Ready is in transit.
    C,
    /// No Ready follows an Abort.
    D,
    /// If a Converge node's parent is Ready again, the node's Ready is in transit.
    E,
    /// The two nodes are not each other's parent.
    F,
    /// A node in a reset has no Ready in transit, except to its parent, or if an Abort is in transit on the
    /// same lane.
    G,
    /// An Abort carries its sender's distance plus one. A child has exactly that distance, until a
    /// Ready from its parent is in transit. In version 1 all distances are 0, so H always holds.
    H,
}

impl Letter {
    /// Returns the letter as printed.
    pub fn name(self) -> &'static str
        ensures { result.now ≡ letter_name self }
    {
        match self {
            Letter::N => "N",
            Letter::A => "A",
            Letter::B => "B",
            Letter::C => "C",
            Letter::D => "D",
            Letter::E => "E",
            Letter::F => "F",
            Letter::G => "G",
            Letter::H => "H",
        }
    }
}

impl fmt::Display for Letter {
    ghost use Rattle.std.specs.Prelude.{Some};

    ghost output = { λ letter. Some (letter_name letter) };

    fn fmt<W: fmt::Write>(&self, f: &mut fmt::Formatter<W>) -> fmt::Result {
        f.write_str(self.name())
    }
}

/// A fault: the letter that fails at node `a`, or at its link to `b`. For N, `a` and `b` are the
/// same node.
#[derive(Clone, Copy, Debug, PartialEq, Eq)]
pub struct Violation {
    pub a: NodeId,
    pub b: NodeId,
    pub letter: Letter,
}

impl fmt::Display for Violation {
    ghost use Rattle.std.specs.Prelude.{Some};
    ghost use Rattle.coord_check.specs.Names.{violation_text};

    ghost output = { λ violation. Some (violation_text violation) };

    fn fmt<W: fmt::Write>(&self, f: &mut fmt::Formatter<W>) -> fmt::Result {
        let a = self.a.number();
        let b = self.b.number();
        let letter = self.letter.name();
        write!(f, "{a} {b} {letter}")
    }
}
