//! The modes of nodes, and the messages that nodes send to each other.

ghost use Rattle.std.specs.Prelude.{◌≡◌, Some};
ghost use Rattle.coord_types.specs.Names.{mode_name, msg_name};

use std::fmt;

/// The mode of a node in a reset (`docs/PROTOCOL.md`, "Modes").
#[derive(Clone, Copy, Debug, PartialEq, Eq)]
pub enum Mode {
    /// The node is not in a reset.
    Ready,
    /// The node has passed the abort wave on and awaits acknowledgements.
    Abort,
    /// The node has received all acknowledgements, and waits for its parent's Ready.
    Converge,
}

impl Mode {
    /// Returns the mode's printed name.
    pub fn name(self) -> &'static str
        ensures { result.now ≡ mode_name self }
    {
        match self {
            Mode::Ready => "ready",
            Mode::Abort => "abort",
            Mode::Converge => "converge",
        }
    }
}

impl fmt::Display for Mode {
    ghost output = { λ mode. Some (mode_name mode) };

    fn fmt<W: fmt::Write>(&self, f: &mut fmt::Formatter<W>) -> fmt::Result {
        f.write_str(self.name())
    }
}

/// A message between neighbours.
#[derive(Clone, Copy, Debug, PartialEq, Eq)]
pub enum Msg {
    /// A reset spreads. In version 2 the message carries the distance that its receiver takes: the
    /// number of links between the receiver and the node that began the reset. In version 1 it
    /// carries 0.
    Abort(u64),
    /// The sender acknowledges an Abort. If the receiver is the sender's parent, every node to which the sender passed
    /// the reset on has acknowledged it too.
    Ack,
    /// The reset is over.
    Ready,
}

impl Msg {
    /// Returns the message's printed name.
    pub fn name(self) -> &'static str
        ensures { result.now ≡ msg_name self }
    {
        match self {
            Msg::Abort(_) => "abort",
            Msg::Ack => "ack",
            Msg::Ready => "ready",
        }
    }
}

impl fmt::Display for Msg {
    ghost output = { λ msg. Some (msg_name msg) };

    fn fmt<W: fmt::Write>(&self, f: &mut fmt::Formatter<W>) -> fmt::Result {
        f.write_str(self.name())
    }
}
