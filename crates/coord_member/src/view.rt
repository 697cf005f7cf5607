//! The parts of a view that a member reads.

/// An entry of a party: a node with its epoch, or a link with its incarnation, which is the number of the step that
/// made the link. A link has its lesser end first.
#[derive(Clone, Copy, PartialEq, Eq, Debug)]
pub enum Entry {
    Node { node: u64, epoch: u64 },
    Link { a: u64, b: u64, incarnation: u64 },
}

/// The row of the member's node, and the state of all nodes of its party, including its own.
#[derive(Clone, Copy, PartialEq, Eq, Debug)]
pub struct Row {
    pub epoch: u64,
    pub confirmed: u64,
    /// Whether every node of the party is in no reset and has confirmed its epoch.
    pub through: bool,
    /// Whether no node of the party is in a reset.
    pub quiet: bool,
}
