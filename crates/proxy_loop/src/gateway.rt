//! The loop's interface to the reader of lines, the policy, the principals and the audit.

use coord_types::NodeId;
use proxy_core::Policy;
use std::alloc::{AllocError, Global};
use std::fs::{File, Files};
use std::time::{Clock, Duration, SystemTime};

/// What a line asks for.
#[derive(Clone, Copy, Debug, PartialEq, Eq)]
pub enum Reading {
    /// A request to the server. The policy decides whether the line is passed on.
    Request,
    /// A watch: the settled world is shown now and after each change.
    Watch,
    /// A reset of this node, if the node has this epoch and no reset is in progress.
    ResetAt(NodeId, u64),
    /// No request, but a fault. This is the line that reports the fault, with its line feed.
    Fault(&'static str),
}

/// What a view decides about a reset that names an epoch.
#[derive(Debug, Drop)]
pub enum Verdict {
    /// The reset goes to the server: its node has the epoch, and no reset is in progress.
    Goes,
    /// The reset waits: another reset is in progress, and the node has not heard of it yet or has already gone through
    /// it.
    Waits,
    /// The reset is answered with this line, without its line feed.
    Answer(Vec<u8>),
}

/// A moment, read from two clocks.
#[derive(Clone, Copy, Debug)]
pub struct Moment {
    /// The time since an arbitrary moment. It never goes back.
    pub now: Duration,
    pub time: SystemTime,
}

/// The kind of answer that a client's line got.
#[derive(Clone, Copy, Debug, PartialEq, Eq)]
pub enum ExchangeKind {
    /// The server's answer to a query.
    Query,
    /// The answer to anything else that the policy allows.
    Order,
    /// A refusal: the policy does not allow the line.
    Denied,
    /// A fault: the line is not a request, or memory ran out.
    Fault,
}

/// A client's line and its answer.
#[derive(Clone, Copy)]
pub struct Exchange<'l, 'a> {
    /// The role of the client's connection.
    pub role: u32,
    pub kind: ExchangeKind,
    /// The line, without its line feed. None for a query, whose line is not kept, and for a line over the limit.
    pub line: Option<&'l [u8]>,
    /// The answer, without its line feed.
    pub answer: &'a [u8],
    /// How long the line has waited for the answer.
    pub waited: Duration,
    pub at: Moment,
}

/// What the loop has counted since it began, and its present connections.
#[derive(Clone, Copy, Debug)]
pub struct Counts {
    /// The number of connections that were accepted.
    pub connections: u64,
    pub flights: u64,
    /// The number of lines that were sent to the server again.
    pub resends: u64,
    /// The number of connections that are open now.
    pub open: usize,
    /// The number of open connections that watch.
    pub watchers: usize,
    /// Whether the server answers; None until that is known.
    pub is_answering: Option<bool>,
}

/// The reader of lines, the policy, the principals of roles, and the audit.
pub trait Gateway: Policy + Drop {
    /// Returns the role of the proxy's own connection.
    fn own_role(&self) -> u32;

    /// Returns what a line asks for. `line` is None if the line was over the limit.
    fn read(&self, alloc: Global, line: Option<&[u8]>) -> Reading;

    /// Returns whether connections in this role may watch.
    fn may_watch(&self, role: u32) -> bool;

    /// Returns whether connections in this role may send this line. Errors: out of memory.
    fn may_send(&self, alloc: Global, role: u32, line: &[u8]) -> Result<bool, AllocError>;

    /// Decides, by the line of a view, what happens to a reset of this node that names this epoch. Errors: out of
    /// memory.
    fn judge_reset(
        &self,
        alloc: Global,
        view: &[u8],
        node: NodeId,
        epoch: u64,
    ) -> Result<Verdict, AllocError>;

    /// Returns the line of an order of the proxy's client with this number. The server refuses the order whatever its
    /// number is. Errors: out of memory.
    fn probe(&self, alloc: Global, number: u64) -> Result<Vec<u8>, AllocError>;

    /// Returns the role of the client whose certificate has this common name, or None if that client has no role.
    /// Errors: out of memory.
    fn certificate_role(&mut self, alloc: Global, name: &[u8]) -> Result<Option<u32>, AllocError>;

    /// Records an exchange. The loop calls this before it appends the answer to the bytes for the client. Errors: out
    /// of memory.
    fn record(&mut self, alloc: Global, exchange: &Exchange<'_, '_>) -> Result<(), AllocError>;

    /// Records that a connection in this role begins. Errors: out of memory.
    fn record_begin(&mut self, alloc: Global, role: u32, at: Moment) -> Result<(), AllocError>;

    /// Records that a connection in this role ends after it lasted this long. Errors: out of memory.
    fn record_end(
        &mut self,
        alloc: Global,
        role: u32,
        lasted: Duration,
        at: Moment,
    ) -> Result<(), AllocError>;

    /// Writes all records made since the last call. The loop calls this before it sends anything to a client.
    fn write_records<R: Files<File = File> + AllocGlobal + Print + Eprint>(&mut self, rt: &R);

    /// Does the work that is due now: checks the policy's file for a change, and writes the audit lines and metrics
    /// that are due. Returns whether the policy has changed.
    fn refresh<R: Files<File = File> + AllocGlobal + Clock + Print + Eprint>(
        &mut self,
        rt: &R,
        now: Duration,
        counts: &Counts,
    ) -> bool;

    /// Returns when `refresh` is due next.
    fn refresh_at(&self) -> Duration;
}
