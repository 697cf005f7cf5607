//! The rules of a policy.

use coord_types::{Client, NodeId};
use proxy_request::Op;

/// A rule: some principals, and the requests that the rule allows them.
#[derive(Debug, Drop)]
pub struct Rule {
    /// The principals, at least one. Each is the name of a socket, or `certificate:` followed by a common name.
    pub principals: Vec<String>,
    /// The allowed ops, at least one.
    pub ops: Vec<Op>,
    /// The clients whose orders are allowed, at least one; None allows all clients.
    pub clients: Option<Vec<Client>>,
    /// The nodes that a request may name, at least one; None allows all nodes.
    pub nodes: Option<Vec<NodeId>>,
}

/// The rules of a policy. A request that no rule allows is refused.
#[derive(Debug, Drop)]
pub struct Policy {
    /// The rules, in the order of the file.
    pub rules: Vec<Rule>,
}
