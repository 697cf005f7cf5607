//! The requests to the proxy.

ghost use Rattle.std.specs.Prelude.{◌≡◌};
ghost use Rattle.proxy_request.specs.Requests.{client_of, command_node, command_op, first_node_of, is_once, is_query, of_server, op_of, second_node_of, unnumbered_command};

use crate::op::Op;
use coord_types::{Client, Command, NodeId};

/// The client of the orders that the proxy numbers. No request over a connection may use this client.
pub const PROXY_CLIENT: u8 = 15;

/// A request to the proxy.
#[derive(Clone, Copy, Debug, PartialEq, Eq)]
pub enum Request {
    /// Carry out a client's order with this number, which may be any u64.
    Order(Client, u64, Command),
    /// Confirm an epoch at a node. The proxy chooses the number.
    Confirm(NodeId, u64),
    /// Reset a node. The proxy chooses the number.
    Reset(NodeId),
    /// Reset a node if it has this epoch and no reset is in progress.
    ResetAt(NodeId, u64),
    /// Show the settled world once.
    Show,
    /// Show the settled world now and after each change.
    Watch,
    /// Resend the packets that may have been lost.
    Resend,
    /// Close the server.
    Close,
}

impl Request {
    /// Returns the request's name in a policy.
    pub fn op(&self) -> Op
        ensures { result ≡ op_of self.now }
    {
        match self {
            Request::Order(_, _, command) => command_op(*command),
            Request::Confirm(_, _) => Op::Confirm,
            Request::Reset(_) | Request::ResetAt(_, _) => Op::Reset,
            Request::Show => Op::Show,
            Request::Watch => Op::Watch,
            Request::Resend => Op::Resend,
            Request::Close => Op::Close,
        }
    }

    /// Returns the client that the request names, or None if it names none.
    pub fn client(&self) -> Option<Client>
        ensures { result ≡ client_of self.now }
    {
        match self {
            Request::Order(client, _, _) => Some(*client),
            _ => None,
        }
    }

    /// Returns the first node that the request names, or None if it names none.
    pub fn first_node(&self) -> Option<NodeId>
        ensures { result ≡ first_node_of self.now }
    {
        match self {
            Request::Order(_, _, command) => Some(first_node(*command)),
            Request::Confirm(node, _) | Request::Reset(node) | Request::ResetAt(node, _) => {
                Some(*node)
            }
            _ => None,
        }
    }

    /// Returns the second node of a request that names two nodes, or None for any other request.
    pub fn second_node(&self) -> Option<NodeId>
        ensures { result ≡ second_node_of self.now }
    {
        match self {
            Request::Order(_, _, Command::Join(_, b) | Command::Drop(_, b)) => Some(*b),
            _ => None,
        }
    }

    /// Tests whether the request changes nothing in the server.
    pub fn is_query(&self) -> bool
        ensures { result ≡ is_query self.now }
    {
        matches!(self, Request::Show | Request::Watch)
    }

    /// Tests whether the request must not be sent to the server a second time.
    pub fn is_once(&self) -> bool
        ensures { result ≡ is_once self.now }
    {
        matches!(self, Request::Close)
    }

    /// Returns the command of an order that names no client and no number, or None for any other request.
    pub fn unnumbered_command(&self) -> Option<Command>
        ensures { result ≡ unnumbered_command self.now }
    {
        match self {
            Request::Confirm(node, epoch) => Some(Command::Confirm(*node, *epoch)),
            Request::Reset(node) | Request::ResetAt(node, _) => Some(Command::Reset(*node)),
            _ => None,
        }
    }
}

fn command_op(command: Command) -> Op
    ensures { result ≡ command_op command }
{
    match command {
        Command::Add(_, _) => Op::Add,
        Command::Remove(_) => Op::Remove,
        Command::Join(_, _) => Op::Join,
        Command::Drop(_, _) => Op::Drop,
        Command::Reset(_) => Op::Reset,
        Command::Confirm(_, _) => Op::Confirm,
    }
}

fn first_node(command: Command) -> NodeId
    ensures { result ≡ command_node command }
{
    match command {
        Command::Add(node, _) => node,
        Command::Remove(node) => node,
        Command::Join(node, _) => node,
        Command::Drop(node, _) => node,
        Command::Reset(node) => node,
        Command::Confirm(node, _) => node,
    }
}

/// Returns a request of the server as a request to the proxy.
pub(crate) fn of_server(request: coord_admin::Request) -> Request
    ensures { result ≡ of_server request }
{
    match request {
        coord_admin::Request::Order(client, number, command) => {
            Request::Order(client, number, command)
        }
        coord_admin::Request::Show => Request::Show,
        coord_admin::Request::Resend => Request::Resend,
        coord_admin::Request::Close => Request::Close,
    }
}
