//! The ops of requests, and the members of each.

ghost use Rattle.std.specs.Prelude.{◌≡◌, length};
ghost use Rattle.serde_json.specs.View.{view};
ghost use Rattle.coord_admin.specs.Requests.{op_named, members_of, number_at, id_at, command_of, request_by};

use crate::request::Request;
use coord_types::{Command, Identifier};
use serde_json::Value;

/// The `op` of a request.
#[derive(Clone, Copy)]
pub enum Op {
    Add,
    Remove,
    Join,
    Drop,
    Reset,
    Confirm,
    Show,
    Resend,
    Close,
}

impl Op {
    /// Returns the op with this name, or None if there is no such op.
    pub fn named(name: &str) -> Option<Op>
        ensures { result ≡ op_named name.now }
    {
        match name {
            "add" => Some(Op::Add),
            "remove" => Some(Op::Remove),
            "join" => Some(Op::Join),
            "drop" => Some(Op::Drop),
            "reset" => Some(Op::Reset),
            "confirm" => Some(Op::Confirm),
            "show" => Some(Op::Show),
            "resend" => Some(Op::Resend),
            "close" => Some(Op::Close),
            _ => None,
        }
    }

    /// Returns the number of members that a request with this op has besides `op`.
    pub fn member_count(self) -> usize
        ensures { result ≡ length (members_of self) }
    {
        match self {
            Op::Remove | Op::Reset => 3,
            Op::Add | Op::Join | Op::Drop | Op::Confirm => 4,
            Op::Show | Op::Resend | Op::Close => 0,
        }
    }

    /// Returns the request that these members make, or None if one of them is missing, is not a whole
    /// number, or is out of its range.
    pub fn request(self, members: &Value) -> Option<Request>
        ensures { result ≡ request_by self (view members.now) }
    {
        match self {
            Op::Show => Some(Request::Show),
            Op::Resend => Some(Request::Resend),
            Op::Close => Some(Request::Close),
            _ => Some(Request::Order(
                identifier_at(members, "client")?,
                number_at(members, "number")?,
                self.command(members)?,
            )),
        }
    }

    fn command(self, members: &Value) -> Option<Command>
        ensures { result ≡ command_of self (view members.now) }
    {
        match self {
            Op::Add => Some(Command::Add(
                identifier_at(members, "node")?,
                identifier_at(members, "group")?,
            )),
            Op::Remove => Some(Command::Remove(identifier_at(members, "node")?)),
            Op::Join => Some(Command::Join(
                identifier_at(members, "a")?,
                identifier_at(members, "b")?,
            )),
            Op::Drop => Some(Command::Drop(
                identifier_at(members, "a")?,
                identifier_at(members, "b")?,
            )),
            Op::Reset => Some(Command::Reset(identifier_at(members, "node")?)),
            Op::Confirm => Some(Command::Confirm(
                identifier_at(members, "node")?,
                number_at(members, "epoch")?,
            )),
            Op::Show | Op::Resend | Op::Close => None,
        }
    }
}

/// Returns the value at a key if it is a u64, otherwise None.
pub fn number_at(members: &Value, key: &str) -> Option<u64>
    ensures { result ≡ number_at key.now (view members.now) }
{
    members.get(key).and_then(Value::as_u64)
}

/// Returns the identifier at a key if it is a whole number from 1 to `MOST`, otherwise None.
pub fn identifier_at<const MOST: u8>(members: &Value, key: &str) -> Option<Identifier<MOST>>
    ensures { result ≡ id_at key.now MOST (view members.now) }
{
    let number = number_at(members, key)?;
    Identifier::new(u8::try_from(number).ok()?)
}
