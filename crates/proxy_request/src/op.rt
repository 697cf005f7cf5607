//! The names of requests, in their lines and in a policy.

ghost use Rattle.std.specs.Prelude.{◌≡◌};
ghost use Rattle.proxy_request.specs.Ops.{op_name, op_named, op_number};

/// The `op` of a request.
#[derive(Clone, Copy, Debug, PartialEq, Eq)]
pub enum Op {
    Add,
    Remove,
    Join,
    Drop,
    Reset,
    Confirm,
    Show,
    Watch,
    Resend,
    Close,
}

impl Op {
    /// Returns the op with this name, or None if no op has it.
    pub fn named(name: &str) -> Option<Op>
        ensures { result ≡ op_named name.now }
    {
        match name {
            "add" => Some(Op::Add),
            "remove" => Some(Op::Remove),
            "join" => Some(Op::Join),
            "drop" => Some(Op::Drop),
            "reset" => Some(Op::Reset),
            "confirm" => Some(Op::Confirm),
            "show" => Some(Op::Show),
            "watch" => Some(Op::Watch),
            "resend" => Some(Op::Resend),
            "close" => Some(Op::Close),
            _ => None,
        }
    }

    /// Returns the op's name.
    pub fn name(self) -> &'static str
        ensures { result.now ≡ op_name self }
    {
        match self {
            Op::Add => "add",
            Op::Remove => "remove",
            Op::Join => "join",
            Op::Drop => "drop",
            Op::Reset => "reset",
            Op::Confirm => "confirm",
            Op::Show => "show",
            Op::Watch => "watch",
            Op::Resend => "resend",
            Op::Close => "close",
        }
    }

    /// Returns the op's position in the list above, counted from 0.
    pub fn number(self) -> u8
        ensures { result ≡ op_number self }
    {
        match self {
            Op::Add => 0,
            Op::Remove => 1,
            Op::Join => 2,
            Op::Drop => 3,
            Op::Reset => 4,
            Op::Confirm => 5,
            Op::Show => 6,
            Op::Watch => 7,
            Op::Resend => 8,
            Op::Close => 9,
        }
    }
}
