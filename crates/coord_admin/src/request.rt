//! The requests of lines.

ghost use Rattle.std.specs.Prelude.{◌≡◌};
ghost use Rattle.coord_admin.specs.Together.{is_order};

use coord_types::{Client, Command};

/// A request to the desk.
#[derive(Clone, Copy)]
pub enum Request {
    /// Carry out a client's order with this number, which may be any u64.
    Order(Client, u64, Command),
    /// Show the settled world.
    Show,
    /// Send again the packets that may have been lost.
    Resend,
    /// Close the desk.
    Close,
}

impl Request {
    /// Tests whether the request is an order.
    pub fn is_order(&self) -> bool
        ensures { result ≡ is_order self.now }
    {
        matches!(self, Request::Order(..))
    }
}
