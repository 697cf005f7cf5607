//! A request line that has no answer yet.

ghost use Rattle.std.specs.Prelude.{◌≡◌};

use std::marker::Model;

/// A request line that has no answer yet. Contracts see the line as its bytes.
#[derive(Debug, Drop)]
pub struct Pending {
    from: u64,
    line: Vec<u8>,
    is_once: bool,
    is_query: bool,
    is_unnumbered: bool,
}

impl Model for Pending {
    ghost use Rattle.proxy_core.specs.Pending.{Pending};

    ghost Value = { Pending };

    ghost view = { λ a. record { from = a.from; line = a.line.items; is_once = a.is_once; is_query = a.is_query; is_unnumbered = a.is_unnumbered } };
}

impl Pending {
    ghost use Rattle.proxy_core.specs.Pending.{new_pending};

    pub(crate) fn new(
        from: u64,
        line: Vec<u8>,
        is_once: bool,
        is_query: bool,
        is_unnumbered: bool,
    ) -> Self
        ensures { result ≡ new_pending from line.items is_once is_query is_unnumbered }
    {
        Pending {
            from,
            line,
            is_once,
            is_query,
            is_unnumbered,
        }
    }

    /// Returns the number of the connection that sent the line.
    pub fn from(&self) -> u64
        ensures { result ≡ self.now.from }
    {
        self.from
    }

    /// Returns the line as it arrived, without its line feed.
    pub fn line(&self) -> &[u8]
        ensures { result.now ≡ self.now.line }
    {
        self.line.as_slice()
    }

    /// Returns whether the line must not be sent to the server a second time.
    pub fn is_once(&self) -> bool
        ensures { result ≡ self.now.is_once }
    {
        self.is_once
    }

    /// Returns whether the line is a query: the server changes nothing for it.
    pub fn is_query(&self) -> bool
        ensures { result ≡ self.now.is_query }
    {
        self.is_query
    }

    /// Returns whether the line is an order that arrived without a client and a number. The proxy sends such an order
    /// with its own client and number.
    pub fn is_unnumbered(&self) -> bool
        ensures { result ≡ self.now.is_unnumbered }
    {
        self.is_unnumbered
    }
}
