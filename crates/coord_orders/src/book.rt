//! A client's order book.

ghost use Rattle.std.specs.Prelude.{◌≡◌, ◌<◌, Some, None};
ghost use Rattle.coord_orders.specs.Book.{heard, is_awaited, kept_after, line_of, opened, sending, written};

use crate::meaning::{Answer, Meaning};
use coord_types::Command;

/// The part of a client's order book that is stored on disk.
#[derive(Clone, Copy, Debug, PartialEq, Eq)]
pub struct Kept {
    /// The number of the client's last order that was carried out; 0 if there is none.
    pub last: u64,
    /// The order that is recorded under the next number, and whose outcome is unknown.
    pub in_hand: Option<Command>,
}

/// An order with its number, as a line to the server states it.
#[derive(Clone, Copy, Debug, PartialEq, Eq)]
pub struct Line {
    pub number: u64,
    pub command: Command,
}

/// A client's order book: the stored part, and in memory the line whose answer it awaits.
#[derive(Clone, Copy, Debug, PartialEq, Eq)]
pub struct OrderBook {
    /// The part that must be on disk before a line is sent, and before the next order is recorded.
    pub kept: Kept,
    /// The serial number of the line that was sent last, if its answer is still awaited.
    pub awaited: Option<u64>,
}

/// The meaning of an answer, and the book after it.
#[derive(Clone, Copy, Debug, PartialEq, Eq)]
pub struct Heard {
    pub book: OrderBook,
    /// None if the answer belongs to a line other than the awaited line, and so has no meaning.
    pub meaning: Option<Meaning>,
}

impl OrderBook {
    /// Returns the book of a client that starts with this stored part. It awaits no answer.
    pub fn open(kept: Kept) -> Self
        ensures { result ≡ opened kept }
    {
        OrderBook {
            kept,
            awaited: None,
        }
    }

    /// Records an order under the next number. Returns None if another order, whose outcome is
    /// unknown, is already in hand.
    pub fn write_down(self, command: Command) -> Option<Self>
        ensures { result ≡ written self command }
    {
        match self.kept.in_hand {
            Some(_) => None,
            None => Some(OrderBook {
                kept: Kept {
                    last: self.kept.last,
                    in_hand: Some(command),
                },
                awaited: None,
            }),
        }
    }

    /// Returns the line to send, for the first time or again, or None if no order is in hand.
    pub fn line(&self) -> Option<Line>
        requires { self.now.kept.last < u64.MAX }
        ensures { result ≡ line_of self.now.kept }
    {
        let last = self.kept.last;
        match self.kept.in_hand {
            Some(command) => Some(Line {
                number: last + 1,
                command,
            }),
            None => None,
        }
    }

    /// Records that the line is sent under a serial number that no other line of this client had:
    /// from now on only the answer to this line counts. (If each line has its own connection, the
    /// serial number stands for the connection.)
    pub fn send(self, serial: u64) -> Self
        ensures { result ≡ sending self serial }
    {
        OrderBook {
            kept: self.kept,
            awaited: Some(serial),
        }
    }

    /// Tests whether the answer to the line with this serial number is awaited.
    fn awaits(&self, serial: u64) -> bool
        ensures { result ≡ is_awaited self.now serial }
    {
        self.awaited == Some(serial)
    }

    /// Handles an answer to the line with this serial number.
    pub fn hear(self, serial: u64, answer: Answer) -> Heard
        requires { self.kept.last < u64.MAX }
        ensures { result ≡ heard self serial answer }
    {
        if !self.awaits(serial) {
            return Heard {
                book: self,
                meaning: None,
            };
        }
        let meaning = answer.meaning();
        Heard {
            book: OrderBook::open(self.kept.after(meaning)),
            meaning: Some(meaning),
        }
    }
}

impl Kept {
    /// Returns the stored part after an answer with this meaning.
    fn after(self, meaning: Meaning) -> Self
        requires { self.last < u64.MAX }
        ensures { result ≡ kept_after self meaning }
    {
        match meaning {
            Meaning::Done(_) => Kept {
                last: self.last + 1,
                in_hand: None,
            },
            Meaning::NotDone => Kept {
                last: self.last,
                in_hand: None,
            },
            Meaning::SendAgain | Meaning::CountLost => self,
        }
    }
}
