//! The calls of the order book, over orders as numbers.

ghost use Rattle.std.specs.Prelude.{◌≡◌, ◌≢◌, Ok, Err, IfOk, IfErr, string_bytes};
ghost use Rattle.resetd_member.specs.Orders.{heard_in, line_for, meaning_number, written_down};
ghost use Rattle.resetd_member.specs.declared.status.Fault.TheVariants.{OutOfMemory};

use crate::order::{Order, Orders, command_of, kept_of, orders_of};
use crate::status::Fault;
use coord_orders::{Meaning, OrderBook};
use coord_types::Client;
use coord_wire::{ReadFault, print_order, read_answer};
use std::alloc::Global;

/// The book after an answer, and the answer's meaning.
#[derive(Clone, Copy, Debug, PartialEq, Eq)]
pub struct Heard {
    pub orders: Orders,
    pub meaning: u32,
}

/// Records an order under the next number.
pub(crate) fn write_down(orders: Orders, order: Order) -> Result<Orders, Fault>
    ensures { result ≡ written_down orders order }
{
    let Some(kept) = kept_of(orders) else {
        return Err(Fault::BadNumber);
    };
    let Some(command) = command_of(order) else {
        return Err(Fault::BadNumber);
    };
    match OrderBook::open(kept).write_down(command) {
        Some(book) => Ok(orders_of(&book.kept)),
        None => Err(Fault::InHand),
    }
}

/// Returns the line to send, for the first time or again; empty if no order is in hand.
pub(crate) fn line_for(alloc: Global, orders: Orders, client: u8) -> Result<String, Fault>
    ensures line { IfOk result (λ text. line_for orders client ≡ Ok (string_bytes text)) }
    ensures fault { IfErr result (λ fault. fault ≢ OutOfMemory → line_for orders client ≡ Err fault) }
{
    let Some(kept) = kept_of(orders) else {
        return Err(Fault::BadNumber);
    };
    let Some(client) = Client::new(client) else {
        return Err(Fault::BadNumber);
    };
    if kept.last == u64::MAX {
        return Err(Fault::BadNumber);
    }
    let mut text = String::new(alloc);
    if let Some(line) = OrderBook::open(kept).line() {
        print_order(&mut text, client, &line)?;
    }
    Ok(text)
}

/// Returns the number of a meaning.
fn meaning_number(meaning: Meaning) -> u32
    ensures { result ≡ meaning_number meaning }
{
    match meaning {
        Meaning::Done(_) => 1,
        Meaning::NotDone => 2,
        Meaning::SendAgain => 3,
        Meaning::CountLost => 4,
    }
}

/// Handles the answer to the line that was sent last, and returns the new book and the answer's meaning. The caller
/// uses a separate connection for each line, or sends no line before the previous one is answered, so no other answer
/// can arrive.
pub(crate) fn hear(alloc: Global, orders: Orders, line: &str) -> Result<Heard, Fault>
    ensures { result ≢ Err OutOfMemory → result ≡ heard_in orders line.now }
{
    let Some(kept) = kept_of(orders) else {
        return Err(Fault::BadNumber);
    };
    let answer = match read_answer(alloc, line) {
        Ok(answer) => answer,
        Err(ReadFault::OutOfMemory) => return Err(Fault::OutOfMemory),
        Err(ReadFault::NoAnswer) => return Err(Fault::BadLine),
    };
    if kept.last == u64::MAX {
        return Err(Fault::BadNumber);
    }
    let heard = OrderBook::open(kept).send(0).hear(0, answer);
    Ok(Heard {
        orders: orders_of(&heard.book.kept),
        meaning: match heard.meaning {
            Some(meaning) => meaning_number(meaning),
            None => 0,
        },
    })
}
