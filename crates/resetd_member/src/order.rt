//! Orders and order books, as numbers.

ghost use Rattle.std.specs.Prelude.{◌≡◌, Some};
ghost use Rattle.resetd_member.specs.Orders.{command_of, kept_of, order_of, orders_of};

use coord_orders::Kept;
use coord_types::{Command, Group, NodeId};

/// An order. `op` is 1 to 6: add, remove, join, drop, reset, confirm; 0 means no order. `a` is a
/// node, `b` the other node of a link or the group of an added node, and `epoch` the confirmed
/// epoch.
#[repr(C)]
#[derive(Clone, Copy, Debug, PartialEq, Eq)]
pub struct Order {
    pub op: u8,
    pub a: u8,
    pub b: u8,
    pub epoch: u64,
}

/// An order book: the number of the last order that was carried out, and the order in hand.
#[repr(C)]
#[derive(Clone, Copy, Debug, PartialEq, Eq)]
pub struct Orders {
    pub last: u64,
    pub in_hand: Order,
}

/// Returns the order with these numbers, or None if one of them is out of range.
pub(crate) fn command_of(order: Order) -> Option<Command>
    ensures { result ≡ command_of order }
{
    match order.op {
        1 => Some(Command::Add(NodeId::new(order.a)?, Group::new(order.b)?)),
        2 => Some(Command::Remove(NodeId::new(order.a)?)),
        3 => Some(Command::Join(NodeId::new(order.a)?, NodeId::new(order.b)?)),
        4 => Some(Command::Drop(NodeId::new(order.a)?, NodeId::new(order.b)?)),
        5 => Some(Command::Reset(NodeId::new(order.a)?)),
        6 => Some(Command::Confirm(NodeId::new(order.a)?, order.epoch)),
        _ => None,
    }
}

/// Returns a command as an order, in numbers.
pub(crate) fn order_of(command: &Command) -> Order
    ensures { result ≡ order_of command.now }
{
    match *command {
        Command::Add(node, group) => numbers(1, node.number(), group.number(), 0),
        Command::Remove(node) => numbers(2, node.number(), 0, 0),
        Command::Join(a, b) => numbers(3, a.number(), b.number(), 0),
        Command::Drop(a, b) => numbers(4, a.number(), b.number(), 0),
        Command::Reset(node) => numbers(5, node.number(), 0, 0),
        Command::Confirm(node, epoch) => numbers(6, node.number(), 0, epoch),
    }
}

fn numbers(op: u8, a: u8, b: u8, epoch: u64) -> Order
    ensures { result ≡ record { op = op; a = a; b = b; epoch = epoch } }
{
    Order { op, a, b, epoch }
}

/// Returns the order book with these numbers, or None if one of them is out of range.
pub(crate) fn kept_of(orders: Orders) -> Option<Kept>
    ensures { result ≡ kept_of orders }
{
    if orders.in_hand.op == 0 {
        return Some(Kept {
            last: orders.last,
            in_hand: None,
        });
    }
    Some(Kept {
        last: orders.last,
        in_hand: Some(command_of(orders.in_hand)?),
    })
}

/// Returns an order book in numbers.
pub(crate) fn orders_of(kept: &Kept) -> Orders
    ensures { result ≡ orders_of kept.now }
{
    let in_hand = match &kept.in_hand {
        Some(command) => order_of(command),
        None => numbers(0, 0, 0, 0),
    };
    Orders {
        last: kept.last,
        in_hand,
    }
}
