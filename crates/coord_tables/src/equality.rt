//! Exact equality of the values in the tables.

ghost use Rattle.std.specs.Prelude.{◌≡◌, ◌↔◌, IsTrue};

use crate::links::LinkRow;
use coord_link::Lane;
use coord_node::Node;
use coord_types::{Msg, Session};

/// Values that can be compared exactly: the comparison returns true if and only if contracts see
/// equal values.
pub trait Same {
    fn is_same(&self, other: &Self) -> bool
        ensures { IsTrue result ↔ (self.now ≡ other.now) };
}

impl Same for Msg {
    fn is_same(&self, other: &Msg) -> bool {
        self == other
    }
}

impl Same for Session {
    fn is_same(&self, other: &Session) -> bool {
        self == other
    }
}

impl Same for Node {
    fn is_same(&self, other: &Node) -> bool {
        is_same_member(self, other) && is_same_stand(self, other) && is_same_history(self, other)
    }
}

/// Tests whether two nodes have the same group and the same neighbours.
fn is_same_member(a: &Node, b: &Node) -> bool
    ensures { IsTrue result ↔ ((a.now.group ≡ b.now.group) × (a.now.neighbours ≡ b.now.neighbours)) }
{
    a.group() == b.group() && a.neighbours() == b.neighbours()
}

/// Tests whether two nodes have the same mode, parent, awaited neighbours and distance.
fn is_same_stand(a: &Node, b: &Node) -> bool
    ensures { IsTrue result ↔ ((a.now.mode ≡ b.now.mode) × (a.now.parent ≡ b.now.parent) ×
        (a.now.pend ≡ b.now.pend) × (a.now.distance ≡ b.now.distance)) }
{
    a.mode() == b.mode()
        && a.parent() == b.parent()
        && a.pend() == b.pend()
        && a.distance() == b.distance()
}

/// Tests whether two nodes have the same epoch and the same confirmed epoch.
fn is_same_history(a: &Node, b: &Node) -> bool
    ensures { IsTrue result ↔ ((a.now.epoch ≡ b.now.epoch) × (a.now.confirmed ≡ b.now.confirmed)) }
{
    a.epoch() == b.epoch() && a.confirmed() == b.confirmed()
}

impl Same for Lane {
    fn is_same(&self, other: &Lane) -> bool {
        self.inc() == other.inc()
            && self.base() == other.base()
            && self.got() == other.got()
            && is_same_list(self.queue(), other.queue())
    }
}

impl Same for LinkRow {
    fn is_same(&self, other: &LinkRow) -> bool {
        self.a == other.a
            && self.b == other.b
            && self.forth.is_same(&other.forth)
            && self.back.is_same(&other.back)
    }
}

/// Tests whether two lists have equal values in the same order.
pub fn is_same_list<T: Same>(a: &[T], b: &[T]) -> bool
    ensures { IsTrue result ↔ (a.now ≡ b.now) }
{
    if a.len() != b.len() {
        return false;
    }
    for i in 0..a.len() {
        if !a[i].is_same(&b[i]) {
            return false;
        }
    }
    true
}
