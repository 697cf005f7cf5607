//! The predicates over a link, one function for each, seen from one end of the link.

ghost use Rattle.std.specs.Prelude.{◌≡◌};
ghost use Rattle.coord_link.specs.LaneMachine.{has_front_taken_at_most};
ghost use Rattle.coord_world.specs.protocol.Links.{has_ack_in_one_place, has_no_early_ready, has_ready_for_child, has_right_distances};
ghost use Rattle.coord_check.specs.Faults.{holds_of};
ghost use Rattle.coord_check.specs.LinkEnds.{seen};

use crate::in_transit::{count_of, late_readies, strays_of};
use crate::link_end::LinkEnd;
use crate::violation::Letter;
use coord_link::Lane;
use coord_types::{Mode, Msg};

/// Tests whether the predicate with this letter holds for the link with these ends, seen from
/// `here`.
pub(crate) fn holds(letter: Letter, here: &LinkEnd, there: &LinkEnd) -> bool
    ensures { result ≡ holds_of letter here.now.lane (seen here.now there.now) }
{
    match letter {
        // N concerns only nodes.
        Letter::N => true,
        Letter::A => has_front_taken_at_most(&here.lane),
        Letter::B => has_ack_in_one_place(here, there),
        Letter::C => count_of(here.lane.transit(), Msg::Ready) <= 1,
        Letter::D => late_readies(here.lane.transit()) == 0,
        Letter::E => has_ready_for_child(here, there),
        Letter::F => !(here.child && there.child),
        Letter::G => has_no_early_ready(here),
        Letter::H => has_right_distances(here, there),
    }
}

fn has_front_taken_at_most(lane: &Lane) -> bool
    ensures { result ≡ has_front_taken_at_most lane.now }
{
    let (got, base) = (lane.got(), lane.base());
    got == base || (got > base && got - base == 1 && !lane.queue().is_empty())
}

fn has_ack_in_one_place(here: &LinkEnd, there: &LinkEnd) -> bool
    ensures { result ≡ has_ack_in_one_place (seen here.now there.now) }
{
    let aborts = count_of(here.lane.transit(), Msg::Abort(0));
    let is_owed = there.mode == Mode::Abort && there.child;
    let acks = count_of(there.lane.transit(), Msg::Ack);
    if here.awaits {
        matches!(
            (aborts, is_owed, acks),
            (1, false, 0) | (0, true, 0) | (0, false, 1)
        )
    } else {
        matches!((aborts, is_owed, acks), (0, false, 0))
    }
}

fn has_ready_for_child(here: &LinkEnd, there: &LinkEnd) -> bool
    ensures { result ≡ has_ready_for_child (seen here.now there.now) }
{
    let is_child_waiting = there.mode == Mode::Converge && there.child;
    let readies = count_of(here.lane.transit(), Msg::Ready);
    !is_child_waiting || readies != 0 || here.mode != Mode::Ready
}

fn has_no_early_ready(here: &LinkEnd) -> bool
    ensures { result ≡ has_no_early_ready (seen here.now here.now) }
{
    let messages = here.lane.transit();
    here.mode == Mode::Ready
        || here.child
        || count_of(messages, Msg::Abort(0)) != 0
        || count_of(messages, Msg::Ready) == 0
}

fn has_right_distances(here: &LinkEnd, there: &LinkEnd) -> bool
    ensures { result ≡ has_right_distances (seen here.now there.now) }
{
    let messages = here.lane.transit();
    strays_of(messages, here.carries) == 0
        && (there.mode == Mode::Ready
            || !there.child
            || count_of(messages, Msg::Ready) != 0
            || there.distance == here.carries)
}
