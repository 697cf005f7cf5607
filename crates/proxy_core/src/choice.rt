//! The choice of the next flight among the waiting lines.

ghost use Rattle.std.specs.Prelude.{◌≡◌, ◌<◌, ℕ, [], nat_lt, length, IfOk, OnOk, OnErr, MatchOption, ◌&&◌, ◌||◌, ◌==◌, not};
ghost use Rattle.std.specs.BTreeSet.{contains};
ghost use Rattle.std.specs.Ordering.{nat_cmp};
ghost use Rattle.proxy_core.specs.declared.choice.Kind.TheVariants.{Any};
ghost use Rattle.proxy_core.specs.Machine.{is_begun, joins, kind_after, left, led, picked, picks_of, is_ready, room_after, second_round};

use crate::pending::Pending;
use crate::proxy::MOST_FLIGHT_LINES;
use std::alloc::{AllocError, Global};
use std::collections::{BTreeSet, VecDeque};
use std::marker::Model;

/// The kind of a flight's lines.
#[derive(Clone, Copy, Debug, PartialEq, Eq)]
pub(crate) enum Kind {
    /// The flight has no line yet.
    Any,
    /// One line that must not be sent twice, and so flies alone.
    Alone,
    /// Queries.
    Queries,
    /// Orders that may be sent twice.
    Orders,
}

/// The result of one round of choosing the next flight: the chosen lines, their kind, and the room left.
#[derive(Debug, Drop)]
pub(crate) struct Round {
    picks: Vec<bool>,
    kind: Kind,
    room: usize,
}

impl Model for Round {
    ghost use Rattle.proxy_core.specs.Machine.{Round};

    ghost Value = { Round };

    ghost view = { λ r. record { picks = r.picks.items; kind = r.kind; room = r.room } };
}

/// Chooses the next flight. Returns for each waiting line whether it flies, or None if no line may fly. If
/// `is_together`, several unnumbered orders of a connection may fly together, else only one.
/// Errors: out of memory.
#[tactic(auto, using(crate::proofs::Picks::led_long, crate::proofs::Picks::none_led, crate::proofs::Picks::some_led))]
pub(crate) fn choose(
    alloc: Global,
    waiting: &VecDeque<Pending>,
    is_counted: bool,
    is_together: bool,
) -> Result<Option<Vec<bool>>, AllocError>
    ensures { IfOk result (λ choice. MatchOption choice (picked (picks_of is_counted is_together waiting.now.items) waiting.now.items ≡ [])
        (λ picks. (picks.items ≡ picks_of is_counted is_together waiting.now.items) × (0 < length (picked picks.items waiting.now.items)))) }
{
    let first = lead(alloc, waiting, is_counted)?;
    if first.room == MOST_FLIGHT_LINES {
        return Ok(None);
    }
    Ok(Some(fill(alloc, waiting, is_counted, is_together, &first)?))
}

/// Runs the first round: picks the first waiting line of each connection, if the line may fly. Errors: out of
/// memory.
fn lead(alloc: Global, waiting: &VecDeque<Pending>, is_counted: bool) -> Result<Round, AllocError>
    ensures { IfOk result (λ round. round ≡ led is_counted waiting.now.items) }
{
    let mut picks = Vec::new(alloc);
    let mut kind = Kind::Any;
    let mut room = MOST_FLIGHT_LINES;
    let mut seen = BTreeSet::new(alloc);
    for i in 0..waiting.len() {
        let pending = &waiting[i];
        let goes = is_joining(is_counted, kind, room, &seen, pending);
        kind = kind_with(goes, kind, pending);
        room = room_with(goes, room);
        seen.insert(pending.from())?;
        picks.push(goes)?;
    }
    Ok(Round { picks, kind, room })
}

/// Runs the second round: adds further lines to those of the first round while there is room. Errors: out of memory.
fn fill(
    alloc: Global,
    waiting: &VecDeque<Pending>,
    is_counted: bool,
    is_together: bool,
    first: &Round,
) -> Result<Vec<bool>, AllocError>
    requires { length first.now.picks ≡ length waiting.now.items }
    ensures { IfOk result (λ picks. picks.items ≡ second_round is_counted is_together first.now.kind first.now.room [] [] first.now.picks waiting.now.items) }
{
    let mut picks = Vec::new(alloc);
    let mut room = first.room;
    let mut staying = BTreeSet::new(alloc);
    let mut unnumbered = BTreeSet::new(alloc);
    for i in 0..waiting.len() {
        let pending = &waiting[i];
        let leads = first.picks[i];
        let goes = is_filling(
            leads,
            is_counted,
            is_together,
            first.kind,
            room,
            &staying,
            &unnumbered,
            pending,
        );
        room = room_left(leads, goes, room);
        note(&mut staying, &mut unnumbered, pending, goes)?;
        picks.push(goes)?;
    }
    Ok(picks)
}

/// Returns whether a line may fly: there is room, its number is known, it is of the flight's kind, and
/// its connection is not in `staying`.
fn is_joining(
    is_counted: bool,
    kind: Kind,
    room: usize,
    staying: &BTreeSet<u64>,
    pending: &Pending,
) -> bool
    ensures { result ≡ (nat_lt 0 room && (is_ready is_counted pending.now && (joins kind pending.now && not (contains nat_cmp staying.now pending.now.from)))) }
{
    room > 0
        && (is_counted || !pending.is_unnumbered())
        && is_of_kind(kind, pending)
        && !staying.contains(&pending.from())
}

/// Returns whether a line flies in the second round: the first round picked it, or it may join. After an
/// unnumbered order that flies, a line of the same connection may join only if it is an unnumbered order too,
/// and if `is_together`.
fn is_filling(
    leads: bool,
    is_counted: bool,
    is_together: bool,
    kind: Kind,
    room: usize,
    staying: &BTreeSet<u64>,
    unnumbered: &BTreeSet<u64>,
    pending: &Pending,
) -> bool
    ensures { result ≡ (leads || (is_begun kind && ((nat_lt 0 room && (is_ready is_counted pending.now && (joins kind pending.now && not (contains nat_cmp staying.now pending.now.from)))) && ((is_together && pending.now.is_unnumbered) || not (contains nat_cmp unnumbered.now pending.now.from))))) }
{
    leads
        || (kind != Kind::Any
            && is_joining(is_counted, kind, room, staying, pending)
            && ((is_together && pending.is_unnumbered()) || !unnumbered.contains(&pending.from())))
}

/// Returns whether a line may fly in a flight of this kind.
fn is_of_kind(kind: Kind, pending: &Pending) -> bool
    ensures { result ≡ joins kind pending.now }
{
    match kind {
        Kind::Any => true,
        Kind::Alone => false,
        Kind::Queries => !pending.is_once() && pending.is_query(),
        Kind::Orders => !pending.is_once() && !pending.is_query(),
    }
}

/// Returns the flight's kind after this line, which joins the flight if `goes`.
fn kind_with(goes: bool, kind: Kind, pending: &Pending) -> Kind
    ensures { result ≡ kind_after goes kind pending.now }
{
    if !goes || kind != Kind::Any {
        return kind;
    }
    if pending.is_once() {
        Kind::Alone
    } else if pending.is_query() {
        Kind::Queries
    } else {
        Kind::Orders
    }
}

/// Returns how many more lines the flight has room for after a line, which joins the flight if `goes`.
fn room_with(goes: bool, room: usize) -> usize
    ensures { result ≡ room_after goes room }
{
    if goes { room.saturating_sub(1) } else { room }
}

/// Returns how many more lines the flight has room for after a line of the second round. A line of the first round
/// takes no more room.
fn room_left(leads: bool, goes: bool, room: usize) -> usize
    ensures { result ≡ room_after (not leads && goes) room }
{
    room_with(!leads && goes, room)
}

/// Adds a line's connection to `staying` if the line does not fly, or to `unnumbered` if the line is an unnumbered
/// order that flies. Errors: out of memory.
fn note(
    staying: &mut BTreeSet<u64>,
    unnumbered: &mut BTreeSet<u64>,
    pending: &Pending,
    goes: bool,
) -> Result<(), AllocError>
    ensures staying { OnOk result ((c : ℕ) → contains nat_cmp staying.new c ≡ ((not goes && (pending.now.from == c)) || contains nat_cmp staying.old c)) }
    ensures unnumbered { OnOk result ((c : ℕ) → contains nat_cmp unnumbered.new c ≡ (((goes && pending.now.is_unnumbered) && (pending.now.from == c)) || contains nat_cmp unnumbered.old c)) }
{
    if !goes {
        staying.insert(pending.from())?;
    } else if pending.is_unnumbered() {
        unnumbered.insert(pending.from())?;
    }
    Ok(())
}

/// Removes the picked lines from the waiting lines, and returns them. Errors: out of memory; nothing changes.
pub(crate) fn take_out(
    alloc: Global,
    waiting: &mut VecDeque<Pending>,
    picks: &[bool],
) -> Result<VecDeque<Pending>, AllocError>
    requires { length picks.now ≡ length waiting.old.items }
    ensures out { IfOk result (λ flight. flight.items ≡ picked picks.now waiting.old.items) }
    ensures left { OnOk result (waiting.new.items ≡ left picks.now waiting.old.items) }
    ensures err { OnErr result (waiting.new.items ≡ waiting.old.items) }
{
    let mut flight = VecDeque::with_capacity(alloc, picks.len())?;
    let mut kept = VecDeque::with_capacity(alloc, picks.len())?;
    for i in 0..picks.len() {
        if let Some(pending) = waiting.pop_front() {
            if picks[i] {
                flight.push_back_reserved(pending);
            } else {
                kept.push_back_reserved(pending);
            }
        }
    }
    *waiting = kept;
    Ok(flight)
}
