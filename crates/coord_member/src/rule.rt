//! The rule, without allocation.

ghost use Rattle.std.specs.Prelude.{◌≡◌};
ghost use Rattle.std.specs.Option.{option_map};
ghost use Rattle.coord_member.specs.Rule.{admits, change_of, due_of, due_when_refused, is_begun};

use crate::party::{is_alone, is_within};
use crate::view::{Entry, Row};

/// The action that the rule requires of a member.
#[derive(Clone, Copy, PartialEq, Eq, Debug)]
pub enum Due {
    /// The member may talk, in the run of its party.
    Talk,
    /// The member waits for other members, or for the end of a reset.
    Wait,
    /// The member begins the shown epoch: it discards its work, loads the common start and
    /// confirms.
    Begin,
    /// The member asks for a reset.
    Reset,
}

/// The change of the stored values that is made before the due action.
#[derive(Clone, Copy, PartialEq, Eq, Debug)]
pub enum Change {
    /// The stored values do not change.
    Keeps,
    /// No work is begun any more, and the start has no party. Both are stored in one write, or
    /// after the work itself is discarded.
    Drops,
    /// The shown party becomes the start's party. It is a single node, so it is not added to the
    /// history.
    NotesAlone,
    /// The shown party is added to the history, and then becomes the start's party.
    NotesFirst,
}

/// Tests whether the member has work of the shown epoch, and that epoch is confirmed.
fn is_begun(begun: Option<u64>, row: Row) -> bool
    ensures { result ≡ is_begun begun row }
{
    row.epoch == row.confirmed && begun == Some(row.epoch)
}

/// Tests whether the start may talk. If it has talked, no entry was added to its party; if it has not, no earlier start
/// talked with exactly this party.
fn admits(party: Option<&[Entry]>, was: bool, now: &[Entry]) -> bool
    ensures { result ≡ admits (option_map (λ p. p.now) party.entry) was now.now }
{
    match party {
        None => !was,
        Some(party) => is_within(now, party),
    }
}

/// Returns the due action. `begun` is the epoch of the present work, `party` the party with which
/// its start first talked, and `was` says whether any start talked with exactly the shown party.
pub fn due_of(
    begun: Option<u64>,
    party: Option<&[Entry]>,
    was: bool,
    row: Row,
    now: &[Entry],
) -> Due
    ensures { result ≡ due_of begun (option_map (λ p. p.now) party.entry) was row now.now }
{
    if row.confirmed < row.epoch && !was {
        return Due::Begin;
    }
    if is_begun(begun, row) {
        if !row.through {
            return Due::Wait;
        }
        if admits(party, was, now) {
            return Due::Talk;
        }
    }
    if row.quiet { Due::Reset } else { Due::Wait }
}

/// Returns the change that is stored before the action. `has_party` says whether the start has
/// talked.
pub fn change_of(due: Due, has_party: bool, now: &[Entry]) -> Change
    ensures { result ≡ change_of due has_party now.now }
{
    match due {
        Due::Begin => Change::Drops,
        Due::Talk if has_party => Change::Keeps,
        Due::Talk if is_alone(now) => Change::NotesAlone,
        Due::Talk => Change::NotesFirst,
        Due::Wait | Due::Reset => Change::Keeps,
    }
}

/// Returns the due action of a member that rejected a message because of its tag and looked again. Suppose that the
/// member may still talk, its tag differs from the sender's, and the sender saw exactly what the member sees. Then no
/// look by either can reconcile them, and the member asks for a reset.
pub fn on_refused(due: Due, is_same_tag: bool, is_same_view: bool) -> Due
    ensures { result ≡ due_when_refused due is_same_tag is_same_view }
{
    match due {
        Due::Talk if !is_same_tag && is_same_view => Due::Reset,
        Due::Talk | Due::Wait | Due::Begin | Due::Reset => due,
    }
}
