//! Parties: connected nodes and links, as a list in an order that all members share.

ghost use Rattle.std.specs.Prelude.{◌≡◌};
ghost use Rattle.std.specs.List.{list_any};
ghost use Rattle.coord_member.specs.Rule.{is_alone, is_within, same_entry, same_party};

use crate::view::Entry;

/// Tests whether the party has this entry.
fn has(party: &[Entry], entry: Entry) -> bool
    ensures { result ≡ list_any (same_entry entry) party.now }
{
    party.iter().any(|other| entry == *other)
}

/// Tests whether each entry of `now` is in the party.
pub fn is_within(now: &[Entry], party: &[Entry]) -> bool
    ensures { result ≡ is_within now.now party.now }
{
    now.iter().all(|entry| has(party, *entry))
}

/// Tests whether two parties have the same entries in the same order.
pub fn same_party(now: &[Entry], party: &[Entry]) -> bool
    ensures { result ≡ same_party now.now party.now }
{
    now == party
}

/// Tests whether the party is a single node.
pub fn is_alone(party: &[Entry]) -> bool
    ensures { result ≡ is_alone party.now }
{
    match party {
        [Entry::Node { .. }] => true,
        _ => false,
    }
}
