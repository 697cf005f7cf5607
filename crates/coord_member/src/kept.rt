//! The state that a member keeps on disk, and the rule applied to it.

ghost use Rattle.std.specs.Prelude.{◌≡◌, [], ◌∷◌, ◌++◌, IfOk, OnOk, map};
ghost use Rattle.coord_member.specs.Rule.{due, kept_after, was_before};

use crate::party::{is_alone, same_party};
use crate::rule::{Change, Due, change_of, due_of};
use crate::view::{Entry, Row};
use std::alloc::{AllocError, Global};
use std::marker::Model;

/// The state that a member keeps on disk besides its work.
#[derive(Drop, Debug)]
pub struct Kept {
    /// The epoch of the present work, or None if no work is begun.
    begun: Option<u64>,
    /// The party with which the present start first talked, or None if it has not talked yet.
    party: Option<Vec<Entry>>,
    /// The parties with which the member's starts have first talked.
    history: Vec<Vec<Entry>>,
}

impl Model for Kept {
    ghost use Rattle.coord_member.specs.Rule as rule;
    ghost use Rattle.std.specs.Option.{option_map};
    ghost use Rattle.std.specs.Prelude.{map};

    ghost Value = { rule.Kept };

    ghost view = { λ k. record {
      begun = k.begun;
      party = option_map (λ v. v.items) k.party;
      history = map (λ v. v.items) k.history.items;
    } };
}

/// The due action, and the state that must be on disk before the action.
#[derive(Drop, Debug)]
pub struct Judged {
    pub due: Due,
    pub kept: Kept,
}

impl Judged {
    ghost use Rattle.coord_member.specs.Rule.{tag_for};
    ghost use Rattle.std.specs.Option.{option_map};

    /// Returns the party whose digest is the tag of each message. This is the party with which the start first talked,
    /// which may differ from the party shown now. Returns None if the member may not talk, or was alone when its start
    /// first talked; it then sends and accepts no messages.
    pub fn tag(&self) -> Option<&[Entry]>
        ensures { option_map (λ party. party.now) result ≡ tag_for self.now.kept self.now.due }
    {
        match self.due {
            Due::Talk => self.kept.run(),
            Due::Wait | Due::Begin | Due::Reset => None,
        }
    }
}

impl Kept {
    ghost use Rattle.std.specs.Option.{option_map};
    ghost use Rattle.std.specs.Prelude.{is_some};
    ghost use Rattle.coord_member.specs.Rule.{begun_with, changed, due, new_kept, run_of, was_before};

    /// Returns the state of a new member: no work was ever begun.
    pub fn new(alloc: Global) -> Self
        ensures { result ≡ new_kept }
    {
        Kept {
            begun: None,
            party: None,
            history: Vec::new(alloc),
        }
    }

    /// Tests whether the present start has talked.
    fn has_party(&self) -> bool
        ensures { result ≡ is_some self.now.party }
    {
        self.party.is_some()
    }

    /// Returns the party that names the run of the present start, or None if the start has talked with no other node.
    fn run(&self) -> Option<&[Entry]>
        ensures { option_map (λ party. party.now) result ≡ run_of self.now.party }
    {
        match &self.party {
            None => None,
            Some(party) => {
                if is_alone(party) {
                    None
                } else {
                    Some(party.as_slice())
                }
            }
        }
    }

    /// Returns the action that the rule requires for this view.
    fn due(&self, row: Row, now: &[Entry]) -> Due
        ensures { result ≡ due self.now row now.now }
    {
        let was = was_before(now, &self.history);
        match &self.party {
            None => due_of(self.begun, None, was, row, now),
            Some(party) => due_of(self.begun, Some(party.as_slice()), was, row, now),
        }
    }

    /// Returns the state after this change, for this view.
    fn with(self, alloc: Global, change: Change, now: Vec<Entry>) -> Result<Self, AllocError>
        ensures { IfOk result (λ kept. kept ≡ changed self now.items change) }
    {
        let Kept {
            begun,
            party,
            mut history,
        } = self;
        match change {
            Change::Keeps => Ok(Kept {
                begun,
                party,
                history,
            }),
            Change::Drops => Ok(Kept {
                begun: None,
                party: None,
                history,
            }),
            Change::NotesAlone => Ok(Kept {
                begun,
                party: Some(now),
                history,
            }),
            Change::NotesFirst => {
                append(alloc, &mut history, &now)?;
                Ok(Kept {
                    begun,
                    party: Some(now),
                    history,
                })
            }
        }
    }

    /// Returns the state after a begin, once the common start for this epoch is loaded and on disk.
    pub fn begun(self, epoch: u64) -> Self
        requires { (self.begun ≡ None) × (self.party ≡ None) }
        ensures { result ≡ begun_with self epoch }
    {
        let Kept { party, history, .. } = self;
        Kept {
            begun: Some(epoch),
            party,
            history,
        }
    }
}

/// Adds a party to the history.
fn append(alloc: Global, history: &mut Vec<Vec<Entry>>, now: &[Entry]) -> Result<(), AllocError>
    ensures { OnOk result (map (λ v. v.items) history.new.items ≡ map (λ v. v.items) history.old.items ++ (now.now ∷ [])) }
{
    history.push(Vec::from_slice(alloc, now)?)?;
    Ok(())
}

/// Tests whether a start has talked with exactly this party.
fn was_before(now: &[Entry], history: &[Vec<Entry>]) -> bool
    ensures { result ≡ was_before now.now (map (λ v. v.items) history.now) }
{
    let mut was = false;
    for party in history {
        if same_party(now, party) {
            was = true;
        }
    }
    was
}

/// Applies the rule to a view. The returned state must be on disk before the member acts. A party must be in the
/// history on disk before it is recorded as the start's own, and a begin must leave no work and no party on disk.
/// Errors: out of memory.
#[tactic(auto, using(crate::proofs::Changed::changed_is))]
pub fn judge(alloc: Global, kept: Kept, row: Row, now: Vec<Entry>) -> Result<Judged, AllocError>
    ensures due { IfOk result (λ judged. judged.due ≡ due kept row now.items) }
    ensures kept { IfOk result (λ judged. judged.kept ≡ kept_after kept row now.items) }
{
    let due = kept.due(row, &now);
    let change = change_of(due, kept.has_party(), &now);
    Ok(Judged {
        due,
        kept: kept.with(alloc, change, now)?,
    })
}
