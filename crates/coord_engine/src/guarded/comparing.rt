//! Compares the notes of shares with the accepted steps. Nothing here allocates.

ghost use Rattle.std.specs.Prelude.{◌≡◌, ◌↔◌, ◌+◌, ◌^◌, ◌<◌, get_or, length, All, Contains, IsTrue};
ghost use Rattle.coord_engine.specs.Named.{IsAscending, all_notes, notes_of};

use crate::Share;
use coord_ledger::{Note, is_same_step};
use coord_types::{Kind, Step};
use std::sync::ledger::Ledger as Count;

/// Tests whether each note has a smaller step number than the next.
fn is_ascending(notes: &[Note]) -> bool
    ensures { IsTrue result ↔ IsAscending notes.now }
{
    for i in 1..notes.len() {
        if notes[i].step <= notes[i - 1].step {
            return false;
        }
    }
    true
}

/// Tests whether each share noted its steps in order.
pub fn all_ascending<L: Count>(shares: &[Share<L>]) -> bool
    ensures { IsTrue result ↔ All IsAscending shares.now }
{
    for share in shares {
        if !is_ascending(share.notes()) {
            return false;
        }
    }
    true
}

/// Tests whether two notes are equal.
#[tactic(auto, using(crate::proofs::Notes::same_note))]
fn is_same(a: &Note, b: &Note) -> bool
    ensures { IsTrue result ↔ (a.now ≡ b.now) }
{
    a.step == b.step && a.kind == b.kind && is_same_step(&a.what, &b.what)
}

/// Tests whether the note is among these notes, which are in ascending order.
fn has(notes: &[Note], note: &Note) -> bool
    requires { IsAscending notes.now }
    ensures { IsTrue result ↔ Contains notes.now note.now }
{
    match notes.binary_search_by_key(&note.step, |other| other.step) {
        Ok(at) => is_same(&notes[at], note),
        Err(_) => false,
    }
}

/// Tests whether any share has the note.
fn some_has<L: Count>(shares: &[Share<L>], note: &Note) -> bool
    requires { All IsAscending shares.now }
    ensures { IsTrue result ↔ Contains (all_notes shares.now) note.now }
{
    for share in shares {
        if has(share.notes(), note) {
            return true;
        }
    }
    false
}

/// Returns the kind at this index.
fn kind_at(kinds: &[Kind], place: usize) -> Kind
    requires { place < length kinds.now }
    ensures { result ≡ get_or kinds.now place result }
{
    kinds[place]
}

/// Tests whether some share noted each of these steps, with the kind of its reply. The steps follow
/// `others` earlier steps.
pub fn all_noted<L: Count>(shares: &[Share<L>], others: u64, steps: &[Step], kinds: &[Kind]) -> bool
    requires ascending { All IsAscending shares.now }
    requires few { others + length steps.now < 2 ^ 64 }
    requires all { length kinds.now ≡ length steps.now }
    ensures { IsTrue result ↔ All (Contains (all_notes shares.now))
        (notes_of others steps.now kinds.now) }
{
    for place in 0..steps.len() {
        let step = steps[place];
        let kind = kind_at(kinds, place);
        let note = Note {
            step: others + place as u64 + 1,
            what: step,
            kind,
        };
        if !some_has(shares, &note) {
            return false;
        }
    }
    true
}
