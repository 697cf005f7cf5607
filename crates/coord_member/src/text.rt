//! The text of a party, whose digest names the run.

ghost use Rattle.std.specs.Prelude.{◌≡◌, ◌++◌, OnOk, IfOk, string_bytes};
ghost use Rattle.coord_member.specs.Text.{entry_line, party_text};

use crate::view::Entry;
use std::alloc::{AllocError, Global};

/// Appends the line of an entry: a node's number and epoch, or a link's ends and incarnation.
pub fn print_entry(text: &mut String, entry: Entry) -> Result<(), AllocError>
    ensures { OnOk result (string_bytes text.new ≡ string_bytes text.old ++ entry_line entry) }
{
    match entry {
        Entry::Node { node, epoch } => writeln!(text, "{node} {epoch}"),
        Entry::Link { a, b, incarnation } => writeln!(text, "{a} {b} {incarnation}"),
    }
}

/// Returns the text of a party: the lines of its entries, in the party's order. The digest of the text is the tag of
/// the members that talk in that run; docs/SERVICES.md requires that the lines are in the order of their bytes.
pub fn party_text(alloc: Global, party: &[Entry]) -> Result<String, AllocError>
    ensures { IfOk result (λ text. string_bytes text ≡ party_text party.now) }
{
    let mut text = String::new(alloc);
    for entry in party {
        print_entry(&mut text, *entry)?;
    }
    Ok(text)
}
