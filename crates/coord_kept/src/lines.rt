//! A party as lines.

ghost use Rattle.std.specs.Prelude.{◌≡◌, IfOk, string_bytes};
ghost use Rattle.coord_kept.specs.Lines.{AreLinesOf, entry_words, has_line, known};

use coord_member::Entry;
use std::alloc::{AllocError, Global};

/// Returns the line of an entry: a node's number and epoch, or a link's ends and incarnation.
fn words_of(alloc: Global, entry: Entry) -> Result<String, AllocError>
    ensures { IfOk result (λ words. string_bytes words ≡ entry_words entry) }
{
    match entry {
        Entry::Node { node, epoch } => format!(in alloc; "{node} {epoch}"),
        Entry::Link { a, b, incarnation } => format!(in alloc; "{a} {b} {incarnation}"),
    }
}

/// Returns the lines of a party, in the order of their bytes.
pub fn lines_of(alloc: Global, party: &[Entry]) -> Result<Vec<String>, AllocError>
    ensures { IfOk result (λ lines. AreLinesOf party.now lines.items) }
{
    let mut lines = Vec::new(alloc);
    for entry in party {
        lines.push(words_of(alloc, *entry)?)?;
    }
    lines.sort()?;
    Ok(lines)
}

/// Tests whether the line of this entry is one of these lines.
fn has_line(alloc: Global, lines: &[String], entry: Entry) -> Result<bool, AllocError>
    ensures { IfOk result (λ has. has ≡ has_line lines.now entry) }
{
    let words = words_of(alloc, entry)?;
    Ok(lines.iter().any(|line| line.as_str() == words.as_str()))
}

/// Returns the entries of a party whose lines are among these lines.
pub fn known(alloc: Global, lines: &[String], party: &[Entry]) -> Result<Vec<Entry>, AllocError>
    ensures { IfOk result (λ those. those.items ≡ known lines.now party.now) }
{
    let mut those = Vec::new(alloc);
    for entry in party {
        if has_line(alloc, lines, *entry)? {
            those.push(*entry)?;
        }
    }
    Ok(those)
}
