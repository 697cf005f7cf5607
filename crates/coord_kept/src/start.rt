//! The file of a start.

ghost use Rattle.std.specs.Prelude.{◌≡◌, ◌++◌, Some, None, Err, IfOk, OnOk, codes, option_and_then, string_bytes};
ghost use Rattle.std.specs.Option.{option_map};
ghost use Rattle.serde_json.specs.View.{items_view, view};
ghost use Rattle.coord_kept.specs.declared.start.ReadFault.TheVariants.{BadStart};
ghost use Rattle.serde_json.specs.Find.{as_number, as_str, as_u64, get};
ghost use Rattle.coord_kept.specs.Start.{at_boot, begun_of, begun_text, carried_at, carried_in, carried_of, count_of, count_text, is_named, is_of_boot, is_whole, lines_in, lines_text, loaded_text, nothing, party_of, party_text, quoted, seen, seen_in, start_text, texts};

use serde_json::Value;
use std::alloc::{AllocError, Global};

/// The start of a member, as its file stores it.
#[derive(Drop, Debug)]
pub struct Start {
    /// The epoch of the present work, or None if no work is begun.
    pub begun: Option<u64>,
    /// The lines of the party with which the start first talked, or None if it has not talked yet.
    pub party: Option<Vec<String>>,
    /// The number of settled steps in the view with which the start first talked. None if it has
    /// not talked, or if its file is of an earlier version.
    pub count: Option<u64>,
}

impl Start {
    /// Returns a start that says that nothing is begun.
    fn nothing() -> Self
        ensures { seen result ≡ nothing }
    {
        Start {
            begun: None,
            party: None,
            count: None,
        }
    }
}

/// The reason why a start cannot be read.
#[derive(Clone, Copy, Debug, PartialEq, Eq)]
pub enum ReadFault {
    OutOfMemory,
    /// The text is not the text of a start's file.
    BadStart,
}

/// Tests whether a text ends with a line feed.
fn is_whole(text: &[u8]) -> bool
    ensures { result ≡ is_whole text.now }
{
    !text.is_empty() && text[text.len() - 1] == b'\n'
}

/// Returns the start in the text of a file, for the member of a node. Work that was only loaded
/// counts as not begun. A text without a line feed at its end was torn by a power cut, and says
/// that nothing is begun; so does an empty text, which stands for a missing file.
pub fn read_start(alloc: Global, node: u8, text: &str) -> Result<Start, ReadFault>
    ensures read { IfOk result (λ start. seen_in node text.now ≡ Some (seen start)) }
    ensures bad { result ≡ Err BadStart → seen_in node text.now ≡ None }
{
    carried_start(alloc, node, text, "")
}

/// Like `read_start`, but in the boot with this name: work that was loaded in that boot is begun.
#[tactic(auto, unfolding(crate::specs::Start::carried_in))]
pub fn carried_start(alloc: Global, node: u8, text: &str, boot: &str) -> Result<Start, ReadFault>
    ensures read { IfOk result (λ start. carried_in boot.now node text.now ≡ Some (seen start)) }
    ensures bad { result ≡ Err BadStart → carried_in boot.now node text.now ≡ None }
{
    if !is_whole(text.as_bytes()) {
        return Ok(Start::nothing());
    }
    match Value::from_str(alloc, text) {
        Ok(value) => match start_at(alloc, node, &value, boot) {
            Ok(Some(start)) => Ok(start),
            Ok(None) => Err(ReadFault::BadStart),
            Err(_) => Err(ReadFault::OutOfMemory),
        },
        Err(error) if error.is_memory() => Err(ReadFault::OutOfMemory),
        Err(_) => Err(ReadFault::BadStart),
    }
}

fn start_at(alloc: Global, node: u8, value: &Value, boot: &str) -> Result<Option<Start>, AllocError>
    ensures { IfOk result (λ start. option_map seen start ≡ carried_at boot.now node (view value.now)) }
{
    if !value.is_object() {
        return Ok(None);
    }
    let key = format!(in alloc; "{node}")?;
    match value.get(key.as_str()) {
        Some(row) => start_of(alloc, row, boot),
        None => Ok(Some(Start::nothing())),
    }
}

fn start_of(alloc: Global, row: &Value, boot: &str) -> Result<Option<Start>, AllocError>
    ensures { IfOk result (λ start. option_map seen start ≡ carried_of boot.now (Some (view row.now))) }
{
    let Some(begun) = row.get("begun").and_then(begun_of) else {
        return Ok(None);
    };
    let Some(party) = row.get("party") else {
        return Ok(None);
    };
    let Some(count) = count_in(row) else {
        return Ok(None);
    };
    match party_of(alloc, party)? {
        Some(party) => Ok(at_boot(
            Start {
                begun,
                party,
                count,
            },
            row,
            boot,
        )),
        None => Ok(None),
    }
}

fn count_in(row: &Value) -> Option<Option<u64>>
    ensures { result ≡ count_of (get (codes "count") (view row.now)) }
{
    match row.get("count") {
        Some(value) => Some(Some(value.as_u64()?)),
        None => Some(None),
    }
}

/// Returns the start of a row: `known`, or the loaded work if the row names this boot.
fn at_boot(known: Start, row: &Value, boot: &str) -> Option<Start>
    ensures { option_map seen result ≡ at_boot boot.now (view row.now) (Some (seen known)) }
{
    if !is_of_boot(row, boot) {
        return Some(known);
    }
    drop(known);
    match row.get("loaded").and_then(epoch_in) {
        Some(epoch) => Some(Start {
            begun: Some(epoch),
            party: None,
            count: None,
        }),
        None => None,
    }
}

/// Tests whether a row was written in the boot with this name.
fn is_of_boot(row: &Value, boot: &str) -> bool
    ensures { result ≡ is_of_boot boot.now (view row.now) }
{
    if boot.is_empty() {
        return false;
    }
    match row.get("boot") {
        Some(name) => is_text(name, boot),
        None => false,
    }
}

fn is_text(value: &Value, text: &str) -> bool
    ensures { result ≡ is_named text.now (as_str (view value.now)) }
{
    match value.as_str() {
        Some(own) => own == text,
        None => false,
    }
}

fn epoch_in(value: &Value) -> Option<u64>
    ensures { result ≡ option_and_then as_u64 (as_number (view value.now)) }
{
    value.as_u64()
}

fn begun_of(value: &Value) -> Option<Option<u64>>
    ensures { result ≡ begun_of (view value.now) }
{
    if value.is_null() {
        return Some(None);
    }
    Some(Some(value.as_u64()?))
}

fn party_of(alloc: Global, value: &Value) -> Result<Option<Option<Vec<String>>>, AllocError>
    ensures { IfOk result (λ party. option_map (λ p. option_map (λ lines. texts lines.items) p) party ≡ party_of (view value.now)) }
{
    if value.is_null() {
        return Ok(Some(None));
    }
    let Some(rows) = value.as_array() else {
        return Ok(None);
    };
    match lines_in(alloc, rows.as_slice())? {
        Some(lines) => Ok(Some(Some(lines))),
        None => Ok(None),
    }
}

fn lines_in(alloc: Global, rows: &[Value]) -> Result<Option<Vec<String>>, AllocError>
    ensures { IfOk result (λ found. option_map (λ lines. texts lines.items) found ≡ lines_in (items_view rows.now)) }
{
    let mut lines = Vec::new(alloc);
    for row in rows {
        let Some(line) = row.as_str() else {
            return Ok(None);
        };
        lines.push(String::from_str(alloc, line)?)?;
    }
    Ok(Some(lines))
}

/// Returns the text of the file that stores these values for the member of a node.
pub fn start_text(
    alloc: Global,
    node: u8,
    begun: Option<u64>,
    party: Option<&[String]>,
    count: Option<u64>,
) -> Result<String, AllocError>
    ensures { IfOk result (λ text. string_bytes text ≡ start_text node begun (option_map (λ p. p.now) party.entry) count) }
{
    let mut text = format!(in alloc; "{{\"{node}\": {{\"begun\": ")?;
    push_begun(&mut text, begun)?;
    text.push_str(", \"party\": ")?;
    push_party(&mut text, party)?;
    push_count(&mut text, count)?;
    text.push_str("}}\n")?;
    Ok(text)
}

/// Returns the text of the file between the time when the common start is loaded for an epoch and
/// the time when the start first talks. The text is valid only in the boot with this name, so it
/// need not be synced.
pub fn loaded_text(alloc: Global, node: u8, epoch: u64, boot: &str) -> Result<String, AllocError>
    ensures { IfOk result (λ text. string_bytes text ≡ loaded_text node epoch boot.now) }
{
    let mut text = format!(in alloc;
        "{{\"{node}\": {{\"begun\": null, \"party\": null, \"loaded\": {epoch}"
    )?;
    text.push_str(", \"foreseen\": [], \"boot\": \"")?;
    text.push_str(boot)?;
    text.push_str("\"}}\n")?;
    Ok(text)
}

fn push_begun(text: &mut String, begun: Option<u64>) -> Result<(), AllocError>
    ensures { OnOk result (string_bytes text.new ≡ string_bytes text.old ++ begun_text begun) }
{
    match begun {
        Some(epoch) => write!(text, "{epoch}"),
        None => text.push_str("null"),
    }
}

fn push_count(text: &mut String, count: Option<u64>) -> Result<(), AllocError>
    ensures { OnOk result (string_bytes text.new ≡ string_bytes text.old ++ count_text count) }
{
    match count {
        Some(count) => write!(text, ", \"count\": {count}"),
        None => Ok(()),
    }
}

fn push_party(text: &mut String, party: Option<&[String]>) -> Result<(), AllocError>
    ensures { OnOk result (string_bytes text.new ≡ string_bytes text.old ++ party_text (option_map (λ p. p.now) party.entry)) }
{
    match party {
        Some(lines) => push_lines(text, lines),
        None => text.push_str("null"),
    }
}

fn push_quoted(text: &mut String, line: &String) -> Result<(), AllocError>
    ensures { OnOk result (string_bytes text.new ≡ string_bytes text.old ++ quoted line.now) }
{
    text.push_str("\"")?;
    text.push_str(line.as_str())?;
    text.push_str("\"")
}

fn push_lines(text: &mut String, lines: &[String]) -> Result<(), AllocError>
    ensures { OnOk result (string_bytes text.new ≡ string_bytes text.old ++ lines_text lines.now) }
{
    let [first, rest @ ..] = lines else {
        return text.push_str("[]");
    };
    text.push_str("[")?;
    push_quoted(text, first)?;
    for line in rest {
        text.push_str(", ")?;
        push_quoted(text, line)?;
    }
    text.push_str("]")
}
