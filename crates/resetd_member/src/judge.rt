//! Judges a view for the member of a node.

ghost use Rattle.std.specs.Prelude.{◌≡◌, ◌++◌, IfOk, string_bytes};
ghost use Rattle.std.specs.Option.{option_map};
ghost use Rattle.coord_kept.specs.Lines.{known};
ghost use Rattle.coord_member.specs.Rule as rule;
ghost use Rattle.resetd_member.specs.Judgement.{IsDueBy, IsGivenTo, IsJudged, IsJudgedWith, IsLooked, IsPutOf, IsRead, IsTagged, begun_at, first_known, line_of_change, start_after};

use crate::status::{Fault, due_number, put, text_of};
use coord_kept::{
    Found, ReadFault, Start, history_line, known, lines_of, look_up, read_start, start_text, tag_of,
};
use coord_look::{Look, look_of};
use coord_member::{Change, Due, change_of, due_of};
use coord_types::NodeId;
use coord_wire::read_show;
use std::alloc::{AllocError, Global};

/// The part of a view that the member of a node sees.
#[derive(Drop, Debug)]
pub struct Sight {
    pub look: Look,
    /// The number of settled steps.
    pub settled: u64,
}

/// The due action for a view, and the texts that must be on disk before the action.
#[derive(Drop, Debug)]
pub struct Judgement {
    pub due: Due,
    /// The shown epoch.
    pub epoch: u64,
    /// The required text of the file of the start; empty if the file does not change.
    pub start: String,
    /// The line to add to the history before the file of the start is written; empty if there is none.
    pub line: String,
    /// The offset in the history at which to write the line.
    pub history_size: usize,
}

/// A judgement for C. Its texts are in the caller's buffer: first the required text of the file of
/// the start, then the line for the history.
#[repr(C)]
#[derive(Clone, Copy, Debug, PartialEq, Eq)]
pub struct Judged {
    /// 1 to talk, 2 to wait, 3 to begin, 4 to ask for a reset.
    pub due: u32,
    /// The shown epoch.
    pub epoch: u64,
    /// The length of the required text of the file of the start, in bytes; 0 if the file does not
    /// change.
    pub start_length: usize,
    /// The length of the line for the history, in bytes; 0 if there is none.
    pub line_length: usize,
    /// The offset in the history at which to write the line.
    pub history_size: usize,
}

/// Returns the part of a view that the member of a node sees. The line `show` answers a request for a view.
pub(crate) fn look_at(alloc: Global, show: &str, node: NodeId) -> Result<Sight, Fault>
    ensures { IsLooked show.now node result }
{
    let view = match read_show(alloc, show) {
        Ok(view) => view,
        Err(coord_wire::ReadFault::OutOfMemory) => return Err(Fault::OutOfMemory),
        Err(coord_wire::ReadFault::NoAnswer) => return Err(Fault::BadLine),
    };
    let settled = view.settled;
    let found = look_of(alloc, &view, node);
    drop(view);
    match found {
        Ok(Some(look)) => Ok(Sight { look, settled }),
        Ok(None) => Err(Fault::NoNode),
        Err(_) => Err(Fault::OutOfMemory),
    }
}

/// Returns the epoch of the present work, if the start's file states the same epoch.
fn begun_at(kept: Option<u64>, work: Option<u64>) -> Option<u64>
    ensures { result ≡ begun_at kept work }
{
    match (kept, work) {
        (Some(epoch), Some(other)) if epoch == other => kept,
        _ => None,
    }
}

/// Returns the due action.
fn due_at(
    alloc: Global,
    begun: Option<u64>,
    kept: &Start,
    was: bool,
    look: &Look,
) -> Result<Due, AllocError>
    ensures { IfOk result (λ due. due ≡ rule.due_of begun (first_known kept.now look.now.party.items) was look.now.row look.now.party.items) }
{
    match &kept.party {
        None => Ok(due_of(begun, None, was, look.row, look.party.as_slice())),
        Some(lines) => {
            let those = known(alloc, lines.as_slice(), look.party.as_slice())?;
            let due = due_of(
                begun,
                Some(those.as_slice()),
                was,
                look.row,
                look.party.as_slice(),
            );
            drop(those);
            Ok(due)
        }
    }
}

/// Returns the required text of the file of the start after a change; empty if the file does not
/// change.
fn start_after(
    alloc: Global,
    node: u8,
    begun: Option<u64>,
    lines: &[String],
    settled: u64,
    change: Change,
) -> Result<String, AllocError>
    ensures { IfOk result (λ text. string_bytes text ≡ start_after node begun lines.now settled change) }
{
    match change {
        Change::Keeps => Ok(String::new(alloc)),
        Change::Drops => start_text(alloc, node, None, None, None),
        Change::NotesAlone | Change::NotesFirst => {
            start_text(alloc, node, begun, Some(lines), Some(settled))
        }
    }
}

/// Returns the line to add to the history with a change, or an empty line. `line` is the line of the shown party.
fn line_after(alloc: Global, line: &str, change: Change) -> Result<String, AllocError>
    ensures { IfOk result (λ text. string_bytes text ≡ line_of_change line.now change) }
{
    match change {
        Change::NotesFirst => String::from_str(alloc, line),
        Change::Keeps | Change::Drops | Change::NotesAlone => Ok(String::new(alloc)),
    }
}

/// Returns the start in the text of its file.
fn read(alloc: Global, node: u8, file: &str) -> Result<Start, Fault>
    ensures { IsRead node file.now result }
{
    match read_start(alloc, node, file) {
        Ok(kept) => Ok(kept),
        Err(ReadFault::OutOfMemory) => Err(Fault::OutOfMemory),
        Err(ReadFault::BadStart) => Err(Fault::BadStart),
    }
}

/// Returns the judgement for the stored start and the result of looking up the party in the
/// history.
fn judged_by(
    alloc: Global,
    node: u8,
    look: &Look,
    lines: &[String],
    settled: u64,
    line: &str,
    kept: &Start,
    found: Found,
    work: Option<u64>,
) -> Result<Judgement, AllocError>
    ensures { IfOk result (λ j. IsDueBy node look.now.row look.now.party.items lines.now settled line.now kept.now found work j) }
{
    let begun = begun_at(kept.begun, work);
    let due = due_at(alloc, begun, kept, found.has, look)?;
    let change = change_of(due, kept.party.is_some(), look.party.as_slice());
    Ok(Judgement {
        due,
        epoch: look.row.epoch,
        start: start_after(alloc, node, begun, lines, settled, change)?,
        line: line_after(alloc, line, change)?,
        history_size: found.size,
    })
}

/// Judges a view for the member of a node, given the lines of the shown party.
fn judged_with(
    alloc: Global,
    node: u8,
    sight: &Sight,
    lines: &[String],
    file: &str,
    history: &[u8],
    work: Option<u64>,
) -> Result<Judgement, Fault>
    ensures { IsJudgedWith node sight.now.look.row sight.now.look.party.items lines.now sight.now.settled file.now history.now work result }
{
    let line = history_line(alloc, lines)?;
    let Some(found) = look_up(history, line.as_bytes()) else {
        drop(line);
        return Err(Fault::BadHistory);
    };
    let kept = read(alloc, node, file)?;
    let judged = judged_by(
        alloc,
        node,
        &sight.look,
        lines,
        sight.settled,
        line.as_str(),
        &kept,
        found,
        work,
    );
    drop(kept);
    drop(line);
    Ok(judged?)
}

/// Judges a view for the member of a node, given the texts of its files.
pub(crate) fn judge(
    alloc: Global,
    show: &str,
    node: NodeId,
    file: &str,
    history: &[u8],
    work: Option<u64>,
) -> Result<Judgement, Fault>
    ensures { IsJudged show.now node file.now history.now work result }
{
    let sight = look_at(alloc, show, node)?;
    let lines = lines_of(alloc, sight.look.party.as_slice())?;
    let judged = judged_with(
        alloc,
        node.number(),
        &sight,
        lines.as_slice(),
        file,
        history,
        work,
    );
    drop(lines);
    drop(sight);
    judged
}

/// Returns the tag of a file's start, given the view that a line shows; empty if the start has no tag.
pub(crate) fn tag(
    alloc: Global,
    show: &str,
    node: NodeId,
    file: &str,
    word: &str,
) -> Result<String, Fault>
    ensures { IsTagged show.now node file.now word.now result }
{
    let sight = look_at(alloc, show, node)?;
    let lines = lines_of(alloc, sight.look.party.as_slice())?;
    drop(sight);
    let kept = read(alloc, node.number(), file)?;
    let tag = match &kept.party {
        Some(first) => tag_of(alloc, word, first.as_slice(), lines.as_slice()),
        None => Ok(String::new(alloc)),
    };
    drop(kept);
    drop(lines);
    Ok(tag?)
}

/// Returns a text followed by another text.
fn joined(mut text: String, following: &str) -> Result<String, AllocError>
    ensures { IfOk result (λ both. string_bytes both ≡ string_bytes text ++ following.now) }
{
    text.push_str(following)?;
    Ok(text)
}

/// Copies the texts of a judgement into the buffer.
fn put_texts(judgement: Judgement, out: &mut [u8]) -> Result<Judged, Fault>
    ensures { IsPutOf judgement out.new result }
{
    let Judgement {
        due,
        epoch,
        start,
        line,
        history_size,
    } = judgement;
    let judged = Judged {
        due: due_number(due),
        epoch,
        start_length: start.len(),
        line_length: line.len(),
        history_size,
    };
    let both = joined(start, line.as_str());
    drop(line);
    let both = both?;
    let is_put = put(out, both.as_bytes());
    drop(both);
    is_put?;
    Ok(judged)
}

/// Judges a view for the member of a node, given the bytes of all texts, and copies the resulting
/// texts into the buffer.
pub(crate) fn judge_into(
    alloc: Global,
    show: &[u8],
    node: u8,
    file: &[u8],
    history: &[u8],
    work: Option<u64>,
    out: &mut [u8],
) -> Result<Judged, Fault>
    ensures { IsGivenTo show.now node file.now history.now work out.new result }
{
    let Some(node) = NodeId::new(node) else {
        return Err(Fault::BadNumber);
    };
    let show = text_of(show)?;
    let file = text_of(file)?;
    let judgement = judge(alloc, show, node, file, history, work)?;
    put_texts(judgement, out)
}

/// Returns the tag of a start, given the bytes of all texts.
pub(crate) fn tag_of_bytes(
    alloc: Global,
    show: &[u8],
    node: u8,
    file: &[u8],
    word: &[u8],
) -> Result<String, Fault>
    ensures { IsTagged show.now node file.now word.now result }
{
    let Some(node) = NodeId::new(node) else {
        return Err(Fault::BadNumber);
    };
    tag(alloc, text_of(show)?, node, text_of(file)?, text_of(word)?)
}
