//! Reads the file of a start for purposes other than a judgement: its meaning in one boot of the
//! machine, and the start's fence.

ghost use Rattle.std.specs.Prelude.{◌≡◌, ◌<◌, ◌^◌, IfOk, string_bytes};
ghost use Rattle.std.specs.Option.{option_map};
ghost use Rattle.coord_kept.specs.Start as kept;
ghost use Rattle.resetd_member.specs.Files.{IsCarried, IsFenceFor, IsFenceOf, IsLoaded};

use crate::status::{Fault, text_of};
use coord_kept::{ReadFault, Start, carried_start, fence_tag, loaded_text, read_start, start_text};
use std::alloc::{AllocError, Global};

/// One more than the greatest generation.
const GENERATIONS: u32 = 8_388_608;

/// The maximum number of steps of a world. A fence's count is this number times its generation, plus its settled steps,
/// so a later generation has greater counts.
const COUNTS: u64 = 1_099_511_627_776;

/// Returns the text of the file of this start, in the form that is valid in any boot.
fn text_with(alloc: Global, node: u8, start: &Start) -> Result<String, AllocError>
    ensures { IfOk result (λ text. string_bytes text ≡ kept.start_text node start.now.begun (option_map (λ lines. lines.items) start.now.party) start.now.count) }
{
    match &start.party {
        Some(lines) => start_text(
            alloc,
            node,
            start.begun,
            Some(lines.as_slice()),
            start.count,
        ),
        None => start_text(alloc, node, start.begun, None, start.count),
    }
}

/// Returns what a start's file says in this boot, as the text that a judgement takes.
pub(crate) fn carried(alloc: Global, node: u8, file: &[u8], boot: &[u8]) -> Result<String, Fault>
    ensures { IsCarried node file.now boot.now result }
{
    let file = text_of(file)?;
    let boot = text_of(boot)?;
    let start = match carried_start(alloc, node, file, boot) {
        Ok(start) => start,
        Err(ReadFault::OutOfMemory) => return Err(Fault::OutOfMemory),
        Err(ReadFault::BadStart) => return Err(Fault::BadStart),
    };
    let text = text_with(alloc, node, &start);
    drop(start);
    Ok(text?)
}

/// Returns the text of the file once the common start is loaded, in the form that is valid only in
/// this boot.
pub(crate) fn loaded(alloc: Global, node: u8, epoch: u64, boot: &[u8]) -> Result<String, Fault>
    ensures { IsLoaded node epoch boot.now result }
{
    let boot = text_of(boot)?;
    Ok(loaded_text(alloc, node, epoch, boot)?)
}

/// Returns the count and the tag of a start's fence. The tag is empty if the start has no fence: it
/// has not talked, or its file has no count.
fn fence_of(
    alloc: Global,
    start: &Start,
    generation: u32,
    word: &str,
) -> Result<(u64, String), Fault>
    requires { generation < 2 ^ 23 }
    ensures { IsFenceOf start.now generation word.now result }
{
    let (Some(first), Some(settled)) = (&start.party, start.count) else {
        return Ok((0, String::new(alloc)));
    };
    if COUNTS < settled {
        return Err(Fault::BadStart);
    }
    let count = generation as u64 * COUNTS + settled;
    let tag = fence_tag(alloc, word, count, first.as_slice())?;
    Ok((count, tag))
}

/// Returns the fence of a file's start.
pub(crate) fn fence_in(
    alloc: Global,
    node: u8,
    file: &[u8],
    generation: u32,
    word: &[u8],
) -> Result<(u64, String), Fault>
    ensures { IsFenceFor node file.now generation word.now result }
{
    if GENERATIONS <= generation {
        return Err(Fault::BadNumber);
    }
    let file = text_of(file)?;
    let word = text_of(word)?;
    let start = match read_start(alloc, node, file) {
        Ok(start) => start,
        Err(ReadFault::OutOfMemory) => return Err(Fault::OutOfMemory),
        Err(ReadFault::BadStart) => return Err(Fault::BadStart),
    };
    let fence = fence_of(alloc, &start, generation, word);
    drop(start);
    fence
}
