//! The functions for C, declared in `include/resetd_member.h`.

ghost use Rattle.std.specs.Prelude.{◌≡◌, Ok, Err};
ghost use Rattle.coord_kept.specs.Tag as tag;
ghost use Rattle.resetd_member.specs.Exports.{IsBegunGiven, IsCarriedGiven, IsFenceGiven, IsHeardAs, IsJudgedAs, IsLineGiven, IsLoadedGiven, IsTagGiven, IsWrittenAs, work_of};

use crate::files::{carried, fence_in, loaded};
use crate::judge::{Judged, judge_into, tag_of_bytes};
use crate::order::{Order, Orders};
use crate::orders::{hear, line_for, write_down};
use crate::status::{Fault, give, status_of, text_of};
use coord_kept::start_text;
use std::alloc::Global;

/// The epoch that is stored with the present work, if there is work.
#[repr(C)]
#[derive(Clone, Copy, Debug, PartialEq, Eq)]
pub struct Work {
    pub is_there: bool,
    pub epoch: u64,
}

fn work_of(work: Work) -> Option<u64>
    ensures { result ≡ work_of work }
{
    if work.is_there {
        Some(work.epoch)
    } else {
        None
    }
}

/// Judges the answer to `show` for the member of a node, given the contents of the member's files and the epoch of its
/// present work. Writes the texts to store to `out`. Returns the status.
#[unsafe(no_mangle)]
pub extern "C" fn resetd_judge(
    alloc: Global,
    show: &[u8],
    node: u8,
    start: &[u8],
    history: &[u8],
    work: &Work,
    out: &mut [u8],
    judged: &mut Judged,
) -> u32
    ensures { IsJudgedAs show.now node start.now history.now (work_of work.now) out.new judged.new result }
{
    match judge_into(alloc, show, node, start, history, work_of(*work), out) {
        Ok(found) => {
            *judged = found;
            0
        }
        Err(fault) => status_of(fault),
    }
}

/// Writes the text to store in the file of the start once the common start for an epoch is loaded. The text is valid in
/// any boot. Returns the status.
#[unsafe(no_mangle)]
pub extern "C" fn resetd_begun(
    alloc: Global,
    node: u8,
    epoch: u64,
    out: &mut [u8],
    length: &mut usize,
) -> u32
    ensures { IsBegunGiven node epoch out.new length.new result }
{
    let text = match start_text(alloc, node, Some(epoch), None, None) {
        Ok(text) => Ok(text),
        Err(_) => Err(Fault::OutOfMemory),
    };
    give(text, out, length)
}

/// Writes the text to store in the file of the start once the common start for an epoch is loaded. The text is valid
/// only in the boot with this name. Returns the status.
#[unsafe(no_mangle)]
pub extern "C" fn resetd_loaded(
    alloc: Global,
    node: u8,
    epoch: u64,
    boot: &[u8],
    out: &mut [u8],
    length: &mut usize,
) -> u32
    ensures { IsLoadedGiven node epoch boot.now out.new length.new result }
{
    give(loaded(alloc, node, epoch, boot), out, length)
}

/// Writes what the file of a start says in the boot with this name, as the text that `resetd_judge` takes. Returns the
/// status.
#[unsafe(no_mangle)]
pub extern "C" fn resetd_carried(
    alloc: Global,
    node: u8,
    start: &[u8],
    boot: &[u8],
    out: &mut [u8],
    length: &mut usize,
) -> u32
    ensures { IsCarriedGiven node start.now boot.now out.new length.new result }
{
    give(carried(alloc, node, start, boot), out, length)
}

/// Writes the count and the tag of the fence of a file's start. The tag is empty if the start has no fence yet. Returns
/// the status.
#[unsafe(no_mangle)]
pub extern "C" fn resetd_fence(
    alloc: Global,
    node: u8,
    start: &[u8],
    generation: u32,
    word: &[u8],
    count: &mut u64,
    out: &mut [u8],
    length: &mut usize,
) -> u32
    ensures { IsFenceGiven node start.now generation word.now count.new out.new length.new result }
{
    match fence_in(alloc, node, start, generation, word) {
        Ok((own, tag)) => {
            *count = own;
            give(Ok(tag), out, length)
        }
        Err(fault) => status_of(fault),
    }
}

/// Writes the tag of a start that is due to talk. `start` is the content of its file after the judgement was stored.
/// `word` is the first line of each digest, or empty if the group has no word. Returns the status.
#[unsafe(no_mangle)]
pub extern "C" fn resetd_tag(
    alloc: Global,
    show: &[u8],
    node: u8,
    start: &[u8],
    word: &[u8],
    out: &mut [u8],
    length: &mut usize,
) -> u32
    ensures { IsTagGiven show.now node start.now word.now out.new length.new result }
{
    give(tag_of_bytes(alloc, show, node, start, word), out, length)
}

/// Returns whether a message with the tag `other` belongs to the run of `own`, its receiver's tag.
#[unsafe(no_mangle)]
pub extern "C" fn resetd_is_same_run(own: &[u8], other: &[u8]) -> bool
    ensures { result ≡ tag.is_same_run own.now other.now }
{
    coord_kept::is_same_run(own, other)
}

/// Returns whether two starts with these tags will always refuse each other's messages.
#[unsafe(no_mangle)]
pub extern "C" fn resetd_are_parted(own: &[u8], other: &[u8]) -> bool
    ensures { result ≡ tag.are_parted own.now other.now }
{
    coord_kept::are_parted(own, other)
}

/// Records an order under the next number. Returns the status.
#[unsafe(no_mangle)]
pub extern "C" fn resetd_write_down(orders: &mut Orders, order: &Order) -> u32
    ensures { IsWrittenAs orders.old order.now orders.new result }
{
    match write_down(*orders, *order) {
        Ok(written) => {
            *orders = written;
            0
        }
        Err(fault) => status_of(fault),
    }
}

/// Writes the line to send for the order in hand, for the first time or again. The line is empty if no order is in
/// hand. Returns the status.
#[unsafe(no_mangle)]
pub extern "C" fn resetd_order_line(
    alloc: Global,
    orders: &Orders,
    client: u8,
    out: &mut [u8],
    length: &mut usize,
) -> u32
    ensures { IsLineGiven orders.now client out.new length.new result }
{
    give(line_for(alloc, *orders, client), out, length)
}

/// Handles the answer to the line that was sent last, and writes the answer's meaning. Returns the status.
#[unsafe(no_mangle)]
pub extern "C" fn resetd_hear(
    alloc: Global,
    orders: &mut Orders,
    line: &[u8],
    meaning: &mut u32,
) -> u32
    ensures { IsHeardAs orders.old line.now orders.new meaning.new result }
{
    let text = match text_of(line) {
        Ok(text) => text,
        Err(fault) => return status_of(fault),
    };
    match hear(alloc, *orders, text) {
        Ok(heard) => {
            *orders = heard.orders;
            *meaning = heard.meaning;
            0
        }
        Err(fault) => status_of(fault),
    }
}
