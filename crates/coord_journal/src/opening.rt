//! Opens a journal.

ghost use Rattle.std.specs.Prelude.{◌≡◌, ◌≢◌, true, false, MatchResult, IfOk, IfErr};
ghost use Rattle.coord_disk.specs.Model.Moments.{AddsNothing, Runs};
ghost use Rattle.coord_disk.specs.Model.Present.{whole};
ghost use Rattle.coord_journal.specs.Contents.{content_of};
ghost use Rattle.coord_journal.specs.Faults.{RefusesOpen, IsOpenFault, failed_in};
ghost use Rattle.coord_journal.specs.Journal.{IsReady, disk_of, has_stopped};
ghost use Rattle.coord_journal.specs.Half.{half_number};
ghost use Rattle.coord_journal.specs.Text.{Content, IsText, IsTextAt, used_by};
ghost use Rattle.coord_journal.specs.declared.fault.JournalFault.TheVariants.{Device};

use crate::barrier::read_durable;
use crate::half::Half;
use crate::header::read_header;
use crate::read::read_half;
use crate::{Contents, Journal, JournalFault};
use coord_disk::Disk;
use std::alloc::Global;

/// The end of a text on its device: the size of a half, the selected half, and the number of bytes
/// used in the selected half.
#[derive(Clone, Copy)]
struct Place {
    half_size: u64,
    half: Half,
    used: u64,
}

// Reads the text of a journal. Returns the end of the text, and its content.
fn read_text(alloc: Global, bytes: &[u8]) -> Result<(Place, Contents<'_>), JournalFault>
    ensures text { IfOk result (λ read. IsTextAt bytes.now (content_of read.1) read.0.half_size
        (half_number read.0.half) read.0.used) }
    ensures only { (content : Content) → IsText content bytes.now →
        IfOk result (λ read. content_of read.1 ≡ content) }
    ensures used { IfOk result (λ read. read.0.used ≡ used_by (content_of read.1)) }
    ensures fault { IfErr result (RefusesOpen bytes.now) }
    ensures not_device { IfErr result (λ fault. fault ≢ Device) }
{
    let Some(header) = read_header(bytes) else {
        return Err(JournalFault::NoMagic);
    };
    let size = header.half_size as usize;
    let half = Half::named_by(header.selector);
    let start = half.start(header.half_size) as usize;
    if header.rest.len() < start {
        return Err(JournalFault::BadRecord);
    }
    let following = &header.rest[start..];
    let (contents, used) = match read_half(alloc, &following[..size.min(following.len())]) {
        Ok(read) => read,
        Err(fault) => return Err(fault),
    };
    let place = Place {
        half_size: header.half_size,
        half,
        used: used as u64,
    };
    Ok((place, contents))
}

/// Opens the journal on a device. Reads the device into `bytes`, and returns the journal and its
/// content, which borrows from `bytes`. The call syncs and reads, but writes nothing.
///
/// A refusal returns the disk.
pub fn open<'b, D: Disk>(
    alloc: Global,
    mut disk: D,
    bytes: &'b mut Vec<u8>,
) -> Result<(Journal<D>, Contents<'b>), (JournalFault, D)>
    // If the bytes of the device are the text of a content, `open` returns that content, unless memory
    // runs out or the device fails.
    ensures text { D.model.keeps_model disk ≡ true →
        IfOk result (λ opened. IsText (content_of opened.1) (D.model.present disk).read) }
    ensures only { (content : Content) → D.model.keeps_model disk ≡ true →
        IsText content (D.model.present disk).read →
        IfOk result (λ opened. content_of opened.1 ≡ content) }
    ensures fault { D.model.keeps_model disk ≡ true →
        IfErr result (λ refused. RefusesOpen (D.model.present disk).read refused.0) }
    ensures named { IfErr result (λ refused. IsOpenFault refused.0) }

    // The journal accepts appends, and the device reads as before.
    ensures ready { D.model.keeps_model disk ≡ true →
        IfOk result (λ opened. IsReady D.model opened.0 (content_of opened.1)) }
    ensures bytes { D.model.keeps_model disk ≡ true → IfOk result (λ opened.
        D.model.present (disk_of opened.0) ≡ whole (D.model.present disk).read) }
    ensures going { IfOk result (λ opened. has_stopped opened.0 ≡ false) }
    ensures unchanged { D.model.keeps_model disk ≡ true →
        IfErr result (λ refused. refused.0 ≢ Device →
        D.model.present refused.1 ≡ whole (D.model.present disk).read) }

    // A crash at any moment of the call leaves only bytes that a crash before the call could have left.
    ensures any_moment { MatchResult result (λ opened. AddsNothing D.model disk (disk_of opened.0))
        (λ refused. AddsNothing D.model disk refused.1) }
    ensures runs { MatchResult result (λ opened. Runs D.model disk (disk_of opened.0) 3 0)
        (λ refused. Runs D.model disk refused.1 3 (failed_in refused.0)) }
{
    match read_durable(alloc, &mut disk) {
        Ok(read) => *bytes = read,
        Err(fault) => return Err((fault, disk)),
    }
    match read_text(alloc, bytes) {
        Ok((place, contents)) => {
            let journal = Journal::at(alloc, disk, place.half_size, place.half, place.used);
            Ok((journal, contents))
        }
        Err(fault) => Err((fault, disk)),
    }
}
