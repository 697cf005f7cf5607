//! A journal on a disk that may crash at any moment: a version, a snapshot and the batches appended
//! since.
//!
//! `specs/Text.antt` defines which bytes are the text of a content, independently of the code.
//! `format` writes such a text, and `open` reads it but writes nothing. `Journal::append` appends a
//! batch, and `Journal::replace` replaces the whole content by a new snapshot, in the half that is
//! not selected.
//!
//! Why a batch is atomic:
//! 1. The text ends at a gate, which is one byte: 0 is closed, any other value is open. A reader
//!    stops at a closed gate.
//! 2. `append` writes the batch after that gate. A crash may leave any part of the batch there, but
//!    no reader sees it.
//! 3. `append` syncs: the whole batch is on disk, and still unread.
//! 4. `append` opens the gate by one write of one byte, and syncs: torn or not, that byte is open or
//!    closed.
//! 5. `replace` does the same with the half that is not selected, and with the one byte that selects
//!    it.
//!
//! The main theorems are the clauses `any_moment` and `done` of `append` and `replace`: a crash at
//! any moment leaves the text of the old content or of the new content; once the call has returned
//! Ok, a crash leaves only the text of the new content. Both rest on `synced::write_in_turn`: two
//! writes, where the second begins only once the first is on disk.
#![tactic(auto)]

mod barrier;
mod contents;
mod fault;
mod formatting;
mod half;
mod header;
mod journal;
pub mod laws;
mod layout;
mod opening;
mod read;
mod spelling;
mod synced;

pub use contents::Contents;
pub use fault::JournalFault;
pub use formatting::format;
pub use journal::Journal;
pub use layout::{MAX_BODY, MAX_HALF, MAX_SNAPSHOT, MIN_HALF};
pub use opening::open;
