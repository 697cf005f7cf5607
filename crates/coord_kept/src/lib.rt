//! The files of a member, and the tag of its messages. The bytes are the same as those of the
//! client library.
//!
//! [`lines_of`] makes the lines of a party, sorted by their bytes, [`digest_of`] their digest, and
//! [`tag_of`] the tag. [`read_start`], [`carried_start`], [`start_text`] and [`loaded_text`] read
//! and write the file of a start; if a power cut truncates the file, the file says that nothing is
//! begun ([`laws`]). [`look_up`] and [`history_line`] read and write the file of the history.
//! [`is_same_run`] and [`are_parted`] compare a received tag with the member's own tag. `specs/`
//! has a file of definitions for each of these subjects.
#![tactic(auto)]

mod digest;
mod history;
pub mod laws;
mod lines;
mod start;
mod tag;

pub use digest::{digest_of, fence_tag, history_line, tag_of};
pub use history::{Found, look_up};
pub use lines::{known, lines_of};
pub use start::{ReadFault, Start, carried_start, loaded_text, read_start, start_text};
pub use tag::{are_parted, is_same_run};
