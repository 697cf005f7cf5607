//! Splits an arriving text into lines, and writes whole texts.
//!
//! `specs/Lines.antt` defines the lines of a text. A `LineBuffer` holds one line while its bytes
//! arrive. The main theorem is [`pieces_have_the_lines_of_the_whole`], stated in `specs/Laws.antt`:
//! a text that arrives in pieces has the lines of the whole text, whatever the pieces are. If
//! writing a text fails, a prefix of it was written (`specs/Written.antt`).
#![tactic(auto)]

mod laws;
mod limits;
mod line_buffer;
mod writing;

pub use laws::pieces_have_the_lines_of_the_whole;
pub use limits::{MOST_CALLS, MOST_READS};
pub use line_buffer::LineBuffer;
pub use writing::write_whole;
