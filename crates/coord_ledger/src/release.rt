//! Released outputs.

use coord_types::Output;

/// An output, and the number of its step. For a resent packet the number is 0.
#[derive(Clone, Copy, Debug, PartialEq, Eq)]
pub struct Release {
    pub step: u64,
    pub output: Output,
}
