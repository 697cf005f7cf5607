//! The content of a journal.

/// The content of a journal, as slices of the bytes that were read from its device.
#[derive(Debug, Drop, PartialEq, Eq)]
pub struct Contents<'b> {
    pub version: u8,
    pub snapshot: &'b [u8],
    /// The bodies of the batches, oldest first.
    pub batches: Vec<&'b [u8]>,
}
