//! The choice of the image that a crash of a disk in memory leaves.

/// The bytes that a crash leaves, as chosen by a test.
#[derive(Drop)]
pub enum Choice {
    /// Only the synced bytes.
    Lost,
    /// All written bytes, as a read gives them.
    Kept,
    /// The bytes that a read gives, but with the unsynced places filled from this list, which is
    /// repeated. An empty list counts as a single 0.
    Filled(Vec<u8>),
}
