//! The state of a flight.

/// The state of a flight: whether it was committed.
#[derive(Clone, Copy, PartialEq, Eq)]
pub enum Mark {
    /// The flight was not committed yet.
    New,
    /// The flight's steps are on the disk.
    Good,
    /// The device failed: it is unknown whether the flight's steps are on the disk.
    Torn,
}
