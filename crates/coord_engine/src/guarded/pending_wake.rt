//! A wake-up that is owed to the threads that wait on an engine.

use std::sync::Condvar;

/// The duty to wake callers or a flusher after a change that they may be waiting for. Each method
/// of `Guarded` that makes such a change returns this duty. It can't be dropped: its owner has to
/// wake the threads on every path.
pub struct PendingWake(());

impl PendingWake {
    /// Returns the duty for a change that was just made.
    pub(super) fn new() -> Self {
        PendingWake(())
    }

    /// Wakes all threads that wait on these two conditions: for replies, and for steps.
    pub(crate) fn wake_all(self, changed: &Condvar, work: &Condvar) {
        let PendingWake(()) = self;
        changed.notify_all();
        work.notify_all();
    }
}
