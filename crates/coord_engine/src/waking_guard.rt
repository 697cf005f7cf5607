//! The lock of an engine. Releasing the lock wakes the flusher if that is due.

ghost use Rattle.std.specs.Prelude.{◌≡◌};
ghost use Rattle.std.specs.Sync.Mutex.{mutex_guard_value};
ghost use Rattle.coord_engine.specs.Pacing.{is_idle};

use crate::{Engine, Guarded, Origin};
use coord_disk::Disk;
use std::sync::{MutexGuard, Wait};

/// The lock of an engine, held for a change after which a flusher may have to be woken. It can't be
/// dropped: `unlock` releases it.
pub struct WakingGuard<'e, D: Disk, L: Origin> {
    engine: &'e Engine<D, L>,
    pub guarded: MutexGuard<'e, Guarded<D, L>>,
    /// Whether nothing could be flushed when the lock was taken.
    was_idle: bool,
}

impl<D: Disk, L: Origin> WakingGuard<'_, D, L> {
    /// Releases the lock, and wakes the flusher if that is due.
    pub fn unlock(self) {
        let WakingGuard {
            engine,
            guarded,
            was_idle,
        } = self;
        let wakes = guarded.wakes_flusher(was_idle);
        drop(guarded);
        if wakes {
            engine.work.notify_all();
        }
    }
}

impl<D: Disk, L: Origin> Engine<D, L> {
    /// Takes the lock for a change after which a flusher may have to be woken.
    pub(crate) fn lock_for_change<R: Wait>(&self, rt: &R) -> WakingGuard<'_, D, L>
        ensures { result.was_idle ≡ is_idle (mutex_guard_value result.guarded) }
    {
        let guarded = self.guarded.lock(rt);
        let was_idle = guarded.is_idle();
        WakingGuard {
            engine: self,
            guarded,
            was_idle,
        }
    }
}
