//! How packets are resent, and how the settled world is shown.

ghost use Rattle.std.specs.Prelude.{◌≡◌, ◌<◌, ◌≤◌, Err, is_some, false, true, IfOk, MatchResult, OnErr};
ghost use Rattle.coord_types.specs.declared.refusals.Refusal.TheVariants.{OutOfMemory, Stopped, Behind};
ghost use Rattle.coord_view.specs.Shown.{shown};
ghost use Rattle.coord_ledger.specs.Facade.{accepted_count, resent, settled_count, settled_world};

use super::Ledger;
use crate::settling::push_all;
use crate::{Releases, Seen};
use coord_disk::Disk;
use coord_types::Refusal;
use coord_view::{View, view_of};
use std::alloc::AllocError;

impl<D: Disk> Ledger<D> {
    /// Returns the packets that the settled world sends again because they may have been lost. Their
    /// step number is 0. Errors: out of memory.
    pub fn resend(&self) -> Result<Releases, AllocError>
        ensures { IfOk result (λ releases. releases ≡ resent (settled_world self.now.log)) }
    {
        let outputs = self.settled.resend()?;
        let mut rows = Vec::new(self.alloc);
        push_all(&mut rows, 0, &outputs)?;
        Ok(Releases::of(rows))
    }

    /// Returns a view of the settled world to a caller who has not seen a later world, and raises the
    /// caller's seen count to the settled count. Refuses with the first of these that applies:
    /// `Stopped`, `Behind` (with the settled count), `OutOfMemory`.
    pub fn show(&self, seen: &mut Seen) -> Result<View, Refusal>
        ensures stopped { is_some self.now.log.doubt ≡ true → result ≡ Err Refusal.Stopped }
        ensures behind { is_some self.now.log.doubt ≡ false → settled_count self.now.log < seen.old →
            result ≡ Err (Refusal.Behind (settled_count self.now.log)) }
        ensures shown { is_some self.now.log.doubt ≡ false → seen.old ≤ settled_count self.now.log →
            MatchResult result (λ view.
            (view ≡ shown (accepted_count self.now.log) (settled_world self.now.log)) ×
            (seen.new ≡ settled_count self.now.log)) (λ refusal. refusal ≡ OutOfMemory) }
        ensures unseen { OnErr result (seen.new ≡ seen.old) }
    {
        if self.doubt.is_some() {
            return Err(Refusal::Stopped);
        }
        let settled = self.settled_count();
        if seen.count() > settled {
            return Err(Refusal::Behind { settled });
        }
        match view_of(self.alloc, self.accepted_count(), &self.settled) {
            Ok(view) => {
                seen.note(settled);
                Ok(view)
            }
            Err(_) => Err(Refusal::OutOfMemory),
        }
    }
}
