//! A disk that fails some calls itself, without passing them to the disk inside.

ghost use Rattle.std.specs.Prelude.{◌≡◌, ◌+◌, ◌<◌, ◌^◌, Bool, ℕ, Option, None, length};
ghost use Rattle.coord_disk.specs.Model.Calls.{Crashes, HasBytes, HasCause, Measures, Reads, Syncs, Writes};

use crate::fault::fail;
use crate::{CrashDisk, Disk, DiskFault, Takable};
use http_server::Log;

/// A call of a disk.
#[derive(Clone, Copy)]
pub enum Call {
    Len,
    Read,
    Write,
    Sync,
}

/// A rule that decides which calls a disk fails.
pub trait Rule: Drop {
    ghost use Rattle.coord_disk.specs.declared.failing.Call.{Call};

    /// Whether the rule may answer a call with this boolean (true: the call fails) and then become
    /// the other rule.
    ghost says: { Self → Call → Bool → Self → Type 0 };

    /// The number of bytes that a failing write still writes. None: the write does not reach the
    /// disk inside.
    ghost torn: { Self → Option ℕ } = { λ _. None };

    /// Decides whether the disk fails this call.
    fn fails(&mut self, call: Call) -> bool
        ensures { says self.old call result self.new };

    /// Returns the number of bytes that a failing write still writes, or None if the write does not
    /// reach the disk inside.
    fn tears(&self) -> Option<usize>
        ensures { result ≡ torn self.now };
}

/// A disk that fails some calls, as a rule decides, and passes the others on.
#[derive(Drop)]
pub struct FailingDisk<D, R> {
    inner: D,
    rule: R,
    calls: u64,
    failed: Log<u8, u8>,
}

impl<D: Disk, R: Rule> FailingDisk<D, R> {
    ghost use Rattle.coord_disk.specs.Disks.Failing.{IsOver, inner_of, rule_of, calls_of, failed_of, one_more};

    /// Wraps a disk with a rule.
    pub fn over(inner: D, rule: R) -> Self
        ensures { IsOver inner rule result }
    {
        FailingDisk {
            inner,
            rule,
            calls: 0,
            failed: Log::new(),
        }
    }

    /// Returns the number of calls so far, but at most the greatest u64.
    pub fn calls(&self) -> u64
        ensures { result ≡ calls_of self.now }
    {
        self.calls
    }

    /// Returns the disk inside.
    pub fn into_inner(self) -> D
        ensures { result ≡ inner_of self }
    {
        self.inner
    }

    // Counts a call, and returns whether it fails.
    fn counts(&mut self, call: Call) -> bool
        ensures inner { inner_of self.new ≡ inner_of self.old }
        ensures rule { R.says (rule_of self.old) call result (rule_of self.new) }
        ensures calls { calls_of self.new ≡ one_more (calls_of self.old) }
        ensures failed { failed_of self.new ≡ failed_of self.old }
    {
        self.calls = self.calls.saturating_add(1);
        self.rule.fails(call)
    }
}

impl<D: Disk, R: Rule> Disk for FailingDisk<D, R> {
    ghost use Rattle.coord_disk.specs.Disks.Failing.{inner_of, rule_of, failing, failures_of, IsCounted, IsTorn, IsUnreached};
    ghost use Rattle.coord_disk.specs.Model.DiskModel.{seen_through_is_model};
    ghost use Rattle.coord_disk.specs.declared.failing.Call.TheVariants.{Len, Read, Write, Sync};

    ghost model = { failing D.model };

    ghost laws = { seen_through_is_model D.model inner_of (failures_of D.model) D.laws };

    fn len(&mut self) -> Result<u64, DiskFault>
        ensures call { Measures D.model (inner_of self.old) (inner_of self.new) result }
        ensures cause { HasCause (failures_of D.model self.old) (failures_of D.model self.new) result }
        ensures counted { IsCounted D.model R.says Len self.old self.new result
            (IsUnreached self.old self.new) }
    {
        if self.counts(Call::Len) {
            return Err(fail(&mut self.failed));
        }
        self.inner.len()
    }

    fn read(&mut self, at: u64, buf: &mut [u8]) -> Result<(), DiskFault>
        requires { HasBytes D.model (inner_of self.old) at (length buf.old) }
        ensures call { Reads D.model at buf.old buf.new (inner_of self.old) (inner_of self.new) result }
        ensures cause { HasCause (failures_of D.model self.old) (failures_of D.model self.new) result }
        ensures counted { IsCounted D.model R.says Read self.old self.new result
            (IsUnreached self.old self.new) }
    {
        if self.counts(Call::Read) {
            return Err(fail(&mut self.failed));
        }
        self.inner.read(at, buf)
    }

    fn write_at(&mut self, at: u64, bytes: &[u8]) -> Result<(), DiskFault>
        requires { at + length bytes.now < 2 ^ 64 }
        ensures call { Writes D.model at bytes.now (inner_of self.old) (inner_of self.new) result }
        ensures cause { HasCause (failures_of D.model self.old) (failures_of D.model self.new) result }
        ensures counted { IsCounted D.model R.says Write self.old self.new result
            (IsTorn D.model (R.torn (rule_of self.new)) at bytes.now self.old self.new) }
    {
        if self.counts(Call::Write) {
            return match self.rule.tears() {
                None => Err(fail(&mut self.failed)),
                Some(kept) => {
                    self.inner.write_at(at, &bytes[..kept.min(bytes.len())])?;
                    Err(fail(&mut self.failed))
                }
            };
        }
        self.inner.write_at(at, bytes)
    }

    fn sync(&mut self) -> Result<(), DiskFault>
        ensures call { Syncs D.model (inner_of self.old) (inner_of self.new) result }
        ensures cause { HasCause (failures_of D.model self.old) (failures_of D.model self.new) result }
        ensures counted { IsCounted D.model R.says Sync self.old self.new result
            (IsUnreached self.old self.new) }
    {
        if self.counts(Call::Sync) {
            return Err(fail(&mut self.failed));
        }
        self.inner.sync()
    }
}

impl<D: Takable, R: Rule> Takable for FailingDisk<D, R> {}

impl<D: CrashDisk, R: Rule> CrashDisk for FailingDisk<D, R> {
    ghost use Rattle.coord_disk.specs.Disks.Failing.{inner_of, CrashesInside};

    ghost crashes = { λ f. CrashesInside D.crashes f };

    /// Crashes the disk inside. The rule and the counts are kept.
    fn crash(self) -> Self
        ensures crashes { CrashesInside D.crashes self result }
        ensures leaves { Crashes D.model (inner_of self) (inner_of result) }
    {
        FailingDisk {
            inner: self.inner.crash(),
            rule: self.rule,
            calls: self.calls,
            failed: self.failed,
        }
    }
}
