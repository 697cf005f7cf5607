//! The audit: it limits lines by quotas, and writes them to a file or to standard output.

ghost use Rattle.std.specs.Prelude.{◌≡◌, ◌≢◌, ◌+◌, ◌++◌, ℕ, List, All, IfOk, IfSome, None, Some, false};
ghost use Rattle.std.specs.BTreeMap.{get, values};
ghost use Rattle.std.specs.Duration.{as_nanos};
ghost use Rattle.std.specs.Option.{option_map};
ghost use Rattle.std.specs.Ordering.{nat_cmp};
ghost use Rattle.std.specs.Time.{system_time_nanos};
ghost use Rattle.proxy_audit.specs.Audits.{AddsEvent, AddsWithin, KeepsFile, audit_quota};
ghost use Rattle.proxy_audit.specs.Pending.{no_pending};
ghost use Rattle.proxy_audit.specs.Quotas.{a_second_after, after_more, earliest_since, is_due, more};

use crate::event::Event;
use crate::file::AuditFile;
use crate::pending::Pending;
use crate::quota::LineKind;
use crate::quotas::Quotas;
use std::alloc::Global;
use std::fs::{File, Files};
use std::io;
use std::time::{Duration, SystemTime};

/// The least number of seconds between two reports that lines can't be written.
const REPORT_PAUSE: u64 = 60;

/// The argument that names standard output.
pub const STANDARD_OUTPUT: &str = "-";

/// The audit of a proxy.
#[derive(Drop)]
pub struct Audit {
    pending: Pending,
    quotas: Quotas,
    /// The file that lines are written to, or None for standard output.
    file: Option<AuditFile>,
    /// The time of the last report that lines can't be written.
    reported: Option<Duration>,
}

impl Audit {
    /// Opens the audit's file at this path. If the path is None or `-`, lines go to standard output. Errors: the file
    /// can't be opened.
    pub fn open<R: Files<File = File>>(
        rt: &R,
        alloc: Global,
        path: Option<String>,
    ) -> io::Result<Self>
        ensures pending { IfOk result (λ audit. audit.pending ≡ no_pending) }
        ensures quotas { IfOk result (λ audit. (role : ℕ) → get nat_cmp audit.quotas.all role ≡ None) }
    {
        Ok(Audit {
            pending: Pending::new(alloc),
            quotas: Quotas::new(alloc),
            file: open_file(rt, path)?,
            reported: None,
        })
    }

    /// Adds the line of an event, for the next `write`. Counts the line as lost if there is no room or memory for it.
    pub fn add(&mut self, time: SystemTime, event: &Event<'_>)
        ensures { AddsEvent (system_time_nanos time) event.now self.old self.new }
    {
        self.pending.add(time, event);
    }

    /// Adds the line of an event if its principal's quota admits the line; otherwise counts the line as left out.
    /// Counts the line as lost if there is no room or memory for it.
    pub fn add_within_quota(
        &mut self,
        role: u32,
        kind: LineKind,
        now: Duration,
        time: SystemTime,
        event: &Event<'_>,
    )
        ensures { AddsWithin role kind (as_nanos now) (system_time_nanos time) event.now self.old self.new }
    {
        match self.quotas.admit(role, kind, now) {
            Ok(true) => self.pending.add(time, event),
            Ok(false) => {}
            Err(_) => self.pending.lose(),
        }
    }

    /// Returns the role of a principal whose first left-out line came at least a second ago, and the number of its
    /// left-out lines, or None if there is no such principal. Resets that number to zero.
    pub fn take_more(&mut self, now: Duration) -> Option<(u32, u64)>
        ensures none { result ≡ None → All (λ quota. is_due (as_nanos now) quota ≡ false) (values self.old.quotas.all) }
        ensures some { IfSome result (λ found. more (as_nanos now) (audit_quota self.old found.0) ≡ Some found.1) }
        ensures after { IfSome result (λ found. get nat_cmp self.new.quotas.all found.0 ≡ Some (after_more (as_nanos now) (audit_quota self.old found.0))) }
        ensures others { IfSome result (λ found. (other : ℕ) → other ≢ found.0 → get nat_cmp self.new.quotas.all other ≡ get nat_cmp self.old.quotas.all other) }
        ensures unchanged { result ≡ None → (role : ℕ) → get nat_cmp self.new.quotas.all role ≡ get nat_cmp self.old.quotas.all role }
        ensures pending { self.new.pending ≡ self.old.pending }
        ensures file { KeepsFile self.old self.new }
    {
        self.quotas.take_more(now)
    }

    /// Returns the time when the next number of left-out lines is due, or None if no lines are left out.
    pub fn more_at(&self) -> Option<Duration>
        ensures { option_map as_nanos result ≡ option_map a_second_after (earliest_since None (values self.now.quotas.all)) }
    {
        let since = self.quotas.left_out_since()?;
        Some(since.saturating_add(Duration::from_secs(1)))
    }

    /// Writes the lines that were added. Reports a failure at most once a minute; the next call writes the remaining
    /// lines.
    pub fn write<R: Files<File = File> + Print + Eprint>(&mut self, rt: &R, now: Duration)
        ensures rest { (part : List ℕ) × (self.old.pending.unwritten ≡ part ++ self.new.pending.unwritten) }
        ensures lost { self.new.pending.lost ≡ self.old.pending.lost }
        ensures quotas { self.new.quotas ≡ self.old.quotas }
    {
        if self.pending.is_empty() {
            return;
        }
        let is_written = match &mut self.file {
            Some(file) => {
                let is_open = file.follow(rt).is_ok();
                file.write(&mut self.pending) && is_open
            }
            None => self.pending.write(&mut io::writer(rt)),
        };
        if !is_written {
            self.report(rt, now);
        }
    }

    /// Reopens the audit's file if its path names another file, or none. Reports a failure at most once a minute.
    pub fn follow<R: Files<File = File> + Eprint>(&mut self, rt: &R, now: Duration)
        ensures pending { self.new.pending ≡ self.old.pending }
        ensures quotas { self.new.quotas ≡ self.old.quotas }
    {
        let is_open = match &mut self.file {
            Some(file) => file.follow(rt).is_ok(),
            None => true,
        };
        if !is_open {
            self.report(rt, now);
        }
    }

    /// Returns the number of lost lines.
    pub fn lost(&self) -> u64
        ensures { result ≡ self.now.pending.lost }
    {
        self.pending.lost()
    }

    fn report<R: Eprint>(&mut self, rt: &R, now: Duration)
        ensures pending { self.new.pending ≡ self.old.pending }
        ensures quotas { self.new.quotas ≡ self.old.quotas }
    {
        if let Some(before) = self.reported {
            if now.saturating_sub(before) < Duration::from_secs(REPORT_PAUSE) {
                return;
            }
        }
        self.reported = Some(now);
        let lost = self.pending.lost();
        let path = match &self.file {
            Some(file) => file.path(),
            None => STANDARD_OUTPUT,
        };
        let _ = eprintln!(rt;
            "resetd-proxy: {path} can't be written: {lost} lines of the audit are lost, others wait"
        );
    }
}

fn open_file<R: Files<File = File>>(rt: &R, path: Option<String>) -> io::Result<Option<AuditFile>> {
    let Some(path) = path else {
        return Ok(None);
    };
    if path.as_str() == STANDARD_OUTPUT {
        return Ok(None);
    }
    Ok(Some(AuditFile::open(rt, path)?))
}
