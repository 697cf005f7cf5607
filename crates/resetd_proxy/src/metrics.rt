//! The metrics: a text for Prometheus, in a file or on standard output.

ghost use Rattle.std.specs.Prelude.{◌≡◌, ◌⊎◌, ◌+◌, ◌++◌, ◌<◌, ◌≤◌, [], ℕ, List, codes, false, true, min, IfOk, None, string_bytes};
ghost use Rattle.std.specs.BTreeMap.{get_by_text};
ghost use Rattle.std.specs.Duration.{as_nanos, max_nanos};
ghost use Rattle.resetd_proxy.specs.Totals.{metrics_text};

use crate::totals::push_totals;
use proxy_audit::{STANDARD_OUTPUT, Tally};
use proxy_loop::Counts;
use std::alloc::{AllocError, Global};
use std::fs::{File, Files};
use std::time::Duration;
use std::{fs, io};

/// How many seconds pass at least between two texts.
const TEXT_PAUSE: u64 = 1;

/// The counts, and the destination of their text.
#[derive(Drop)]
pub(crate) struct Metrics {
    pub tally: Tally,
    path: String,
    /// The path of the file that takes the place of the one that is there.
    new_path: String,
    /// The last text.
    text: String,
    /// When the next text is written, if it differs.
    due: Duration,
    /// The last text could not be written, which was reported.
    has_failed: bool,
}

impl Metrics {
    /// Returns metrics without counts. Errors: out of memory.
    pub fn new(alloc: Global, path: String) -> Result<Self, AllocError>
        ensures paths { IfOk result (λ metrics. (metrics.path ≡ path) × (string_bytes metrics.new_path ≡ string_bytes path ++ codes ".new")) }
        ensures tally { IfOk result (λ metrics. (key : List ℕ) → (get_by_text metrics.tally.answers key ≡ None) × (get_by_text metrics.tally.times key ≡ None)) }
        ensures none { IfOk result (λ metrics. (string_bytes metrics.text ≡ []) × (as_nanos metrics.due ≡ 0) × (metrics.has_failed ≡ false)) }
    {
        let mut new_path = String::new(alloc);
        new_path.push_str(path.as_str())?;
        new_path.push_str(".new")?;
        Ok(Metrics {
            tally: Tally::new(alloc),
            path,
            new_path,
            text: String::new(alloc),
            due: Duration::ZERO,
            has_failed: false,
        })
    }

    /// Writes the text if it differs from the last one, which was written a second ago or earlier. `lost` is the number
    /// of the audit's lines that were lost. A failure is reported once, and the next call tries again.
    pub fn write<R: Files<File = File> + AllocGlobal + Print + Eprint>(
        &mut self,
        rt: &R,
        now: Duration,
        counts: &Counts,
        lost: u64,
    )
        ensures early { as_nanos now < as_nanos self.old.due → self.new ≡ self.old }
        ensures due { as_nanos self.old.due ≤ as_nanos now → as_nanos self.new.due ≡ min (as_nanos now + 1_000_000_000) max_nanos }
        ensures text { (self.new.text ≡ self.old.text) ⊎ (string_bytes self.new.text ≡ metrics_text self.old.tally counts.now lost) }
        ensures failed { self.new.has_failed ≡ true → self.new.text ≡ self.old.text }
        ensures rest { (self.new.tally ≡ self.old.tally) × (self.new.path ≡ self.old.path) × (self.new.new_path ≡ self.old.new_path) }
    {
        if !self.due.saturating_sub(now).is_zero() {
            return;
        }
        self.due = now.saturating_add(Duration::from_secs(TEXT_PAUSE));
        let Ok(text) = self.new_text(rt.alloc(), counts, lost) else {
            return;
        };
        if text.as_str() == self.text.as_str() {
            return;
        }
        if self.put(rt, text.as_str()).is_ok() {
            self.text = text;
            self.has_failed = false;
        } else if !self.has_failed {
            self.has_failed = true;
            let path = self.path.as_str();
            let _ = eprintln!(rt; "resetd-proxy: {path} can't be written: the metrics are old");
        }
    }

    fn new_text(&self, alloc: Global, counts: &Counts, lost: u64) -> Result<String, AllocError>
        ensures { IfOk result (λ text. string_bytes text ≡ metrics_text self.now.tally counts.now lost) }
    {
        let mut text = String::new(alloc);
        self.tally.push(&mut text)?;
        push_totals(&mut text, counts, lost)?;
        Ok(text)
    }

    /// Puts a text in the place of the last one.
    fn put<R: Files<File = File> + Print>(&self, rt: &R, text: &str) -> io::Result<()> {
        if self.path.as_str() == STANDARD_OUTPUT {
            return print!(rt; "{text}");
        }
        fs::write(rt, self.new_path.as_str(), text)?;
        fs::rename(rt, self.new_path.as_str(), self.path.as_str())
    }
}
