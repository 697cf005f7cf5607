//! A histogram of how long answers took.

ghost use Rattle.std.specs.Prelude.{◌≡◌, ◌+◌, ◌-◌, ◌^◌, ◌++◌, All, IfOk, OnOk, min, string_bytes};
ghost use Rattle.std.specs.Duration.{as_nanos, max_nanos};
ghost use Rattle.proxy_audit.specs.Tallies.{bucket_line, bucket_lines, last_line, seconds_line, sum_lines, total_line};

use crate::seconds::seconds_text;
use std::alloc::{AllocError, Global};
use std::time::Duration;

const BOUNDS: usize = 15;

/// The upper bounds of the buckets, in microseconds.
const BOUND_MICROS: [u64; BOUNDS] = [
    500, 1_000, 2_500, 5_000, 10_000, 25_000, 50_000, 100_000, 250_000, 500_000, 1_000_000,
    2_500_000, 5_000_000, 10_000_000, 30_000_000,
];

/// The same bounds in seconds, as they are printed.
const BOUND_NAMES: [&str; BOUNDS] = [
    "0.0005", "0.001", "0.0025", "0.005", "0.01", "0.025", "0.05", "0.1", "0.25", "0.5", "1.0",
    "2.5", "5.0", "10.0", "30.0",
];

/// The number of answers that took no longer than a bound.
#[derive(Drop)]
pub struct Bucket {
    pub(crate) bound: Duration,
    pub(crate) name: &'static str,
    pub(crate) count: u64,
}

/// The number of answers that took no longer than each bound, the number of all answers, and the
/// sum of their times.
#[derive(Drop)]
pub struct Histogram {
    pub(crate) buckets: Vec<Bucket>,
    pub(crate) count: u64,
    pub(crate) sum: Duration,
}

impl Histogram {
    /// Returns an empty histogram. Errors: out of memory.
    pub fn new(alloc: Global) -> Result<Self, AllocError>
        ensures buckets { IfOk result (λ histogram. All (λ bucket. bucket.count ≡ 0) histogram.buckets.items) }
        ensures sums { IfOk result (λ histogram. (histogram.count ≡ 0) × (as_nanos histogram.sum ≡ 0)) }
    {
        let mut buckets = Vec::new(alloc);
        for index in 0..BOUNDS {
            buckets.push(Bucket {
                bound: Duration::from_micros(BOUND_MICROS[index]),
                name: BOUND_NAMES[index],
                count: 0,
            })?;
        }
        Ok(Histogram {
            buckets,
            count: 0,
            sum: Duration::ZERO,
        })
    }

    /// Counts an answer that took this long.
    pub fn observe(&mut self, waited: Duration)
        ensures count { self.new.count ≡ min (self.old.count + 1) (2 ^ 64 - 1) }
        ensures sum { as_nanos self.new.sum ≡ min (as_nanos self.old.sum + as_nanos waited) max_nanos }
    {
        observe_all(self.buckets.as_mut_slice(), waited);
        self.count = self.count.saturating_add(1);
        self.sum = self.sum.saturating_add(waited);
    }

    /// Appends the histogram of an op as text for Prometheus. Errors: out of memory.
    pub fn push(&self, alloc: Global, text: &mut String, op: &str) -> Result<(), AllocError>
        ensures { OnOk result (string_bytes text.new ≡ string_bytes text.old ++ (bucket_lines op.now self.now.buckets.items ++ sum_lines op.now self.now.count (as_nanos self.now.sum))) }
    {
        push_buckets(text, op, self.buckets.as_slice())?;
        push_sums(alloc, text, op, self.count, self.sum)
    }
}

fn observe_all(buckets: &mut [Bucket], waited: Duration) {
    for bucket in buckets.iter_mut() {
        if waited <= bucket.bound {
            bucket.count = bucket.count.saturating_add(1);
        }
    }
}

fn push_buckets(text: &mut String, op: &str, buckets: &[Bucket]) -> Result<(), AllocError>
    ensures { OnOk result (string_bytes text.new ≡ string_bytes text.old ++ bucket_lines op.now buckets.now) }
{
    for bucket in buckets {
        push_bucket(text, op, bucket)?;
    }
    Ok(())
}

#[tactic(auto, unfolding(crate::specs::Tallies::bucket_line))]
fn push_bucket(text: &mut String, op: &str, bucket: &Bucket) -> Result<(), AllocError>
    ensures { OnOk result (string_bytes text.new ≡ string_bytes text.old ++ bucket_line op.now bucket.now) }
{
    let name = bucket.name;
    let count = bucket.count;
    writeln!(
        text,
        "resetd_front_answer_seconds_bucket{{op=\"{op}\",le=\"{name}\"}} {count}"
    )
}

fn push_sums(
    alloc: Global,
    text: &mut String,
    op: &str,
    count: u64,
    sum: Duration,
) -> Result<(), AllocError>
    ensures { OnOk result (string_bytes text.new ≡ string_bytes text.old ++ sum_lines op.now count (as_nanos sum)) }
{
    push_last(text, op, count)?;
    push_total(text, op, count)?;
    push_seconds(alloc, text, op, sum)
}

fn push_last(text: &mut String, op: &str, count: u64) -> Result<(), AllocError>
    ensures { OnOk result (string_bytes text.new ≡ string_bytes text.old ++ last_line op.now count) }
{
    writeln!(
        text,
        "resetd_front_answer_seconds_bucket{{op=\"{op}\",le=\"+Inf\"}} {count}"
    )
}

fn push_total(text: &mut String, op: &str, count: u64) -> Result<(), AllocError>
    ensures { OnOk result (string_bytes text.new ≡ string_bytes text.old ++ total_line op.now count) }
{
    writeln!(
        text,
        "resetd_front_answer_seconds_count{{op=\"{op}\"}} {count}"
    )
}

fn push_seconds(alloc: Global, text: &mut String, op: &str, sum: Duration) -> Result<(), AllocError>
    ensures { OnOk result (string_bytes text.new ≡ string_bytes text.old ++ seconds_line op.now (as_nanos sum)) }
{
    let seconds = seconds_text(alloc, sum)?;
    writeln!(
        text,
        "resetd_front_answer_seconds_sum{{op=\"{op}\"}} {seconds}"
    )
}
