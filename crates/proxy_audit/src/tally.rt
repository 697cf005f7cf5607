//! The counts of answers.

ghost use Rattle.std.specs.Prelude.{◌≡◌, ◌++◌, ℕ, List, IfOk, None, OnOk, true, string_bytes};
ghost use Rattle.std.specs.BTreeMap.{get_by_text};
ghost use Rattle.std.specs.List.{list_all};
ghost use Rattle.proxy_audit.specs.Tallies.{CountsOneMore, answers_text, count_line, count_of, is_plain, labels_of, times_text};

use crate::answer_name::answer_name;
use crate::histogram::Histogram;
use std::alloc::{AllocError, Global};
use std::collections::BTreeMap;
use std::time::Duration;

/// The maximum number of series of answers. Answers that need a further series are not counted.
pub const MOST_SERIES: usize = 256;

/// The lines printed before the counts of answers.
const ANSWERS_HEAD: &str =
    "# HELP resetd_front_answers_total answers by op and by kind or name\n# TYPE resetd_front_answers_total counter\n";

/// The lines printed before the times of answers.
const TIMES_HEAD: &str =
    "# HELP resetd_front_answer_seconds from a line to its answer\n# TYPE resetd_front_answer_seconds histogram\n";

/// The number of answers by op and by kind or name, and a histogram of their times by op.
#[derive(Drop)]
pub struct Tally {
    alloc: Global,
    /// The number of answers in each series, by the labels of the series.
    answers: BTreeMap<String, u64>,
    /// The histogram of each op.
    times: BTreeMap<String, Histogram>,
}

impl Tally {
    /// Returns an empty tally.
    pub fn new(alloc: Global) -> Self
        ensures answers { (labels : List ℕ) → get_by_text result.answers labels ≡ None }
        ensures times { (op : List ℕ) → get_by_text result.times op ≡ None }
    {
        Tally {
            alloc,
            answers: BTreeMap::new(alloc),
            times: BTreeMap::new(alloc),
        }
    }

    /// Counts an answer to a line with this op, and how long it took. Errors: out of memory.
    pub fn count(&mut self, op: &str, answer: &[u8], waited: Duration) -> Result<(), AllocError>
        ensures { OnOk result ((name : List ℕ) × (list_all is_plain name ≡ true) × CountsOneMore self.old.answers self.new.answers (labels_of op.now name)) }
    {
        let name = answer_name(answer);
        let labels = labels_of(self.alloc, op, name)?;
        count_one(&mut self.answers, labels)?;
        self.observe(op, waited)
    }

    /// Appends the counts and the times as text for Prometheus. Errors: out of memory.
    pub fn push(&self, text: &mut String) -> Result<(), AllocError>
        ensures { OnOk result (string_bytes text.new ≡ string_bytes text.old ++ (answers_text self.now.answers.entries ++ times_text self.now.times.entries)) }
    {
        push_answers(text, &self.answers)?;
        push_times(self.alloc, text, &self.times)
    }

    /// Adds how long an answer took to the histogram of its op. Errors: out of memory.
    fn observe(&mut self, op: &str, waited: Duration) -> Result<(), AllocError>
        ensures { self.new.answers ≡ self.old.answers }
    {
        if let Some(times) = self.times.get_mut(op) {
            times.observe(waited);
            return Ok(());
        }
        let mut times = Histogram::new(self.alloc)?;
        times.observe(waited);
        let name = String::from_str(self.alloc, op)?;
        self.times.insert(name, times)?;
        Ok(())
    }
}

/// Counts an answer with these labels, unless it needs one series more than `MOST_SERIES`. Errors: out of memory.
fn count_one(answers: &mut BTreeMap<String, u64>, labels: String) -> Result<(), AllocError>
    ensures { OnOk result (CountsOneMore answers.old answers.new (string_bytes labels)) }
{
    let count = count_of(answers, labels.as_str());
    if count == 0 && answers.len() >= MOST_SERIES {
        return Ok(());
    }
    answers.insert(labels, count.saturating_add(1))?;
    Ok(())
}

fn count_of(answers: &BTreeMap<String, u64>, labels: &str) -> u64
    ensures { result ≡ count_of answers.now labels.now }
{
    answers.get(labels).copied().unwrap_or(0)
}

fn labels_of(alloc: Global, op: &str, answer: &str) -> Result<String, AllocError>
    ensures { IfOk result (λ labels. string_bytes labels ≡ labels_of op.now answer.now) }
{
    format!(in alloc; "op=\"{op}\",answer=\"{answer}\"")
}

fn push_answers(text: &mut String, answers: &BTreeMap<String, u64>) -> Result<(), AllocError>
    ensures { OnOk result (string_bytes text.new ≡ string_bytes text.old ++ answers_text answers.now.entries) }
{
    text.push_str(ANSWERS_HEAD)?;
    for (labels, count) in answers {
        push_count(text, labels.as_str(), *count)?;
    }
    Ok(())
}

fn push_times(
    alloc: Global,
    text: &mut String,
    times: &BTreeMap<String, Histogram>,
) -> Result<(), AllocError>
    ensures { OnOk result (string_bytes text.new ≡ string_bytes text.old ++ times_text times.now.entries) }
{
    text.push_str(TIMES_HEAD)?;
    for (op, histogram) in times {
        histogram.push(alloc, text, op.as_str())?;
    }
    Ok(())
}

fn push_count(text: &mut String, labels: &str, count: u64) -> Result<(), AllocError>
    ensures { OnOk result (string_bytes text.new ≡ string_bytes text.old ++ count_line labels.now count) }
{
    writeln!(text, "resetd_front_answers_total{{{labels}}} {count}")
}
