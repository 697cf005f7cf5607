//! The audit of the proxy, and its counts of answers.
//!
//! [`append_line`] writes an [`Event`] as one line of JSON (`specs/Lines.antt`). [`Quotas`] limits the lines that a
//! principal can cause, and counts left-out lines (`specs/Quotas.antt`). [`Pending`] holds lines until they are
//! written, and counts lost lines. An [`AuditFile`] is the open file that the audit is written to. [`Audit`] combines
//! these parts (`specs/Audits.antt`). A [`Tally`] counts answers and how long they took, and prints both as text for
//! Prometheus (`specs/Tallies.antt`).
//!
//! The main theorems are in [`laws`]. Parsing the text of an event gives the event's object, and the text contains no
//! line feed. In any second a principal causes at most its quota of lines of each kind, and each left-out line is
//! counted once.
#![tactic(auto)]

mod answer_name;
mod audit_log;
mod event;
mod file;
mod histogram;
pub mod laws;
mod line;
mod pending;
mod quota;
mod quotas;
mod seconds;
mod tally;
mod time;

pub use audit_log::{Audit, STANDARD_OUTPUT};
pub use event::{ClientLine, Event, MOST_TEXT_CHARS};
pub use file::AuditFile;
pub use histogram::{Bucket, Histogram};
pub use line::append_line;
pub use pending::{MOST_PENDING_BYTES, Pending};
pub use quota::{LineKind, MOST_LINES, Quota};
pub use quotas::Quotas;
pub use tally::{MOST_SERIES, Tally};
pub use time::moment;
