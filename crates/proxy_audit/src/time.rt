//! The time of an event.

ghost use Rattle.std.specs.Prelude.{◌≡◌, pos};
ghost use Rattle.std.specs.Time.{system_time_nanos};
ghost use Rattle.jiff_core.specs.Timestamp.{IsTimestampNanos};
ghost use Rattle.proxy_audit.specs.Moments.{IsMoment, ShowsInstant};

use arrayvec::ArrayString;
use jiff::Timestamp;
use jiff::fmt::temporal::DateTimePrinter;
use std::time::SystemTime;

/// Returns a time in UTC in the format of RFC 3339, with milliseconds. For a time that is too late for a `Timestamp`,
/// returns the latest `Timestamp`.
pub fn moment(time: SystemTime) -> ArrayString<33>
    ensures { IsTimestampNanos (pos (system_time_nanos time)) → IsMoment (system_time_nanos time) result.bytes }
{
    text_of(timestamp_of(time))
}

fn timestamp_of(time: SystemTime) -> Timestamp
    ensures { IsTimestampNanos (pos (system_time_nanos time)) → result.nanosecond ≡ pos (system_time_nanos time) }
{
    match Timestamp::try_from(time) {
        Ok(timestamp) => timestamp,
        Err(_) => Timestamp::MAX,
    }
}

fn text_of(timestamp: Timestamp) -> ArrayString<33>
    ensures { ShowsInstant timestamp.nanosecond result.bytes }
{
    let plain = DateTimePrinter::new();
    let printer = plain.precision(Some(3));
    printer.timestamp_text(timestamp.to_plain())
}
