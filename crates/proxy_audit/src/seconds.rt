//! A duration, written as seconds.

ghost use Rattle.std.specs.Prelude.{◌≡◌, IfOk, string_bytes};
ghost use Rattle.std.specs.Duration.{as_nanos};
ghost use Rattle.json.specs.Print.{IsNumber};
ghost use Rattle.proxy_audit.specs.Seconds.{seconds_text};

use itoa::Buffer;
use std::alloc::{AllocError, Global};
use std::time::Duration;

/// Returns a duration in seconds with six decimal places, as a JSON number. Errors: out of memory.
pub(crate) fn seconds_text(alloc: Global, duration: Duration) -> Result<String, AllocError>
    ensures text { IfOk result (λ text. string_bytes text ≡ seconds_text (as_nanos duration)) }
    ensures number { IfOk result (λ text. IsNumber (string_bytes text)) }
{
    let whole = duration.as_secs();
    let mut buffer = Buffer::new();
    let digits = buffer.format(1_000_000 + duration.subsec_micros());
    let places = &digits[1..];
    format!(in alloc; "{whole}.{places}")
}
