//! The metrics that are one number each.

ghost use Rattle.std.specs.Prelude.{◌≡◌, ◌++◌, OnOk, string_bytes};
ghost use Rattle.resetd_proxy.specs.Totals.{answering_lines, counter_lines, counters_text, gauge_lines, gauges_text, totals_text};

use proxy_loop::Counts;
use std::alloc::AllocError;

/// Appends the loop's counts, and the number of the audit's lines that were lost. Errors: out of memory.
pub(crate) fn push_totals(text: &mut String, counts: &Counts, lost: u64) -> Result<(), AllocError>
    ensures { OnOk result (string_bytes text.new ≡ string_bytes text.old ++ totals_text counts.now lost) }
{
    push_counters(text, counts)?;
    let about = "audit lines that could not be written";
    push_counter(text, "audit_lost", about, lost)?;
    push_gauges(text, counts)?;
    Ok(())
}

fn push_counters(text: &mut String, counts: &Counts) -> Result<(), AllocError>
    ensures { OnOk result (string_bytes text.new ≡ string_bytes text.old ++ counters_text counts.now) }
{
    let about = "connections since the start";
    push_counter(text, "connections", about, counts.connections)?;
    push_counter(text, "flights", "flights", counts.flights)?;
    let about = "lines sent again to the server";
    push_counter(text, "resends", about, counts.resends)?;
    Ok(())
}

fn push_gauges(text: &mut String, counts: &Counts) -> Result<(), AllocError>
    ensures { OnOk result (string_bytes text.new ≡ string_bytes text.old ++ gauges_text counts.now) }
{
    let open = counts.open as u64;
    push_gauge(text, "open_connections", "open connections", open)?;
    let watchers = counts.watchers as u64;
    push_gauge(text, "watchers", "connections that watch", watchers)?;
    push_answering(text, counts.is_answering)
}

fn push_answering(text: &mut String, is_answering: Option<bool>) -> Result<(), AllocError>
    ensures { OnOk result (string_bytes text.new ≡ string_bytes text.old ++ answering_lines is_answering) }
{
    let about = "1 if the server answers, 0 if not";
    match is_answering {
        Some(true) => push_gauge(text, "server_answers", about, 1),
        Some(false) => push_gauge(text, "server_answers", about, 0),
        None => Ok(()),
    }
}

#[tactic(auto, unfolding(crate::specs::Totals::counter_lines))]
fn push_counter(text: &mut String, name: &str, about: &str, count: u64) -> Result<(), AllocError>
    ensures { OnOk result (string_bytes text.new ≡ string_bytes text.old ++ counter_lines name.now about.now count) }
{
    writeln!(text, "# HELP resetd_front_{name}_total {about}")?;
    writeln!(text, "# TYPE resetd_front_{name}_total counter")?;
    writeln!(text, "resetd_front_{name}_total {count}")
}

#[tactic(auto, unfolding(crate::specs::Totals::gauge_lines))]
fn push_gauge(text: &mut String, name: &str, about: &str, count: u64) -> Result<(), AllocError>
    ensures { OnOk result (string_bytes text.new ≡ string_bytes text.old ++ gauge_lines name.now about.now count) }
{
    writeln!(text, "# HELP resetd_front_{name} {about}")?;
    writeln!(text, "# TYPE resetd_front_{name} gauge")?;
    writeln!(text, "resetd_front_{name} {count}")
}
