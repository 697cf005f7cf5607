//! The audit's lines of what happens to connections.

ghost use Rattle.std.specs.Prelude.{◌≡◌};
ghost use Rattle.resetd_proxy.specs.Recording.{RecordsConnection, RecordsExchange, client_line, event_of};

use proxy_audit::{Audit, ClientLine, Event, LineKind};
use proxy_loop::{Exchange, ExchangeKind, Moment};

/// Adds the line of an exchange: none for a query, and for a fault or a denial one within the quota of its principal.
pub(crate) fn record_exchange(audit: &mut Audit, who: &str, exchange: &Exchange<'_, '_>)
    ensures { RecordsExchange who.entry exchange.now audit.old audit.new }
{
    let event = event_of(who, exchange);
    let time = exchange.at.time;
    match exchange.kind {
        ExchangeKind::Query => {}
        ExchangeKind::Order => audit.add(time, &event),
        ExchangeKind::Denied | ExchangeKind::Fault => {
            audit.add_within_quota(
                exchange.role,
                LineKind::Refusal,
                exchange.at.now,
                time,
                &event,
            )
        }
    }
}

/// Adds the line of a connection's begin or end within the quota of its principal.
pub(crate) fn record_connection(audit: &mut Audit, role: u32, at: Moment, event: &Event<'_>)
    ensures { RecordsConnection role at event.now audit.old audit.new }
{
    audit.add_within_quota(role, LineKind::Connection, at.now, at.time, event);
}

/// Returns the event of an exchange with a principal.
fn event_of<'e>(who: &'e str, exchange: &Exchange<'e, 'e>) -> Event<'e>
    ensures { result ≡ event_of who.entry exchange.now }
{
    let line = client_line(exchange.kind, exchange.line);
    let answer = exchange.answer;
    let waited = exchange.waited;
    match exchange.kind {
        ExchangeKind::Denied => Event::Denied {
            who,
            line,
            answer,
            waited,
        },
        _ => Event::Answered {
            who,
            line,
            answer,
            waited,
        },
    }
}

fn client_line<'e>(kind: ExchangeKind, line: Option<&'e [u8]>) -> ClientLine<'e>
    ensures { result ≡ client_line kind line.entry }
{
    match (kind, line) {
        (_, None) => ClientLine::TooLong,
        (ExchangeKind::Fault, Some(bytes)) => ClientLine::Other(bytes),
        (_, Some(bytes)) => ClientLine::Request(bytes),
    }
}
