//! The laws of the audit. Each is the contract of an empty function.

ghost use Rattle.proxy_audit.specs.Laws.{EventIsOneLine, EventIsRead, QuotaHolds};

/// Parsing the text of an event as JSON gives the event's object.
#[tactic(auto, using(crate::proofs::Reading::event_is_read))]
pub fn event_is_read()
    ensures { EventIsRead }
{}

/// The text of an event contains no line feed.
#[tactic(auto, using(crate::proofs::OneLine::event_is_one_line))]
pub fn event_is_one_line()
    ensures { EventIsOneLine }
{}

/// In any second a principal causes at most `MOST_LINES` lines of a kind. Each left-out line is counted once.
#[tactic(auto, using(crate::proofs::QuotaLaws::quota_holds))]
pub fn quota_holds()
    ensures { QuotaHolds }
{}
