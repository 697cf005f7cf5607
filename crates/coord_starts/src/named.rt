//! The invariants of the types of events, as lemmas.

ghost use Rattle.std.specs.List.{AllByRecursion};
ghost use Rattle.coord_ledger.specs.machine.Consistent.{EventInRange};

use coord_ledger::Event;

/// Does nothing. Its contract states that the numbers in an event are in range.
fn lemma_named(event: &Event)
    ensures { EventInRange event.now }
{
    if let Event::Submit(step) = event {
        step.lemma_in_range();
    }
}

/// Does nothing. Its contract states that the numbers in each of these events are in range.
pub fn lemma_all_named(events: &[Event])
    ensures { AllByRecursion EventInRange events.now }
{
    for event in events {
        lemma_named(event);
    }
}
