//! The starts of one store, with a power cut after each.

use coord_disk::MemDisk;
use coord_ledger::{Event, Trace};
use coord_starts::{Outcome, Task, run_starts};
use coord_types::{Client, Command, Group, NodeId, Step};
use std::fmt::Debug;
use std::process::Abort;

// Compares a result with the expected result.
fn same<T: PartialEq + Debug>(rt: &impl Abort, found: &T, wanted: &T) {
    assert_eq!(rt; found, wanted);
}

// Returns the event in which client 1 submits its order with this number, which adds a node.
fn add(number: u64, node: NodeId) -> Event {
    let command = Command::Add(node, Group::new(1).unwrap());
    Event::Submit(Step::Order(Client::new(1).unwrap(), number, command))
}

// Returns the task of a start that serves these events.
fn asking(rt: &(impl Abort + AllocGlobal), events: &[Event]) -> Task {
    Task::Serve(events.to_vec(rt.alloc()).expect(rt, "no events"))
}

// Order 1 is settled and collected. Order 2, which adds node 2, is accepted as step 2, and lost.
fn losing(rt: &(impl Abort + AllocGlobal)) -> Task {
    let first = add(1, NodeId::new(1).unwrap());
    let lost = add(2, NodeId::new(2).unwrap());
    asking(
        rt,
        &[
            first,
            Event::Begin,
            Event::Commit,
            Event::Finish,
            Event::Collect(0),
            lost,
        ],
    )
}

// Order 1 arrives again. Order 2 now adds node 3 and is committed, but its reply is not collected.
fn unheard(rt: &(impl Abort + AllocGlobal)) -> Task {
    let first = add(1, NodeId::new(1).unwrap());
    let second = add(2, NodeId::new(3).unwrap());
    asking(
        rt,
        &[
            first,
            Event::Collect(0),
            second,
            Event::Begin,
            Event::Commit,
        ],
    )
}

// Order 2 arrives again. Order 3 then resets node 1, which signals at once.
fn repeating(rt: &(impl Abort + AllocGlobal)) -> Task {
    let again = add(2, NodeId::new(3).unwrap());
    let command = Command::Reset(NodeId::new(1).unwrap());
    let reset = Event::Submit(Step::Order(Client::new(1).unwrap(), 3, command));
    asking(
        rt,
        &[
            again,
            Event::Collect(0),
            reset,
            Event::Begin,
            Event::Commit,
            Event::Finish,
        ],
    )
}

// Returns the event in which client 1 submits its order with this number.
fn order(number: u64, command: Command) -> Event {
    Event::Submit(Step::Order(Client::new(1).unwrap(), number, command))
}

// Two nodes are joined, and the first node is reset. Its packet is in transit.
fn in_a_reset(rt: &(impl Abort + AllocGlobal)) -> Task {
    let (first, second) = (NodeId::new(1).unwrap(), NodeId::new(2).unwrap());
    asking(
        rt,
        &[
            add(1, first),
            add(2, second),
            order(3, Command::Join(first, second)),
            order(4, Command::Reset(first)),
            Event::Begin,
            Event::Commit,
            Event::Finish,
        ],
    )
}

// Returns the text of the answers in a start and of the number of releases.
fn text_of_trace(rt: &(impl Abort + AllocGlobal), trace: &Trace) -> String {
    let (answers, released) = (&trace.answers, trace.released.len());
    format!(in rt.alloc(); "{answers:?} {released}").expect(rt, "not printed")
}

// Returns the text of the result of a start.
fn text_of(rt: &(impl Abort + AllocGlobal), outcome: &Outcome) -> String {
    match outcome {
        Outcome::Served(trace) => text_of_trace(rt, trace),
        Outcome::Raised => String::from_str(rt.alloc(), "raised").expect(rt, "not printed"),
        Outcome::Refused(_) => String::from_str(rt.alloc(), "refused").expect(rt, "not printed"),
    }
}

// Checks that each start has the expected result.
fn expect_outcomes(rt: &(impl Abort + AllocGlobal), outcomes: &[Outcome], wanted: &[&str]) {
    same(rt, &outcomes.len(), &wanted.len());
    for (at, (outcome, wanted)) in outcomes.iter().zip(wanted).enumerate() {
        let text = text_of(rt, outcome);
        same(rt, &(at, text.as_str()), &(at, *wanted));
    }
}

// Runs these starts of a store of version 1, and returns their results.
fn ran(rt: &(impl Abort + AllocGlobal), tasks: &[Task]) -> Vec<Outcome> {
    match run_starts(rt.alloc(), MemDisk::new(rt.alloc()), 32_768, 1, tasks) {
        Ok((outcomes, disk)) => {
            drop(disk);
            outcomes
        }
        Err((fault, disk)) => {
            drop(disk);
            panic!(rt; "the starts ended: {fault:?}")
        }
    }
}

// After the store was migrated, the number of the lost order goes to another order. The last start still has the reply
// to that order, although the reply was not collected before.
#[test]
fn the_starts_of_a_store_are_one_history(rt: HostRuntime) {
    let tasks = [losing(&rt), Task::Migrate, unheard(&rt), repeating(&rt)];
    let outcomes = ran(&rt, &tasks);
    expect_outcomes(
        &rt,
        &outcomes,
        &[
            "[Accepted(1), Begun(1), Committed, Finished(1), Collected(Reply { step: 1, kind: Done }), Accepted(2)] 0",
            "raised",
            "[Repeated(1), Collected(Reply { step: 1, kind: Done }), Accepted(2), Begun(1), Committed] 0",
            "[Repeated(2), Collected(Reply { step: 2, kind: Done }), Accepted(3), Begun(1), Committed, Finished(3)] 1",
        ],
    );
}

// A store in a reset is not migrated.
#[test]
fn a_store_in_a_reset_stays_as_it_is(rt: HostRuntime) {
    let outcomes = ran(&rt, &[in_a_reset(&rt), Task::Migrate]);
    expect_outcomes(
        &rt,
        &outcomes,
        &[
            "[Accepted(1), Accepted(2), Accepted(3), Accepted(4), Begun(4), Committed, Finished(4)] 1",
            "refused",
        ],
    );
}
