//! A ledger accepts steps, settles them on the disk in flights, and releases a step's outputs only
//! once the step is settled. A crash loses only steps that were not settled, and nothing that was
//! released.
//!
//! `specs/machine` defines a ledger as a machine of events: `Log` has the accepted steps and the
//! number of settled steps, `Submits` the answer to a submitted step, `Answers` the possible
//! answers to each event, `After` the state after an answer, and `Runs` lists of events. Memory,
//! the device and crashes choose among the answers. `specs/promises/Headline.antt` states the main
//! theorem, first in plain words and then formally: wherever a run is stopped, the disk holds the
//! world after a prefix of the accepted steps that includes every released step. `specs/ledger`
//! defines how contracts see a ledger, a flight and a ticket, and how these follow the machine.
//!
//! `Ledger` is the code. `submit` accepts a step and returns a `Ticket` for its reply.
//! `begin_flush` sends the store out with the next steps as a `Flight`, and `Flight::commit` writes
//! these steps. `end_flush` takes the flight back and returns the `Releases` of the steps that the
//! flight settled. `collect` returns the reply. `show` returns the settled world as coord_view's
//! `View`. Contracts see `LedgerState`, `FlightState` and a `Claim` (`specs/ledger/State.antt`),
//! and how each call changes them (`specs/ledger/Calls.antt`).
//!
//! [`run_events`] runs a list of events in one thread, with crashes in between. Its contract is the
//! main theorem; `specs/promises/Broken.antt` states the promise for a run that ends early.
//! `specs/ledger/Follows.antt` is the invariant of a run between two events.
//!
//! [`laws`] proves the laws of the machine on which the main theorem rests.
#![tactic(auto)]

mod driver;
mod event_driver;
mod events;
mod flight;
mod handed;
pub mod laws;
mod ledger;
mod mark;
mod release;
mod releases;
mod seen;
mod settling;
mod ticket;
mod trace;

pub use coord_view::{LinkView, NodeView, View};
pub use driver::Driver;
pub use event_driver::run_events;
pub use events::{Answer, Event};
pub use flight::Flight;
pub use handed::Handed;
pub use ledger::Ledger;
pub use mark::Mark;
pub use release::Release;
pub use releases::Releases;
pub use seen::Seen;
pub use settling::is_same_step;
pub use ticket::{Note, Ticket};
pub use trace::{RunFault, RunFaultKind, Trace};
