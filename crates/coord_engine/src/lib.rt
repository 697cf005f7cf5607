//! An engine: one ledger that many threads share, with one history.
//!
//! An [`Engine`] is a lock around a [`Guarded`], with conditions on which callers and flushers
//! wait. A call of the engine takes the lock and calls a method of `Guarded`, which is in a module
//! without handles. The contract of that method states the effect of the call. A flight is
//! committed by the caller of `flush_once`, outside the lock.
//!
//! A caller holds a [`Share`] with the notes of its accepted steps. `Engine::close` collects all
//! shares. It takes the engine apart only if the notes are exactly the steps accepted since the
//! engine was created (`specs/Named.antt`): one history, which consists of the callers' steps
//! alone.
//!
//! `specs/State.antt` defines how contracts see the value under the lock, `specs/Calls.antt` and
//! `specs/Closing.antt` the answers of its methods, and `specs/Threads.antt` the answers of the
//! engine's calls while other threads make calls. [`named_rows`] has small examples. The main theorems
//! are the contracts of the methods of `Guarded` and of `Engine::close`. No contract states that a
//! thread runs, that a waiter wakes, or that anyone is served.
//!
//! A [`flusher`] flushes accepted steps and passes the releases to a [`Port`], each delivery once and
//! in order (`specs/Flushing.antt`). A [`worker`] submits the packets that arrive for a node
//! (`specs/Working.antt`). A [`SubmittingPort`] submits the packets of the flusher's own flights in the
//! flusher's thread (`specs/SubmittingPort.antt`). `specs/Pacing.antt` defines when a flight starts,
//! and `specs/Waiting.antt` which packets a worker keeps for another attempt.
#![tactic(auto)]

mod closed;
mod collected;
mod engine;
mod flushing;
mod guarded;
mod hand;
mod history;
pub mod laws;
pub mod named_rows;
mod origin;
mod own_flight;
mod packet_share;
mod port;
mod released;
pub mod rows;
mod share;
mod submitting_port;
mod waiting;
mod waking_guard;
mod working;

pub use closed::{CloseFault, Closed, Retired};
pub use collected::Collected;
pub use engine::Engine;
pub use flushing::{flusher, hand_over};
pub use guarded::{Guarded, PendingWake, PutDown};
pub use hand::Hand;
pub use history::{LogAuthority, LogPrefix, MonotoneLog};
pub use origin::Origin;
pub use own_flight::OwnFlight;
pub use packet_share::PacketShare;
pub use port::{Delivery, Port, step_of};
pub use released::Released;
pub use share::Share;
pub use submitting_port::SubmittingPort;
pub use waiting::Waiting;
pub use working::{packet_worker, worker};
