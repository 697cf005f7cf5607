//! The proxy's event loop over sockets. It calls the core (`proxy_core`) at each event. The core chooses the lines of
//! each flight, and finds the connection that each answer is for.
//!
//! [`EventLoop`] has methods for all events: a client connects or sends bytes, the connection to the server is
//! established or breaks, the server answers, and time passes. [`serve`] waits for events and calls these methods.
#![tactic(auto)]

mod accepting;
mod answering;
mod connection;
mod departing;
mod event_loop;
mod gateway;
mod introducing;
mod listener;
mod number;
mod own;
mod ready;
mod recording;
mod refreshing;
mod resetting;
mod serving;
mod settings;
mod taking;
mod ticking;
mod unclear;
mod upstream;
mod watching;

pub use event_loop::EventLoop;
pub use gateway::{Counts, Exchange, ExchangeKind, Gateway, Moment, Reading, Verdict};
pub use listener::Listener;
pub use serving::serve;
pub use settings::Settings;
