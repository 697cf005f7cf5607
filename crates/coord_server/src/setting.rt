//! The parts that all instances of a server share.

ghost use Rattle.std.specs.Prelude.{◌≡◌};

use crate::{LocalPort, SignalSource};
use coord_engine::MonotoneLog;
use std::alloc::Global;
use std::sync::Wait;

/// The runtime, the allocator, the port and the history of a server, and the number of steps of an
/// instance.
#[derive(Drop)]
pub struct Setting<'r, R: Wait, O: SignalSource> {
    pub rt: &'r R,
    pub alloc: Global,
    pub port: &'r LocalPort<&'r R, O>,
    pub history: &'r MonotoneLog,
    pub instance_steps: usize,
    pub ghost here: { history.now ≡ O.history },
}
