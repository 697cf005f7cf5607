//! A signal on its way to the output.

ghost use Rattle.std.specs.Prelude.{◌≡◌};
ghost use Rattle.coord_server.specs.Signals.{MaySignal};

use coord_engine::LogPrefix;
use coord_types::NodeId;
use std::marker::{Brand, Model, PhantomData};

/// Names a server by its history: the server prints only signals that the settled steps of that history
/// send.
///
/// The code that creates a port and an output is generic over this name, and is called with `Brand`. `Brand` picks the
/// server's history, and the signals of its steps.
pub trait SignalSource {
    ghost use Rattle.std.specs.Prelude.{ℕ, List, ◌++◌};
    ghost use Rattle.atomic_table.specs.Seated.{TableId};
    ghost use Rattle.coord_types.specs.declared.steps.Step.{Step};

    /// The history that the server's instances write.
    ghost history: { TableId };

    /// The signals that a list of steps sends, by the number of the sending step, the node and the
    /// epoch.
    ghost gives: { List Step → ℕ → ℕ → ℕ → Type 0 };

    /// A longer list of steps sends the same signals, and maybe more.
    ghost lasts: { (first more : List Step) (step node epoch : ℕ) → gives first step node epoch →
        gives (first ++ more) step node epoch };
}

impl SignalSource for Brand {
    ghost use Rattle.std.specs.Prelude.{⊤};
    ghost use Rattle.coord_engine.specs.MonotoneLog.{no_history};

    ghost history = { no_history };

    ghost gives = { λ _ _ _ _. ⊤ };

    ghost lasts = { λ _ _ _ _ _ is. is };
}

/// A signal: the step with this number has ended a reset at this node, and this epoch has begun. The type guarantees
/// that the server that `O` names may print the signal, because its step is among the settled steps that the reader has
/// read. So every signal that arrives over a channel may be printed.
#[derive(Drop)]
pub struct Signal<O: SignalSource> {
    reader: LogPrefix,
    step: u64,
    node: NodeId,
    epoch: u64,
    of: PhantomData<O>,
}

impl<O: SignalSource> Model for Signal<O> {
    ghost use Rattle.coord_server.specs.Signals.{MaySignal, StepSignal};

    ghost Value = { StepSignal };

    ghost view = { λ s. record { step = s.step; node = s.node; epoch = s.epoch } };

    ghost invariant = { λ s. MaySignal O.history O.gives s.reader s.step s.node s.epoch };
}

impl<O: SignalSource> Signal<O> {
    /// Returns a signal that may be printed.
    pub fn new(reader: LogPrefix, step: u64, node: NodeId, epoch: u64) -> Self
        requires { MaySignal O.history O.gives reader step node epoch }
        ensures { result ≡ record { step = step; node = node; epoch = epoch } }
    {
        Signal {
            reader,
            step,
            node,
            epoch,
            of: PhantomData,
        }
    }

    /// Returns the number of the signal's step.
    pub fn step(&self) -> u64
        ensures { result ≡ self.now.step }
    {
        self.step
    }

    /// Returns the signal's node.
    pub fn node(&self) -> NodeId
        ensures { result ≡ self.now.node }
    {
        self.node
    }

    /// Returns the epoch that has begun at the node.
    pub fn epoch(&self) -> u64
        ensures { result ≡ self.now.epoch }
    {
        self.epoch
    }

    /// Returns the token that has read the signal's step.
    pub fn into_reader(self) -> LogPrefix
        ensures { MaySignal O.history O.gives result self.step self.node self.epoch }
    {
        let Signal {
            reader,
            step: _,
            node: _,
            epoch: _,
            of: _,
        } = self;
        reader
    }
}
