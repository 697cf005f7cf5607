//! The settled steps of all instances as one history that grows. It exists only in the proofs.
//!
//! A thread that takes a lock knows only that the value under it satisfies the invariant of its
//! type. So a flight that leaves takes a [`LogPrefix`] along, while the [`LogAuthority`] stays
//! under the lock. When the flight returns, the authority shows that its history begins with the
//! token's prefix. The releases of a flight also have a token, which has read their steps. No token
//! takes up a byte; each call loads one word of the [`MonotoneLog`], which is 0.

use crate::Origin;
use atomic_table::{Join, Play, Seat, Split, Table, TableRule};
use coord_types::Step;
use std::alloc::{AllocError, Global};
use std::collections::LinkedList;
use std::marker::{Brand, Model, PhantomData};
use std::sync::Arc;

/// The ghost state of a token: the prefix of the history that it has read, and the prefix that another
/// token has read. No value of this type exists.
pub struct Known {
    pub read: LinkedList<Step>,
    pub returned: LinkedList<Step>,
}

/// The rule for all tokens: the prefixes that a token knows are prefixes of one history, and the
/// first token has read the whole history.
pub struct OneHistory;

impl TableRule<(), Known, ()> for OneHistory {
    ghost use Rattle.std.specs.Prelude.{[]};
    ghost use Rattle.coord_engine.specs.MonotoneLog.{KnowOneHistory, knows};

    ghost holds = { λ _ table. KnowOneHistory table.views };

    ghost first = { λ _. knows [] [] };
}

/// A token with the steps that it knows.
type Token = Seat<(), Known>;

/// Names a list of steps: steps to be written to a history, or steps that a token has read.
trait NamedSteps {
    ghost use Rattle.std.specs.Prelude.{List};
    ghost use Rattle.coord_types.specs.declared.steps.Step.{Step};

    ghost steps: { List Step };
}

impl NamedSteps for Brand {
    ghost use Rattle.std.specs.Prelude.{[]};

    ghost steps = { [] };
}

/// The update in which the first token extends the history and its own prefix.
struct WritesOn<G: NamedSteps> {
    of: PhantomData<G>,
}

impl<G: NamedSteps> Play<(), Known> for WritesOn<G> {
    ghost use Rattle.coord_engine.specs.MonotoneLog.{IsWrittenOn};

    ghost then = { IsWrittenOn G.steps };
}

/// The update that compares another token's prefix with the first token's prefix.
struct Compares;

impl Play<(), Known> for Compares {
    ghost use Rattle.coord_engine.specs.MonotoneLog.{IsCompared};

    ghost then = { IsCompared };
}

/// The update in which a token reads everything that was written.
struct ReadsOn;

impl Play<(), Known> for ReadsOn {
    ghost use Rattle.coord_engine.specs.MonotoneLog.{HasReadOn};

    ghost then = { HasReadOn };
}

/// The update that splits a token into two with the same prefix.
struct ReadsAlong;

impl Split<Known> for ReadsAlong {
    ghost use Rattle.std.specs.Prelude.{[]};
    ghost use Rattle.coord_engine.specs.MonotoneLog.{knows};

    ghost left = { λ v. v };

    ghost right = { λ v. knows v.read [] };
}

/// The update that joins another token. `G` names the steps of the other token's prefix.
struct ComparesTokens<G: NamedSteps> {
    of: PhantomData<G>,
}

impl<G: NamedSteps> Join<Known> for ComparesTokens<G> {
    ghost use Rattle.std.specs.Prelude.{[]};
    ghost use Rattle.coord_engine.specs.MonotoneLog.{knows};

    ghost both = { λ v w. knows v.read w.read };

    ghost spent = { knows G.steps [] };
}

/// A history that tokens read and one authority writes. Contracts see only the history's identity.
#[derive(Drop)]
pub struct MonotoneLog {
    table: Arc<Table<(), Known, (), OneHistory, Global>>,
}

impl Model for MonotoneLog {
    ghost use Rattle.std.specs.Prelude.{◌≡◌};
    ghost use Rattle.std.specs.Arc.{arc_value};
    ghost use Rattle.atomic_table.specs.Seated.{TableId};

    ghost Value = { TableId };

    ghost view = { λ h. (arc_value h.table).shared.table_id };

    ghost invariant = { λ h. (arc_value h.table).shared.table_id.words ≡ 1 };
}

/// The only writer of a history. Contracts see the history's identity and all its steps.
#[derive(Drop)]
pub struct LogAuthority {
    token: Token,
}

impl Model for LogAuthority {
    ghost use Rattle.std.specs.Prelude.{◌≡◌, []};
    ghost use Rattle.coord_engine.specs.MonotoneLog.{Beginning};

    ghost Value = { Beginning };

    ghost view = { λ w. record { history = w.token.table_id; steps = w.token.me.0.read } };

    ghost invariant = { λ w. (w.token.id ≡ 0) × (w.token.me.1 ≡ []) };
}

/// A token that has read a prefix of a history. Contracts see the history's identity and this
/// prefix.
#[derive(Drop)]
pub struct LogPrefix {
    token: Token,
}

impl Model for LogPrefix {
    ghost use Rattle.std.specs.Prelude.{◌≡◌, []};
    ghost use Rattle.coord_engine.specs.MonotoneLog.{Beginning};

    ghost Value = { Beginning };

    ghost view = { λ r. record { history = r.token.table_id; steps = r.token.me.0.read } };

    ghost invariant = { λ r. r.token.me.1 ≡ [] };
}

impl MonotoneLog {
    ghost use Rattle.std.specs.Prelude.{◌≡◌, [], IfOk};

    /// Creates a history without steps, and its authority. Allocates one word.
    pub fn new(alloc: Global) -> Result<(MonotoneLog, LogAuthority), AllocError>
        ensures { IfOk result (λ made. made.1 ≡ record { history = made.0; steps = [] }) }
    {
        let (table, token) = Table::of_words(alloc, &[0], &())?;
        let table = Arc::new(alloc, table)?;
        Ok((MonotoneLog { table }, LogAuthority { token }))
    }

    /// Returns another handle of the same history. Allocates nothing. Fails only if the number of
    /// handles has reached its maximum.
    pub fn another(&self) -> Result<MonotoneLog, AllocError>
        ensures { IfOk result (λ other. other ≡ self.now) }
    {
        let table = Arc::try_clone(&self.table)?;
        Ok(MonotoneLog { table })
    }
}

impl LogAuthority {
    ghost use Rattle.std.specs.Prelude.{◌≡◌, ◌++◌};
    ghost use Rattle.coord_engine.specs.MonotoneLog.{StartsWith};

    /// Extends the history: afterwards it has the steps of earlier instances, which `L` names, and then
    /// the steps `steps`.
    pub(crate) fn write_on<L: Origin>(&mut self, history: &MonotoneLog, steps: &[Step])
        requires here { history.now ≡ self.old.history }
        requires on { StartsWith (L.earlier ++ steps.now) self.old.steps }
        ensures { self.new ≡ record { history = self.old.history; steps = L.earlier ++ steps.now } }
    {
        self.write_as::<Brand>(history, steps);
    }

    /// Extends the history to exactly the steps that `G` names, which end with `_last`.
    fn write_as<G: NamedSteps>(&mut self, history: &MonotoneLog, _last: &[Step])
        requires here { history.now ≡ self.old.history }
        requires on { StartsWith G.steps self.old.steps }
        ensures { self.new ≡ record { history = self.old.history; steps = G.steps } }
    {
        history.table.shared.load::<WritesOn<G>>(&mut self.token, 0);
    }

    /// Returns a token that has read everything that was written.
    pub fn reader(&mut self, history: &MonotoneLog) -> LogPrefix
        requires { history.now ≡ self.old.history }
        ensures read { result ≡ self.old }
        ensures same { self.new ≡ self.old }
    {
        let token = history
            .table
            .shared
            .split_seat::<ReadsAlong>(&mut self.token);
        LogPrefix { token }
    }

    /// Takes a token back, and shows that the written history begins with the token's prefix.
    pub fn take_back(&mut self, history: &MonotoneLog, reader: LogPrefix)
        requires here { history.now ≡ self.old.history }
        requires theirs { reader.history ≡ self.old.history }
        ensures begins { StartsWith self.new.steps reader.steps }
        ensures same { self.new ≡ self.old }
    {
        self.take_back_as::<Brand>(history, reader);
    }

    /// Takes a token back, like `take_back`, for a token whose prefix `G` names.
    fn take_back_as<G: NamedSteps>(&mut self, history: &MonotoneLog, reader: LogPrefix)
        requires here { history.now ≡ self.old.history }
        requires theirs { reader.history ≡ self.old.history }
        requires named { reader.steps ≡ G.steps }
        ensures begins { StartsWith self.new.steps reader.steps }
        ensures same { self.new ≡ self.old }
    {
        let LogPrefix { token } = reader;
        history
            .table
            .shared
            .join_seat::<ComparesTokens<G>>(&mut self.token, token);
        history.table.shared.load::<Compares>(&mut self.token, 0);
    }
}

impl LogPrefix {
    ghost use Rattle.std.specs.Prelude.{◌≡◌};
    ghost use Rattle.coord_engine.specs.MonotoneLog.{StartsWith};

    /// Returns another token with the same prefix.
    pub fn another(&mut self, history: &MonotoneLog) -> LogPrefix
        requires { history.now ≡ self.old.history }
        ensures read { result ≡ self.old }
        ensures same { self.new ≡ self.old }
    {
        let token = history
            .table
            .shared
            .split_seat::<ReadsAlong>(&mut self.token);
        LogPrefix { token }
    }

    /// Joins another token of the history, and reads everything that was written: the new prefix
    /// extends the old prefixes of both tokens.
    pub fn join(&mut self, history: &MonotoneLog, other: LogPrefix)
        requires here { history.now ≡ self.old.history }
        requires theirs { other.history ≡ self.old.history }
        ensures begins { StartsWith self.new.steps self.old.steps }
        ensures others { StartsWith self.new.steps other.steps }
        ensures same { self.new.history ≡ self.old.history }
    {
        self.join_as::<Brand>(history, other);
    }

    /// Joins another token, like `join`, for a token whose prefix `G` names.
    fn join_as<G: NamedSteps>(&mut self, history: &MonotoneLog, other: LogPrefix)
        requires here { history.now ≡ self.old.history }
        requires theirs { other.history ≡ self.old.history }
        requires named { other.steps ≡ G.steps }
        ensures begins { StartsWith self.new.steps self.old.steps }
        ensures others { StartsWith self.new.steps other.steps }
        ensures same { self.new.history ≡ self.old.history }
    {
        let LogPrefix { token } = other;
        history
            .table
            .shared
            .join_seat::<ComparesTokens<G>>(&mut self.token, token);
        history.table.shared.load::<ReadsOn>(&mut self.token, 0);
    }
}
