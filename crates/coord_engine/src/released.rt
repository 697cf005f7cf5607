//! The releases of a flight, with a token that has read a prefix of the history.

ghost use Rattle.std.specs.Prelude.{◌≡◌, length};
ghost use Rattle.coord_engine.specs.Port.{MayAskAll};
ghost use Rattle.coord_engine.specs.Released.{AreOfSettled};

use crate::{LogPrefix, Origin};
use coord_ledger::Releases;
use std::marker::{Model, PhantomData};

/// Releases for a port, with a token that has read settled steps of the engine that `L` names. The
/// value must be consumed. Contracts see the remaining releases. The type guarantees that the token
/// has read the step of each signal among them.
pub struct Released<L: Origin> {
    pub(crate) releases: Releases,
    pub(crate) reader: LogPrefix,
    pub(crate) of: PhantomData<L>,
}

impl<L: Origin> Model for Released<L> {
    ghost use Rattle.std.specs.Prelude.{List};
    ghost use Rattle.coord_ledger.specs.declared.release.Release.{Release};
    ghost use Rattle.coord_engine.specs.Released.{AreOfSettled};

    ghost Value = { List Release };

    ghost view = { λ r. r.releases };

    ghost invariant = { λ r. AreOfSettled L.history L.earlier L.base r.reader r.releases };
}

impl<L: Origin> Released<L> {
    /// Wraps releases with a token that has read the steps of their signals.
    pub(crate) fn new(releases: Releases, reader: LogPrefix) -> Self
        requires { AreOfSettled L.history L.earlier L.base reader releases }
        ensures { result ≡ releases }
    {
        Released {
            releases,
            reader,
            of: PhantomData,
        }
    }

    /// Returns the number of remaining releases.
    pub fn len(&self) -> u64
        ensures { result ≡ length self.now }
    {
        self.releases.len()
    }

    /// Drops the remaining releases, and returns their number.
    pub fn lose_rest(self) -> u64
        ensures { result ≡ length self }
    {
        self.into_releases().lose_rest()
    }

    /// Returns the releases without their token.
    pub fn into_releases(self) -> Releases
        ensures { result ≡ self }
    {
        let Released {
            releases,
            reader: _,
            of: _,
        } = self;
        releases
    }
}
