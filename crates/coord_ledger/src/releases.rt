//! Releases that have not been passed on yet.

ghost use Rattle.std.specs.Prelude.{◌≡◌, drop, length, slice_get};

use crate::Release;
use coord_types::Output;
use std::alloc::AllocError;
use std::marker::Model;

/// The releases that have not been passed on yet. The value must be consumed by `lose_rest`.
/// Contracts see the list of the remaining releases.
pub struct Releases {
    rows: Vec<Release>,
    given: usize,
}

impl Model for Releases {
    ghost use Rattle.std.specs.Prelude.{◌≤◌, List, drop, length};
    ghost use Rattle.coord_ledger.specs.declared.release.Release.{Release};

    ghost Value = { List Release };

    ghost view = { λ r. drop r.given r.rows.items };

    ghost invariant = { λ r. r.given ≤ length r.rows.items };
}

impl Releases {
    // Wraps a list of releases.
    pub(crate) fn of(rows: Vec<Release>) -> Self
        ensures { result ≡ rows.items }
    {
        Releases { rows, given: 0 }
    }

    /// Returns the number of remaining releases.
    pub fn len(&self) -> u64
        ensures { result ≡ length self.now }
    {
        (self.rows.len() - self.given) as u64
    }

    /// Returns the next release, if there is one.
    pub fn next(&mut self) -> Option<Release>
        ensures first { result ≡ slice_get self.old 0 }
        ensures rest { self.new ≡ drop 1 self.old }
    {
        if self.given >= self.rows.len() {
            return None;
        }
        let release = self.rows[self.given];
        self.given += 1;
        Some(release)
    }

    /// Drops the remaining releases, and returns their number.
    pub fn lose_rest(self) -> u64
        ensures { result ≡ length self }
    {
        let Releases { rows, given } = self;
        (rows.len() - given) as u64
    }
}
