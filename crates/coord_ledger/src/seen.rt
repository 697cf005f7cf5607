//! The number of settled steps that a caller has seen.

ghost use Rattle.std.specs.Prelude.{◌≡◌, max, nat_le};

use std::marker::Model;

/// The greatest step number that its holder knows to be settled, initially 0. Contracts see this
/// number.
#[derive(Drop)]
pub struct Seen {
    count: u64,
}

impl Model for Seen {
    ghost use Rattle.std.specs.Prelude.{ℕ};

    ghost Value = { ℕ };

    ghost view = { λ s. s.count };
}

impl Seen {
    /// Returns a seen count of 0.
    pub fn new() -> Self
        ensures { result ≡ 0 }
    {
        Seen { count: 0 }
    }

    /// Records that the step with this number is settled. The count never becomes lower.
    pub fn note(&mut self, step: u64)
        ensures { self.new ≡ max self.old step }
    {
        if self.count < step {
            self.count = step;
        }
    }

    /// Tests whether the seen count is at most this number of settled steps.
    pub fn is_within(&self, settled: u64) -> bool
        ensures { result ≡ nat_le self.now settled }
    {
        self.count <= settled
    }

    // Returns the seen count.
    pub(crate) fn count(&self) -> u64
        ensures { result ≡ self.now }
    {
        self.count
    }
}
