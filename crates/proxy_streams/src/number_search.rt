//! The search for the last number of the proxy's client.

ghost use Rattle.std.specs.Prelude.{◌≡◌};
ghost use Rattle.proxy_streams.specs.NumberSearches.{after_try, search_from, tried};

use std::marker::Model;

/// A search that tries numbers at growing distance from a starting point, which is probably near the last number. The
/// server refuses an order with epoch 0 whatever its number is, and the refusal shows whether the number is the last
/// number, the next number or another one.
#[derive(Debug, Drop)]
pub struct NumberSearch {
    above: u64,
    below: u64,
    is_below_next: bool,
}

impl Model for NumberSearch {
    ghost use Rattle.proxy_streams.specs.NumberSearches.{Search};

    ghost Value = { Search };

    ghost view = { λ s. record { above = s.above; below = s.below; is_below_next = s.is_below_next } };
}

impl NumberSearch {
    /// Returns a search that starts with the number after `near`.
    pub fn new(near: u64) -> Self
        ensures { result ≡ search_from near }
    {
        NumberSearch {
            above: near.saturating_add(1),
            below: near,
            is_below_next: false,
        }
    }

    /// Returns the next number to try.
    pub fn try_next(&mut self) -> u64
        ensures number { result ≡ tried self.old }
        ensures after { self.new ≡ after_try self.old }
    {
        if self.is_below_next && self.below != 0 {
            let number = self.below;
            self.below -= 1;
            self.is_below_next = false;
            number
        } else {
            let number = self.above;
            self.above = number.saturating_add(1);
            self.is_below_next = true;
            number
        }
    }
}
