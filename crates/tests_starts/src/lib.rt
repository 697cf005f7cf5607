//! A test of all starts of a store, over a device in memory. A failed check here fails the test.
#![tactic(auto)]

#[cfg(test)]
mod starts;
