//! The number of each connection's lines that have no answer.

ghost use Rattle.std.specs.Prelude.{◌≡◌, ◌-◌, ◌==◌, ℕ, OnErr, OnOk, if◌then◌else◌};
ghost use Rattle.proxy_core.specs.Held.{held_at};

use std::alloc::AllocError;
use std::collections::BTreeMap;

/// Returns the number of a connection's lines that have no answer.
pub(crate) fn held_by(held: &BTreeMap<u64, usize>, connection: u64) -> usize
    ensures { result ≡ held_at held.now connection }
{
    match held.get(&connection) {
        Some(count) => *count,
        None => 0,
    }
}

/// Sets the number of a connection's lines. Errors: out of memory; nothing changes.
pub(crate) fn hold(
    held: &mut BTreeMap<u64, usize>,
    connection: u64,
    count: usize,
) -> Result<(), AllocError>
    ensures ok { OnOk result ((c : ℕ) → held_at held.new c ≡ (if connection == c then count else held_at held.old c)) }
    ensures err { OnErr result ((c : ℕ) → held_at held.new c ≡ held_at held.old c) }
{
    held.insert(connection, count)?;
    Ok(())
}

/// Subtracts `count` from the number of a connection's lines, and removes the entry if no line is left.
pub(crate) fn release(held: &mut BTreeMap<u64, usize>, connection: u64, count: usize)
    ensures { (c : ℕ) → held_at held.new c ≡ (if connection == c then held_at held.old c - count else held_at held.old c) }
{
    let left = held_by(held, connection).saturating_sub(count);
    if left == 0 {
        held.remove(&connection);
    } else {
        // The entry is there, so this takes no memory.
        let _ = held.insert(connection, left);
    }
}
