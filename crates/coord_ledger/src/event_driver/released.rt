//! The releases of a run.

ghost use Rattle.std.specs.Prelude.{◌≡◌, ◌++◌, length, IfOk, OnErr};
ghost use Rattle.coord_ledger.specs.code.Holding.{AddsSome};

use crate::{Release, Releases, Ticket};
use coord_types::Output;
use std::alloc::AllocError;

/// Appends releases to a list, and returns the number of appended releases. If memory runs out, the
/// remaining releases are lost.
pub fn push_releases(released: &mut Vec<Release>, mut releases: Releases) -> Result<u64, AllocError>
    ensures count { IfOk result (λ n. n ≡ length releases) }
    ensures all { IfOk result (λ _. released.new.items ≡ released.old.items ++ releases) }
    ensures some { OnErr result (AddsSome releases released.old.items released.new.items) }
{
    let before = released.len();
    while let Some(release) = releases.next() {
        let output: Output = release.output;
        let step = release.step;
        if released.push(Release { step, output }).is_err() {
            releases.lose_rest();
            return Err(AllocError);
        }
    }
    releases.lose_rest();
    Ok((released.len() - before) as u64)
}

/// Drops tickets whose replies were not collected. (No postcondition: nothing remains.)
pub fn forget_all(mut tickets: Vec<Option<Ticket>>) {
    while let Some(place) = tickets.pop() {
        if let Some(ticket) = place {
            ticket.forget();
        }
    }
    tickets.destroy_empty();
}
