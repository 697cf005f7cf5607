//! The releases of steps, and comparisons of steps and of worlds.

ghost use Rattle.std.specs.Prelude.{◌≡◌, ◌+◌, ◌<◌, ◌≤◌, ◌^◌, ◌++◌, ◌↔◌, drop, length, map, take, IsTrue, OnOk, IfOk};
ghost use Rattle.coord_ledger.specs.code.Holding.{listed, released_from};
ghost use Rattle.coord_ledger.specs.machine.After.{release_of};

use crate::Release;
use coord_types::{Output, Step};
use coord_world::World;
use std::alloc::{AllocError, Global};
use std::collections::VecDeque;

/// Tests whether two steps are equal.
pub fn is_same_step(a: &Step, b: &Step) -> bool
    ensures { IsTrue result ↔ (a.now ≡ b.now) }
{
    a == b
}

/// Tests whether two worlds are equal.
pub fn is_same_world(a: &World, b: &World) -> bool
    ensures { IsTrue result ↔ (a.now ≡ b.now) }
{
    *a == *b
}

/// Tests whether two lists of steps are equal.
pub fn are_same(a: &[Step], b: &[Step]) -> bool
    ensures { IsTrue result ↔ (a.now ≡ b.now) }
{
    a == b
}

/// Appends the outputs of the step with this number as releases. Errors: out of memory.
pub fn push_all(rows: &mut Vec<Release>, step: u64, outputs: &[Output]) -> Result<(), AllocError>
    ensures { OnOk result (rows.new.items ≡ rows.old.items ++ map (release_of step) outputs.now) }
{
    for output in outputs {
        rows.push(Release {
            step,
            output: *output,
        })?;
    }
    Ok(())
}

/// Returns the releases of the first `size` steps, numbered from `first` on. `given` has the
/// outputs of all steps, in order. Errors: out of memory.
pub fn released(
    alloc: Global,
    first: u64,
    given: &VecDeque<Vec<Output>>,
    size: usize,
) -> Result<Vec<Release>, AllocError>
    requires numbered { first + size < 2 ^ 64 }
    requires within { size ≤ length given.now.items }
    ensures { IfOk result (λ rows. rows.items ≡
        released_from first (take size (listed given.now.items))) }
{
    let mut rows = Vec::new(alloc);
    for place in 0..size {
        push_all(&mut rows, first + place as u64, &given[place])?;
    }
    Ok(rows)
}

/// Drops the outputs of the first `size` steps.
pub fn drop_first(given: &mut VecDeque<Vec<Output>>, size: usize)
    ensures { listed given.new.items ≡ drop size (listed given.old.items) }
{
    for _place in 0..size {
        given.pop_front();
    }
}
