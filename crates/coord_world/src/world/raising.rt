//! Migrates a world of version 1 to version 2.

ghost use Rattle.std.specs.Prelude.{◌≡◌, ◌<◌, ℕ, not, false, None, IfOk, IfSome};
ghost use Rattle.coord_types.specs.declared.messages.Mode.TheVariants.{Ready};
ghost use Rattle.coord_world.specs.laws.Raised.{raised};
ghost use Rattle.coord_world.specs.laws.Waves.{AllReady};
ghost use Rattle.coord_world.specs.protocol.Legal.{Legal};
ghost use Rattle.coord_world.specs.protocol.Links.{is_ready};
ghost use Rattle.coord_world.specs.protocol.NumberedWorld.{state};

use super::World;
use crate::tables::Tables;
use coord_types::{END_OF_NODES, Mode, NodeId, Version};
use std::alloc::AllocError;

impl World {
    /// Returns the least node that is not Ready, or None if every node is Ready.
    pub fn first_busy(&self) -> Option<NodeId>
        ensures none { result ≡ None → AllReady self.now }
        ensures some { IfSome result (λ u. (is_ready (state self.now u).mode ≡ false) ×
            ((v : ℕ) → v < u → (state self.now v).mode ≡ Ready)) }
    {
        self.lemma_in_range();
        for number in 1..END_OF_NODES {
            if let Some(id) = NodeId::new(number)
                && is_busy(self, id)
            {
                return Some(id);
            }
        }
        None
    }

    /// Returns this world in version 2, in which each distance is 0. The world must have version 1, and all its nodes
    /// must be Ready. Errors: out of memory.
    pub fn raised(&self) -> Result<World, AllocError>
        requires first { self.now.version ≡ 1 }
        requires legal { Legal self.now }
        requires ready { AllReady self.now }
        ensures value { IfOk result (λ v. v ≡ raised self.now) }
        ensures legal { IfOk result (λ v. Legal v) }
    {
        let tables = self.tables.raised()?;
        Ok(World {
            alloc: self.alloc,
            tables,
        })
    }
}

impl Tables {
    /// Returns these tables in version 2.
    fn raised(&self) -> Result<Tables, AllocError>
        ensures { IfOk result (λ tables. tables ≡ raised self.now) }
    {
        let mut tables = self.copy()?;
        tables.version = second();
        Ok(tables)
    }
}

/// Tests whether a node is in a reset. An absent node is not.
fn is_busy(world: &World, id: NodeId) -> bool
    ensures { result ≡ not (is_ready (state world.now id).mode) }
{
    match world.node(id) {
        None => false,
        Some(node) => node.mode() != Mode::Ready,
    }
}

/// Returns version 2.
fn second() -> Version
    ensures { result ≡ 2 }
{
    let Some(version) = Version::new(2) else {
        unreachable!()
    };
    version
}
