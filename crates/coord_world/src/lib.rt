//! A world: nodes, the links between them, and the last order of each client.
//!
//! `World` is the code. Contracts see the numbered world of `specs/protocol/NumberedWorld.antt`. Other files of that
//! folder define the steps that a world accepts (`Acceptance`), the effect of each step (`Next`) and its outputs
//! (`Outputs`), the legal worlds (`Links`, `Legal`), and the ranges that the type guarantees for every world
//! (`Ranges`). Two calls matter. `World::judge` returns whether a step is accepted, repeated or refused. `World::apply`
//! carries out a fresh step and returns its reply and outputs.
//!
//! The main theorems are the contracts of [`laws`], over the definitions alone: a fresh step keeps
//! a world legal and changes the view as the ideal step does; a wave signals each node that it
//! reaches once; a release stays, and exactly the released packets are accepted. Their statements
//! are in `specs/laws`, and `specs/code` has the definitions that only the bodies here need.
#![tactic(auto)]

pub mod laws;
mod rows;
pub mod runs;
mod step;
mod tables;
mod verdicts;
mod world;

pub use coord_tables::LinkRow;
pub use rows::parts::{ClientRow, NodeRow, Parts};
pub use verdicts::Verdict;
pub use world::{StepOutcome, World};
