//! A world that outlives the program. The world is stored on a device as a journal. Each commit of
//! steps appends a batch to the journal, after a checkpoint if there is no room for the batch.
//!
//! `specs/Recovered.antt` defines the world that the bytes of a device give. For bytes that give no
//! world, `specs/Refused.antt` defines which refusal is returned first. `laws` states that bytes
//! give at most one world, and that bytes that give a world are refused only if memory runs out or
//! the device fails. `specs/Kept.antt` defines how contracts see a store: its disk, its world, and
//! the world that a torn commit tried to make.
//!
//! Why a commit is atomic, in five lines:
//! 1. The steps of a commit are one batch, and a batch is one text after the journal's closed gate.
//! 2. Until the gate is opened, by a write of one byte, the bytes give the old world.
//! 3. Once the gate is open, the bytes give the world after all the steps.
//! 4. If there is no room for a batch, the old world is first written as a snapshot into the other
//!    half. One byte selects that half, and both halves give the same world.
//! 5. Apart from these single bytes, nothing is written in a place where a reader of the device looks.
//!
//! `Store::create` creates a store. `Store::open` returns exactly the world that the bytes of the
//! device give. `Store::commit` commits steps, and `Store::commit_to` does the same for a caller
//! that has already computed the world after the steps. The main theorem follows from their
//! contracts: a crash at any moment of a commit, even inside its checkpoint, leaves bytes that give
//! the world before the commit or the world after it; once the commit has returned Ok, the bytes
//! give the world after it. The type `Store` guarantees this for the images of its disk, so the
//! layers above need to speak only of the store's world (`Store::lemma_images_give_world`).
#![tactic(auto)]

mod creation;
mod faults;
pub mod laws;
mod opening;
mod replay;
mod snapshot;
mod steps;
mod store;
mod writing;

pub use faults::{CommitFault, StoreFault};
pub use steps::take_all;
pub use store::Store;
