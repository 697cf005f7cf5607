//! Disks that may crash at any moment: synced bytes stay, and the places written since may hold
//! anything.
//!
//! `Disk` is the trait that users see. `specs/Model` defines its model: `Present` defines the
//! content of a disk and the bytes that a crash may leave of it, `Moments` what holds at each
//! moment of a list of calls. A reader has to trust these definitions; `specs/Disks` only describes
//! the disks of this crate. The main theorem is that `MemDisk` keeps the model, proved from its
//! record of its writes and syncs (`write_at` and `sync`, clauses `crash` and `time`); its `crash`
//! leaves the bytes that a test chose. A `FailingDisk` is any disk with a `Rule` that fails some
//! calls: a fuse (`FuseDisk`), a blip (`BlipDisk`) or a gate at which syncs wait (`GateDisk`); each
//! other call is passed on once. A `TornDisk` still writes the first bytes of a write that fails.
//!
//! `RawFile` is the trait of a file of the operating system: the calls that a disk makes, and the
//! model that the file may keep. A `RawDisk` is the disk over such a file. It keeps the model if
//! the file does, and its clauses `call` and `none` state which calls it makes. A `MemFile`, in
//! memory, keeps the model and promises nothing more. A `SystemFile` claims no model: that a file
//! of the system keeps the model is a premise. A `FileDisk` is the disk over a `SystemFile`.
#![tactic(auto)]

mod choice;
mod crash;
mod disk;
mod failing;
mod fault;
mod gate;
mod history;
mod memory;
mod memory_file;
mod over;
mod raw;
mod rules;
mod system;

pub use choice::Choice;
pub use disk::{CrashDisk, Disk, Takable};
pub use failing::{Call, FailingDisk, Rule};
pub use fault::DiskFault;
pub use gate::{Gate, GateDisk};
pub use memory::MemDisk;
pub use memory_file::{MemFile, Syncs};
pub use over::RawDisk;
pub use raw::RawFile;
pub use rules::{Blip, BlipDisk, Fuse, FuseDisk, TornDisk};
pub use system::{FileDisk, SystemFile};
