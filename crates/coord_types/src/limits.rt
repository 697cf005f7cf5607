//! The limits of the protocol and of its files. Each is defined here once, and both definitions and
//! bodies cite it by name. Only coord_journal, which does not use this crate, defines two of them
//! again; a law of coord_store shows that they are equal. A number that is part of a format, such
//! as the value of a byte, has no name, and equal numbers with different meanings have different
//! names.

/// The maximum number of nodes, and the greatest node number.
pub const MAX_NODES: u8 = 64;

/// The length of a list with one entry for each node.
pub const NODES: usize = MAX_NODES as usize;

/// One more than the greatest node number: the exclusive end of a loop over nodes.
pub const END_OF_NODES: u8 = MAX_NODES + 1;

/// The maximum number of groups, and the greatest group number.
pub const MAX_GROUPS: u8 = 16;

/// The maximum number of clients, and the greatest client number.
pub const MAX_CLIENTS: u8 = 16;

/// The number of versions of worlds, and the greatest version.
pub const MAX_VERSIONS: u8 = 2;

/// The maximum number of links of one node.
pub const MAX_DEGREE: usize = 16;

/// The maximum number of links of a world.
pub const MAX_LINKS: usize = 128;

/// The maximum number of steps of a world.
pub const MAX_STEPS: u64 = 1 << 40;

/// The maximum number of steps in a batch.
pub const MAX_BATCH_STEPS: usize = 256;

/// The maximum length of an encoded batch, in bytes.
pub const MAX_BATCH_BYTES: usize = 8_192;

/// The maximum length of an encoded world, in bytes.
pub const MAX_SNAPSHOT_BYTES: usize = 16_384;

/// The maximum length of a line of text, in bytes.
pub const MAX_LINE_BYTES: usize = 512;

/// The maximum number of pending steps: steps that are accepted but not yet settled.
pub const MAX_PENDING: usize = 1_024;
