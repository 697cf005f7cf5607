//! The layout of a journal on a device: a header of 17 bytes, followed by two halves.

/// The magic bytes in the header, after the selector.
pub const MAGIC: [u8; 8] = *b"ACRRESET";

/// The number of bytes before the halves: the selector, the magic bytes and the size of a half.
pub const HEADER: usize = 17;

/// The minimum size of a half, in bytes.
pub const MIN_HALF: u64 = 32_768;

/// The maximum size of a half, in bytes.
pub const MAX_HALF: u64 = 16_777_216;

/// The maximum length of a snapshot, in bytes.
pub const MAX_SNAPSHOT: usize = 16_384;

/// The maximum length of a batch's body, in bytes.
pub const MAX_BODY: usize = 8_192;
