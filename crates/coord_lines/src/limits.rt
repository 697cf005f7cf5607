//! Limits on the calls of a stream, so that a loop over these calls ends whatever the stream
//! returns.

/// The maximum number of reads of one input, from its first line to its end.
pub const MOST_READS: u64 = 1_048_576;

/// The maximum number of calls of a stream for one purpose: of `read` for one wait, or of `write`
/// for one text.
pub const MOST_CALLS: u64 = 1_048_576;
