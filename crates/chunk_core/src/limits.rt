//! How often a file is read.

/// How many reads may be spent on a file.
pub const MOST_READS: u64 = 1 << 40;
