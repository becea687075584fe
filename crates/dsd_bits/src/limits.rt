//! The limits of a recording, and the size of a block of DSF 1.01.

/// The most channels that a recording has.
pub const MOST_CHANNELS: usize = 6;

/// The most bits that a channel has.
pub const MOST_BITS: usize = 1 << 36;

/// The least rate of a recording, in hertz.
pub const LEAST_RATE: u32 = 1_000_000;

/// The greatest rate of a recording, in hertz.
pub const GREATEST_RATE: u32 = 50_000_000;

/// How many bytes of a channel a block of DSF 1.01 holds.
pub const BLOCK_BYTES: usize = 4096;

/// How many bits of a channel a block of DSF 1.01 holds.
pub const BLOCK_BITS: usize = 32768;
