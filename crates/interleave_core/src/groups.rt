//! How much of a sound is processed at a time: whole groups of the channels' blocks.

ghost use Rattle.std.specs.Prelude.{◌≡◌, ◌*◌, ◌/◌, ◌%◌, ◌≤◌, ◌^◌};
ghost use Rattle.dsd_bits.specs.Sounds.{sound_size};

use dsd_bits::{Interleaving, blocks_size};

// The bits of each channel in a group of blocks.
const GROUP_BITS: usize = 32_768;

/// How many bits of each channel are processed at a time: those of as many groups of blocks as fit 65,536 bytes.
pub fn segment_bits(channels: usize) -> usize
    requires { (1 ≤ channels) × (channels ≤ 6) }
    ensures some { 32768 ≤ result }
    ensures groups { result % 32768 ≡ 0 }
    ensures fits { result / 32768 * channels ≤ 16 }
{
    16 / channels * GROUP_BITS
}

/// How many sound bytes hold `bits` bits of each channel.
pub fn segment_size(interleaving: Interleaving, channels: usize, bits: usize) -> usize
    requires channels { (1 ≤ channels) × (channels ≤ 6) }
    requires in_limit { bits ≤ 2 ^ 36 }
    ensures { result ≡ sound_size interleaving channels bits }
{
    match interleaving {
        Interleaving::Bytes => bits / 8 * channels,
        Interleaving::Blocks(_) => blocks_size(channels, bits),
    }
}
