//! The offsets of the fields of a file, each with its name in DSF 1.01. Numbers have the lowest byte first.

ghost use Rattle.std.specs.Prelude.{◌≡◌, ◌≤◌, ◌+◌, length};
ghost use Rattle.dsd_bits.specs.Ids.{same_id};
ghost use Rattle.chunk_core.specs.Numbers.{id_at};
ghost use Rattle.dsf_core.specs.Fields as fields;

use chunk_core::{Order, id_at, u32_at, u64_at};

/// How many bytes a chunk's header has: its ID and its size.
pub(crate) const HEAD_SIZE: usize = 12;

/// How many bytes the chunk `DSD ` has. The format chunk follows it.
pub(crate) const FIRST_SIZE: usize = 28;

/// How many bytes the fields of the format chunk have, with its header.
pub(crate) const FORMAT_SIZE: usize = 52;

/// "Size of this chunk" of `DSD `.
pub(crate) const FIRST_SIZE_AT: usize = 4;

/// "Pointer to Metadata chunk": the place of the tag, or 0 for none.
pub(crate) const POINTER_AT: usize = 20;

/// "Size of this chunk" of `fmt `.
pub(crate) const FORMAT_SIZE_AT: usize = 32;

/// "Format version", which is 1.
pub(crate) const VERSION_AT: usize = 40;

/// "Format ID", 0 for raw DSD.
pub(crate) const FORMAT_AT: usize = 44;

/// "Channel Type": the layout of the channels.
pub(crate) const CHANNEL_TYPE_AT: usize = 48;

/// "Channel num".
pub(crate) const CHANNEL_NUMBER_AT: usize = 52;

/// "Sampling frequency", in hertz.
pub(crate) const RATE_AT: usize = 56;

/// "Bits per sample": 1 or 8, which is the order of the bits in a byte.
pub(crate) const BITS_AT: usize = 60;

/// "Sample count": the bits of each channel.
pub(crate) const COUNT_AT: usize = 64;

/// "Block size per channel", in bytes.
pub(crate) const BLOCK_AT: usize = 72;

/// The "Format version".
pub(crate) const VERSION: u32 = 1;

/// The "Format ID" of raw DSD.
pub(crate) const RAW_DSD: u32 = 0;

/// Whether this ID is at an offset.
pub(crate) fn has_id(file: &[u8], at: usize, id: [u8; 4]) -> bool
    requires { at + 4 ≤ length file.now }
    ensures { result ≡ same_id (id_at file.now at) id }
{
    id_at(file, at) == id
}

/// The number of four bytes at an offset.
pub(crate) fn short_at(file: &[u8], at: usize) -> u32
    requires { at + 4 ≤ length file.now }
    ensures { result ≡ fields.u32_at file.now at }
{
    u32_at(Order::Little, file, at)
}

/// The number of eight bytes at an offset.
pub(crate) fn long_at(file: &[u8], at: usize) -> u64
    requires { at + 8 ≤ length file.now }
    ensures { result ≡ fields.u64_at file.now at }
{
    u64_at(Order::Little, file, at)
}
