//! Re-interleaves sound bytes, a segment at a time.
//!
//! An [`Interleaving`](dsd_bits::Interleaving) is that of DSDIFF 1.5, frames of one byte of each channel in turn, or
//! that of DSF 1.01, blocks of 4096 bytes of each channel in turn with their bits in either order. A group is 4096
//! bytes (32768 bits) of each channel. It holds the same sound in both.
//!
//! [`unlace`] takes a segment apart into channels, [`push_reinterleaved`] appends its bytes in the other interleaving.
//! Whole groups and the bytes after them can be re-interleaved one after the other ([`groups_join`]), so a file can be
//! converted while it is read. [`segment_bits`] says how much is processed at a time, [`segment_size`] how many bytes
//! that is. [`push_rooms`] writes bits from reserved memory, and takes none.
//!
//! Definitions that contracts use (`specs/Reinterleaving.antt`):
//! - `reinterleaved from to channels count bytes` is the re-interleaved bytes: the sound bytes, by `to`, of the
//!   channels that the bytes hold by `from`.
//! - `laced_in to channels` is the sound bytes of channels.
//!
//! ```text
//! let segment = Segment { channels: 2, count: 16 };
//! let blocks = Interleaving::Blocks(BitOrder::MostFirst);
//! push_reinterleaved(alloc, &mut out, &[0xf0, 0x0f, 0xaa, 0x55], segment, Interleaving::Bytes, blocks)?;
//! // f0 aa and 4094 zeros, 0f 55 and 4094 zeros
//! ```
#![tactic(auto)]

mod groups;
mod laws;
mod moving;
mod reinterleaving;
mod rooms;

pub use groups::{segment_bits, segment_size};
pub use laws::groups_join;
pub use reinterleaving::{Segment, push_reinterleaved, unlace};
pub use rooms::push_rooms;
