//! One-bit sound (DSD): lists of bits, sound bytes of several channels, and recordings.
//!
//! In contracts, a [`Bits`] is a list of truth values: a stored 1 is `true`. In memory it is packed eight bits to a
//! byte, the earliest bit the most significant, as DSDIFF 1.5 stores a channel. The unused bits of the last byte are
//! zero. A range of one list is added to another by whole bytes, wherever it begins. [`reverse`] changes between this
//! order of the bits of a byte and that of DSF 1.01.
//!
//! [`unlace_bytes`] takes the interleaved sound bytes of DSDIFF apart into channels, and [`lace_bytes`] interleaves
//! channels; the result is read again as the same channels. [`unlace_blocks`] and [`lace_blocks`] do the same with the
//! blocks of DSF 1.01, in which each byte has the earliest bit at one end or the other ([`BitOrder`]). [`push_laced`]
//! and [`push_blocks`] append the sound bytes to a list of bytes. If no channels are needed as such,
//! [`frames_to_planes`] and [`planes_to_frames`] move a group of DSDIFF's frames to DSF's blocks and back, and
//! [`put_in_order`] changes the order of the bits of bytes. A [`BitRoom`] is a list of bits whose memory is reserved.
//! Adding bits to it takes no memory and can't fail; neither can [`push_laced_rooms`] and [`push_blocked_rooms`], which
//! write its sound bytes into reserved memory.
//!
//! A [`Recording`] is one record of lists and numbers: its rate, its channels, their IDs and layout, its marks, the
//! chunks that it keeps as they are, and its tag. A [`Description`] is a recording without its bits; it holds their
//! number. A [`Sound`] says what the sound of a file is, how its channels are interleaved ([`Interleaving`]) and where
//! its bytes are. A [`SoundAt`] is what the first bytes of a file say about it.
//!
//! [`MOST_CHANNELS`], [`MOST_BITS`], [`LEAST_RATE`] and [`GREATEST_RATE`] are the limits of a recording,
//! [`BLOCK_BYTES`] and [`BLOCK_BITS`] the size of a block. Contracts have definitions of the same names
//! (`specs/Limits.antt`).
//!
//! Definitions that contracts use:
//!
//! - `unpacked bytes n` is the list of the first `n` bits of some bytes, and `packed bits` the bytes of a list.
//!   `IsTight bytes n` says that bytes hold exactly `n` bits.
//! - `RoomContent` is the bits of a [`BitRoom`] and how many it has room for, `rooms_bits` the bits of several.
//! - `laced_bit bytes channels c i` is bit `i` of channel `c` among sound bytes, `unlaced_all` all the channels, and
//!   `laced` the sound bytes of channels. `AreLaced` says where each bit is.
//! - `block_bit order bytes channels c i` is bit `i` of channel `c` among sound bytes in blocks, `unblocked_all` the
//!   first bits of all channels, `blocks_size` how many sound bytes these take, and `blocked` the sound bytes of
//!   channels. `AreBlocks` says where each bit is.
//! - `IsReversed old new` says that bit `i` of one byte is bit `7 - i` of the other.
//! - `IsLevel channels` says that all channels have the same length, `count_of` is that length.
//! - `Content` is what a recording holds. `HasShape` names the rules that it obeys, and `layout_channels` is the table
//!   of layouts.
//! - `Described` is what a description says, and `IsDescription` names the rules that it obeys. `described r` is the
//!   description of a recording, and `with_channels d channels` the recording built from a description and channels.
//! - `stretches_of channels ranges` is the bits of the channels in each range ([`BitRange`]), `silent r` a recording
//!   without its bits.
//! - `IsSound s` names the limits of a sound. `HasSound file r s` says that the bytes of the sound in a file hold the
//!   channels of a recording. `IfFound`, `IfMore` and `IfRefused` are about a [`SoundAt`].
//! - `sign`, which is what a bit counts, and `sum_below`, a sum of whole numbers, are for the crates above.
//!
//! ```text
//! let bits = Bits::from_packed(alloc, &[0xf0, 0xff], 12)?;
//! bits.as_bytes()                          // [0xf0, 0xf0]
//! let mut part = Bits::new(alloc);
//! part.push_range(&bits, 2, 10)?;          // [0xc3]
//! part.push_bit(true)?;                    // [0xc3, 0x80], 9 bits
//! let channels = unlace_bytes(alloc, &[0xf0, 0x0f, 0xaa, 0x55], 2)?;
//! channels[0].as_bytes()                   // [0xf0, 0xaa]
//! ```
#![tactic(auto)]

mod bits;
mod blocks;
mod description;
mod fault;
mod interleaving;
mod lacing;
mod layouts;
mod limits;
mod marks;
mod packing;
mod planes;
mod ranges;
mod recording;
mod reversing;
mod room;
mod room_lacing;
mod sound;
mod stretches;

pub use bits::Bits;
pub use blocks::{
    BitOrder, blocks_size, lace_blocks, laced_blocks_are_read_again, push_blocks, put_in_order,
    unlace_blocks,
};
pub use description::{Description, Metadata};
pub use fault::{BitsFault, LaceFault};
pub use interleaving::Interleaving;
pub use lacing::{lace_bytes, laced_channels_are_read_again, push_laced, unlace_bytes};
pub use layouts::{layout_channels, usual_layout};
pub use limits::{BLOCK_BITS, BLOCK_BYTES, GREATEST_RATE, LEAST_RATE, MOST_BITS, MOST_CHANNELS};
pub use marks::{Mark, Other, Place};
pub use packing::byte_from;
pub use planes::{frames_to_planes, planes_to_frames};
pub use recording::Recording;
pub use reversing::{reverse, reverse_byte};
pub use room::BitRoom;
pub use room_lacing::{push_blocked_rooms, push_laced_rooms};
pub use sound::{Sound, SoundAt};
pub use stretches::{BitRange, silent_channels, stretches_of};
