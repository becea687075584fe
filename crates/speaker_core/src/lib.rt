//! Which loudspeakers the channels of a recording belong to, and what plays or writes a file accordingly.
//!
//! [`Speakers`] are those of channels, by their IDs in DSDIFF 1.5 or by the channel type of DSF 1.01: the channel mask of
//! a WAVE file (WAVEFORMATEXTENSIBLE), and the order in which it has the channels. If not each channel has a loudspeaker
//! of its own, the mask is 0, and the channels stay where they are.
//!
//! A [`ReorderedFile`] is read from its sound on, and its channels come in another order, group by group. It holds 4096
//! bytes of each channel. So what plays a file needs to know nothing of the order.
//!
//! The words of the contracts:
//!
//! - A loudspeaker is the number of its bit in the mask. `speaker_of` is that of an ID, `layout_speakers` are those of a
//!   channel type, `speaker_mask` and `speaker_order` the mask and the order of channels, `layout_ids` the IDs of a
//!   channel type, `layout_with` the type of a mask (`specs/Speakers.antt`).
//! - `groups_in order size groups bytes` is bytes with the channels of their first groups in an order
//!   (`specs/Reordering.antt`), `channels_in` channels in one, `left_in_order` what a `ReorderedFile` has left (`specs/Reordered.antt`).
//!
//! What it promises: a `ReorderedFile` is a reader of what its file has left, in the new order, however its reads are
//! cut; a read that fails loses nothing.
//!
//! ```text
//! let speakers = Speakers::of_ids(alloc, &[*b"MRGT", *b"MLFT"])?;    // mask 3, order 1, 0
//! let reordering = Reordering::new(alloc, speakers.order, 1, 100)?;
//! let mut file = ReorderedFile::new(&[1, 2, 3, 4][..], reordering);  // it gives 2, 1, 4, 3
//! ```
#![tactic(auto)]

mod reordered_file;
mod reordering;
mod speakers;

pub use reordered_file::{ReorderedFile, Reordering};
pub use reordering::{push_groups, reordered_bytes_hold_channels};
pub use speakers::{Speakers, layout_ids, layout_with};
