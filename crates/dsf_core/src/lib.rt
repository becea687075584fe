//! DSF 1.01 files of raw sound.
//!
//! A file is three chunks and a tag. `DSD ` has the place of the tag. `fmt ` has the channel type, the channel number,
//! the rate, the bits per sample and the number of bits of a channel. `data` holds the sound in blocks of 4096 bytes,
//! one of each channel in turn. The tag, usually ID3, is everything from its place to the file's end. Numbers have the
//! lowest byte first, and the size of a chunk counts the 12 bytes of its header.
//!
//! [`read`] returns the recording that a file holds ([`dsd_bits::Recording`]) and the order of the bits in its bytes
//! ([`dsd_bits::BitOrder`]). It is lenient where usual writers differ: a chunk may be longer than needed, and the
//! file's total size, reserved bytes, the fill of the last blocks and what follows them are ignored. Blocks of another
//! size, more channels or bits than a recording may have, and rates outside its limits are refused by name
//! ([`DsfFault`]).
//!
//! [`write`] returns the bytes of the file that holds a recording, all of them or none, in either order of bits.
//!
//! [`read`] is three steps, which can be taken without holding the sound. [`locate`] finds the sound from the first
//! bytes of a file. [`describe`] returns the recording without its bits, from these bytes, the file's length and its
//! tag, which is at [`tag_at`]. The sound bytes between hold the channels. Each fault is the one that [`read`] returns.
//! [`head`] returns the bytes before the sound of the file that is written for a description.
//!
//! The words of its contracts:
//! - `IsDsf file r order` (`specs/Files.antt`): the file holds the recording `r` in this order. It names the fields of
//!   `specs/Fields.antt` one by one, without walking through the file.
//! - `recording_of file` (`specs/Reading.antt`): reads in a fixed order, to the recording or the first fault.
//! - `Gives` (`specs/Steps.antt`): what a function returns of a reading if memory may run out.
//! - `dsf_text r order` (`specs/Writing.antt`): the bytes of the file of a recording.
//! - `head_text d order`: the bytes before the sound, for a description.
//! - `IsLocated prefix answer`, `Describes prefix total tag answer` (`specs/Headers.antt`): what every file is read to
//!   that begins like this, or also has this length and tag. `IsTagPlace prefix place`: the place of their tag.
//! - `as_stored r` (`specs/ReadAgain.antt`): the recording without what a file does not store: with the IDs that
//!   reading gives, and without marks and kept chunks.
//!
//! What it promises: what is read is what the file holds. Any recording that a file holds is read. Any other file is
//! refused with the first fault of the stated order. Only `Memory` may come in place of these. A file holds at most one
//! recording, in one order ([`one_recording`]). What is written is exactly `dsf_text`, and the file holds the recording
//! as a file stores it. [`written_is_read_again`] carries the law behind that, also for a recording that is not a value
//! in memory.
//!
//! ```text
//! let (recording, order) = read(alloc, file)?;
//! recording.rate()       // 2822400
//! recording.channels()   // one list of bits for each channel
//! let file = write(alloc, &recording, BitOrder::MostFirst)?;
//! ```
#![tactic(auto)]

mod chunks;
mod describing;
mod fault;
mod fields;
mod format;
mod header;
mod laws;
mod locating;
mod outlines;
mod reading;
mod writing;
mod writing_laws;

pub use describing::{closes, describe, tag_at};
pub use fault::{CutSound, DsfFault, Misformat};
pub use header::{cut_fault, pointer_fault};
pub use laws::{
    accepted_files_have_a_head, accepted_files_state_their_sound, bytes_of_sound_do_not_matter,
    header_ends_at_sound, one_recording, what_is_stated_is_found,
};
pub use locating::{Located, locate, sound_at};
pub use outlines::outline;
pub use reading::read;
pub use writing::{head, head_counted, write};
pub use writing_laws::written_is_read_again;
