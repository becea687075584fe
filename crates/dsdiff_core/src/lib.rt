//! DSDIFF 1.5 files of uncompressed sound.
//!
//! A file is one form, `FRM8` of the type `DSD `, which is a list of chunks ([`chunk_core`]). First comes a version
//! `FVER`, then a property `PROP` of the sound (type `SND `), whose own chunks have the rate (`FS  `), the channels and
//! their IDs (`CHNL`) and the compression (`CMPR`), and then the sound bytes (`DSD `). There may be edited masters
//! (`DIIN`) with marks (`MARK`), and any other chunks. Numbers have the highest byte first.
//!
//! [`read`] returns the recording that a file holds ([`dsd_bits::Recording`]). It is lenient where usual writers
//! differ: a chunk may be longer than its named fields, the last pad may be missing, bytes after the form are ignored,
//! and unknown chunks are kept as ID and bytes. Compressed sound, more channels or samples than a recording may have,
//! and rates outside its limits are refused by name ([`DsdiffFault`]).
//!
//! [`write`] returns the bytes of the file that holds a recording, all of them or none. [`place`] says where a mark is,
//! and [`mark_at`] makes the mark of a title that starts at a place. A recording whose channels end inside a byte has
//! no file.
//!
//! A file can also be read and written around its sound, which is then never held: [`locate`] says where the sound
//! starts, and goes on where it ended when more bytes came, [`outline`] gives the recording without bits by what is
//! before the sound and after it, and [`write_head`] and [`write_tail`] give what the file of a recording has around
//! its sound.
//!
//! Where the chunks before a long one tell that no file that begins so is accepted, its data need not be held:
//! [`faulty_start`] gives what they tell, [`next_chunk`] what each later chunk adds by its first bytes, and
//! [`fault_after`] the first fault of the file.
//!
//! The words of its contracts:
//! - `IsDsdiff file r` (`specs/Files.antt`): the file holds the recording `r`. It is stated in lists of chunks, part by
//!   part, without walking through the file.
//! - `recording_of file` (`specs/Reading.antt`): reads in a fixed order, to the recording or the first fault. Its steps
//!   are `top_of` (`specs/Forms.antt`), `property_of` (`specs/Properties.antt`), `bytes_of_sound` (`specs/Sounds.antt`)
//!   and `masters_of` (`specs/Masters.antt`).
//! - `mark_in` (`specs/Marks.antt`) and `kept` (`specs/Others.antt`): the mark in a chunk, and which chunks are kept as
//!   they are.
//! - `Gives` (`specs/Steps.antt`): what a function returns of a reading if memory may run out.
//! - `dsdiff_text r` (`specs/Writing.antt`): the bytes of the file of a recording, if it has one. They are made from
//!   lists of chunks: `property_chunks` in the sound's property, `master_chunks` in the edited master, `form_chunks` in
//!   the form, each written by `spell`. `form_text` puts the header before them.
//! - `head_text r size`, `tail_text r size` (`specs/Writing.antt`): the bytes before and after a sound of `size` bytes.
//!   They don't depend on the channels.
//! - `StatesOutline prefix s back` (`specs/Outlines.antt`): what the bytes around a sound say about a file.
//! - `IsFaulty file s` (`specs/Faulty.antt`): the first chunks of the file's form tell that it holds no recording, and
//!   where they end, `next_place s`.
//! - `mark_bytes m` (`specs/MarkBytes.antt`): the bytes of a mark.
//! - `place_of m rate` (`specs/MarkPlaces.antt`): the place of a mark, a whole number that may be below zero.
//!   `title_mark place rate text` is the mark of a title, and `IsAt m rate place` says where a mark is.
//! - `as_stored r` (`specs/ReadAgain.antt`): the recording without what a file does not store, its layout and tag.
//!
//! What it promises: what is read is what the file holds. Any recording that a file holds is read. Any other file is
//! refused with the first fault of the stated order. Only `Memory` may come in place of these. A file holds at most one
//! recording ([`one_recording`]). What is written is exactly `dsdiff_text`, [`WriteFault::NotWholeBytes`] comes exactly
//! if there is none, and the file holds the recording as a file stores it. [`written_is_read_again`] carries the law
//! behind that, also for a recording that is not a value in memory, and [`written_in_parts`] the law that the file is
//! its parts.
//!
//! ```text
//! let recording = read(alloc, file)?;
//! recording.rate()       // 2822400
//! recording.channels()   // one list of bits for each channel
//! recording.marks()      // the marks of all edited masters, in the order of the file
//! let file = write(alloc, &recording)?;
//! ```
#![tactic(auto)]

mod closing;
mod describing;
mod fault;
mod faulty;
mod fields;
mod form;
mod header;
mod held;
mod laws;
mod locating;
mod marks;
mod masters;
mod once;
mod others;
mod places;
mod property;
mod reading;
mod sound;
mod spans;
mod write_fault;
mod writing;
mod writing_laws;

pub use closing::{bytes_after_sound, closes, cut_fault, outline};
pub use describing::describe;
pub use fault::DsdiffFault;
pub use faulty::{FaultyStart, NextChunk, fault_after, faulty_start, next_chunk};
pub use fields::fields_fit;
pub use laws::{
    accepted_files_have_a_head, accepted_files_state_their_sound,
    bytes_after_the_form_do_not_matter, bytes_of_sound_do_not_matter, header_ends_at_sound,
    one_recording, what_is_stated_is_found,
};
pub use locating::{Located, locate, sound_at};
pub use places::{mark_at, place};
pub use reading::read;
pub use write_fault::WriteFault;
pub use writing::{write, write_head, write_tail};
pub use writing_laws::{written_in_parts, written_is_read_again};
