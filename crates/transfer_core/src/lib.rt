//! The calls over one recording, from the bytes of a file to the bytes of a file. [`convert`] writes it in another
//! form, and [`convert_stream`] does so from a reader to a writer. [`play`] plays it by a project text, and
//! [`play_stream`] plays all of it, or some of its frames, from a reader to a writer.
//!
//! The words of the contracts:
//!
//! - `Converts file form bytes dropped` says that these bytes are the file of the form that is written for the file's
//!   recording, `KeepsSound file form bytes` that they hold its sound, and `KeepsAll file form bytes` that they hold all
//!   of it but what the form doesn't store (`specs/Converting.antt`). `Plays project file bytes` says that these bytes
//!   are the WAVE text of the samples of the file's recording (`specs/Playing.antt`). `specs/Conversions.antt` and
//!   `specs/Streaming.antt` say the same of a reader and a writer, and `specs/Ends.antt` of the inlet and the outlet of
//!   a call.
//! - `IsUnreadBy decimator sound range place` says that a byte of the sound holds no bit that a frame of the range reads,
//!   and `AreSameBut P file other` that two files are the same but for bytes at such places (`specs/Unread.antt`).
//! - `converted_of` and `played_of` are the readings in the order of the refusals. Each ends with an answer or the first
//!   fault.
//!
//! What it promises: a call returns what its reading ends with, an answer or a fault, unless memory runs out. The law
//! on `archive_core::read_in_order` joins the relations and the readings.
//!
//! ```text
//! let converted = convert(alloc, &file, Form::Dsf)?;
//! let wave = play(alloc, &project, &file)?;
//! ```
#![tactic(auto)]

mod converting;
mod frames;
mod laws;
mod playing;
mod spans;

pub use converting::{Converted, convert, convert_stream};
pub use frames::PlayedFrames;
pub use laws::{converted_is_kept, sound_does_not_matter, unread_bytes_do_not_matter};
pub use player_core::{WaveHead, WaveRange};
pub use playing::{play, play_stream, whole_plays};
pub use request_core::{Fault, SpanFault, splice_of, take_names};
pub use spans::{Span, frames_of, span_of};
