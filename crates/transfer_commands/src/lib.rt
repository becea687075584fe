//! Commands over a folder that need no cut: one recording is played, converted or reported. Every cut begins with
//! reading a project and the files of its takes, and this is here, too.
//!
//! - [`play_file`] reads a project, opens a recording, and writes its WAVE file piece by piece.
//! - [`play_part_file`] does so with a part of the recording, which it finds first by reading the recording through.
//! - [`play_between_file`] does so with a recording between others, to which it is joined.
//! - [`play_speakers_file`] plays a part as `play_part_file` does, and names the loudspeakers of the channels in the WAVE
//!   file; [`play_between_speakers_file`] names them in that of a recording between others.
//! - [`convert_file`] reads a recording through, and only then creates the file in the other form. What can't be read
//!   again it holds.
//! - [`open_file`] reads a recording to report what it holds.
//! - [`sum_file`] reads a recording in one pass, and digests the bits of each channel.
//! - [`source_excerpts`] reads a project and then its takes by their numbers, and keeps of them what the splice reads.
//!
//! All but `play_file` read a recording in one pass, but that `convert_file` holds a pipe whole. The calls are those of
//! `transfer_core`, the files those of `folder_core`. A command returns its first fault.
//!
//! The words of the contracts, over any folder, of which `old` is known before and `new` after:
//!
//! - `PlayComesTo`, `PlayPartComesTo`, `PlayBetweenComesTo`, `SpeakComesTo`, `SpeakBetweenComesTo`, `ConvertComesTo`,
//!   `ConvertSpeakersComesTo`, `ReportComesTo` and `SumComesTo` say what became of the files by a command and what it
//!   returned, whether it was done or refused, by bytes that were read of them (`specs/Playing.antt`,
//!   `specs/PartPlaying.antt`, `specs/BetweenPlaying.antt`, `specs/Speaking.antt`, `specs/BetweenSpeaking.antt`,
//!   `specs/Converting.antt`, `specs/SpeakersConverting.antt`, `specs/Reporting.antt`, `specs/Summing.antt`).
//! - `FindsSpan` says which part a span names, and `IsUnfound` why it names none (`specs/PartPlaying.antt`).
//! - `AreSources` says which bytes were read of a project and its takes, `SourcesUnread` why they weren't
//!   (`specs/Sources.antt`), and `ReadsSources` what the splice reads of them (`specs/Excerpts.antt`).
//!
//! What it promises: an answer is true of bytes that were read. In a folder with known bytes these are the bytes that
//! the named files gave, and no other file changed.
//!
//! ```text
//! play_file(alloc, &mut folder, "filter.toml", "in.dsf", "out.wav")?        // how many bytes out.wav has
//! convert_file(alloc, &mut folder, Form::Dsdiff, "in.dsf", "out.dff")?      // how many parts are dropped
//! ```
#![tactic(auto)]

mod between;
mod between_speakers;
mod convert_dop;
mod convert_speakers;
mod converting;
mod digesting;
mod excerpts;
mod fault;
mod gaps;
mod holding;
mod laws;
mod neighbour;
mod opened;
mod outlining;
mod parts;
mod play_dop;
mod playing;
mod renaming;
mod reporting;
mod sources;
mod speaking;
mod summing;

pub use between::{BetweenAsked, BetweenFault, NeighbourNames, play_between_file};
pub use between_speakers::play_between_speakers_file;
pub use convert_dop::{DopConvertFault, convert_dop_file};
pub use convert_speakers::{SpeakersFault, convert_speakers_file};
pub use converting::convert_file;
pub use fault::CommandFault;
pub use laws::kept_sound_has_same_sums;
pub use neighbour::NeighbourFault;
pub use parts::{PartAsked, PartFault, play_part_file};
pub use play_dop::play_dop_file;
pub use playing::play_file;
pub use reporting::{Reported, open_file};
pub use sources::{Sources, source_excerpts};
pub use speaking::{PlayedSpeakers, play_speakers_file};
pub use summing::{Sums, sum_file};
