//! WAVE files of DoP 1.1 samples: the bits of a recording as samples of 24 bits, at a sixteenth of its rate.
//!
//! The highest byte of a sample is the marker of its frame, 0x05 and 0xFA in turn. The other two are 16 bits of a
//! channel, the earliest the most significant. If the bits don't fill the last frame, silence does (0x69 again and
//! again), and a chunk `DoPn` after the data says how many bits each channel has.
//!
//! [`play_dop`] plays a file from a reader to a writer. `sound_core` reads the file and passes its sound to a sink
//! (`sink.rt`), which writes the samples of each part as it comes, between the bytes of `header.rt`. [`read`] reads such
//! a file in memory to the recording whose bits it has, or to its first fault ([`DopFault`]). It goes from chunk to
//! chunk (`chunks.rt`, `head.rt`), then from sample to sample (`markers.rt`), and takes the channels apart
//! (`channels.rt`).
//!
//! [`scan_dop`] and [`convert_dop`] do the same from a reader. They hold what is around the samples, and of these a piece
//! (`pieces.rt`). The first looks through a file (`front.rt`, `shape.rt`, `sound.rt`, `outline.rt`) and returns a
//! [`DopOutline`]. The second reads a file of this outline once more and writes its bits as a file of a form
//! (`converting.rt`, `packing.rt`).
//!
//! The words of its contracts:
//! - `IsDopOf file r` (`specs/Files.antt`): the file has the bits of the recording `r`. It names the fields of
//!   `specs/Fields.antt` one by one. `chunk_from id file at` is the place of the first chunk with an ID.
//! - `recording_of file` (`specs/Reading.antt`): reads in a fixed order, to the recording or the first fault.
//! - `dop_text rate channels` (`specs/Writing.antt`): the bytes of the file of channels at a rate.
//! - `PlaysDop file bytes` (`specs/Playing.antt`): the file holds a recording, and these bytes are the file of its
//!   channels. `DopApplies file fault`: why there is none.
//! - `IsDopPlaying held first now s done bytes` (`specs/Sinks.antt`): what the sink has written after these bytes.
//! - `IsOutline o` (`specs/Outlines.antt`): what the bytes around the samples say, whichever bytes these have. `IsIn o
//!   file`: the file is the outline with some samples. `ConvertsOutline` (`specs/Converting.antt`): what was read, and
//!   what was written of it.
//!
//! What it promises: what is written is exactly `dop_text`, however the reads are cut; after a refusal a prefix of it was
//! written. What is read is what the file has, whatever a file has is read, and any other file is refused with the first
//! fault of the stated order. Only `Memory` may come in place of these. What is written is read again as the same
//! channels at the same rate, bit for bit ([`written_is_read_again`]).
//!
//! ```text
//! let count = play_dop(alloc, &mut inlet, &mut outlet)?;    // so many bytes were written
//! let recording = read(alloc, &file)?;                      // what was played
//!
//! let outline = scan_dop(alloc, &mut inlet)?;
//! convert_dop(alloc, &outline, Form::Dsf, &mut again, &mut outlet)?;    // its file of a form
//! ```
#![tactic(auto)]

mod channels;
mod chunks;
mod converting;
mod fault;
mod front;
mod head;
mod header;
mod laws;
mod markers;
mod outline;
mod packing;
mod pieces;
mod playing;
mod reading;
mod shape;
mod sink;
mod sound;
mod stop;

pub use converting::convert_dop;
pub use fault::DopFault;
pub use laws::written_is_read_again;
pub use outline::{DopOutline, scan_dop};
pub use playing::play_dop;
pub use reading::read;
pub use stop::DopStop;
