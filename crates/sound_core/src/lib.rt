//! Reads a DSDIFF 1.5 or DSF 1.01 file from a reader, a block at a time: the bytes around its sound, and the sound
//! itself, which a sink takes piece by piece.
//!
//! [`read_outline`] reads a file once and returns all of it but the bits of its sound: an [`Outline`], with which the
//! file can be read again and written in another form at the same time. Of the sound it holds one block of 65,536
//! bytes. The bytes before the sound are held whole, and so are those that follow it in a DSDIFF form, or the tag of a
//! DSF file. [`read_into`] does the same, and a [`SoundSink`] takes the sound (`sink.rt`), a [`SoundPart`] of at most
//! 65,536 bytes at a time (`part.rt`). [`read_named`] also names the first fault of a file that holds no recording, as
//! [`read_outline`] does. There is one loop over a sound (`taking.rt`), whatever is made of it.
//! [`read_stretches`] keeps the bits of each channel in given ranges, with a sink (`keeper.rt`). The sink of
//! [`read_outline`] keeps nothing (`nothing.rt`).
//!
//! [`relay`] reads a file whose outline is known once more, and hands its sound on in another interleaving
//! (`relaying.rt`): it writes a head, then the sound, by a sink (`relaying_sink.rt`), then a tail. Of the sound it
//! holds whole groups of the channels' blocks, at most 65,536 bytes, and what is made of them. A file whose outline is
//! another one now is refused; which bytes its sound has isn't compared with anything.
//!
//! [`read_prefix`] reads a file only until it describes its sound, and returns these first bytes (`prefix.rt`). What
//! was read so is put before what is left, to read the file from its start. It names a first fault, too.
//!
//! A reader has the inlet, a block to read into, the limit of its reads and the buffered bytes (`reader.rt`). It is
//! read up to the sound (`header.rt`), and then after it (`outline.rt`). A sink that writes uses [`put`].
//!
//! The words of the contracts:
//!
//! - `HoldsRecording file r` says that the file is a DSDIFF or a DSF file that holds this recording. `LeadsToSound
//!   prefix s` says that the first bytes of a file describe this sound (`specs/Files.antt`), in the words of its
//!   format: the chunks that lead up to it, or the fields. A file that holds a recording describes exactly one
//!   ([`accepted_files_state_one_sound`]).
//! - `Reads left old new bytes` says that an inlet returned these bytes and counted them (`specs/Reads.antt`),
//!   `IsReading reader` that a reader may read on; `CanCount inlet` that what is read of a file can be counted, and
//!   `RunsOut old new` why a file is read no further (`specs/Readers.antt`).
//! - `IsPlacedIn around file sound` says that a file is these sound bytes in their surroundings, `AreStated around`
//!   that every such file holds what the surroundings describe, with the channels of its sound, and `SurroundsFile left
//!   around` that both hold for a reader's file (`specs/Outlines.antt`).
//! - `IsFed s done bytes` says that these bytes of a sound came, which are `done` bits of each channel. `TakesOutline has
//!   left inlet outline` says that the inlet's file is some sound in this outline, and that `has` holds of its bytes.
//!   `StopsFile` says why it isn't taken to its end, and what the sink is then (`specs/Sinks.antt`).
//! - `HoldsStretches left ranges kept` says that a reader's file is some sound in the outline that was kept, and which
//!   stretches of its channels were kept (`specs/Keeping.antt`).
//!
//! - `relayed target outline sound` are the bytes that are written of a sound: head, sound, tail. `Relays left target
//!   outline old new` says that the reader's file is some sound in the outline, and that what was written is made of
//!   that sound; `RelaysPrefix left target outline old new fault` that a prefix of it was written, if the file is one,
//!   and after a failed write not all of it (`specs/Relays.antt`).
//!
//! What it promises: Ok means that the reader's file is the outline with some sound, however its reads are cut, and
//! that every such file holds what the outline describes. A file that is refused holds no recording.
//!
//! ```text
//! let mut inlet = Inlet::new(file);
//! let outline = read_outline(alloc, &mut inlet)?;    // what the file holds beside the bits of its sound
//!
//! let target = NewFile { interleaving: Interleaving::Bytes, head: &head, tail: &tail };
//! relay(alloc, &outline, &target, &mut again, &mut outlet)?;    // the same sound, interleaved by bytes
//! ```
#![tactic(auto)]

mod cause;
mod fault;
mod header;
mod keeper;
mod keeping;
mod laws;
mod naming;
mod nothing;
mod outline;
mod part;
mod passing;
mod prefix;
mod reader;
mod relaying;
mod relaying_sink;
mod sink;
mod taking;
mod writing;

pub use fault::{StreamFault, Unread};
pub use keeper::Keeper;
pub use keeping::{Kept, read_stretches};
pub use laws::accepted_files_state_one_sound;
pub use outline::{Outline, read_outline};
pub use part::SoundPart;
pub use prefix::{Prefix, read_prefix};
pub use reader::can_fail;
pub use relaying::{NewFile, relay};
pub use sink::SoundSink;
pub use taking::{read_into, read_named};
pub use writing::put;
