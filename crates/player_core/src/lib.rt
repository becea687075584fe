//! From sound to the frames of a RIFF WAVE file, in memory or from a reader to a writer.
//!
//! [`wave_of`] returns the file of a recording, made tile by tile. A [`PartPlayer`] takes the bytes of a sound piece by
//! piece, as a DSDIFF 1.5 or DSF 1.01 file holds them, and returns the bytes of each frame of a part as soon as its
//! place has come. It is fed the sound from a place on before which no tap of its first frame reads, and drops what it
//! gets before that frame and after its last. Of the sound it holds a part of one group of blocks, and what each
//! channel's filter still reads (`player.rt`). A [`PausedPart`] is what it holds beside its filter.
//!
//! [`play`] plays a range of the frames of a file ([`WaveRange`]), or all of them. `sound_core` reads the file and
//! passes its sound to a sink (`sink.rt`), which writes the frames piece by piece (`pieces.rt`) and the bytes around
//! them (`wave.rt`). It holds at most one block of 65,536 bytes of the sound, what a player holds, the bytes before the
//! sound, and those that follow it in a DSDIFF form, or the tag of a DSF file. A file that holds no recording is
//! refused with its first fault.
//!
//! [`play_between`] plays a file as a part of the recording that it makes with the sound before and after it: the frames
//! whose place lies in the file's own sound. Its sink (`joining.rt`) feeds the player what is before, each part of the
//! sound with a byte of each channel in turn, and what is after. Of what is before and after, it is given only what the
//! filter reaches ([`tail_is_enough`], [`head_is_enough`]). Tracks that follow each other meet ([`tracks_meet`]).
//!
//! The words of the contracts:
//!
//! - `frames d channels` is the samples of channels, frame by frame, `tile_of` some of them channel by channel
//!   (`specs/Frames.antt`), and `pcm` what is played of a recording (`specs/Samples.antt`).
//! - A group is for each channel in turn its neighbouring bytes in the form. `channel_byte` is where groups hold a
//!   channel's byte (`specs/Groups.antt`).
//! - `due_bytes d s bytes` is the bytes of the frames that are due after some sound bytes: those whose place is among
//!   the bits in the whole groups of them. `all_bytes` is the bytes of all frames (`specs/Due.antt`).
//! - `IsPlayerFed p bytes` says that a player was fed these bytes, `FeedsPlayer` what the next ones add, and
//!   `FinishesPlayer` what is left (`specs/PlayerView.antt`).
//! - `part_bytes d s bytes start stop` are the bytes of frames `start` to `stop - 1`, a slice of those of all frames
//!   (`specs/Parts.antt`). `IsPartOf d s start stop p` says that a player plays these, `IsPartFed p bytes` that it was
//!   fed these bytes from its start on (`specs/PartView.antt`).
//! - `file_around d s bytes` is a header, these bytes and a pad, `IsPlayed` what is played of a recording in a file
//!   (`specs/Laws.antt`).
//! - `IsInside range total` says that the frames of a range are among so many (`specs/Ranges.antt`).
//! - `PlaysBy d range file bytes` says that these bytes are the WAVE text of a range of the file's recording by this
//!   decimator, `Applies d range file fault` that a fault applies (`specs/Playing.antt`).
//! - `PlaysTo` says that what an inlet's file plays was written to an outlet, `PlaysReadTo` the same of the bytes that
//!   were read, and `WritesPrefixTo` that a prefix of it was written (`specs/Playing.antt`).
//! - `joined before own after` is the channels of three recordings, joined, `between_pcm` what is played of the second
//!   (`specs/Between.antt`), and `PlaysBetween head d rate before after file bytes` the text of a WAVE file of that.
//!   `AppliesBetween head d around file fault` says that a fault applies to a file between its neighbours.
//! - `Lags` says that what was written lags what was read by at most 131,072 bytes of the sound, as `KeepsUpBy` defines
//!   it (`specs/Pace.antt`).
//! - `OnOutlet held old new P` says that P holds of the bytes before and after a call (`specs/Outlets.antt`).
//! - `IsPlaying held first now s bytes` says what the sink has written after these bytes of a sound
//!   (`specs/Sinks.antt`).
//!
//! What it promises: whatever bytes a player was fed before, what [`PartPlayer::feed`] appends turns the bytes of the
//! part that were due into those that are due now, and what [`PartPlayer::finish`] appends turns them into those of all
//! of its frames. So the sizes of the pieces change nothing. For [`play`], Ok means that exactly the bytes that the
//! reader's file plays were written, however its reads are cut. A fault that is returned applies, and if it is one of
//! the file, it is the first. A file that can be played is refused only for memory, a device or the number of reads,
//! after a prefix of its WAVE file, which keeps up with the reading if that stops.
//!
//! Laws of ranges: [`whole_is_all`], the range of all frames is all that is played of a recording; [`parts_meet`],
//! parts that meet are one part; [`whole_is_a_part`]; [`part_has_its_frames`], a part has the bytes of its frames; and
//! [`part_is_played`], its WAVE text is a header of its own, these bytes, and the pad.
//!
//! Laws for those who write the file in parts: [`sound_is_played`], the WAVE text of a recording in a file is the
//! header, the bytes of all frames of its sound, and the pad; [`frames_fill_the_data`] and [`file_has_its_size`], their
//! sizes; [`nothing_is_due_at_first`]; and [`frames_of_a_prefix_come_first`], what is due after a prefix of the sound
//! is a prefix of all.
//!
//! ```text
//! let mut player = PartPlayer::new(alloc, &taps, sound, 0, 1000)?;
//! player.feed(&bytes[..100], &mut out)?;     // those of the 1000 frames that are due after 100 bytes
//! player.feed(&bytes[100..], &mut out)?;     // those that are due after all
//! player.finish(&mut out)?;                  // the rest of the 1000 frames
//!
//! let mut inlet = Inlet::new(file);
//! let mut outlet = Outlet::new(wave);
//! let count = play(alloc, &taps, WaveRange::whole(), &mut inlet, &mut outlet)?;    // so many bytes were written
//! ```
#![tactic(auto)]

mod between;
mod groups;
mod joining;
mod laws;
mod parts;
mod pausing;
mod piece;
mod pieces;
mod player;
mod playing;
mod range;
mod sink;
mod spec;
mod wave;
mod wave_file;

pub use between::play_between;
pub use joining::Neighbours;
pub use laws::{
    file_has_its_size, frames_fill_the_data, frames_of_a_prefix_come_first, head_is_enough,
    nothing_is_due_at_first, part_has_its_frames, part_is_played, parts_meet, sound_is_played,
    tail_is_enough, tracks_meet, whole_is_a_part, whole_is_all,
};
pub use parts::PartPlayer;
pub use pausing::PausedPart;
pub use playing::play;
pub use range::WaveRange;
pub use wave_core::WaveHead;
pub use wave_file::wave_of;
