//! WAVE files of integer samples, written whole or in parts.
//!
//! A file is one RIFF chunk of the type `WAVE` (Microsoft and IBM, Multimedia Programming Interface and Data
//! Specifications 1.0, PCM format): a `fmt ` chunk, and a `data` chunk of the samples, frame by frame, in two's
//! complement. All numbers have the lowest byte first. One zero byte follows an odd number of sample bytes. The RIFF
//! chunk's size counts it, the `data` chunk's does not.
//!
//! The `fmt ` chunk has 16 bytes for samples of 16 bits in one or two channels. Otherwise it has 40, in the form that
//! Microsoft requires there (WAVEFORMATEXTENSIBLE): with the number of valid bits of a sample, the subformat of integer
//! samples, and a channel mask of 0, which assigns no channel to a loudspeaker.
//!
//! A [`WaveSpec`] describes 1 to 6 channels of 16 or 24 bits at 1 to 6,250,000 frames per second. A [`Pcm`] holds such
//! samples, and [`write`] returns their file. A caller without a list of samples writes the same file in parts:
//! [`push_header`], then [`push_sample`] for each frame and channel, then [`push_pad`].
//!
//! The words of the contracts:
//!
//! - `Pcm` is what the samples in memory hold, `IsPcm` and `IsWaveSpec` name the rules that samples and their
//!   description obey, and `IsSample width value` says that a value is in the range of a width (`specs/Contents.antt`).
//! - `header_size` of channels and width is the number of bytes before the samples. `data_size`, `pad_size`,
//!   `riff_size` and `file_size` of channels, width and frames are the other sizes in bytes. `FitsRiff` says that the
//!   RIFF chunk's size fits 32 bits (`specs/Sizes.antt`).
//! - `header`, `sample_bytes` and `pad_bytes` are the parts of a file, `wave_text` the whole file, if there is one
//!   (`specs/Texts.antt`).
//!
//! What it promises: what is written is exactly `wave_text`, and what is pushed is exactly the part of it. `TooLarge`
//! is returned exactly if the RIFF chunk's size would not fit 32 bits, for every number of frames. A refused push
//! leaves the bytes unchanged. [`parts_join`] carries the law that the parts make the whole.
//!
//! ```text
//! let pcm = Pcm::new(1, 352_800, 24, vec![in alloc; 10]?);
//! write(alloc, &pcm)?                        // 72 bytes
//! let mut file = Vec::new(alloc);            // the same
//! push_header(&mut file, 1, 352_800, 24, 1)?;
//! push_sample(&mut file, 24, 10)?;
//! push_pad(&mut file, 1, 24, 1)?;
//! ```
#![tactic(auto)]

mod fault;
mod head;
mod header;
mod pcm;
mod sound;
mod spec;
mod wide;
mod writing;

pub use fault::WaveFault;
pub use head::WaveHead;
pub use header::push_header;
pub use pcm::Pcm;
pub use sound::{push_frames, push_pad, push_sample};
pub use spec::WaveSpec;
pub use writing::{parts_join, sound_is_same, write};
