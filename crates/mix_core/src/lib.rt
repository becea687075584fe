//! Mix texts: which clips of takes make a mix, and how a master is compared with it.
//!
//! A mix text is a TOML document with one table:
//!
//! ```text
//! [mix]
//! unit = 134217728                # full scale of decoded sound, 1 to 2^28
//! audible = [-3, 10, -3]          # the taps of a low-pass, see below
//! limit = 1000                    # the greatest residual that is accepted, 0 to 2^63 - 1
//! every = 1                       # places at multiples of it are judged, 1 to 64; 1 if left out
//! takes = ["a.dff", "b.dff"]      # 1 to 16 names
//!
//! [[mix.decoder]]                 # 1 to 16 decoders
//! taps = [1, 2, 1]                # the taps of a low-pass, see below
//!
//! [[mix.clip]]                    # 1 to 1024 clips
//! take = 0                        # a take's number, counted from 0
//! start = 0                       # the bit of the take at the clip's first place, 0 to 2^36
//! at = 0                          # this place in the mix, 0 to 2^36
//! length = 16                     # places, at least 1; the clip ends at most at 2^36
//! gain = [[8, 16777216], [16, 0]] # 1 to 4096 points, each a place and the gain there; full gain if left out
//!
//! [[mix.clip]]
//! take = 1
//! decoder = 0                     # a decoder's number, counted from 0; 0 if left out
//! start = 8
//! at = 8
//! length = 16
//! gains = [[[0, 0], [8, 16777216]], [[0, 0], [4, 16777216]]] # such points for each channel, instead of `gain`
//! ```
//!
//! A low-pass has an odd number of taps, at most 65,535. The absolute values of a decoder's taps add up to at most
//! `2^28`, those of `audible` to at most `2^31 - 1`, and the taps of `audible` to more than 0. The places of points rise,
//! from 0 to `2^36`, and their gains are from `-2^26` to `2^26`. At most 64 clips have any one place. Tables have no
//! other keys. Booleans, floats and dates are no integers.
//!
//! [`read`] returns the [`Mix`] that a text states, or its first fault ([`ProjectFault`]). How many lists `gains` has is
//! for the caller to compare with the takes.
//!
//! The words of its contracts:
//! - `IsMix bytes x` (`specs/Meaning.antt`): the bytes are a text that states the mix `x`. It is defined by what the
//!   tables contain (`IsMixTable`, `IsDecoder`, `IsClip`), without any reading.
//! - `IsMixing`, `IsClipWithin` and `AreApart` (`clip_core`): the limits. Every [`Mix`] is within them.
//! - `mix_at bytes` (`specs/ReadingMix.antt`): the reading in a fixed order, which ends with the mix or the first fault.
//!   Its steps are `decoder_of` and `clip_of` (`specs/ReadingMix.antt`), `gains_at` (`specs/ReadingGains.antt`), numbers
//!   and taps (`specs/Reading.antt`), and those of `project_core`.
//! - `mix_content` (`clip_core`): what is held, as lists and numbers.
//! - `Gives` (`project_core`): a function returns what a reading ends with, or `Memory`.
//!
//! What it promises: what is read is what the text states. Whatever a text states is read. Any other text is refused
//! with the first fault in the stated order. Only `Memory` may be returned instead of any of these. A text states at
//! most one mix ([`one_mix`]), and reading in order ends with a mix exactly if the text states it ([`read_as_said`]).
//!
//! ```text
//! let mix = read(alloc, text)?;
//! mix.takes              // the takes' names
//! mix.clips              // the clips, each with its place and its gains
//! ```
#![tactic(auto)]

mod clip_table;
mod gains;
mod laws;
mod mix_table;
mod numbers;
mod overlap;
mod reading;

pub use clip_core::{Clip, Gains, Mix, Point};
pub use clip_table::CLIP_KEYS;
pub use gains::{MAX_GAIN, MAX_POINTS};
pub use laws::{one_mix, read_as_said};
pub use mix_table::{
    DECODER_KEYS, MAX_CLIPS, MAX_DECODER_SUM, MAX_DECODERS, MAX_EVERY, MAX_LIMIT, MAX_UNIT,
    MIX_KEYS,
};
pub use numbers::{MAX_AUDIBLE_SUM, MAX_TAPS};
pub use overlap::MAX_OVERLAPPING;
pub use project_core::ProjectFault;
pub use reading::{TEXT_KEYS, read};
