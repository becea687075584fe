//! Whole-number decimation of one-bit sound.
//!
//! A [`Taps`] holds a finite impulse response filter and how its sums become samples. [`decimate`] returns the samples
//! of a channel, [`sample`] one of them, [`sum_at`] the sum before rounding, and [`fill_sums`] such sums at a run of
//! places.
//!
//! Contracts use these definitions, over whole numbers without bounds: `conv h bits n` is the convolution of taps with
//! the signal of stored bits (1 counts +1, 0 counts -1, nothing outside). `rounded` and `round_clip` say how a sum is
//! rounded and clipped, and `samples` lists the samples of a decimator. What the code returns is these values for every
//! input: no sum overflows, because the absolute values of the taps add up to at most `2^30`.
//!
//! A law for whoever plays from a place on: [`rest_is_played`]. The samples of a channel's rest are the whole's.
//!
//! ```text
//! let taps = Taps::new(alloc, &[1, 2, 3, 4], 8, 3, 0, 16)?;
//! let bits = Bits::from_packed(alloc, &[0xf0], 8)?;
//! decimate(alloc, &taps, &bits)?        // [10]
//! ```
#![tactic(auto)]

mod blocks;
mod convolution;
mod decimator;
mod fault;
mod kernel;
mod lanes;
mod laws;
mod lookup;
mod rounding;
mod row_sums;
mod source;
mod stream;
mod strides;
mod tables;
mod taps;
mod tiles;

pub use convolution::sum_at;
pub use decimator::{decimate, sample};
pub use fault::TapsFault;
pub use kernel::{Kernel, decimate_with};
pub use laws::rest_is_played;
pub use stream::Stream;
pub use tables::Tables;
pub use taps::{MAX_FACTOR, MAX_SHIFT, MAX_TAP_SUM, MAX_TAPS, Taps};
pub use tiles::{fill_sums, push_part};
