//! What is heard: the sound of stored bits at every place, what a low-pass leaves of errors, and levels in decibels.
//!
//! A [`Decoder`] has tables of a low-pass that decodes bits to their sound, and an [`Audible`] the taps of one that passes
//! what can be heard. Contracts see both as their taps, and compute in whole numbers without bounds.
//!
//! The words of the contracts:
//! - `decoded taps bits n` is the sound at bit `n`: the convolution of the taps with the signal, the middle tap being at
//!   the bit (`specs/Sounds.antt`).
//! - `residual taps errors n` is the same of errors, which are 0 outside of their list. `window_residuals` are residuals
//!   by the windows of a stretch of errors (`specs/Residuals.antt`), which the law [`windows_are_residuals`] joins.
//! - `IsLevel value full k`: `k` hundredths of a decibel are the least that a value is at most, relative to full scale
//!   (`specs/Levels.antt`). It compares whole numbers, so no logarithm is computed.
//!
//! ```text
//! let decoder = Decoder::new(alloc, &[1, 2, 1])?;
//! decoder.decode(&bits, 0, &mut sound);          // the sound of the first bits
//! audible.residuals(&errors, 1, &mut residuals); // what can be heard of errors
//! hundredths(alloc, 28, 32)?                     // -115: -1.15 dB
//! ```
#![tactic(auto)]

mod bounds;
mod decibels;
mod decoder;
mod laws;
mod naturals;
mod piece;
mod products;
mod residuals;
mod sums;

pub use decibels::{hundredths, push_level};
pub use decoder::Decoder;
pub use laws::windows_are_residuals;
pub use residuals::Audible;
