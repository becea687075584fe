//! What a channel of a master is asked to be.

use crate::part::Part;
use heard_core::Audible;

/// What a channel is asked to be. Its contracts are of values within the limits (`IsAsked`).
#[derive(Clone, Copy)]
pub struct Asked<'a> {
    /// Full scale of decoded sound: 1 to `2^28`.
    pub unit: u32,
    /// The low-pass that passes what can be heard.
    pub audible: &'a Audible,
    /// Places at multiples of it are judged: 1 to 64.
    pub every: usize,
    /// The clips as this channel has them, at most 1024; at most 64 have any one place.
    pub parts: &'a [Part<'a>],
}
