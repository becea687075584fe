//! Where a file holds its sound, as its first bytes say.

use crate::interleaving::Interleaving;

/// The sound of a file before its bytes are read.
#[derive(Clone, Copy, PartialEq, Eq)]
pub struct Sound {
    /// Hertz.
    pub rate: u32,
    /// How many channels there are.
    pub channels: usize,
    /// How many bits each channel has.
    pub count: usize,
    /// The place of the first sound byte in the file.
    pub start: usize,
    /// How many sound bytes the channels take.
    pub size: usize,
    /// How the channels are interleaved.
    pub interleaving: Interleaving,
}

/// What the first bytes of a file say about its sound.
#[derive(Clone, Copy, PartialEq, Eq)]
pub enum SoundAt {
    /// They don't yet hold the header of the sound's chunk.
    More,
    /// No file that begins like this is accepted.
    Refused,
    /// Where the sound is, and what it is.
    Found(Sound),
}
