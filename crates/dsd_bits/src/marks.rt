//! What a recording holds besides its sound: marks, and chunks that are kept as they are.

/// A mark of an edited master in DSDIFF 1.5: a time, what it means, and a text.
#[derive(PartialEq, Eq, Drop)]
pub struct Mark {
    /// Whole hours.
    pub hours: u16,
    /// Whole minutes.
    pub minutes: u8,
    /// Whole seconds.
    pub seconds: u8,
    /// Samples; each is one bit of each channel.
    pub samples: u32,
    /// Samples to add to the time. It may be negative.
    pub offset: i32,
    /// What is marked, such as the start of a track.
    pub kind: u16,
    /// Which channel the mark is for; 0 is all.
    pub channel: u16,
    /// Flags of the track.
    pub flags: u16,
    /// The mark's text.
    pub text: Vec<u8>,
}

/// Where a DSDIFF 1.5 file holds a kept chunk.
#[derive(Clone, Copy, PartialEq, Eq)]
pub enum Place {
    /// In the sound's property chunk.
    Property,
    /// In the chunk of the edited master information.
    Master,
    /// In the form itself.
    Form,
}

/// A chunk of unknown meaning, which is kept as its bytes.
#[derive(Drop)]
pub struct Other {
    /// Where the file holds it.
    pub place: Place,
    /// Its ID.
    pub id: [u8; 4],
    /// Its bytes, without header and pad.
    pub bytes: Vec<u8>,
}
