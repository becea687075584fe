//! What is known of the first fault of a file that holds no recording.

use dsdiff_core::FaultyStart;
use form_core::ReadFault;

/// What is known of the first fault of a file that holds no recording.
#[derive(Clone, Copy)]
pub(crate) enum Cause {
    /// Nothing: what was to take its sound refused that.
    Unknown,
    /// It is this one.
    Fault(ReadFault),
    /// The head of a DSDIFF file's sound is at this place of the buffered bytes, and the chunks before it don't say
    /// what it is. All that was read is buffered.
    Unstated(usize),
    /// The head of a chunk is at this place of the buffered bytes, and its data go past the DSDIFF form. All that was
    /// read is buffered.
    PastForm(usize),
    /// The first chunks of the DSDIFF form tell that its file holds no recording. All that was read is buffered.
    Faulty(FaultyStart),
    /// None of the chunks of the DSDIFF form is a sound. All that was read is buffered.
    NoSound,
}
