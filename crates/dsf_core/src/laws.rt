//! How the words of the contracts are related. The functions do nothing: a caller's proof cites what they ensure.

ghost use Rattle.dsf_core.specs.Laws.{FoundIsStated, HeaderEndsAtSound, OneRecording, SoundDoesNotMatter, SoundHasHead, SoundIsStated};

/// A file holds at most one recording, in one order of bits.
pub fn one_recording()
    ensures { OneRecording }
{}

/// The bytes after the header of a file, which ends where its sound starts, may be replaced by as many others: a file
/// that is accepted stays accepted, and one that is refused stays refused. ([`crate::sound_at`] says which channels
/// they hold.)
pub fn bytes_of_sound_do_not_matter()
    ensures { SoundDoesNotMatter }
{}

/// A file that is accepted holds the header of its sound: [`crate::sound_at`] of the whole file never asks for more
/// bytes.
pub fn accepted_files_have_a_head()
    ensures { SoundHasHead }
{}

/// [`crate::sound_at`] finds a sound exactly if the header of the file describes it; this is stated field by field.
pub fn what_is_stated_is_found()
    ensures { FoundIsStated }
{}

/// A file that holds a recording describes its sound.
pub fn accepted_files_state_their_sound()
    ensures { SoundIsStated }
{}

/// If the first bytes of a file are cut where the sound starts, they describe the same sound: the bytes from there on
/// are not needed.
pub fn header_ends_at_sound()
    ensures { HeaderEndsAtSound }
{}
