//! How the words of the contracts are related. The functions do nothing: a caller's proof cites what they ensure.

ghost use Rattle.dsdiff_core.specs.Laws.{FormEnds, FoundIsStated, HeaderEndsAtSound, OneRecording, OtherSound, SoundHasHead, SoundIsStated};

/// A file holds at most one recording.
pub fn one_recording()
    ensures { OneRecording }
{}

/// The bytes of the sound may be replaced by as many others: a file that is accepted stays accepted, and one that is
/// refused stays refused. The channels are then these bytes, and all else is the same.
pub fn bytes_of_sound_do_not_matter()
    ensures { OtherSound }
{}

/// A file that is accepted holds the header of its sound: [`crate::sound_at`] of the whole file never asks for more
/// bytes.
pub fn accepted_files_have_a_head()
    ensures { SoundHasHead }
{}

/// [`crate::sound_at`] finds a sound exactly if the first bytes of the file describe it; this is stated in lists of
/// chunks.
pub fn what_is_stated_is_found()
    ensures { FoundIsStated }
{}

/// A file that holds a recording describes its sound.
pub fn accepted_files_state_their_sound()
    ensures { SoundIsStated }
{}

/// If the first bytes of a file are cut where the sound starts, they describe the same sound: the bytes from there on
/// are not needed.
pub fn header_ends_at_sound()
    ensures { HeaderEndsAtSound }
{}

/// Bytes after the form do not matter, if its last pad is there: with them the file holds a recording exactly if it
/// does without them, and the same one.
pub fn bytes_after_the_form_do_not_matter()
    ensures { FormEnds }
{}
