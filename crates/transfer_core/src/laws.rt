//! Laws of what a file is converted to, and of files that differ in bytes of their sound. Each function does nothing: a
//! caller's proof cites what it ensures.

ghost use Rattle.transfer_core.specs.Laws.{ConvertedIsKept};
ghost use Rattle.transfer_core.specs.Unread.{SoundDoesNotMatter, UnreadDoNotMatter};

/// The law of converted files: what a file is converted to, of fewer than `2^63` bytes, keeps its sound, and all of its
/// recording if no part was dropped. The recording obeys the rules of one ([`form_core::has_shape`]), and its parts fit
/// a file's fields ([`form_core::fields_fit`]), as they do in memory.
pub fn converted_is_kept()
    ensures { ConvertedIsKept }
{
    dsdiff_core::written_is_read_again();
    dsf_core::written_is_read_again();
}

/// The law of unread bytes: of two files of one length that differ only in bytes of the sound which hold no bit that a
/// frame of a range reads, that range plays the same.
pub fn unread_bytes_do_not_matter()
    ensures { UnreadDoNotMatter }
{}

/// The law of the sound: two files of one length that differ only in bytes of the sound have the same first fault, and
/// the same outlines.
pub fn sound_does_not_matter()
    ensures { SoundDoesNotMatter }
{}
