//! How the words of the contracts are related. The functions do nothing: a caller's proof cites what they ensure.

ghost use Rattle.form_core.specs.Laws.{HeldIsOpened, WrittenIsRead};
ghost use Rattle.form_core.specs.Parts.{FormsWrittenInParts};

/// A file holds exactly what reading it in order returns.
pub fn held_is_opened()
    ensures { HeldIsOpened }
{}

/// The file of some channels is what [`crate::ends_in`] returns, put around their sound bytes. It returns the same for
/// any recording with as many channels and the same other parts.
pub fn written_in_parts()
    ensures { FormsWrittenInParts }
{
    dsdiff_core::written_in_parts();
}

/// A file that was written for a recording, of fewer than `2^63` bytes, holds the recording's sound, if the recording
/// obeys the rules of one ([`crate::has_shape`]) and its parts fit a file's fields ([`crate::fields_fit`]). This also
/// holds for a recording that is not a value in memory.
pub fn written_is_read()
    ensures { WrittenIsRead }
{
    dsdiff_core::written_is_read_again();
    dsf_core::written_is_read_again();
}
