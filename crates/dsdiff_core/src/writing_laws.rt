//! How writing and reading are related. The functions do nothing: a caller's proof cites what they ensure.

ghost use Rattle.dsdiff_core.specs.ReadAgain.{WrittenInParts, WrittenReadAgain};

use chunk_core::spelled_again;
use dsd_bits::laced_channels_are_read_again;

/// A file that was written for a recording, of fewer than `2^63` bytes, holds that recording: the same rate, channels,
/// IDs, marks and kept chunks, the usual layout for the number of channels, and no tag.
pub fn written_is_read_again()
    ensures { WrittenReadAgain }
{
    spelled_again();
    laced_channels_are_read_again();
}

/// The file of channels of whole bytes is what [`crate::write_head`] returns, then their bytes, then what
/// [`crate::write_tail`] returns, for any recording that is the same but for its channels.
pub fn written_in_parts()
    ensures { WrittenInParts }
{}
