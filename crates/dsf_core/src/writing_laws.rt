//! How writing and reading are related. The function does nothing: a caller's proof cites what it ensures.

ghost use Rattle.dsf_core.specs.ReadAgain.{WrittenReadAgain};

use dsd_bits::laced_blocks_are_read_again;

/// A file that was written for a recording, of fewer than `2^63` bytes, holds that recording in the same order of bits:
/// the same rate, channels, layout and tag, the IDs that reading gives, and no marks and no kept chunks.
pub fn written_is_read_again()
    ensures { WrittenReadAgain }
{
    laced_blocks_are_read_again();
}
