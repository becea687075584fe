//! Laws of what is written and read. The function does nothing: a caller's proof cites what it ensures.

ghost use Rattle.dop_core.specs.Laws.{WrittenReadAgain};

/// The law of the round trip: the file that is written of channels at a rate is read as these channels at this rate, bit
/// for bit.
pub fn written_is_read_again()
    ensures { WrittenReadAgain }
{}
