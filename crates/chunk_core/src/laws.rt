//! How the words of the contracts are related. The functions do nothing: a caller's proof cites what they ensure.

ghost use Rattle.chunk_core.specs.Laws.{OneList, SpansAgain, SpansFound, SpelledAgain};

/// Bytes are the bytes of at most one list of chunks.
pub fn one_list()
    ensures { OneList }
{}

/// Chunks that are written one after the other are read as these chunks.
pub fn spelled_again()
    ensures { SpelledAgain }
{}

/// The spans that are found in a range are the places of its chunks.
pub fn spans_found()
    ensures { SpansFound }
{}

/// The chunks of a range are found at their places, and are the chunks there.
pub fn spans_again()
    ensures { SpansAgain }
{}
