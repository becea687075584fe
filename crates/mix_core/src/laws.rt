//! How the words of the contracts are related. The functions do nothing: a caller's proof cites what they ensure.

ghost use Rattle.mix_core.specs.Laws.{OneMix, ReadAsSaid};

/// A text states at most one mix.
pub fn one_mix()
    ensures { OneMix }
{}

/// Reading in order ends with a mix exactly if the text states it.
pub fn read_as_said()
    ensures { ReadAsSaid }
{}
