//! A law of sums. The function does nothing: a caller's proof cites what it ensures.

ghost use Rattle.transfer_commands.specs.Summing.{KeptSoundHasSameSums};

/// The law of kept sounds: the sums of a file and those of what it was converted to say the same, since that keeps its
/// sound.
pub fn kept_sound_has_same_sums()
    ensures { KeptSoundHasSameSums }
{}
