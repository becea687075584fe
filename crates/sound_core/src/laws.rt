//! How the words of the contracts are related. The function does nothing: a caller's proof cites what it ensures.

ghost use Rattle.sound_core.specs.Laws.{OneSoundIsStated};

/// A file that holds a recording describes exactly one sound, so what is said of each sound that it describes is said
/// of one.
pub fn accepted_files_state_one_sound()
    ensures { OneSoundIsStated }
{}
