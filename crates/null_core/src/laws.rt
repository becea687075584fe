//! How the words of the contracts are related. The functions do nothing: a caller's proof cites what they ensure.

ghost use Rattle.null_core.specs.Laws.{AlikeAreJudgedAlike, ExcerptsSoundAlike, GreatestIsLeast, StretchesTellNulls};

/// A channel nulls to a residual exactly if none of its stretches has a greater one. So the greatest residual of them all
/// is the least one to which it nulls.
pub fn stretches_tell_nulls()
    ensures each { StretchesTellNulls }
    ensures greatest { GreatestIsLeast }
{}

/// Parts that hold the bits that their sound needs sound like those that hold all bits of their takes.
pub fn excerpts_sound_alike()
    ensures { ExcerptsSoundAlike }
{}

/// Whatever is judged of what is asked for is judged of all that asks for the same.
pub fn alike_are_judged_alike()
    ensures { AlikeAreJudgedAlike }
{}
