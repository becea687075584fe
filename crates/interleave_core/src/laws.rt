//! How segments of sound are related. The function does nothing: a caller's proof cites what it ensures.

ghost use Rattle.interleave_core.specs.Reinterleaving.{GroupsJoin};

/// Sound bytes that consist of whole groups of 4096 bytes (32768 bits) a channel and further bytes can be
/// re-interleaved in two parts: the result for all of them is the result for the groups, then the result for the
/// further bytes.
pub fn groups_join()
    ensures { GroupsJoin }
{}
