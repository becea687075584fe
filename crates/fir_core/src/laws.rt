//! The law of places to begin at. The function does nothing: a caller's proof cites what it ensures.

ghost use Rattle.fir_core.specs.Rests.{RestIsPlayed};

/// The law of rests: if the bits before sample `m` are left out, sample `j` of what is left is sample `m + j` of the
/// whole, for each `j` whose taps read nothing before the rest. So a kernel or a [`Stream`](crate::Stream) may begin
/// at any sample, if it gets the bits that this sample's taps read, and what it gives of these is dropped.
pub fn rest_is_played()
    ensures { RestIsPlayed }
{}
