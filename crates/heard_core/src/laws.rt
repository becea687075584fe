//! The law of windows. The function does nothing: a caller's proof cites what it ensures.

ghost use Rattle.heard_core.specs.Laws.{WindowsAreResiduals};

/// The law of windows: the residuals by windows of a stretch of errors are the residuals at the places that the windows'
/// middles meet, if the stretch has a 0 where a place is outside of the errors.
pub fn windows_are_residuals()
    ensures { WindowsAreResiduals }
{}
