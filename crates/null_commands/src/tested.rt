//! What was heard of a master's file.

ghost use Rattle.std.specs.Prelude.{◌≤◌};

use form_core::ReadFault;
use null_core::Heard;

/// What was heard of a master's file.
#[derive(Drop)]
pub struct Tested {
    /// What is heard of the master, or the first fault of a file that holds no recording.
    pub heard: Result<Heard, ReadFault>,
    /// Full scale of residuals: twice the mix's unit times the sum of what can be heard.
    pub full: u64,
    pub ghost some: { 1 ≤ full },
}
