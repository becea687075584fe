//! Projects.

use fir_core::Taps;
use splice_core::Splice;

/// What a project text states.
#[derive(Drop)]
pub struct Project {
    /// How a recording is played.
    pub decimate: Option<Taps>,
    /// How takes are cut together.
    pub splice: Option<Splice>,
}
