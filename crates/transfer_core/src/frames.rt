//! The frames that are played of a recording.

ghost use Rattle.std.specs.Prelude.{◌≤◌};

/// The frames that are played of a recording.
#[derive(Clone, Copy)]
pub struct PlayedFrames {
    /// Frames a second.
    pub rate: u32,
    /// How many bits of a channel make a frame.
    pub factor: u32,
    /// How many frames there are.
    pub count: usize,
    ghost some: { 1 ≤ factor },
}
