//! Which frames of a sound are played, and to which form of file.

ghost use Rattle.std.specs.Prelude.{◌≡◌};
ghost use Rattle.player_core.specs.Ranges.{whole_range};

use wave_core::WaveHead;

/// Frames of a sound: all of them, or some that follow each other; and how their file begins.
#[derive(Clone, Copy)]
pub struct WaveRange {
    /// The first frame, counted from 0.
    pub start: usize,
    /// The frame after the last one. Without it the range goes to the end of the sound.
    pub stop: Option<usize>,
    /// How the header of their file is written.
    pub head: WaveHead,
}

impl WaveRange {
    ghost use Rattle.std.specs.Prelude.{◌≡◌};
    ghost use Rattle.player_core.specs.Ranges.{whole_range};

    /// All frames, in a RIFF WAVE file without loudspeakers.
    pub fn whole() -> WaveRange
        ensures { result ≡ whole_range }
    {
        WaveRange {
            start: 0,
            stop: None,
            head: WaveHead::plain(),
        }
    }
}
