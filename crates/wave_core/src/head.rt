//! How the header of a WAVE file is written.

ghost use Rattle.std.specs.Prelude.{◌≡◌};
ghost use Rattle.wave_core.specs.Heads.{plain};

/// How the header of a WAVE file is written.
#[derive(Clone, Copy)]
pub struct WaveHead {
    /// Whether it has room for sizes of 64 bits: then a file of 4 GiB or more is RF64 (EBU Tech 3306), a smaller one
    /// RIFF WAVE with a chunk that readers ignore.
    pub is_wide: bool,
    /// The loudspeakers of the channels, as the bits of the channel mask; 0 for none. Without a format chunk of the
    /// second form it has no place.
    pub mask: u32,
}

impl WaveHead {
    ghost use Rattle.std.specs.Prelude.{◌≡◌};
    ghost use Rattle.wave_core.specs.Heads.{plain};

    /// RIFF WAVE without loudspeakers.
    pub fn plain() -> WaveHead
        ensures { result ≡ plain }
    {
        WaveHead {
            is_wide: false,
            mask: 0,
        }
    }
}
