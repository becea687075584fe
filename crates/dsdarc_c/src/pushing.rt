//! A player whose file is pushed piece by piece, and whose frames are pulled: what it holds between two calls.

ghost use Rattle.std.specs.Prelude.{◌≡◌, [], None, List, ℕ};
ghost use Rattle.dsdarc_c.specs.Pushing.{IsPushing};
ghost use Rattle.dsdarc_c.specs.Whole.{PlaysPushedFile, waiting};

use dsd_bits::Sound;
use fir_core::Taps;
use player_core::PausedPart;
use std::alloc::Global;

/// A player whose file is pushed.
#[derive(Drop)]
pub(crate) struct Pushing {
    /// The filter.
    pub(crate) taps: Taps,
    /// Where in the file the next byte is.
    pub(crate) place: usize,
    /// What is before the sound.
    pub(crate) header: Vec<u8>,
    /// How far the file has come.
    pub(crate) stage: Stage,
    /// The bytes of frames that are due.
    pub(crate) pending: Vec<u8>,
    /// How many of them were pulled.
    pub(crate) pulled: usize,
    /// What is played, once it is known.
    pub(crate) stated: Option<Sound>,
}

/// How far a file has come.
#[derive(Drop)]
pub(crate) enum Stage {
    /// Its prefix doesn't state its sound yet. The chunks before this place were walked, and need not be again.
    Header(usize),
    /// So many bytes of this sound are left to be played.
    Sound(Sound, PausedPart, usize),
    /// This sound is played; these bytes are kept of what is after it.
    After(Sound, Vec<u8>),
    /// A call was refused.
    Failed,
}

impl Pushing {
    /// A player before the first byte of a file.
    pub(crate) fn new(alloc: Global, taps: Taps) -> Pushing
        ensures keeps { IsPushing result }
        // Nothing of any file was pushed yet.
        ensures plays { (file : List ℕ) → PlaysPushedFile file 0 [] result }
        ensures place { result.place ≡ 0 }
        ensures stage { result.stage ≡ Stage.Header 16 }
        ensures header { result.header.items ≡ [] }
        ensures stated { result.stated ≡ None }
        ensures waits { waiting result ≡ [] }
        ensures taps { result.taps ≡ taps }
    {
        Pushing {
            taps,
            place: 0,
            header: Vec::new(alloc),
            stage: Stage::Header(16),
            pending: Vec::new(alloc),
            pulled: 0,
            stated: None,
        }
    }
}
