//! A player without a filter: its file is pushed, and the bits of its sound are pulled. What it holds between two calls.

ghost use Rattle.std.specs.Prelude.{◌≡◌, [], None, List, ℕ};
ghost use Rattle.dsdarc_c.specs.Bare.{IsBare, bare_waiting};
ghost use Rattle.dsdarc_c.specs.BareWhole.{PlaysBits};
ghost use Rattle.dsdarc_c.specs.Joined.{own_layout};

use dsd_bits::{BitOrder, Sound};
use native_core::{BitRun, Layout};
use std::alloc::Global;

/// A player without a filter.
#[derive(Drop)]
pub(crate) struct Bare {
    /// How bits are given, once that is chosen.
    pub(crate) layout: Layout,
    /// Where in the file the next byte is.
    pub(crate) place: usize,
    /// What is before the sound.
    pub(crate) header: Vec<u8>,
    /// How far the file has come.
    pub(crate) stage: BareStage,
    /// The bytes of frames that are due.
    pub(crate) pending: Vec<u8>,
    /// How many of them were pulled.
    pub(crate) pulled: usize,
    /// The sound, once it is known.
    pub(crate) stated: Option<Sound>,
}

/// How far a file has come.
#[derive(Drop)]
pub(crate) enum BareStage {
    /// Its prefix doesn't state its sound yet. The chunks before this place were walked, and need not be again.
    Header(usize),
    /// This sound comes next. How it is given isn't chosen yet.
    Open(Sound),
    /// The bits of this sound are given.
    Sound(Sound, BitRun),
    /// This sound was given; these bytes are kept of what is after it.
    After(Sound, Vec<u8>),
    /// A call was refused.
    Failed,
}

impl Bare {
    /// A player before the first byte of a file.
    pub(crate) fn new(alloc: Global) -> Bare
        ensures keeps { IsBare result }
        // Nothing of any file was pushed yet.
        ensures plays { (file : List ℕ) → PlaysBits file 0 [] result }
        ensures place { result.place ≡ 0 }
        ensures stated { result.stated ≡ None }
        ensures waits { bare_waiting result ≡ [] }
        ensures stage { result.stage ≡ BareStage.Header 16 }
        ensures layout { result.layout ≡ own_layout }
    {
        Bare {
            layout: Layout::Bytes(BitOrder::MostFirst),
            place: 0,
            header: Vec::new(alloc),
            stage: BareStage::Header(16),
            pending: Vec::new(alloc),
            pulled: 0,
            stated: None,
        }
    }
}
