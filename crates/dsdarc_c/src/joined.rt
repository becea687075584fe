//! A player of files that follow each other: what it holds between two calls.

ghost use Rattle.std.specs.Prelude.{◌≡◌, [], List, ℕ};
ghost use Rattle.joined_core.specs.Givers.{Way};
ghost use Rattle.dsdarc_c.specs.Joined.{IsJoined, joined_waiting};
ghost use Rattle.dsdarc_c.specs.JoinedWhole.{PlaysJoined};

use crate::bare::Bare;
use joined_core::Giver;
use std::alloc::Global;

/// A player of files that follow each other.
#[derive(Drop)]
pub(crate) struct Joined {
    /// The file: its bits come from it as a byte of each channel in turn.
    pub(crate) bare: Bare,
    /// What is given of the recording that the files make.
    pub(crate) stage: JoinStage,
    /// What is given, once it is chosen.
    pub(crate) shape: Option<Shape>,
    /// How many bits of each channel the files have whose sound started.
    pub(crate) count: usize,
    /// The bytes of frames that are due.
    pub(crate) pending: Vec<u8>,
    /// How many of them were pulled.
    pub(crate) pulled: usize,
}

/// What is given of the recording that the files make.
#[derive(Drop)]
pub(crate) enum JoinStage {
    /// It isn't chosen yet how the sound is given.
    Choosing,
    /// The frames that are due.
    Giving(Giver),
    /// All frames were given.
    Ended(Giver),
    /// A call was refused.
    Failed,
}

/// What is given.
#[derive(Clone, Copy)]
pub(crate) struct Shape {
    /// The sample rate of the files, in hertz.
    pub(crate) rate: u32,
    /// How many channels there are.
    pub(crate) channels: usize,
    /// How many bits of a channel a frame has.
    pub(crate) unit: u32,
    /// How many bits a sample has.
    pub(crate) width: u32,
}

impl Joined {
    /// A player before the first byte of the first file.
    pub(crate) fn new(alloc: Global) -> Joined
        ensures keeps { IsJoined result }
        // Nothing of any file was pushed yet.
        ensures plays { (way : Way) (file : List ℕ) → PlaysJoined way [] file [] result }
        ensures place { result.bare.place ≡ 0 }
        ensures waits { joined_waiting result ≡ [] }
    {
        Joined {
            bare: Bare::new(alloc),
            stage: JoinStage::Choosing,
            shape: None,
            count: 0,
            pending: Vec::new(alloc),
            pulled: 0,
        }
    }
}
