//! Why a recording is not played as DoP samples, and why a file of such samples is not read.

use crate::line::{Line, NO_ID, NONE, Said};
use crate::recordings::sound_of;
use dop_core::DopFault;
use dsd_bits::{GREATEST_RATE, LEAST_RATE, MOST_CHANNELS, Sound};
use sound_core::StreamFault;
use std::rt::Files;

impl Line {
    /// Adds why a recording is not played as DoP samples.
    pub(crate) fn explain_play_dop<R: Files>(&mut self, rt: &R, input: &str, fault: StreamFault) {
        match fault {
            StreamFault::TurnLimit => self.named(input, "IN", " has no end: name a file"),
            StreamFault::RateNotDivided | StreamFault::TooLarge => {
                if let Some(sound) = sound_of(rt, self.alloc, input) {
                    self.named(input, "IN", "");
                    match fault {
                        StreamFault::TooLarge => self.say(LARGE, [size_of(sound), 0, 0]),
                        _ => self.say(NOT_DIVIDED, [sound.rate as u64, 0, 0]),
                    }
                }
            }
            _ => {}
        }
    }

    /// Adds why a file is not one of DoP samples.
    pub(crate) fn explain_dop<R: Files>(&mut self, rt: &R, name: &str, fault: DopFault) {
        self.named(name, "IN", ": ");
        if let DopFault::NotWave = fault {
            self.explain_kind(rt, name, "WAVE file");
        } else {
            let (text, id, numbers) = said_of_dop(fault);
            self.say_id(text, id, numbers);
        }
    }

    /// Adds of a file that was played as DoP samples, at this rate of frames, for what it is.
    pub(crate) fn explain_dop_played(&mut self, rate: u64) {
        self.say(PLAYED, [rate.saturating_mul(16), 0, 0]);
    }
}

// How many bytes the DoP samples of a sound are.
fn size_of(sound: Sound) -> u64 {
    let frames = (sound.count as u64).div_ceil(16);
    frames
        .saturating_mul(3)
        .saturating_mul(sound.channels as u64)
}

fn said_of_dop(fault: DopFault) -> Said {
    match fault {
        DopFault::NoData => (MISSING, *b"data", NONE),
        DopFault::NoFormat => (NO_FORMAT, NO_ID, NONE),
        DopFault::NotPcm24 => (NOT_PCM, NO_ID, NONE),
        DopFault::BadChannelNumber(number) => (CHANNELS, NO_ID, [number as u64, CHANNEL, 0]),
        DopFault::BadRate(rate) => (RATE, NO_ID, [rate as u64, LEAST, GREATEST]),
        DopFault::NoSize(_) => (NO_SIZE, NO_ID, NONE),
        DopFault::DataCut { size, there } => (CUT, NO_ID, [size as u64, there, 0]),
        DopFault::PartFrame => (PART, NO_ID, NONE),
        DopFault::BadMarker(frame) => (MARKER, NO_ID, [frame, 0, 0]),
        DopFault::CountCut => (COUNT_CUT, NO_ID, NONE),
        DopFault::BadCount(count) => (COUNT, NO_ID, [count, 0, 0]),
        DopFault::NotWave | DopFault::Memory => ("", NO_ID, NONE),
    }
}

const LEAST: u64 = LEAST_RATE as u64 / 16;

const GREATEST: u64 = GREATEST_RATE as u64 / 16;

const CHANNEL: u64 = MOST_CHANNELS as u64;

const LARGE: &str = " would make a WAVE file of {b0}, and 4,294 MB are the most: split it first";

const NOT_DIVIDED: &str =
    " has {c0} Hz, which 16 does not divide, the bits of a sample: DoP has no place for it";

const PLAYED: &str =
    "; DoP of {n0} Hz, for a device that knows it, and noise to any other: convert --dop takes the bits out again";

const MISSING: &str = "it has no chunk {i0}: fetch it again";

const NO_FORMAT: &str = "it has no whole chunk \"fmt \" before its samples: fetch it again";

const NOT_PCM: &str =
    "its samples are not integers of 24 bits, as those of DoP are: it is no DoP, or was changed";

const CHANNELS: &str = "it has {n0} channels, and 1 to {n1} are supported";

const RATE: &str =
    "its rate is {c0} Hz, and {c1} to {c2} Hz are supported, a sixteenth of the rate of the bits";

const NO_SIZE: &str =
    "its header does not say how many samples there are, as one that a pipe got: write it to a file";

const CUT: &str = "its samples have {b0} by their size, and {b1} are there: fetch it again";

const PART: &str = "its samples do not end with a whole frame: fetch it again";

const MARKER: &str =
    "frame {c0} does not have the marker of DoP: it is no DoP, or its samples were changed, as by a volume \
     control";

const COUNT_CUT: &str = "its chunk \"DoPn\" with the number of bits is not whole: fetch it again";

const COUNT: &str =
    "its chunk \"DoPn\" says that each channel has {c0} bits, which do not end in the last frame";
