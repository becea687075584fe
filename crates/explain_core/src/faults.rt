//! Why a file that begins as a recording is refused: its fault, in words.

use crate::line::{Line, NO_ID, NONE, Said};
use chunk_core::ChunkFault;
use dsd_bits::{BLOCK_BYTES, GREATEST_RATE, LEAST_RATE, MOST_BITS, MOST_CHANNELS};
use dsdiff_core::DsdiffFault;
use dsf_core::{CutSound, DsfFault, Misformat};

impl Line {
    /// Adds why a DSDIFF file is refused.
    pub(crate) fn explain_dsdiff(&mut self, fault: DsdiffFault) {
        let (text, id, numbers) = said_of_dsdiff(fault);
        self.say_id(text, id, numbers);
    }

    /// Adds why a DSF file is refused.
    pub(crate) fn explain_dsf(&mut self, fault: DsfFault) {
        let (text, id, numbers) = said_of_dsf(fault);
        self.say_id(text, id, numbers);
    }
}

fn said_of_dsdiff(fault: DsdiffFault) -> Said {
    match fault {
        DsdiffFault::FormCut { size, missing } => said_of_form(size, missing),
        DsdiffFault::Chunk(ChunkFault::HeadCut(at)) => (HEAD_CUT, NO_ID, [at as u64, 0, 0]),
        DsdiffFault::Chunk(ChunkFault::DataCut { place, id, size }) => {
            (DATA_CUT, id, [place as u64, size, 0])
        }
        DsdiffFault::NoVersion(None) => ("it has no chunk: fetch it again", NO_ID, NONE),
        DsdiffFault::NoVersion(Some(id)) => (NO_VERSION, id, NONE),
        DsdiffFault::BadVersion(bytes) => (VERSION, bytes, NONE),
        DsdiffFault::Twice(id) => ("it has the chunk {i0} twice", id, NONE),
        DsdiffFault::BadMark => (MARK, NO_ID, NONE),
        _ => said_of_property(fault),
    }
}

// What is wrong with the description of the sound, or with the sound.
fn said_of_property(fault: DsdiffFault) -> Said {
    match fault {
        DsdiffFault::NoProperty => (MISSING, *b"PROP", NONE),
        DsdiffFault::NoRate => (MISSING, *b"FS  ", NONE),
        DsdiffFault::NoChannels => (MISSING, *b"CHNL", NONE),
        DsdiffFault::NoCompression => (MISSING, *b"CMPR", NONE),
        DsdiffFault::Compressed(kind) if kind == *b"DST " => (DST, kind, NONE),
        DsdiffFault::Compressed(kind) => (COMPRESSED, kind, NONE),
        DsdiffFault::BadRate(rate) => (RATE, NO_ID, [rate as u64, LEAST, GREATEST]),
        DsdiffFault::BadChannelNumber(number) => (CHANNELS, NO_ID, [number as u64, CHANNEL, 0]),
        DsdiffFault::NoSound => ("it has no chunk \"DSD \": fetch it again", NO_ID, NONE),
        DsdiffFault::SoundBeforeProperty => (BEFORE, NO_ID, NONE),
        DsdiffFault::PartFrame { size, channels } => {
            let rest = size.checked_rem(channels as u64).unwrap_or(0);
            (PART, NO_ID, [size, channels as u64, rest])
        }
        DsdiffFault::TooLong { size, channels } => {
            let bytes = size.checked_div(channels as u64).unwrap_or(0);
            (LONG, NO_ID, [bytes.saturating_mul(8), BITS_MOST, 0])
        }
        _ => ("", NO_ID, NONE),
    }
}

fn said_of_form(size: u64, missing: u64) -> Said {
    if size < 4 {
        return (NO_FORM, NO_ID, [size, 0, 0]);
    }
    let length = size.saturating_add(12).saturating_sub(missing);
    (EARLY, NO_ID, [missing, length, 0])
}

fn said_of_dsf(fault: DsfFault) -> Said {
    match fault {
        DsfFault::HeadCut(length) => (CUT, NO_ID, [length, 0, 0]),
        DsfFault::BadFormat(found) => said_of_format(found),
        DsfFault::BadVersion(version) => (DSF_VERSION, NO_ID, [version as u64, 0, 0]),
        DsfFault::BadChannelNumber(number) => (CHANNELS, NO_ID, [number as u64, CHANNEL, 0]),
        DsfFault::BadRate(rate) => (RATE, NO_ID, [rate as u64, LEAST, GREATEST]),
        DsfFault::BadBits(bits) => (BITS, NO_ID, [bits as u64, 0, 0]),
        DsfFault::BadBlock(bytes) => (BLOCKS, NO_ID, [bytes as u64, BLOCK, 0]),
        DsfFault::TooLong(bits) => (LONG, NO_ID, [bits, BITS_MOST, 0]),
        DsfFault::DataCut(cut) => said_of_cut(cut),
        DsfFault::BadPointer {
            tag,
            end,
            length: None,
        } => (TAG, NO_ID, [tag, end, 0]),
        DsfFault::BadPointer {
            tag,
            end,
            length: Some(length),
        } => (TAG_IN, NO_ID, [tag, end, length]),
        DsfFault::NotDsf | DsfFault::Memory => ("", NO_ID, NONE),
    }
}

fn said_of_format(found: Misformat) -> Said {
    match found {
        Misformat::First(size) => (FIRST, NO_ID, [size, 0, 0]),
        Misformat::Format(id, size) => (SECOND, id, [size, 0, 0]),
        Misformat::Data(id, size) => (THIRD, id, [size, 0, 0]),
        Misformat::Kind(kind) => (KIND, NO_ID, [kind as u64, 0, 0]),
    }
}

fn said_of_cut(cut: CutSound) -> Said {
    let missing = cut.needed.saturating_sub(cut.there);
    let text = match cut.stated {
        _ if missing <= cut.fill => FILL,
        true => FEW,
        false => SHORT,
    };
    (text, NO_ID, [missing, cut.there, cut.needed])
}

const LEAST: u64 = LEAST_RATE as u64;

const GREATEST: u64 = GREATEST_RATE as u64;

const CHANNEL: u64 = MOST_CHANNELS as u64;

const BITS_MOST: u64 = MOST_BITS as u64;

const BLOCK: u64 = BLOCK_BYTES as u64;

const NO_FORM: &str =
    "its form has {b0} by its size, so no chunk: dsdarc-mend IN OUT keeps what is there";

const EARLY: &str =
    "the file ends {b0} early, at byte {c1}: fetch it again, or dsdarc-mend IN OUT keeps what is there";

const NO_VERSION: &str = "its first chunk is {i0}, not \"FVER\" with a version";

const VERSION: &str = "its version is {v0}, and only 1 is known: write it anew as DSDIFF 1.5";

const HEAD_CUT: &str =
    "the head of the chunk at byte {c0} is not whole: fetch it again, or dsdarc-mend IN OUT keeps what is there";

const DATA_CUT: &str =
    "the chunk {i0} at byte {c0} has {b1} by its size, past the end of what holds it: fetch it again, \
     or dsdarc-mend IN OUT keeps what is there";

const MARK: &str = "a mark (MARK) is shorter than its fields or the text that it names";

const MISSING: &str = "it has no whole chunk {i0}: write it anew with the tool that it comes from";

const COMPRESSED: &str = "its sound is compressed ({i0}): unpack it with another tool first";

const DST: &str =
    "its sound is compressed by DST, as on many SACDs: unpack it to DSDIFF or DSF with another tool \
     first, as sacd_extract -c does with a disc's image";

const CHANNELS: &str = "it has {n0} channels, and 1 to {n1} are supported";

const RATE: &str = "its rate is {c0} Hz, and {c1} to {c2} Hz are supported";

const LONG: &str = "it has {c0} bits per channel, and {c1} are the most";

const BEFORE: &str = "its sound is before the chunk \"PROP\": write it anew";

const PART: &str =
    "its sound has {b0} for {n1} channels, which leaves {b2}: fetch it again, or dsdarc-mend IN OUT keeps what is there";

const CUT: &str = "the file ends inside its headers, at byte {c0}: fetch it again";

const DSF_VERSION: &str = "its version is {n0}, and only 1 is known: write it anew";

const BITS: &str = "it has {n0} bits per sample, and 1 and 8 are known";

const BLOCKS: &str = "its blocks have {n0} bytes, and {n1} are usual";

const FIRST: &str = "its first chunk has {b0}, not 28";

const SECOND: &str = "its second chunk is {i0} with {b0}, not \"fmt \" with 52";

const THIRD: &str = "its third chunk is {i0} with {b0}, not \"data\" with 12 or more";

const KIND: &str = "its format is {n0}, and only 0 (raw sound) is known";

const TAG: &str =
    "its tag is said to begin at byte {c0}; the sound ends at {c1}: dsdarc-mend IN OUT looks for it";

const TAG_IN: &str =
    "its tag is said to begin at byte {c0}; the sound ends at {c1}, and the file at {c2}: dsdarc-mend IN OUT looks \
     for it";

const FEW: &str =
    "its chunk \"data\" says that it holds {b1}, and its bits need {b2}: fetch it again, or dsdarc-mend IN OUT keeps \
     what is there";

const SHORT: &str =
    "the file ends {b0} early: fetch it again, or dsdarc-mend IN OUT keeps what is there";

const FILL: &str =
    "only the fill of the last block is missing ({b0}): dsdarc-mend IN OUT writes a copy that can be read";
