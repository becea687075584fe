//! Beginnings and ends of DSDIFF 1.5 files, one for each fault that such files can have: none is reported as out of
//! memory. Which fault it is `tests/try_refusals` asks the built program.

use crate::fixtures::files::FILE;
use crate::formats::closes_after;
use dsd_bits::SoundAt;
use dsdiff_core::sound_at;
use std::alloc::{AllocError, Global};

// A place in the header of `FILE`, other bytes there, and the fault of each file that begins like this.
const CHANGES: [(usize, &[u8], &str); 25] = [
    (0, b"FORM", "NotDsdiff, no form"),
    (12, b"AIFF", "NotDsdiff, another type"),
    (4, &[0; 8], "FormCut"),
    (11, &[102], "NoSound, the form ends before it"),
    (11, &[110], "Chunk HeadCut 114"),
    (20, &[0xff; 8], "Chunk DataCut 16"),
    (125, &[100], "Chunk DataCut 114"),
    (16, b"COMT", "NoVersion"),
    (28, &[2], "BadVersion"),
    (32, b"FVER", "Twice FVER"),
    (32, b"COMT", "NoProperty, another ID"),
    (44, b"SNX ", "NoProperty, another type"),
    (59, &[200], "Chunk DataCut 48"),
    (93, &[10], "Chunk HeadCut 104"),
    (82, b"FS  ", "Twice FS"),
    (82, b"CHNL", "Twice CHNL"),
    (64, b"CMPR", "Twice CMPR"),
    (48, b"COMT", "NoRate"),
    (59, &[3], "NoRate, of 3 bytes"),
    (64, b"COMT", "NoChannels"),
    (77, &[2], "NoChannels, one name for two"),
    (82, b"COMT", "NoCompression"),
    (94, b"DST ", "Compressed"),
    (60, &[0, 0x0f, 0x42, 0x3f], "BadRate, 999,999"),
    (60, &[2, 0xfa, 0xf0, 0x81], "BadRate, 50,000,001"),
];

// What the header of `FILE` states with other bytes from a place on.
fn stated_with(alloc: Global, at: usize, bytes: &[u8]) -> Result<SoundAt, AllocError> {
    let (prefix, rest) = FILE[..126].split_at(at.min(126));
    let left = rest.get(bytes.len()..).unwrap_or(&[]);
    sound_at(alloc, &[prefix, bytes, left].concat(alloc)?)
}

// Whether a header is refused, and not because memory ran out.
fn is_refused(reported: Result<SoundAt, AllocError>) -> bool {
    matches!(reported, Ok(SoundAt::Refused))
}

#[test]
fn refuses_changed_headers(rt: HostRuntime) {
    for (at, bytes, fault) in &CHANGES {
        let reported = stated_with(rt.alloc(), *at, bytes);
        assert!(rt; is_refused(reported), "{fault}");
    }
}

// A version chunk. The one below it has 3 bytes.
const VERSION: &[u8] = b"FVER\0\0\0\0\0\0\0\x04\x01\x05\0\0";

const SHORT_VERSION: &[u8] = b"FVER\0\0\0\0\0\0\0\x03\x01\x05\0\0";

// A property of one channel, `C000`, at 2,822,400 hertz.
const MONO: &[u8] = b"PROP\0\0\0\0\0\0\0\x46SND \
    FS  \0\0\0\0\0\0\0\x04\0\x2b\x11\0\
    CHNL\0\0\0\0\0\0\0\x06\0\x01C000\
    CMPR\0\0\0\0\0\0\0\x13DSD \x0enot compressed\0";

// The same for two, for seven and for no channels.
const STEREO: &[u8] = b"PROP\0\0\0\0\0\0\0\x4aSND \
    FS  \0\0\0\0\0\0\0\x04\0\x2b\x11\0\
    CHNL\0\0\0\0\0\0\0\x0a\0\x02SLFTSRGT\
    CMPR\0\0\0\0\0\0\0\x13DSD \x0enot compressed\0";

const SEVEN: &[u8] = b"PROP\0\0\0\0\0\0\0\x5eSND \
    FS  \0\0\0\0\0\0\0\x04\0\x2b\x11\0\
    CHNL\0\0\0\0\0\0\0\x1e\0\x07C000C001C002C003C004C005C006\
    CMPR\0\0\0\0\0\0\0\x13DSD \x0enot compressed\0";

const NONE: &[u8] = b"PROP\0\0\0\0\0\0\0\x42SND \
    FS  \0\0\0\0\0\0\0\x04\0\x2b\x11\0\
    CHNL\0\0\0\0\0\0\0\x02\0\0\
    CMPR\0\0\0\0\0\0\0\x13DSD \x0enot compressed\0";

// A property whose channel chunk has one byte, and one whose compression chunk has 3.
const SHORT_NAMES: &[u8] = b"PROP\0\0\0\0\0\0\0\x42SND \
    FS  \0\0\0\0\0\0\0\x04\0\x2b\x11\0\
    CHNL\0\0\0\0\0\0\0\x01\0\0\
    CMPR\0\0\0\0\0\0\0\x13DSD \x0enot compressed\0";

const SHORT_KIND: &[u8] = b"PROP\0\0\0\0\0\0\0\x36SND \
    FS  \0\0\0\0\0\0\0\x04\0\x2b\x11\0\
    CHNL\0\0\0\0\0\0\0\x06\0\x01C000\
    CMPR\0\0\0\0\0\0\0\x03DSD\0";

// The header of a file with these chunks before a sound of this size, after which the form has `left` bytes.
fn prefix_of(
    alloc: Global,
    chunks: &[&[u8]],
    size: u64,
    after: u64,
) -> Result<Vec<u8>, AllocError> {
    let chunks = chunks.concat(alloc)?;
    let form = (chunks.len() as u64)
        .saturating_add(16)
        .saturating_add(size)
        .saturating_add(after);
    let form = form.to_be_bytes();
    let size = size.to_be_bytes();
    let prefix = [b"FRM8".as_slice(), &form, b"DSD ", &chunks, b"DSD ", &size];
    prefix.concat(alloc)
}

// The chunks before a sound, its size, and the fault. `2^36` bits are `2^33` bytes.
const HEADERS: [(&[&[u8]], u64, &str); 11] = [
    (&[], 1, "NoVersion, no chunk"),
    (&[SHORT_VERSION, MONO], 1, "NoVersion, of 3 bytes"),
    (&[VERSION, MONO, VERSION], 1, "Twice FVER"),
    (&[VERSION, MONO, MONO], 1, "Twice PROP"),
    (&[VERSION], 1, "NoProperty"),
    (&[VERSION, SHORT_NAMES], 1, "NoChannels, of one byte"),
    (&[VERSION, SHORT_KIND], 1, "NoCompression, of 3 bytes"),
    (&[VERSION, NONE], 1, "BadChannelNumber, 0"),
    (&[VERSION, SEVEN], 7, "BadChannelNumber, 7"),
    (&[VERSION, STEREO], 3, "PartFrame"),
    (&[VERSION, MONO], 8_589_934_593, "TooLong"),
];

// What such a header states.
fn stated_of(alloc: Global, chunks: &[&[u8]], size: u64) -> Result<SoundAt, AllocError> {
    let prefix = prefix_of(alloc, chunks, size, 1)?;
    sound_at(alloc, &prefix)
}

#[test]
fn refuses_headers_of_other_chunks(rt: HostRuntime) {
    for (chunks, size, fault) in &HEADERS {
        let reported = stated_of(rt.alloc(), chunks, *size);
        assert!(rt; is_refused(reported), "{fault}");
    }
}

#[test]
fn finds_the_longest_sound(rt: HostRuntime) {
    let longest = stated_of(rt.alloc(), &[VERSION, MONO], 8_589_934_592);
    assert!(rt; matches!(longest, Ok(SoundAt::Found(sound)) if sound.count == 1 << 36));
}

// Whether a file is closed, or isn't, as it should be. Out of memory never counts as a file that isn't closed.
fn is_reported(closed: Result<Option<(usize, bool)>, AllocError>, expected: bool) -> bool {
    closed == Ok(Some((1, expected)))
}

// Edited masters. The first has a whole mark of 22 bytes. In the others a chunk's header is cut, its data is cut, a
// mark has 21 bytes, and a mark lacks its text of one byte.
const MARKED: &[u8] = b"DIIN\0\0\0\0\0\0\0\x22\
    MARK\0\0\0\0\0\0\0\x16\0\0\0\0\0\0\0\0\0\0\0\0\0\0\0\0\0\0\0\0\0\0";

const HEAD_CUT: &[u8] = b"DIIN\0\0\0\0\0\0\0\x04MARK";

const DATA_CUT: &[u8] = b"DIIN\0\0\0\0\0\0\0\x0cMARK\0\0\0\0\0\0\0\x02";

const SHORT_MARK: &[u8] = b"DIIN\0\0\0\0\0\0\0\x22\
    MARK\0\0\0\0\0\0\0\x15\0\0\0\0\0\0\0\0\0\0\0\0\0\0\0\0\0\0\0\0\0\0";

const LONG_TEXT: &[u8] = b"DIIN\0\0\0\0\0\0\0\x22\
    MARK\0\0\0\0\0\0\0\x16\0\0\0\0\0\0\0\0\0\0\0\0\0\0\0\0\0\0\0\0\0\x01";

// What precedes the sound besides version and property, what follows the sound's pad, how many more bytes the form has,
// whether this closes the file, and the fault.
const BACKS: [(&[u8], &[u8], u64, bool, &str); 15] = [
    (b"", b"", 0, true, "none"),
    (MARKED, MARKED, 0, true, "none, two marks"),
    (b"", MARKED, 1, true, "none, a pad is missing"),
    (b"", MARKED, 2, false, "FormCut"),
    (b"", b"COMT\0\0\0\0\0\0\0", 0, false, "Chunk HeadCut"),
    (b"", b"COMT\0\0\0\0\0\0\0\x02\0", 0, false, "Chunk DataCut"),
    (b"", VERSION, 0, false, "Twice FVER"),
    (b"", MONO, 0, false, "Twice PROP"),
    (b"", b"DSD \0\0\0\0\0\0\0\0", 0, false, "Twice DSD"),
    (HEAD_CUT, b"", 0, false, "Chunk HeadCut of a mark before"),
    (SHORT_MARK, b"", 0, false, "BadMark before"),
    (b"", HEAD_CUT, 0, false, "Chunk HeadCut of a mark"),
    (b"", DATA_CUT, 0, false, "Chunk DataCut of a mark"),
    (b"", SHORT_MARK, 0, false, "BadMark"),
    (b"", LONG_TEXT, 0, false, "BadMark, of its text"),
];

// Whether a file of a sound of one byte is closed.
fn closes_between(
    alloc: Global,
    before: &[u8],
    after: &[u8],
    missing: u64,
) -> Result<Option<(usize, bool)>, AllocError> {
    let back = [b"\0".as_slice(), after].concat(alloc)?;
    let left = (back.len() as u64).saturating_add(missing);
    let prefix = prefix_of(alloc, &[VERSION, MONO, before], 1, left)?;
    closes_after(alloc, &prefix, &back)
}

#[test]
fn closes_with_each_fault_after_the_sound(rt: HostRuntime) {
    for (before, after, missing, closed, fault) in &BACKS {
        let found = closes_between(rt.alloc(), before, after, *missing);
        assert!(rt; is_reported(found, *closed), "{fault}");
    }
}
