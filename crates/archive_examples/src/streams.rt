//! Plays from a reader that gives one byte at a time to a writer that takes one, and fails each of their calls: the
//! fault is named, and what was written is a prefix of the WAVE file.

use archive_core::{Fault, StreamFault, WaveRange, play_stream};
use chunk_core::{Inlet, Outlet};
use part_examples::fixtures::devices::{Sipping, drip, sip};
use std::alloc::Global;

const NEVER: u64 = u64::MAX;

// A DSDIFF file of one channel of 40 ones, as `FILE` of the fixtures, and a pad byte.
const FILE: [u8; 132] = *b"FRM8\0\0\0\0\0\0\0\x78DSD \
    FVER\0\0\0\0\0\0\0\x04\x01\x05\0\0\
    PROP\0\0\0\0\0\0\0\x46SND \
    FS  \0\0\0\0\0\0\0\x04\0\x2b\x11\0\
    CHNL\0\0\0\0\0\0\0\x06\0\x01C000\
    CMPR\0\0\0\0\0\0\0\x13DSD \x0enot compressed\0\
    DSD \0\0\0\0\0\0\0\x05\xff\xff\xff\xff\xff\0";

// A project that decimates by 8 with 33 taps of 1, and a delay of 32.
const ONES: &[u8] = b"[decimate]
taps = [1, 1, 1, 1, 1, 1, 1, 1, 1, 1, 1, 1, 1, 1, 1, 1, 1, 1, 1, 1, 1, 1, 1, 1, 1, 1, 1, 1, 1, 1, 1, 1, 1]
factor = 8
delay = 32
shift = 0
width = 16
";

// What it makes of the file. The first sample reads the bits 0 to 32, the second the bits 8 to 39, which is the last,
// and each after that 8 bits fewer: 33, 32, 24, 16, 8.
const WAVE: [u8; 54] =
    *b"RIFF\x2e\0\0\0WAVEfmt \x10\0\0\0\x01\0\x01\0\x20\x62\x05\0\x40\xc4\x0a\0\x02\0\x10\0data\x0a\0\0\0\x21\0\x20\0\x18\0\x10\0\x08\0";

// The answer, how many reads there were, how many reads and how many writes failed, and what was written.
#[derive(Drop)]
struct Played {
    answer: Result<u64, Fault>,
    reads: u64,
    failures: (u64, u64),
    bytes: Vec<u8>,
}

impl Played {
    // Whether this fault was returned, this many reads and writes failed, and what was written is a prefix of the WAVE
    // file.
    fn stops(&self, fault: StreamFault, failures: (u64, u64)) -> bool {
        matches!(self.answer, Err(Fault::Stream(found)) if found == fault)
            && self.failures == failures
            && WAVE.starts_with(&self.bytes)
    }
}

// Plays the file, of which one read fails, to a writer.
fn play_with(alloc: Global, read: u64, writer: Sipping) -> Played {
    let mut inlet = Inlet::new(drip(&FILE, 1, read));
    let mut outlet = Outlet::new(writer);
    let answer = play_stream(alloc, ONES, WaveRange::whole(), &mut inlet, &mut outlet);
    Played {
        answer,
        reads: inlet.reads(),
        failures: (inlet.failures(), outlet.failures()),
        bytes: outlet.into_inner().bytes,
    }
}

// Whether a failed read stops playing, and leaves the header alone after 128 bytes. Two of these are of the sound, and
// the first sample needs five.
fn stops_reading(alloc: Global, read: u64) -> bool {
    let played = play_with(alloc, read, sip(alloc, NEVER, NEVER));
    let is_due = read != 129 || played.bytes.len() == 44;
    played.stops(StreamFault::ReadFailed, (1, 0)) && played.reads == read && is_due
}

// The file has 132 bytes, one per read, and no byte after it is read.
#[test]
fn a_failed_read_leaves_a_prefix(rt: HostRuntime) {
    for read in 1..=132 {
        assert!(rt; stops_reading(rt.alloc(), read), "read {read} fails");
    }
}

// Whether a writer that fails at a write is left with exactly the bytes before it.
fn stops_writing(alloc: Global, writer: Sipping, write: u64) -> bool {
    let played = play_with(alloc, NEVER, writer);
    played.stops(StreamFault::WriteFailed, (0, 1))
        && played.bytes.len() as u64 == write.saturating_sub(1)
}

// Each write takes one byte. A writer that is full from a write on takes nothing.
#[test]
fn a_failed_write_leaves_what_was_written(rt: HostRuntime) {
    let alloc = rt.alloc();
    for write in 1..=54 {
        let fails = stops_writing(alloc, sip(alloc, write, NEVER), write);
        assert!(rt; fails, "write {write} fails");
        let is_full = stops_writing(alloc, sip(alloc, NEVER, write), write);
        assert!(rt; is_full, "full from write {write}");
    }
}

// Whether this was returned, in so many reads, and the WAVE file was written.
fn plays(played: &Played, size: u64, reads: u64) -> bool {
    matches!(played.answer, Ok(number) if number == size)
        && (played.reads, played.failures) == (reads, (0, 0))
        && played.bytes.as_slice() == WAVE.as_slice()
}

// There is no read after the file, and no write after the end.
#[test]
fn nothing_after_the_end_fails(rt: HostRuntime) {
    let whole = play_with(rt.alloc(), 133, sip(rt.alloc(), 55, 55));
    assert!(rt; plays(&whole, 54, 132));
}
