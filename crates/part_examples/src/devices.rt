//! What inlets and outlets do with readers and writers that do little at a time and fail: a failure is counted only if
//! a read or a write failed.

ghost use Rattle.std.specs.Prelude.{◌<◌, ◌≤◌, ◌+◌, ◌-◌, ◌^◌};
ghost use Rattle.chunk_core.specs.Inlets.{inlet_failures};

use crate::fixtures::compared::equal;
use crate::fixtures::devices::{Dripping, drip, sip};
use chunk_core::{Device, FusedInlet, Inlet, Outlet};
use std::alloc::Global;
use std::io::Read;

const NEVER: u64 = 100;

// What a pull gives, and then the counts: failures, reads and bytes that were given.
type Pulled = (Result<usize, Device>, u64, u64, u64);

fn pulled(inlet: &mut Inlet<Dripping<'_>>, buffer: &mut [u8]) -> Pulled
    requires { inlet_failures inlet.old < 2 ^ 64 - 1 }
    ensures { inlet_failures inlet.new ≤ inlet_failures inlet.old + 1 }
{
    let answer = inlet.pull(buffer);
    (answer, inlet.failures(), inlet.reads(), inlet.given())
}

// What each of three pulls gives, into one buffer after the other, and what is left. The reader has `abc`, gives so
// many bytes at a time and fails at one read.
fn three_pulls(
    most: usize,
    fails_at: u64,
    first: &mut [u8],
    second: &mut [u8],
    third: &mut [u8],
) -> ([Pulled; 3], &'static [u8])
    requires { 0 < most }
{
    let mut inlet = Inlet::new(drip(b"abc", most, fails_at));
    let first = pulled(&mut inlet, first);
    let second = pulled(&mut inlet, second);
    let third = pulled(&mut inlet, third);
    ([first, second, third], inlet.into_inner().bytes)
}

#[test]
fn a_failed_read_is_counted(rt: HostRuntime) {
    let (mut prefix, mut none, mut after) = ([0; 8], [0; 8], [0; 8]);
    let (pulls, left) = three_pulls(1, 2, &mut prefix, &mut none, &mut after);
    assert!(rt; pulls == [(Ok(1), 0, 1, 1), (Err(Device), 1, 2, 1), (Ok(1), 1, 3, 2)]);
    assert!(rt; after[0] == b'b' && equal(left, b"c"));
}

#[test]
fn the_end_is_no_failure(rt: HostRuntime) {
    let (mut prefix, mut after, mut none) = ([0; 8], [0; 8], [0; 8]);
    let (pulls, _) = three_pulls(2, NEVER, &mut prefix, &mut after, &mut none);
    assert!(rt; pulls == [(Ok(2), 0, 1, 2), (Ok(1), 0, 2, 3), (Ok(0), 0, 3, 3)]);
    assert!(rt; equal(&prefix, b"ab\0\0\0\0\0\0") && equal(&after, b"c\0\0\0\0\0\0\0"));
}

// The write at which a writer fails, the write from which on it takes nothing, and what it is given.
type Given = (u64, u64, &'static str);

// A writer, whether the outlet reports that the device failed, what the writer takes, and in how many writes.
type Writer = (Given, bool, &'static str, u64);

// Whether a writer and its outlet do this.
fn takes(alloc: Global, writer: &Writer) -> bool {
    let ((fails_at, full_from, bytes), fails, taken, writes) = *writer;
    let mut outlet = Outlet::new(sip(alloc, fails_at, full_from));
    let has_failed = outlet.put_all(bytes.as_bytes()).is_err();
    let failures = outlet.failures();
    let writer = outlet.into_inner();
    has_failed == fails
        && failures == fails as u64
        && writer.writes == writes
        && equal(&writer.bytes, taken.as_bytes())
}

// No bytes need no write.
const WRITERS: &[Writer] = &[
    ((NEVER, NEVER, "abcd"), false, "abcd", 4),
    ((1, NEVER, "abcd"), true, "", 1),
    ((2, NEVER, "abcd"), true, "a", 2),
    ((3, NEVER, "abcd"), true, "ab", 3),
    ((4, NEVER, "abcd"), true, "abc", 4),
    ((NEVER, 3, "abcd"), true, "ab", 3),
    ((1, 1, ""), false, "", 0),
];

#[test]
fn a_writer_is_given_all_bytes_up_to_a_failure(rt: HostRuntime) {
    for writer in WRITERS {
        assert!(rt; takes(rt.alloc(), writer), "in {} writes", writer.3);
    }
}

// Whether each of three reads gives something. The reader gives one byte at a time, fails at one read, and is read at
// most `most` times.
fn three_reads(fails_at: u64, most: u64) -> [bool; 3] {
    let mut reader = FusedInlet::new(drip(b"abcd", 1, fails_at), most);
    let mut buffer = [0; 8];
    let first = reader.read(&mut buffer).is_ok();
    let second = reader.read(&mut buffer).is_ok();
    [first, second, reader.read(&mut buffer).is_ok()]
}

#[test]
fn a_fused_inlet_is_read_no_more(rt: HostRuntime) {
    assert!(rt;
        three_reads(NEVER, 2) == [true, true, false],
        "after its limit"
    );
    assert!(rt;
        three_reads(2, 3) == [true, false, false],
        "after a failure"
    );
}
