//! A file that is played between others, against the sums of its bits and theirs.

use crate::fixtures::devices::{drip, sip};
use chunk_core::{Inlet, Outlet};
use fir_core::Taps;
use player_core::{Neighbours, WaveHead, play_between};
use std::alloc::Global;

const NEVER: u64 = u64::MAX;

const RATE: u32 = 2_822_400;

// A DSDIFF file of one channel of 16 zeros.
const FILE: [u8; 128] = *b"FRM8\0\0\0\0\0\0\0\x74DSD \
    FVER\0\0\0\0\0\0\0\x04\x01\x05\0\0\
    PROP\0\0\0\0\0\0\0\x46SND \
    FS  \0\0\0\0\0\0\0\x04\0\x2b\x11\0\
    CHNL\0\0\0\0\0\0\0\x06\0\x01C000\
    CMPR\0\0\0\0\0\0\0\x13DSD \x0enot compressed\0\
    DSD \0\0\0\0\0\0\0\x02\0\0";

// The WAVE file that is played of the file between these bytes, if one is.
//
// The filter has 16 taps of 1, a factor of 8 and a delay of 11. So each of the two samples reads the 16 bits from 4
// before the first of its own 8 bits.
fn wave_of(alloc: Global, rate: u32, before: &[u8], after: &[u8]) -> Option<Vec<u8>> {
    let taps = Taps::new(alloc, &[1; 16], 8, 11, 0, 16).ok()?;
    let around = Neighbours {
        rate,
        channels: 1,
        before,
        after,
    };
    let mut inlet = Inlet::new(drip(&FILE, 1, NEVER));
    let mut outlet = Outlet::new(sip(alloc, NEVER, NEVER));
    let head = WaveHead::plain();
    play_between(alloc, &taps, around, head, &mut inlet, &mut outlet).ok()?;
    Some(outlet.into_inner().bytes)
}

// Whether these bytes are the samples of the file between these.
fn plays(alloc: Global, before: &[u8], after: &[u8], expected: &[u8]) -> bool {
    match wave_of(alloc, RATE, before, after) {
        Some(wave) => wave.as_slice().get(44..) == Some(expected),
        None => false,
    }
}

// Of 16 zeros the sum is -16, of 12 and nothing -12, and of 12 and four ones -8.
#[test]
fn reads_what_is_before_and_after(rt: HostRuntime) {
    let alloc = rt.alloc();
    assert!(rt; plays(alloc, &[], &[], &[0xf4, 0xff, 0xf4, 0xff]), "alone");
    assert!(rt;
        plays(alloc, &[0xff], &[], &[0xf8, 0xff, 0xf4, 0xff]),
        "after ones"
    );
    assert!(rt;
        plays(alloc, &[], &[0xff, 0xff], &[0xf4, 0xff, 0xf8, 0xff]),
        "before ones"
    );
    assert!(rt;
        plays(alloc, &[0, 0xff], &[0xff], &[0xf8, 0xff, 0xf8, 0xff]),
        "between ones"
    );
    assert!(rt;
        plays(alloc, &[0xff, 0], &[0], &[0xf0, 0xff, 0xf0, 0xff]),
        "between zeros"
    );
}

#[test]
fn refuses_another_rate(rt: HostRuntime) {
    assert!(rt; wave_of(rt.alloc(), 2 * RATE, &[0xff], &[0xff]).is_none());
}
