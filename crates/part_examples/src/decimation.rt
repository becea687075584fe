//! Samples worked out by hand, by each kernel, and the limits of a decimator's numbers.

use dsd_bits::Bits;
use fir_core::{Kernel, Tables, Taps, TapsFault, decimate, decimate_with, push_part};
use std::alloc::{AllocError, Global};
use std::test::Fail;

const KERNELS: &[Kernel] = &[Kernel::Plain, Kernel::Table, Kernel::Lanes];

// Whether each kernel gives these samples.
fn each_gives(
    alloc: Global,
    taps: &Taps,
    bits: &Bits,
    samples: &[i32],
) -> Result<bool, AllocError> {
    for kernel in KERNELS {
        if decimate_with(alloc, taps, bits, *kernel)?.as_slice() != samples {
            return Ok(false);
        }
    }
    Ok(decimate(alloc, taps, bits)?.as_slice() == samples)
}

const RAMP: &[i32] = &[1, 2, 3, 4];

const REVERSED: &[i32] = &[-1, -2, -3, -4];

const LOUD: &[i32] = &[32_768];

// What is shown, the taps, delay and shift of a decimator, the bytes and the number of bits of a channel, and its
// samples.
type Played = (
    &'static str,
    (&'static [i32], u32, u32),
    (&'static [u8], u16),
    &'static [i32],
);

// What lies outside the recording counts 0, and so do the spare bits of its last byte.
const CHANNELS: &[Played] = &[
    ("the sum", (RAMP, 3, 0), (&[0xf0], 8), &[10]),
    ("a part of it", (RAMP, 1, 0), (&[0xf0], 8), &[3]),
    ("less than nothing", (REVERSED, 3, 0), (&[0xf0], 8), &[-10]),
    ("2.5, rounded upwards", (RAMP, 3, 2), (&[0xf0], 8), &[3]),
    (
        "-2.5, rounded upwards",
        (REVERSED, 3, 2),
        (&[0xf0], 8),
        &[-2],
    ),
    ("clipped above", (LOUD, 0, 0), (&[0xf0], 8), &[32_767]),
    ("clipped below", (LOUD, 0, 0), (&[0x0f], 8), &[-32_768]),
    ("before the first", (&[1; 9], 8, 0), (&[0xf0], 8), &[0]),
    ("one bit", (RAMP, 3, 0), (&[0xf0], 1), &[4]),
    (
        "to the end",
        (&[1; 33], 32, 0),
        (&[0xff; 5], 40),
        &[33, 32, 24, 16, 8],
    ),
    ("none", (RAMP, 3, 0), (&[], 0), &[]),
];

// Whether a channel, which is the first bits of some bytes, has its samples, by a factor of 8 at 16 bits.
fn is_played(alloc: Global, played: &Played) -> Result<bool, Fail> {
    let (_, (taps, delay, shift), (bytes, count), samples) = *played;
    let taps = Taps::new(alloc, taps, 8, delay, shift, 16)?;
    let bits = Bits::from_packed(alloc, bytes, usize::from(count))?;
    Ok(each_gives(alloc, &taps, &bits, samples)?)
}

#[test]
fn plays_small_channels(rt: HostRuntime) -> Result<(), Fail> {
    for played in CHANNELS {
        assert!(rt; is_played(rt.alloc(), played)?, "{}", played.0);
    }
    Ok(())
}

// The first sample of 4096 ones and 4096 taps of 1, made by a kernel.
fn sample_of_most_taps(alloc: Global, kernel: Kernel) -> Result<Option<i32>, Fail> {
    let taps = Taps::new(alloc, &[1; 4096], 8, 4095, 0, 16)?;
    let bits = Bits::from_packed(alloc, &[0xff; 512], 4096)?;
    Ok(decimate_with(alloc, &taps, &bits, kernel)?.first().copied())
}

#[test]
fn plays_the_most_taps_by_each_kernel(rt: HostRuntime) -> Result<(), Fail> {
    for kernel in KERNELS {
        assert!(rt; sample_of_most_taps(rt.alloc(), *kernel)? == Some(4096));
    }
    Ok(())
}

// The samples in `there`, followed by the samples 1 to 3 of a channel, if it has those.
fn with_a_part(
    alloc: Global,
    taps: &Taps,
    bits: &Bits,
    there: &[i32],
) -> Result<Vec<i32>, AllocError> {
    let tables = Tables::new(alloc, taps)?;
    let mut samples = Vec::from_slice(alloc, there)?;
    if bits.len().div_ceil(taps.factor() as usize) >= 4 {
        push_part(&mut samples, 3, taps, &tables, bits, 1)?;
    }
    Ok(samples)
}

// Whether 40 ones give these samples after a 7.
fn gives_part(alloc: Global, taps: &Taps, samples: &[i32]) -> Result<bool, Fail> {
    let bits = Bits::from_packed(alloc, &[0xff; 5], 40)?;
    let made = with_a_part(alloc, taps, &bits, &[7])?;
    Ok(made.as_slice() == samples)
}

#[test]
fn appends_a_part(rt: HostRuntime) -> Result<(), Fail> {
    let taps = Taps::new(rt.alloc(), &[1; 33], 8, 32, 0, 16)?;
    assert!(rt; gives_part(rt.alloc(), &taps, &[7, 32, 24, 16])?);
    Ok(())
}

const LARGE: &[i32] = &[1 << 30, 1 << 30];

// Taps; the factor, the delay, the shift and the width; and the limit that is broken.
type Broken = (&'static [i32], [u32; 4], TapsFault);

const BROKEN: [Broken; 6] = [
    (RAMP, [12, 3, 0, 16], TapsFault::Factor),
    (RAMP, [8, 4, 0, 16], TapsFault::Delay),
    (RAMP, [8, 3, 31, 16], TapsFault::Shift),
    (RAMP, [8, 3, 0, 20], TapsFault::Width),
    (&[], [8, 3, 0, 16], TapsFault::TapNumber),
    (LARGE, [8, 0, 0, 16], TapsFault::TapSum),
];

// Whether exactly that limit is reported.
fn is_reported(alloc: Global, broken: &Broken) -> bool {
    let (taps, [factor, delay, shift, width], fault) = *broken;
    Taps::new(alloc, taps, factor, delay, shift, width).err() == Some(fault)
}

#[test]
fn names_the_broken_limit(rt: HostRuntime) {
    for (case, broken) in BROKEN.iter().enumerate() {
        assert!(rt; is_reported(rt.alloc(), broken), "case {case}");
    }
}
