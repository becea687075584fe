//! The sound of bits, worked out by hand and summed tap by tap.

ghost use Rattle.std.specs.Prelude.{◌≡◌, ◌+◌, ◌^◌, ◌<◌, ◌≤◌, length, unsigned_abs};
ghost use Rattle.std.specs.List.{sum_by};

use dsd_bits::{Bits, BitsFault};
use heard_core::Decoder;
use std::alloc::{AllocError, Global};
use std::test::Fail;

// The sum of the absolute values.
fn abs_sum(taps: &[i32]) -> u64
    requires { length taps.now ≤ 65535 }
    ensures { result ≡ sum_by unsigned_abs taps.now }
{
    taps.iter().map(|tap| u64::from(tap.unsigned_abs())).sum()
}

// The sound of some bits from one of them on, if these are the taps of a decoder.
fn sound_of(
    alloc: Global,
    taps: &[i32],
    bits: &Bits,
    first: usize,
    number: usize,
) -> Result<Option<Vec<i32>>, AllocError>
    requires { first + number ≤ 2 ^ 36 }
{
    if taps.len() % 2 == 0 || taps.len() > 65_535 {
        return Ok(None);
    }
    if abs_sum(taps) > 1 << 28 {
        return Ok(None);
    }
    let decoder = Decoder::new(alloc, taps)?;
    let mut sound = Vec::new(alloc);
    sound.resize(number, 7)?;
    decoder.decode(bits, first, sound.as_mut_slice());
    Ok(Some(sound))
}

const TRIANGLE: &[i32] = &[1, 2, 1];

const BYTES: &[u8] = &[0b1101_0010, 0b1101_0010];

// Twice each bit and the bits beside it: 2 + 1 for the first bit, 1 + 2 - 1 for the second, and so on. A stored 1 counts
// +1, and a stored 0 counts -1.
const SOUND: [i32; 16] = [3, 2, 0, 0, -2, -2, 0, 0, 2, 2, 0, 0, -2, -2, 0, -1];

// Whether sixteen bits sound so from one of them on.
fn sounds_from(alloc: Global, first: usize, number: usize) -> Result<bool, BitsFault>
    requires { first + number ≤ 16 }
{
    let bits = Bits::from_packed(alloc, BYTES, 16)?;
    match sound_of(alloc, TRIANGLE, &bits, first, number)? {
        Some(sound) => Ok(sound.as_slice() == &SOUND[first..first + number]),
        None => Ok(false),
    }
}

#[test]
fn decodes_sixteen_bits(rt: HostRuntime) -> Result<(), Fail> {
    assert!(rt; sounds_from(rt.alloc(), 0, 16)?);
    Ok(())
}

#[test]
fn decodes_from_each_bit(rt: HostRuntime) {
    for first in 0..17 {
        let sounds = sounds_from(rt.alloc(), first, 16 - first).unwrap_or(false);
        assert!(rt; sounds, "from {first}");
    }
}

// The sum of the taps, whose middle one is at a bit, times the signal: tap by tap.
fn plain_sum(taps: &[i32], bits: &Bits, bit: usize) -> i32 {
    let place = bit.wrapping_add(taps.len() / 2);
    let mut sum = 0i32;
    for (k, tap) in taps.iter().enumerate() {
        if k <= place && place - k < bits.len() {
            sum = if bits.get(place - k) {
                sum.wrapping_add(*tap)
            } else {
                sum.wrapping_sub(*tap)
            };
        }
    }
    sum
}

// Whether these are the plain sums from a bit on.
fn are_plain(taps: &[i32], bits: &Bits, first: usize, sound: &[i32]) -> bool {
    for (i, value) in sound.iter().enumerate() {
        if *value != plain_sum(taps, bits, first.wrapping_add(i)) {
            return false;
        }
    }
    true
}

// Numbers without a pattern, from -500 to 500.
fn uneven(alloc: Global, number: usize) -> Result<Vec<i32>, AllocError>
    requires { number < 2 ^ 20 }
{
    (0..number)
        .map(|k| (k * 7919 % 1001) as i32 - 500)
        .collect(alloc)
}

// Whether bits without a pattern have their plain sums from one of them on, by this many taps.
fn sounds_plainly(
    alloc: Global,
    taps: usize,
    bits: usize,
    first: usize,
    number: usize,
) -> Result<bool, BitsFault>
    requires taps { taps < 2 ^ 20 }
    requires bits { bits < 2 ^ 16 }
    requires few { first + number ≤ 2 ^ 20 }
{
    let bytes: Vec<u8> = (0..8192usize).map(|i| (i * i % 251) as u8).collect(alloc)?;
    let bits = Bits::from_packed(alloc, bytes.as_slice(), bits)?;
    let taps = uneven(alloc, taps)?;
    match sound_of(alloc, taps.as_slice(), &bits, first, number)? {
        Some(sound) => Ok(are_plain(taps.as_slice(), &bits, first, sound.as_slice())),
        None => Ok(false),
    }
}

// The number of taps and of bits, the first bit whose sound is compared, and how many are.
const ROWS: [[u16; 4]; 5] = [
    [1, 9, 0, 12],
    [3, 0, 0, 3],
    [7, 100, 0, 130],
    [9, 1, 0, 30],
    [4099, 5000, 2030, 40],
];

#[test]
fn decodes_by_many_taps(rt: HostRuntime) {
    for [taps, bits, first, number] in &ROWS {
        let sounds = sounds_plainly(
            rt.alloc(),
            *taps as usize,
            *bits as usize,
            *first as usize,
            *number as usize,
        );
        assert!(rt;
            sounds.unwrap_or(false),
            "{taps} taps, {bits} bits, from {first}"
        );
    }
}
