//! Bits packed eight to a byte, and channels that are interleaved by bytes and by blocks. All values are worked out by
//! hand.

ghost use Rattle.std.specs.Prelude.{◌≤◌};

use crate::fixtures::compared::equal;
use dsd_bits::{
    BitOrder, Bits, BitsFault, LaceFault, lace_blocks, lace_bytes, reverse, reverse_byte,
    unlace_blocks, unlace_bytes,
};
use std::alloc::{AllocError, Global};
use std::test::Fail;

// Whether bits are the first `count` bits of these bytes.
fn are(bits: &Bits, bytes: &[u8], count: usize) -> bool {
    equal(bits.as_bytes(), bytes) && bits.len() == count
}

// The bits 2 to 9 of others. None if there are no such bits.
fn middle(alloc: Global, source: &Bits) -> Result<Bits, AllocError> {
    let mut bits = Bits::new(alloc);
    if source.len() == 12 {
        bits.push_range(source, 2, 10)?;
    }
    Ok(bits)
}

// Whether twelve bits of two bytes, the eight in their middle, and these with a 1 after them are packed as they should
// be.
fn packs(alloc: Global) -> Result<bool, BitsFault> {
    let twelve = Bits::from_packed(alloc, &[0xf0, 0xff], 12)?;
    let mut bits = middle(alloc, &twelve)?;
    let are_packed = are(&twelve, &[0xf0, 0xf0], 12) && are(&bits, &[0xc3], 8);
    if bits.len() == 8 {
        bits.push_bit(true)?;
    }
    Ok(are_packed && are(&bits, &[0xc3, 0x80], 9))
}

#[test]
fn packs_bits(rt: HostRuntime) -> Result<(), Fail> {
    assert!(rt; packs(rt.alloc())?);
    Ok(())
}

#[test]
fn wants_enough_bytes_and_reverses_them(rt: HostRuntime) {
    let refused = Bits::from_packed(rt.alloc(), &[0xf0], 9).err();
    let mut bytes = [0x0f, 0x01, 0x35];
    reverse(&mut bytes);
    assert!(rt; refused == Some(BitsFault::TooFewBytes) && bytes == [0xf0, 0x80, 0xac]);
    assert!(rt; (reverse_byte(0x0f), reverse_byte(0x01)) == (0xf0, 0x80));
}

const LACED: [u8; 4] = [0xf0, 0x0f, 0xaa, 0x55];

// Whether these are two channels of these bytes, and of so many bits.
fn are_two(channels: &[Bits], packed: &[&[u8]; 2], count: usize) -> bool {
    match channels {
        [left, right] => are(left, packed[0], count) && are(right, packed[1], count),
        _ => false,
    }
}

// Whether the bytes are split into two channels, and are made again when the channels are interleaved.
fn laces_again(alloc: Global) -> Result<bool, LaceFault> {
    let channels = unlace_bytes(alloc, &LACED, 2)?;
    let laced = lace_bytes(alloc, &channels)?;
    Ok(are_two(&channels, &[&[0xf0, 0xaa], &[0x0f, 0x55]], 16) && equal(&laced, &LACED))
}

// Sets the first two bytes of a block of 4096 bytes.
fn begin(blocks: &mut [u8], block: usize, first: u8) {
    if let Some(byte) = blocks.get_mut(block.saturating_mul(4096)) {
        *byte = first;
    }
    if let Some(byte) = blocks.get_mut(block.saturating_mul(4096).saturating_add(1)) {
        *byte = first.wrapping_add(1);
    }
}

// Six blocks, one for a channel each, which begin with the bytes 1 and 2, 17 and 18, and so on.
fn six_blocks(alloc: Global) -> Result<Vec<u8>, AllocError> {
    let mut blocks = vec![in alloc; 0u8; 24576]?;
    for (block, first) in [1, 17, 33, 49, 65, 81].iter().enumerate() {
        begin(&mut blocks, block, *first);
    }
    Ok(blocks)
}

// The first two bytes of each block, a byte of each in turn.
const TURNS: [&[u8]; 6] = [
    &[1, 2],
    &[1, 17, 2, 18],
    &[1, 17, 33, 2, 18, 34],
    &[1, 17, 33, 49, 2, 18, 34, 50],
    &[1, 17, 33, 49, 65, 2, 18, 34, 50, 66],
    &[1, 17, 33, 49, 65, 81, 2, 18, 34, 50, 66, 82],
];

// Whether so many channels of 16 bits are taken from the blocks, and are interleaved to bytes in turn and to the same
// blocks.
fn laces(alloc: Global, number: usize) -> Result<bool, LaceFault>
    requires { (1 ≤ number) × (number ≤ 6) }
{
    let blocks = six_blocks(alloc)?;
    let channels = unlace_blocks(alloc, &blocks, number, 16, BitOrder::MostFirst)?;
    if channels.is_empty() || 6 < channels.len() {
        return Ok(false);
    }
    let again = lace_blocks(alloc, &channels, BitOrder::MostFirst)?;
    let laced = lace_bytes(alloc, &channels)?;
    let bytes = TURNS[number - 1];
    Ok(equal(&laced, bytes) && again.len() == 4096 * number && blocks.starts_with(&again))
}

#[test]
fn laces_each_number_of_channels(rt: HostRuntime) -> Result<(), Fail> {
    for number in 1..7 {
        assert!(rt; laces(rt.alloc(), number)?, "{number} channels");
    }
    assert!(rt; laces_again(rt.alloc())?, "two channels of two bytes");
    Ok(())
}

// Reads two blocks that begin with the byte 1, with the earliest bit lowest: two channels of one bit, 1 and 0. Returns
// whether they are so, and the first byte of the blocks that are made of them with the earliest bit highest.
fn one_bit_each(alloc: Global) -> Result<(bool, Option<u8>), LaceFault> {
    let mut blocks = vec![in alloc; 0u8; 8192]?;
    begin(&mut blocks, 0, 1);
    let channels = unlace_blocks(alloc, &blocks, 2, 1, BitOrder::LeastFirst)?;
    let laced = lace_blocks(alloc, &channels, BitOrder::MostFirst)?;
    let are_so = are_two(&channels, &[&[0x80], &[0]], 1) && laced.len() == 8192;
    Ok((are_so, laced.first().copied()))
}

// A part of a frame, and one byte less than two blocks, are refused.
#[test]
fn takes_whole_blocks_and_frames(rt: HostRuntime) -> Result<(), Fail> {
    let alloc = rt.alloc();
    assert!(rt; one_bit_each(alloc)? == (true, Some(0x80)));
    let part = unlace_bytes(alloc, &LACED[..3], 2).err();
    let cut = unlace_blocks(alloc, &[0; 8191], 2, 1, BitOrder::LeastFirst).err();
    assert!(rt; part == Some(LaceFault::PartFrame) && cut == Some(LaceFault::TooFewBytes));
    Ok(())
}
