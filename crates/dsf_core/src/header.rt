//! The header of a file, which leads to its sound, and the check of where sound and tag end.

ghost use Rattle.std.specs.Prelude.{◌≡◌};
ghost use Rattle.dsf_core.specs.Reading.{cut_at, cut_fault, ends_fit, file_header, pointer_fault};

use crate::chunks::find_data;
use crate::fault::{CutSound, DsfFault};
use crate::fields::{
    BITS_AT, BLOCK_AT, CHANNEL_NUMBER_AT, CHANNEL_TYPE_AT, COUNT_AT, HEAD_SIZE, POINTER_AT,
    RATE_AT, VERSION_AT, long_at, short_at,
};
use crate::format::stated_order;
use dsd_bits::{BLOCK_BITS, BLOCK_BYTES, BitOrder, Interleaving, Sound, blocks_size};

/// What the header of a file says about it.
#[derive(Clone, Copy)]
pub(crate) struct Header {
    /// Its sound: the blocks that the channels need.
    pub sound: Sound,
    /// The order of the bits in its bytes.
    pub order: BitOrder,
    /// The channel type.
    pub kind: u32,
    /// The place of its tag, or 0 for none.
    pub tag_at: u64,
}

/// What the header of a file says, or the first fault of a file that ends after it.
#[tactic(auto, unfolding(crate::specs::Reading::file_header))]
pub(crate) fn read_header(file: &[u8]) -> Result<Header, DsfFault>
    ensures { result ≡ file_header file.now }
{
    let data_at = find_data(file)?;
    let rate = short_at(file, RATE_AT);
    let channels = short_at(file, CHANNEL_NUMBER_AT);
    let count = long_at(file, COUNT_AT);
    let order = stated_order(
        short_at(file, VERSION_AT),
        channels,
        rate,
        short_at(file, BITS_AT),
        short_at(file, BLOCK_AT),
        count,
    )?;
    let sound = Sound {
        rate,
        channels: channels as usize,
        count: count as usize,
        start: data_at + HEAD_SIZE,
        size: blocks_size(channels as usize, count as usize),
        interleaving: Interleaving::Blocks(order),
    };
    let held = long_at(file, data_at + 4).saturating_sub(HEAD_SIZE as u64);
    if held < sound.size as u64 {
        return Err(cut_at(&sound, held, true));
    }
    Ok(Header {
        sound,
        order,
        kind: short_at(file, CHANNEL_TYPE_AT),
        tag_at: long_at(file, POINTER_AT),
    })
}

// The fault of a sound of which only so many bytes are there, as its chunk states or because the file ends there.
fn cut_at(sound: &Sound, there: u64, stated: bool) -> DsfFault
    ensures { result ≡ cut_at sound.now there stated }
{
    let last = (sound.count % BLOCK_BITS).div_ceil(8);
    DsfFault::DataCut(CutSound {
        needed: sound.size as u64,
        there,
        stated,
        fill: ((BLOCK_BYTES - last) % BLOCK_BYTES) as u64,
    })
}

/// The fault of a file of `total` bytes that ends inside this sound.
pub fn cut_fault(sound: &Sound, total: u64) -> DsfFault
    ensures { result ≡ cut_fault sound.now total }
{
    cut_at(sound, total.saturating_sub(sound.start as u64), false)
}

/// The fault of a file of `total` bytes whose tag would begin at this place, and whose sound ends at `end`: it begins
/// before that, or else after the file's end.
pub fn pointer_fault(tag: u64, end: u64, total: u64) -> DsfFault
    ensures { result ≡ pointer_fault tag end total }
{
    let length = if tag < end { None } else { Some(total) };
    DsfFault::BadPointer { tag, end, length }
}

/// The first fault after the header of a file of `total` bytes: the sound must end in the file, and the tag must follow
/// the sound in it.
#[tactic(auto, unfolding(crate::specs::Reading::ends_fit))]
pub(crate) fn check_ends(header: &Header, total: u64) -> Result<(), DsfFault>
    ensures { result ≡ ends_fit header.now total }
{
    let start = header.sound.start as u64;
    let size = header.sound.size as u64;
    if total < start || total - start < size {
        return Err(cut_fault(&header.sound, total));
    }
    if header.tag_at == 0 {
        return Ok(());
    }
    if header.tag_at < start + size || total < header.tag_at {
        return Err(pointer_fault(header.tag_at, start + size, total));
    }
    Ok(())
}
