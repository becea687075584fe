//! The fields of the format chunk: their limits and what they mean.

ghost use Rattle.std.specs.Prelude.{◌≡◌, ◌≤◌, IfOk};
ghost use Rattle.dsd_bits.specs.Limits.{most_bits};
ghost use Rattle.dsf_core.specs.Fields.{dsf_ids, stated_layout};
ghost use Rattle.dsf_core.specs.Reading.{stated_order};

use crate::fault::DsfFault;
use crate::fields::VERSION;
use dsd_bits::{
    BLOCK_BYTES, BitOrder, GREATEST_RATE, LEAST_RATE, MOST_BITS, MOST_CHANNELS, layout_channels,
    usual_layout,
};
use std::alloc::{AllocError, Global};

/// The order of the bits in a byte, if these numbers are within their limits.
#[tactic(auto, unfolding(crate::specs::Reading::stated_order))]
pub(crate) fn stated_order(
    version: u32,
    number: u32,
    rate: u32,
    bits: u32,
    block: u32,
    count: u64,
) -> Result<BitOrder, DsfFault>
    ensures exact { result ≡ stated_order version number rate bits block count }
    ensures channels { IfOk result (λ _. number ≤ 6) }
    ensures short { IfOk result (λ _. count ≤ most_bits) }
{
    if version != VERSION {
        return Err(DsfFault::BadVersion(version));
    }
    if number < 1 || MOST_CHANNELS < number as usize {
        return Err(DsfFault::BadChannelNumber(number));
    }
    if rate < LEAST_RATE || GREATEST_RATE < rate {
        return Err(DsfFault::BadRate(rate));
    }
    if bits != 1 && bits != 8 {
        return Err(DsfFault::BadBits(bits));
    }
    if block as usize != BLOCK_BYTES {
        return Err(DsfFault::BadBlock(block));
    }
    if count > MOST_BITS as u64 {
        return Err(DsfFault::TooLong(count));
    }
    if bits == 1 {
        return Ok(BitOrder::LeastFirst);
    }
    Ok(BitOrder::MostFirst)
}

/// The layout of `number` channels: the channel type if it fits that number, else the usual layout.
pub(crate) fn layout(kind: u32, number: u32) -> u32
    requires { number ≤ 6 }
    ensures { result ≡ stated_layout kind number }
{
    if layout_channels(kind) == number {
        return kind;
    }
    usual_layout(number)
}

/// The IDs of `number` channels: `SLFT` and `SRGT` for two, else `C000`, `C001` and so on.
pub(crate) fn channel_ids(alloc: Global, number: usize) -> Result<Vec<[u8; 4]>, AllocError>
    requires { number ≤ 6 }
    ensures { IfOk result (λ ids. ids.items ≡ dsf_ids number) }
{
    let mut ids = Vec::new(alloc);
    if number == 2 {
        ids.push(*b"SLFT")?;
        ids.push(*b"SRGT")?;
        return Ok(ids);
    }
    for c in 0..number as u8 {
        ids.push([b'C', b'0', b'0', b'0' + c])?;
    }
    Ok(ids)
}
