//! Channels that are filled up with silence.

ghost use Rattle.std.specs.Prelude.{◌≡◌, ◌⊎◌, ◌*◌, ◌/◌, ◌%◌, ◌≤◌, ◌++◌, IfOk, OnErr, OnOk, length};
ghost use Rattle.dsd_bits.specs.Channels.{IsLevel, count_of};
ghost use Rattle.dsd_bits.specs.Lacing.{laced};
ghost use Rattle.dsd_bits.specs.Limits.{most_bits};
ghost use Rattle.dsd_bits.specs.Sounds.{sound_channels, sound_size};
ghost use Rattle.native_core.specs.Native.{all_filled, filled, silence_bit};

use dsd_bits::{Bits, Interleaving, push_laced};
use interleave_core::{Segment, push_reinterleaved, unlace};
use std::alloc::{AllocError, Global};

// The bits of silence, the earliest the most significant.
const SILENCE: u8 = 0x69;

/// Appends the bytes of a segment's channels, one of each channel in turn, with silence up to a whole number of units.
pub(crate) fn push_filled(
    alloc: Global,
    out: &mut Vec<u8>,
    bytes: &[u8],
    stretch: Segment,
    from: Interleaving,
    unit: usize,
) -> Result<(), AllocError>
    requires unit { (unit ≡ 8) ⊎ (unit ≡ 16) }
    requires size { length bytes.now ≡ sound_size from stretch.channels stretch.count }
    requires from_whole { from ≡ Interleaving.Bytes → stretch.count % 8 ≡ 0 }
    ensures ok { OnOk result (out.new.items
        ≡ out.old.items ++ laced (all_filled unit (sound_channels from stretch.channels stretch.count bytes.now))) }
{
    if stretch.count % unit == 0 {
        return push_reinterleaved(alloc, out, bytes, stretch, from, Interleaving::Bytes);
    }
    let channels = unlace(alloc, bytes, stretch, from)?;
    let full = fill_all(alloc, &channels, unit)?;
    push_laced(out, &full)
}

// Each channel, with silence up to a whole number of units.
fn fill_all(alloc: Global, channels: &[Bits], unit: usize) -> Result<Vec<Bits>, AllocError>
    requires unit { (unit ≡ 8) ⊎ (unit ≡ 16) }
    ensures { IfOk result (λ made. made.items ≡ all_filled unit channels.now) }
{
    let mut made = Vec::new(alloc);
    for c in 0..channels.len() {
        made.push(fill(alloc, &channels[c], unit)?)?;
    }
    Ok(made)
}

// A channel, with silence up to a whole number of units.
fn fill(alloc: Global, channel: &Bits, unit: usize) -> Result<Bits, AllocError>
    requires unit { (unit ≡ 8) ⊎ (unit ≡ 16) }
    ensures { IfOk result (λ made. made ≡ filled unit channel.now) }
{
    let count = channel.len();
    let mut made = Bits::new(alloc);
    made.push_range(channel, 0, count)?;
    for i in count..count.div_ceil(unit) * unit {
        made.push_bit(silence_at(i))?;
    }
    Ok(made)
}

// Bit i of silence.
fn silence_at(i: usize) -> bool
    ensures { result ≡ silence_bit i }
{
    (SILENCE >> (7 - i % 8)) & 1 == 1
}
