//! The bits of DoP samples, packed.

ghost use Rattle.std.specs.Prelude.{◌≡◌, ◌≢◌, ◌≤◌, ◌<◌, ◌+◌, ◌*◌, ◌/◌, ◌%◌, ℕ, OnOk, length, slice_index};
ghost use Rattle.std.specs.Int.{div_ceil};
ghost use Rattle.dsd_bits.specs.Lacing.{unlaced_all};
ghost use Rattle.dop_core.specs.Reading as Reading;
ghost use Rattle.dop_core.specs.Reading.{dop_byte};

use std::alloc::AllocError;

/// Makes `packed` the bytes of the first bits of each channel, one of each channel in turn.
pub(crate) fn pack(
    packed: &mut Vec<u8>,
    piece: &[u8],
    channels: usize,
    count: usize,
) -> Result<(), AllocError>
    requires some { 1 ≤ channels }
    requires six { channels ≤ 6 }
    requires whole { count % 8 ≡ 0 }
    requires size { 3 * (div_ceil count 16 * channels) ≤ length piece.now }
    ensures long { OnOk result (length packed.new.items ≡ count / 8 * channels) }
    ensures bits { OnOk result (unlaced_all packed.new.items channels ≡ Reading.dop_channels channels piece.now count) }
{
    let frames = count.div_ceil(16);
    packed.resize(2 * (frames * channels), 0)?;
    let to = packed.as_mut_slice();
    for c in 0..channels {
        pack_channel(to, piece, channels, c, frames);
    }
    packed.truncate(count / 8 * channels);
    Ok(())
}

// Writes the bytes of a channel.
fn pack_channel(to: &mut [u8], piece: &[u8], channels: usize, c: usize, frames: usize)
    requires channel { c < channels }
    requires size { 3 * (frames * channels) ≤ length piece.now }
    requires room { length to.old ≡ 2 * (frames * channels) }
    ensures own { (p : ℕ) → p < 2 * frames → slice_index to.new (p * channels + c) ≡ dop_byte channels piece.now c p }
    ensures others { (p d : ℕ) → d < channels → d ≢ c → slice_index to.new (p * channels + d) ≡ slice_index to.old (p * channels + d) }
{
    for j in 0..frames {
        let at = 3 * (j * channels + c);
        let place = 2 * (j * channels) + c;
        to[place] = piece[at + 1];
        to[place + channels] = piece[at];
    }
}
