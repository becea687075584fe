//! The bits of a segment of sound as a converter takes them.

ghost use Rattle.std.specs.Prelude.{◌≡◌, ◌%◌, ◌++◌, OnOk, length};
ghost use Rattle.dsd_bits.specs.Sounds.{sound_size};
ghost use Rattle.native_core.specs.Native.{NativeHasSize, NativeJoins, native_of};

use crate::dop::push_dop;
use crate::filling::push_filled;
use crate::layout::Layout;
use dsd_bits::{BitOrder, Interleaving, put_in_order};
use interleave_core::Segment;
use std::alloc::{AllocError, Global};

/// Appends the frames of a segment's channels: `bytes` is interleaved as `from`. The channels are filled up with
/// silence to a whole frame.
pub fn push_native(
    alloc: Global,
    out: &mut Vec<u8>,
    bytes: &[u8],
    stretch: Segment,
    from: Interleaving,
    layout: Layout,
) -> Result<(), AllocError>
    requires size { length bytes.now ≡ sound_size from stretch.channels stretch.count }
    requires from_whole { from ≡ Interleaving.Bytes → stretch.count % 8 ≡ 0 }
    ensures ok { OnOk result (out.new.items
        ≡ out.old.items ++ native_of layout from stretch.channels stretch.count bytes.now) }
{
    match layout {
        Layout::Bytes(order) => push_bytes(alloc, out, bytes, stretch, from, order),
        Layout::Dop => push_samples(alloc, out, bytes, stretch, from),
    }
}

// Appends a byte of each channel in turn, with its bits in this order.
fn push_bytes(
    alloc: Global,
    out: &mut Vec<u8>,
    bytes: &[u8],
    stretch: Segment,
    from: Interleaving,
    order: BitOrder,
) -> Result<(), AllocError>
    requires size { length bytes.now ≡ sound_size from stretch.channels stretch.count }
    requires from_whole { from ≡ Interleaving.Bytes → stretch.count % 8 ≡ 0 }
    ensures ok { OnOk result (out.new.items
        ≡ out.old.items ++ native_of (Layout.Bytes order) from stretch.channels stretch.count bytes.now) }
{
    let kept = out.len();
    push_filled(alloc, out, bytes, stretch, from, 8)?;
    let (_, added) = out.as_mut_slice().split_at_mut(kept);
    put_in_order(added, order);
    Ok(())
}

// Appends a DoP sample of each channel in turn.
fn push_samples(
    alloc: Global,
    out: &mut Vec<u8>,
    bytes: &[u8],
    stretch: Segment,
    from: Interleaving,
) -> Result<(), AllocError>
    requires size { length bytes.now ≡ sound_size from stretch.channels stretch.count }
    requires from_whole { from ≡ Interleaving.Bytes → stretch.count % 8 ≡ 0 }
    ensures ok { OnOk result (out.new.items
        ≡ out.old.items ++ native_of Layout.Dop from stretch.channels stretch.count bytes.now) }
{
    match from {
        Interleaving::Bytes if stretch.count % 16 == 0 => push_dop(out, bytes, stretch.channels),
        _ => {
            let mut own = Vec::new(alloc);
            push_filled(alloc, &mut own, bytes, stretch, from, 16)?;
            push_dop(out, &own, stretch.channels)
        }
    }
}

/// The frames of whole groups of 4096 bytes (32768 bits) a channel, and of the bytes after them, are those of all. The
/// function does nothing: a caller's proof cites what it ensures.
pub fn native_joins()
    ensures { NativeJoins }
{}

/// There are as many bytes as the frames have. The function does nothing: a caller's proof cites what it ensures.
pub fn native_has_size()
    ensures { NativeHasSize }
{}
