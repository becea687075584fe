//! A range of bits is appended to packed bits.

ghost use Rattle.std.specs.Prelude.{◌≡◌, ◌-◌, ◌*◌, ◌+◌, ◌≤◌, ◌++◌, IsOk, OnErr, OnOk, length, slice_range, vec_capacity};
ghost use Rattle.dsd_bits.specs.Limits.{most_bits};
ghost use Rattle.dsd_bits.specs.Packing.{IsTight, unpacked};

use crate::bits::Bits;
use crate::packing::{append_bytes, clear_from, fill_byte};
use std::alloc::AllocError;

// Appends the bits `start` to `stop - 1` of `source` to `before` packed bits. It fails only if there is no room, and
// then the bytes are unchanged.
pub(crate) fn append_range(
    bytes: &mut Vec<u8>,
    before: usize,
    source: &Bits,
    start: usize,
    stop: usize,
) -> Result<(), AllocError>
    requires tight { IsTight bytes.old.items before }
    requires in_order { start ≤ stop }
    requires in_source { stop ≤ length source.now }
    requires in_limit { before + (stop - start) ≤ most_bits }
    ensures tight { OnOk result (IsTight bytes.new.items (before + (stop - start))) }
    ensures appended { OnOk result (unpacked bytes.new.items (before + (stop - start))
        ≡ unpacked bytes.old.items before ++ slice_range source.now start stop) }
    ensures err { OnErr result (bytes.new.items ≡ bytes.old.items) }
    ensures capacity { vec_capacity bytes.old ≤ vec_capacity bytes.new }
    ensures succeeds { before + (stop - start) ≤ 8 * vec_capacity bytes.old → IsOk result }
{
    let count = before + (stop - start);
    let kept = bytes.len();
    let added = count.div_ceil(8) - kept;
    let from = source.as_bytes();
    append_bytes(bytes, from, start + (8 * kept - before), added)?;
    fill_byte(bytes, before, from, start);
    clear_from(bytes, count);
    Ok(())
}

// The same if memory for the bits is reserved: it never fails.
pub(crate) fn append_held(
    bytes: &mut Vec<u8>,
    before: usize,
    source: &Bits,
    start: usize,
    stop: usize,
)
    requires tight { IsTight bytes.old.items before }
    requires in_order { start ≤ stop }
    requires in_source { stop ≤ length source.now }
    requires in_limit { before + (stop - start) ≤ most_bits }
    requires held { before + (stop - start) ≤ 8 * vec_capacity bytes.old }
    ensures tight { IsTight bytes.new.items (before + (stop - start)) }
    ensures appended { unpacked bytes.new.items (before + (stop - start))
        ≡ unpacked bytes.old.items before ++ slice_range source.now start stop }
    ensures capacity { vec_capacity bytes.old ≤ vec_capacity bytes.new }
{
    match append_range(bytes, before, source, start, stop) {
        Ok(()) => {}
        Err(AllocError) => unreachable!(),
    }
}
