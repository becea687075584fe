//! Sound bytes whose channels come in another order.

ghost use Rattle.std.specs.Prelude.{◌≡◌, ◌*◌, ◌≤◌, ◌++◌, OnOk, length};
ghost use Rattle.speaker_core.specs.Laws.{ReorderedHoldChannels};
ghost use Rattle.speaker_core.specs.Reordering.{NamesChannels, group_in, groups_in};

use std::alloc::AllocError;

/// Appends bytes, the first groups of them with their channels in an order. A group has `size` bytes of each channel.
pub fn push_groups(
    out: &mut Vec<u8>,
    bytes: &[u8],
    order: &[usize],
    size: usize,
    groups: usize,
) -> Result<(), AllocError>
    requires channels { NamesChannels order.now }
    requires fits { length order.now * size ≤ 65536 }
    ensures { OnOk result (out.new.items ≡ out.old.items ++ groups_in order.now size groups bytes.now) }
{
    let group = order.len() * size;
    let mut rest = bytes;
    let mut left = groups;
    while left > 0 && rest.len() >= group {
        let (first, more) = rest.split_at(group);
        push_group(out, first, order, size)?;
        rest = more;
        left -= 1;
    }
    out.extend_from_slice(rest)
}

// Appends a group with its channels in an order.
fn push_group(
    out: &mut Vec<u8>,
    group: &[u8],
    order: &[usize],
    size: usize,
) -> Result<(), AllocError>
    requires channels { NamesChannels order.now }
    requires fits { length order.now * size ≤ 65536 }
    requires whole { length group.now ≡ length order.now * size }
    ensures { OnOk result (out.new.items ≡ out.old.items ++ group_in order.now size group.now) }
{
    for c in order {
        let from = *c * size;
        out.extend_from_slice(&group[from..from + size])?;
    }
    Ok(())
}

/// The law of reordered sound: bytes of whole frames whose groups come in an order hold the channels in that order. It
/// does nothing: a caller's proof cites what it ensures.
pub fn reordered_bytes_hold_channels()
    ensures { ReorderedHoldChannels }
{}
