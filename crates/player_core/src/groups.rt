//! The bytes of one channel among sound bytes that hold several.

ghost use Rattle.std.specs.Prelude.{◌≡◌, ℕ, ◌+◌, ◌*◌, ◌/◌, ◌<◌, ◌≤◌, ◌++◌, OnOk, drop, length, map, slice_index};
ghost use Rattle.dsd_bits.specs.Blocks.{ordered};
ghost use Rattle.player_core.specs.Due as Due;
ghost use Rattle.player_core.specs.Groups as Groups;
ghost use Rattle.player_core.specs.Groups.{PicksChannel, block_bytes, channel_part, whole_size};

use dsd_bits::{BitOrder, Interleaving, Sound, reverse};
use std::alloc::AllocError;
use std::simd::prelude::*;

// The bytes of a block.
const BLOCK: usize = 4096;

/// Whole groups of sound bytes, and how many bytes of each channel are taken from them.
#[derive(Clone, Copy)]
pub(crate) struct WholeGroups<'g> {
    /// The sound bytes.
    pub(crate) bytes: &'g [u8],
    /// One to six channels.
    pub(crate) channels: usize,
    /// How the channels are interleaved.
    pub(crate) interleaving: Interleaving,
    /// How many bytes of each channel are taken, from its first on.
    pub(crate) number: usize,
}

/// How many neighbouring bytes of a channel there are: one in DSDIFF 1.5, a block in DSF 1.01.
pub(crate) fn part_size(interleaving: Interleaving) -> usize
    ensures { result ≡ Groups.part_size interleaving }
{
    match interleaving {
        Interleaving::Bytes => 1,
        Interleaving::Blocks(_) => BLOCK,
    }
}

/// How many bytes a group of sound bytes has: for each channel in turn its neighbouring bytes.
pub(crate) fn group_size(sound: &Sound) -> usize
    requires { sound.now.channels ≤ 6 }
    ensures { result ≡ Groups.group_size sound.now.interleaving sound.now.channels }
{
    sound.channels * part_size(sound.interleaving)
}

/// How many bytes of each channel are in the whole groups of `size` sound bytes.
pub(crate) fn bytes_known(sound: &Sound, size: usize) -> usize
    requires { (1 ≤ sound.now.channels) × (sound.now.channels ≤ 6) }
    ensures { result ≡ Due.bytes_known sound.now size }
{
    let whole = size / group_size(sound) * part_size(sound.interleaving);
    sound.count.div_ceil(8).min(whole)
}

/// The first bytes of a channel in whole groups of sound bytes, each with its earliest bit as the most significant.
/// They replace what `own` held.
pub(crate) fn fill_channel(
    own: &mut Vec<u8>,
    groups: &[u8],
    channels: usize,
    channel: usize,
    interleaving: Interleaving,
    number: usize,
) -> Result<(), AllocError>
    requires channel { (channel < channels) × (channels ≤ 6) }
    requires enough { number ≤ whole_size interleaving channels (length groups.now) }
    ensures { OnOk result (own.new.items ≡ channel_part interleaving channels groups.now channel 0 number) }
{
    own.clear();
    match interleaving {
        Interleaving::Bytes => fill_strided(own, groups, channels, channel, number),
        Interleaving::Blocks(order) => push_blocks(own, groups, channels, channel, order, number),
    }
}

// The byte of a channel in each of the first frames of `channels` bytes, which replace what `own` held.
fn fill_strided(
    own: &mut Vec<u8>,
    groups: &[u8],
    channels: usize,
    channel: usize,
    number: usize,
) -> Result<(), AllocError>
    requires channel { channel < channels }
    requires enough { number * channels ≤ length groups.now }
    ensures { OnOk result (own.new.items ≡ channel_part Interleaving.Bytes channels groups.now channel 0 number) }
{
    own.resize(number, 0)?;
    pick(own.as_mut_slice(), groups, channels, channel);
    Ok(())
}

// Writes the byte of a channel in each frame.
fn pick(to: &mut [u8], groups: &[u8], channels: usize, channel: usize)
    requires channel { channel < channels }
    requires enough { length to.old * channels ≤ length groups.now }
    ensures { PicksChannel channels channel groups.now (length to.old) to.new }
{
    if channels == 2 {
        pick_of_two(to, groups, channel);
        return;
    }
    for frame in 0..to.len() {
        to[frame] = groups[frame * channels + channel];
    }
}

// The same of two channels: 16 frames at a time, then the rest.
fn pick_of_two(to: &mut [u8], groups: &[u8], channel: usize)
    requires channel { channel < 2 }
    requires enough { length to.old * 2 ≤ length groups.now }
    ensures { PicksChannel 2 channel groups.now (length to.old) to.new }
{
    let whole = to.len() / 16;
    for k in 0..whole {
        pick_lanes(groups, 16 * k, channel).copy_to_slice(&mut to[16 * k..]);
    }
    for frame in 16 * whole..to.len() {
        to[frame] = groups[frame * 2 + channel];
    }
}

// The byte of one of two channels in 16 frames.
#[inline(always)]
fn pick_lanes(groups: &[u8], frame: usize, channel: usize) -> u8x16
    requires channel { channel < 2 }
    requires enough { 2 * frame + 32 ≤ length groups.now }
    ensures { (length result ≡ 16) × ((k : ℕ) → k < 16 →
        slice_index result k ≡ slice_index groups.now ((frame + k) * 2 + channel)) }
{
    let first = u8x16::from_slice(&groups[2 * frame..]);
    let second = u8x16::from_slice(&groups[2 * frame + 16..]);
    let (left, right) = first.deinterleave(second);
    if channel == 0 { left } else { right }
}

// Appends the first bytes of a channel's block in each group of blocks.
fn push_blocks(
    own: &mut Vec<u8>,
    groups: &[u8],
    channels: usize,
    channel: usize,
    order: BitOrder,
    number: usize,
) -> Result<(), AllocError>
    requires channel { (channel < channels) × (channels ≤ 6) }
    requires enough { number ≤ length groups.now / (channels * 4096) * 4096 }
    ensures { OnOk result (own.new.items ≡ own.old.items ++ block_bytes order channels groups.now channel number) }
{
    for group in 0..number.div_ceil(BLOCK) {
        let (_, block) = groups.split_at((group * channels + channel) * BLOCK);
        let (used, _) = block.split_at((number - BLOCK * group).min(BLOCK));
        push_in_order(own, used, order)?;
    }
    Ok(())
}

// Appends bytes, each changed between this order of its bits and the order with the most significant bit first.
fn push_in_order(own: &mut Vec<u8>, bytes: &[u8], order: BitOrder) -> Result<(), AllocError>
    ensures { OnOk result (own.new.items ≡ own.old.items ++ map (ordered order) bytes.now) }
{
    let kept = own.len();
    own.extend_from_slice(bytes)?;
    if order == BitOrder::LeastFirst {
        let (_, added) = own.as_mut_slice().split_at_mut(kept);
        reverse(added);
    }
    Ok(())
}

/// Drops the first bytes.
pub(crate) fn drop_first(held: &mut Vec<u8>, cut: usize)
    requires { cut ≤ length held.old.items }
    ensures { held.new.items ≡ drop cut held.old.items }
{
    if cut == 0 {
        return;
    }
    let left = held.len() - cut;
    held.copy_within(cut.., 0);
    held.truncate(left);
}
