//! Which loudspeakers channels belong to.

ghost use Rattle.std.specs.Prelude.{◌≡◌, ◌<◌, ◌≤◌, ◌++◌, [], All, IfOk, IfSome, OnOk, length, map, option_to_list, true};
ghost use Rattle.std.specs.List.{range_with_len};
ghost use Rattle.dsd_bits.specs.Layouts.{layout_channels};
ghost use Rattle.speaker_core.specs.Reordering.{NamesChannels};
ghost use Rattle.speaker_core.specs.Speakers as speakers;

use std::alloc::{AllocError, Global};

// The loudspeakers, in the order of the mask's bits.
const SPEAKERS: [u32; 6] = [0, 1, 2, 3, 4, 5];

/// Which loudspeakers the channels of a recording belong to, in a WAVE file.
#[derive(Drop)]
pub struct Speakers {
    /// The channel mask; 0 if not all channels are named, or two have the same name.
    pub mask: u32,
    /// The channels in their order there.
    pub order: Vec<usize>,
}

impl Speakers {
    /// Those of channels with these IDs of DSDIFF 1.5.
    ///
    /// It fails only if memory runs out.
    pub fn of_ids(alloc: Global, ids: &[[u8; 4]]) -> Result<Speakers, AllocError>
        ensures mask { IfOk result (λ s. s.mask ≡ speakers.speaker_mask (map speakers.speaker_of ids.now)) }
        ensures order { IfOk result (λ s. s.order.items ≡ speakers.speaker_order (map speakers.speaker_of ids.now)) }
        ensures channels { IfOk result (λ s. NamesChannels s.order.items) }
        ensures number { IfOk result (λ s. length s.order.items ≡ length ids.now) }
    {
        let mut channels = Vec::with_capacity(alloc, ids.len())?;
        for id in ids {
            channels.push(speaker_of(id))?;
        }
        Speakers::of(alloc, &channels)
    }

    /// Those of the channels of a channel type of DSF 1.01.
    ///
    /// It fails only if memory runs out.
    pub fn of_layout(alloc: Global, layout: u32) -> Result<Speakers, AllocError>
        ensures mask { IfOk result (λ s. s.mask ≡ speakers.speaker_mask (speakers.channel_speakers true [] layout)) }
        ensures order { IfOk result (λ s. s.order.items ≡ speakers.speaker_order (speakers.channel_speakers true [] layout)) }
        ensures channels { IfOk result (λ s. NamesChannels s.order.items) }
        ensures number { IfOk result (λ s. length s.order.items ≡ length (speakers.layout_speakers layout)) }
    {
        let named = layout_speakers(layout);
        let mut channels = Vec::with_capacity(alloc, named.len())?;
        for speaker in named {
            channels.push(Some(*speaker))?;
        }
        Speakers::of(alloc, &channels)
    }

    // Those of channels that have these loudspeakers.
    fn of(alloc: Global, channels: &[Option<u32>]) -> Result<Speakers, AllocError>
        ensures mask { IfOk result (λ s. s.mask ≡ speakers.speaker_mask channels.now) }
        ensures order { IfOk result (λ s. s.order.items ≡ speakers.speaker_order channels.now) }
        ensures channels { IfOk result (λ s. NamesChannels s.order.items) }
        ensures number { IfOk result (λ s. length s.order.items ≡ length channels.now) }
    {
        let mut order = Vec::with_capacity(alloc, channels.len())?;
        push_channels(&mut order, channels, &SPEAKERS)?;
        if order.len() == channels.len() {
            let mask = mask_of(channels);
            return Ok(Speakers { mask, order });
        }
        let order = in_place(alloc, channels.len())?;
        Ok(Speakers { mask: 0, order })
    }
}

impl Speakers {
    /// How many of the groups of a sound have their channels in another order: all or none.
    pub fn moved_groups(&self, groups: usize) -> usize
        ensures { result ≡ speakers.moved_groups self.now.order.items groups }
    {
        if is_moved(&self.order) { groups } else { 0 }
    }
}

/// The channel type of DSF 1.01 that has the loudspeakers of a mask, and so its channels in the order of the mask's bits;
/// none if no type has them.
pub fn layout_with(mask: u32) -> Option<u32>
    ensures { result ≡ speakers.layout_with mask }
{
    match mask {
        4 => Some(1),
        3 => Some(2),
        7 => Some(3),
        0x33 => Some(4),
        0xf => Some(5),
        0x37 => Some(6),
        0x3f => Some(7),
        _ => None,
    }
}

/// The IDs of DSDIFF 1.5 that name the loudspeakers of a channel type of DSF 1.01, in the order of its channels. Two
/// channels are `SLFT` and `SRGT`.
///
/// It fails only if memory runs out.
pub fn layout_ids(alloc: Global, layout: u32) -> Result<Vec<[u8; 4]>, AllocError>
    ensures ids { IfOk result (λ ids. ids.items ≡ speakers.layout_ids layout) }
    ensures number { IfOk result (λ ids. length ids.items ≡ layout_channels layout) }
{
    if layout == 2 {
        return Vec::from_slice(alloc, &[*b"SLFT", *b"SRGT"]);
    }
    let named = layout_speakers(layout);
    let mut ids = Vec::with_capacity(alloc, named.len())?;
    for speaker in named {
        ids.push(speaker_id(*speaker))?;
    }
    Ok(ids)
}

// The ID of a loudspeaker of channels that aren't two.
fn speaker_id(speaker: u32) -> [u8; 4]
    ensures { result ≡ speakers.speaker_id speaker }
{
    match speaker {
        0 => *b"MLFT",
        1 => *b"MRGT",
        2 => *b"C   ",
        3 => *b"LFE ",
        4 => *b"LS  ",
        _ => *b"RS  ",
    }
}

// Whether a channel comes at another place than its own.
fn is_moved(order: &[usize]) -> bool
    ensures { result ≡ speakers.is_moved order.now 0 }
{
    for k in 0..order.len() {
        if order[k] != k {
            return true;
        }
    }
    false
}

// The channels in their own order.
fn in_place(alloc: Global, number: usize) -> Result<Vec<usize>, AllocError>
    ensures order { IfOk result (λ order. order.items ≡ range_with_len 0 number) }
    ensures channels { IfOk result (λ order. NamesChannels order.items) }
{
    let mut order = Vec::with_capacity(alloc, number)?;
    for c in 0..number {
        order.push(c)?;
    }
    Ok(order)
}

// Appends the channels that have some loudspeakers, one of each.
fn push_channels(
    order: &mut Vec<usize>,
    channels: &[Option<u32>],
    named: &[u32],
) -> Result<(), AllocError>
    ensures ok { OnOk result (order.new.items ≡ order.old.items ++ speakers.channels_of channels.now named.now) }
    ensures inside { All (λ c. c < length channels.now) order.old.items → All (λ c. c < length channels.now) order.new.items }
{
    for speaker in named {
        push_channel(order, channels, *speaker)?;
    }
    Ok(())
}

// Appends the first channel that has a loudspeaker, if there is one.
fn push_channel(
    order: &mut Vec<usize>,
    channels: &[Option<u32>],
    speaker: u32,
) -> Result<(), AllocError>
    ensures ok { OnOk result (order.new.items ≡ order.old.items ++ option_to_list (speakers.channel_with speaker channels.now 0)) }
    ensures inside { All (λ c. c < length channels.now) order.old.items → All (λ c. c < length channels.now) order.new.items }
{
    let Some(c) = channel_with(channels, speaker) else {
        return Ok(());
    };
    order.push(c)?;
    Ok(())
}

// The mask's bits of the channels' loudspeakers.
fn mask_of(channels: &[Option<u32>]) -> u32
    requires { speakers.are_named channels.now ≡ true }
    ensures { result ≡ speakers.speaker_mask channels.now }
{
    bit(channels, 0, 1)
        + (bit(channels, 1, 2)
            + (bit(channels, 2, 4)
                + (bit(channels, 3, 8) + (bit(channels, 4, 16) + bit(channels, 5, 32)))))
}

// The mask's bit of a loudspeaker, if a channel has it.
fn bit(channels: &[Option<u32>], speaker: u32, value: u32) -> u32
    ensures value { result ≡ speakers.speaker_bit channels.now speaker value }
    ensures few { result ≤ value }
{
    match channel_with(channels, speaker) {
        Some(_) => value,
        None => 0,
    }
}

// The first channel that has a loudspeaker.
fn channel_with(channels: &[Option<u32>], speaker: u32) -> Option<usize>
    ensures first { result ≡ speakers.channel_with speaker channels.now 0 }
    ensures inside { IfSome result (λ c. c < length channels.now) }
{
    for c in 0..channels.len() {
        if let Some(other) = channels[c] {
            if other == speaker {
                return Some(c);
            }
        }
    }
    None
}

// The loudspeaker that an ID names.
fn speaker_of(id: &[u8; 4]) -> Option<u32>
    ensures { result ≡ speakers.speaker_of id.now }
{
    if *id == *b"SLFT" || *id == *b"MLFT" {
        Some(0)
    } else if *id == *b"SRGT" || *id == *b"MRGT" {
        Some(1)
    } else if *id == *b"C   " {
        Some(2)
    } else if *id == *b"LFE " {
        Some(3)
    } else if *id == *b"LS  " {
        Some(4)
    } else if *id == *b"RS  " {
        Some(5)
    } else {
        None
    }
}

// The loudspeakers of a channel type.
fn layout_speakers(layout: u32) -> &'static [u32]
    ensures { result.now ≡ speakers.layout_speakers layout }
{
    match layout {
        1 => &[2],
        2 => &[0, 1],
        3 => &[0, 1, 2],
        4 => &[0, 1, 4, 5],
        5 => &[0, 1, 2, 3],
        6 => &[0, 1, 2, 4, 5],
        7 => &[0, 1, 2, 3, 4, 5],
        _ => &[],
    }
}
