//! Gives the frames by a filter of a recording that comes as a byte of each channel in turn, and whose end isn't known
//! before.

ghost use Rattle.std.specs.Prelude.{◌≡◌, ◌+◌, ◌≤◌, ◌^◌, ◌++◌, List, ℕ, IfOk, drop, length};
ghost use Rattle.dsd_bits.specs.declared.interleaving.Interleaving.TheVariants.{Bytes};
ghost use Rattle.dsd_bits.specs.declared.sound.Sound.{Sound};
ghost use Rattle.joined_core.specs.Frames as Frames;
ghost use Rattle.joined_core.specs.Frames.{HasPlayedOn, PlaysMore};
ghost use Rattle.player_core.specs.PartView.{part_rest};
ghost use Rattle.player_core.specs.Parts.{groups_before};
ghost use Rattle.player_core.specs.declared.parts.PartPlayer.{PartPlayer};
ghost use Rattle.wave_core.specs.Sizes.{block_align};

use dsd_bits::{Interleaving, Sound};
use fir_core::Taps;
use player_core::{PartPlayer, PausedPart};
use std::alloc::{AllocError, Global};

// How many bytes of each channel the longest recording has.
const MOST_BYTES: usize = 0x2_0000_0000;

/// What gives the frames of a recording by a filter. Of the recording it holds what the filter still reads, once in the
/// player and once as bytes.
#[derive(Drop)]
pub struct FrameGiver {
    /// The filter.
    pub(crate) taps: Taps,
    /// The longest recording of this rate and these channels: the end isn't known before.
    pub(crate) sound: Sound,
    /// The player of that, between two pieces.
    pub(crate) paused: PausedPart,
    /// How many bytes came.
    pub(crate) fed: usize,
    /// How many frames were given.
    pub(crate) number: usize,
    /// The bytes that came, from the first one on that the next frame reads.
    pub(crate) tail: Vec<u8>,
}

impl FrameGiver {
    ghost use Rattle.std.specs.Prelude.{◌≡◌, ◌+◌, ◌*◌, ◌<◌, ◌≤◌, ◌^◌, [], IfOk, OnOk, length};
    ghost use Rattle.dsd_bits.specs.Limits.{IsRate};
    ghost use Rattle.joined_core.specs.Frames.{FinishesFrames, HasGivenFrames, IsFrameGiver, TakesFrames};

    /// Before the first byte of a recording of this rate, in hertz, and so many channels.
    pub fn new(
        alloc: Global,
        taps: Taps,
        rate: u32,
        channels: usize,
    ) -> Result<FrameGiver, AllocError>
        requires rate { IsRate rate }
        requires channels { (1 ≤ channels) × (channels ≤ 6) }
        ensures ready { IfOk result IsFrameGiver }
        ensures given { IfOk result (HasGivenFrames [] []) }
        ensures same { IfOk result (λ g. (g.taps ≡ taps) × (g.sound.rate ≡ rate) × (g.sound.channels ≡ channels)) }
    {
        let sound = joined_sound(rate, channels, MOST_BYTES);
        let total = sound.count.div_ceil(taps.factor() as usize);
        let player = PartPlayer::new(alloc, &taps, sound, 0, total)?;
        let paused = PausedPart::of(player);
        Ok(FrameGiver {
            taps,
            sound,
            paused,
            fed: 0,
            number: 0,
            tail: Vec::new(alloc),
        })
    }

    /// Takes the next bytes, and appends the bytes of the frames that are due with them.
    pub fn take(
        self,
        alloc: Global,
        bytes: &[u8],
        out: &mut Vec<u8>,
    ) -> Result<FrameGiver, AllocError>
        requires ready { IsFrameGiver self }
        requires few { self.fed + length bytes.now < 2 ^ 33 * self.sound.channels }
        ensures { IfOk result (TakesFrames self bytes.now out.old.items out.new.items) }
    {
        let FrameGiver {
            taps,
            sound,
            paused,
            fed,
            number,
            tail,
        } = self;
        let given = out.len();
        let paused = play_some(&taps, paused, bytes, out)?;
        let now = number + (out.len() - given) / frame_size(&taps, sound.channels);
        let kept_from = (first_read(&taps, number) * sound.channels).min(fed);
        let keep_from = first_read(&taps, now) * sound.channels;
        let tail = moved(alloc, tail, bytes, keep_from - kept_from)?;
        Ok(FrameGiver {
            taps,
            sound,
            paused,
            fed: fed + bytes.len(),
            number: now,
            tail,
        })
    }

    /// Appends the bytes of the frames that were not due: the recording ends.
    pub fn finish(&self, alloc: Global, out: &mut Vec<u8>) -> Result<(), AllocError>
        requires ready { IsFrameGiver self.now }
        ensures { OnOk result (FinishesFrames self.now out.old.items out.new.items) }
    {
        let channels = self.sound.channels;
        let sound = joined_sound(self.sound.rate, channels, self.fed / channels);
        let total = sound.count.div_ceil(self.taps.factor() as usize);
        let mut player = PartPlayer::new(alloc, &self.taps, sound, self.number, total)?;
        let (last, _) = self.tail.split_at(self.tail.len() / channels * channels);
        player.feed(last, out)?;
        player.finish(out)
    }
}

// Plays the next bytes of a sound that doesn't end with them.
fn play_some(
    taps: &Taps,
    paused: PausedPart,
    bytes: &[u8],
    out: &mut Vec<u8>,
) -> Result<PausedPart, AllocError>
    requires left { (s : Sound) × (before : List ℕ) × (given : List ℕ) × (p : PartPlayer)
        × HasPlayedOn taps.now s before given p paused × (length before + length bytes.now ≤ (part_rest p).size) }
    ensures { IfOk result (PlaysMore taps.now paused bytes.now out.old.items out.new.items) }
{
    let mut player = paused.resume(taps);
    player.feed(bytes, out)?;
    Ok(PausedPart::of(player))
}

// A recording of so many bytes of each channel, as a sound.
fn joined_sound(rate: u32, channels: usize, bytes: usize) -> Sound
    requires channels { channels ≤ 6 }
    requires few { bytes ≤ 2 ^ 33 }
    ensures { result ≡ Frames.joined_sound rate channels bytes }
{
    Sound {
        rate,
        channels,
        count: bytes * 8,
        start: 0,
        size: bytes * channels,
        interleaving: Interleaving::Bytes,
    }
}

// How many bytes a frame has.
fn frame_size(taps: &Taps, channels: usize) -> usize
    requires { (1 ≤ channels) × (channels ≤ 6) }
    ensures { result ≡ block_align channels taps.now.width }
{
    channels * (taps.width() as usize / 8)
}

// The byte of each channel from which on all lies that a frame reads.
fn first_read(taps: &Taps, number: usize) -> usize
    requires { number ≤ 2 ^ 36 }
    ensures { result ≡ groups_before taps.now Bytes number }
{
    let after = number.saturating_sub(taps.first_whole());
    after * (taps.factor() as usize / 8)
}

// What is kept with more bytes, without so many of the first.
fn moved(alloc: Global, tail: Vec<u8>, bytes: &[u8], left_out: usize) -> Result<Vec<u8>, AllocError>
    ensures { IfOk result (λ made. made.items ≡ drop left_out (tail.items ++ bytes.now)) }
{
    let mut tail = tail;
    tail.extend_from_slice(bytes)?;
    let (_, rest) = tail.split_at(left_out.min(tail.len()));
    let moved = Vec::from_slice(alloc, rest)?;
    Ok(moved)
}
