//! A sink that plays a sound between others, to which it is joined.

ghost use Rattle.std.specs.Prelude.{◌≡◌, ◌+◌, ◌*◌, ◌/◌, ◌<◌, ◌≤◌, ◌^◌, IfErr, IfOk, IfSome, None};
ghost use Rattle.fir_core.specs.Decimator.{IsWithinLimits};
ghost use Rattle.player_core.specs.Between as Between;
ghost use Rattle.player_core.specs.Between.{CanBeJoined, IsJoined, bits_before};
ghost use Rattle.player_core.specs.Joining.{EndsJoined, HasAllOfJoined, RefusesEnd};
ghost use Rattle.sound_core.specs.Faults.{IsWritingFault};

use crate::piece::{BlockPiece, Piece};
use crate::range::WaveRange;
use crate::sink::{PlayingSink, finish};
use dsd_bits::{Interleaving, Sound};
use fir_core::Taps;
use interleave_core::push_reinterleaved;
use sound_core::{SoundPart, SoundSink, StreamFault};
use std::alloc::Global;
use std::io::Write;
use wave_core::WaveHead;

// How many sound bytes there are before or after at most.
const MOST: usize = 65_536;

// How many bits a channel has at most.
const MOST_BITS: usize = 0x10_0000_0000;

/// The sound before and after one that is played: of each the bits that the filter reaches, a byte of each channel in
/// turn.
#[derive(Clone, Copy)]
pub struct Neighbours<'b> {
    /// Hertz.
    pub rate: u32,
    /// How many channels there are.
    pub channels: usize,
    /// The sound bytes before.
    pub before: &'b [u8],
    /// The sound bytes after.
    pub after: &'b [u8],
}

/// A sink that plays a sound joined to its neighbours, but only the frames whose place lies in the sound itself. They
/// get the head that the sink has for its range.
#[derive(Drop)]
pub(crate) struct JoiningSink<'s, 'a, 't, 'b, W> {
    /// What plays the joined sound.
    pub(crate) playing: &'s mut PlayingSink<'a, 't, W>,
    /// What is before and after.
    pub(crate) around: Neighbours<'b>,
    /// The next bytes of the sound, a byte of each channel in turn.
    pub(crate) bytes: &'s mut Vec<u8>,
}

impl<'s, 'a, 't, 'b, W: Write> SoundSink for JoiningSink<'s, 'a, 't, 'b, W> {
    ghost use Rattle.std.specs.Prelude.{◌-◌, ◌<◌, ◌^◌};
    ghost use Rattle.chunk_core.specs.Outlets.{outlet_failures};
    ghost use Rattle.player_core.specs.Between.{IsJoining};
    ghost use Rattle.player_core.specs.Joining.{RefusesJoining};

    ghost ready = { λ p. outlet_failures p.playing.now.outlet.now < 2 ^ 64 - 1 };

    ghost has = { λ first p s done bytes. IsJoining W.contents first p s done bytes };

    ghost refused = { λ first p s came f. RefusesJoining W.contents first p s came f };

    fn begin(&mut self, alloc: Global, sound: Sound) -> Result<(), StreamFault> {
        let Some(joined) = joined_sound(&sound, &self.around) else {
            return Err(StreamFault::FileRefused);
        };
        let head = self.playing.range.head;
        self.playing.range = range_in(head, self.playing.taps, &sound, &self.around);
        self.playing.begin(alloc, joined)?;
        self.playing.push(Piece::Same(self.around.before))
    }

    fn take(&mut self, alloc: Global, part: SoundPart, bytes: &[u8]) -> Result<(), StreamFault> {
        let order = match part.sound.interleaving {
            Interleaving::Bytes => return self.playing.push(Piece::Same(bytes)),
            Interleaving::Blocks(order) => order,
        };
        let stretch = part.stretch();
        if self.playing.takes_blocks(stretch.channels) {
            let blocks = BlockPiece {
                bytes,
                stretch,
                order,
            };
            return self.playing.push(Piece::Blocks(blocks));
        }
        self.bytes.clear();
        push_reinterleaved(
            alloc,
            self.bytes,
            bytes,
            stretch,
            part.sound.interleaving,
            Interleaving::Bytes,
        )?;
        self.playing.push(Piece::Same(self.bytes.as_slice()))
    }
}

// A sound joined to its neighbours, if it has their rate and channels, each of the three ends with a whole byte, and
// together they are not too long.
fn joined_sound(sound: &Sound, around: &Neighbours<'_>) -> Option<Sound>
    requires channels { (1 ≤ sound.now.channels) × (sound.now.channels ≤ 6) }
    requires few { sound.now.count ≤ 2 ^ 36 }
    ensures some { IfSome result (IsJoined around.now sound.now) }
    ensures none { result ≡ None → CanBeJoined around.now sound.now → ⊥ }
{
    let channels = around.channels;
    if sound.rate != around.rate || sound.channels != channels || sound.count % 8 != 0 {
        return None;
    }
    let (before, after) = (around.before.len(), around.after.len());
    if before > MOST || after > MOST || before % channels != 0 || after % channels != 0 {
        return None;
    }
    let count = 8 * (before / channels) + (sound.count + 8 * (after / channels));
    if count > MOST_BITS {
        return None;
    }
    Some(Sound {
        rate: sound.rate,
        channels,
        count,
        start: 0,
        size: before + (sound.count / 8 * channels + after),
        interleaving: Interleaving::Bytes,
    })
}

// The frames of a joined sound whose place lies in the sound itself, to a file with this head.
fn range_in(head: WaveHead, taps: &Taps, sound: &Sound, around: &Neighbours<'_>) -> WaveRange
    requires channels { 1 ≤ around.now.channels }
    requires few { bits_before around.now + sound.now.count ≤ 2 ^ 36 }
    ensures range { result ≡ Between.own_range head taps.now around.now sound.now }
    ensures limits { IsWithinLimits taps.now }
{
    let factor = taps.factor() as usize;
    let before = 8 * (around.before.len() / around.channels);
    WaveRange {
        head,
        start: before.div_ceil(factor),
        stop: Some((before + sound.count).div_ceil(factor)),
    }
}

/// Writes what is left to write once the whole sound came: the frames that were waiting for what is after it, and the
/// pad. It answers how many bytes the WAVE file has.
///
/// Refusals: `WriteFailed`, `Memory`.
pub(crate) fn finish_joined<W: Write>(
    sink: &mut JoiningSink<'_, '_, '_, '_, W>,
    sound: &Sound,
) -> Result<u64, StreamFault>
    requires all { HasAllOfJoined W.contents sink.old sound.now }
    ensures ok { IfOk result (EndsJoined W.contents sink.old sink.new sound.now) }
    ensures refused { IfErr result (RefusesEnd W.contents sink.old sink.new sound.now) }
    ensures fault { IfErr result IsWritingFault }
{
    let Some(joined) = joined_sound(sound, &sink.around) else {
        unreachable!();
    };
    sink.playing.push(Piece::Same(sink.around.after))?;
    finish(sink.playing, &joined)
}
