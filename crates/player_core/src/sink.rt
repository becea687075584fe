//! A sink that plays frames of a sound while its file is read.

ghost use Rattle.std.specs.Prelude.{◌≡◌, ◌-◌, ◌≤◌, IfErr, IfOk, IsFalse, IsTrue, Some};
ghost use Rattle.dsd_bits.specs.Sounds.{IsSound};
ghost use Rattle.fir_core.specs.Decimator.{IsWithinLimits};
ghost use Rattle.player_core.specs.Laws.{total_frames};
ghost use Rattle.player_core.specs.Parts as Parts;
ghost use Rattle.player_core.specs.Ranges as Ranges;
ghost use Rattle.player_core.specs.Ranges.{IsInside, IsOutside};
ghost use Rattle.player_core.specs.Sinks.{FinishesAll, HasAll, RefusesAll};
ghost use Rattle.sound_core.specs.Faults.{IsWritingFault};

use crate::parts::PartPlayer;
use crate::piece::Piece;
use crate::pieces::{put_due, put_rest};
use crate::range::WaveRange;
use crate::wave::{file_size, put_header, put_pad, total_frames};
use chunk_core::Outlet;
use dsd_bits::{Interleaving, Sound};
use fir_core::Taps;
use sound_core::{SoundPart, SoundSink, StreamFault};
use std::alloc::Global;
use std::io::Write;

/// A sink that plays frames of a sound to an outlet: their header, and each of them when it is due. It looks at no byte
/// after the last frame was written. All but the numbers is borrowed.
#[derive(Drop)]
pub(crate) struct PlayingSink<'a, 't, W> {
    /// The filter.
    pub(crate) taps: &'t Taps,
    /// The frames that are played.
    pub(crate) range: WaveRange,
    /// Where the bytes go.
    pub(crate) outlet: &'a mut Outlet<W>,
    /// The player, once the sound is known.
    pub(crate) player: &'a mut Option<PartPlayer<'t>>,
    /// What is written next.
    pub(crate) out: &'a mut Vec<u8>,
    /// How many bytes of the sound came before the last frame was written.
    pub(crate) came: usize,
}

impl<'a, 't, W> PlayingSink<'a, 't, W> {
    ghost use Rattle.std.specs.Prelude.{◌≡◌};

    /// A sink for these frames by this filter, before any sound.
    pub(crate) fn new(
        taps: &'t Taps,
        range: WaveRange,
        outlet: &'a mut Outlet<W>,
        player: &'a mut Option<PartPlayer<'t>>,
        out: &'a mut Vec<u8>,
    ) -> PlayingSink<'a, 't, W>
        ensures taps { result.taps.now ≡ taps.now }
        ensures range { result.range ≡ range }
        ensures reference { result.outlet.ghost_name ≡ outlet.entry.ghost_name }
        ensures outlet { result.outlet.now ≡ outlet.old }
    {
        PlayingSink {
            taps,
            range,
            outlet,
            player,
            out,
            came: 0,
        }
    }
}

impl<'a, 't, W: Write> SoundSink for PlayingSink<'a, 't, W> {
    ghost use Rattle.std.specs.Prelude.{◌-◌, ◌<◌, ◌^◌};
    ghost use Rattle.chunk_core.specs.Outlets.{outlet_failures};
    ghost use Rattle.player_core.specs.Sinks.{IsPlaying, RefusesPlaying};

    ghost ready = { λ p. outlet_failures p.outlet.now < 2 ^ 64 - 1 };

    ghost has = { λ first p s done bytes. IsPlaying W.contents first p s bytes };

    ghost refused = { λ first p s came f. RefusesPlaying W.contents first p s came f };

    fn begin(&mut self, alloc: Global, sound: Sound) -> Result<(), StreamFault> {
        if !is_inside(self.range, self.taps, &sound) {
            return Err(StreamFault::FileRefused);
        }
        let stop = stop_in(self.range, self.taps, &sound);
        let frames = frames_sound(self.taps, &sound, stop - self.range.start);
        put_header(self.taps, &frames, self.range.head, self.out, self.outlet)?;
        let player = PartPlayer::new(alloc, self.taps, sound, self.range.start, stop)?;
        put_in(self.player, player);
        self.came = 0;
        Ok(())
    }

    fn take(&mut self, _alloc: Global, _part: SoundPart, bytes: &[u8]) -> Result<(), StreamFault> {
        self.push(Piece::Same(bytes))
    }
}

impl<'a, 't, W: Write> PlayingSink<'a, 't, W> {
    ghost use Rattle.std.specs.Prelude.{IfErr, IsTrue, OnOk, length};
    ghost use Rattle.player_core.specs.Joining.{MayPush, MayTake, PushesOn, RefusesPush, TakesBlocks};
    ghost use Rattle.player_core.specs.Pieces.{piece_bytes};
    ghost use Rattle.sound_core.specs.Faults.{IsWritingFault};

    /// Whether blocks of that many channels can be pushed as they are.
    pub(crate) fn takes_blocks(&self, channels: usize) -> bool
        ensures { IsTrue result → TakesBlocks self.now channels }
    {
        match &*self.player {
            Some(player) => player.takes_blocks(self.came, channels),
            None => false,
        }
    }

    /// Takes the next bytes of the sound.
    pub(crate) fn push(&mut self, piece: Piece<'_>) -> Result<(), StreamFault>
        requires few { MayTake W.contents self.old (length (piece_bytes piece)) }
        requires takes { MayPush self.old piece }
        ensures has { OnOk result (PushesOn W.contents self.old self.new (piece_bytes piece.entry)) }
        ensures fault { IfErr result IsWritingFault }
        ensures refused { IfErr result (RefusesPush W.contents self.old self.new (piece_bytes piece.entry)) }
    {
        match &mut *self.player {
            Some(player) => {
                if player.is_complete() {
                    return Ok(());
                }
                put_due(player, piece, self.came, self.out, self.outlet)?
            }
            None => unreachable!(),
        }
        self.came += piece.len();
        Ok(())
    }
}

// Puts a value in its place.
fn put_in<T: Drop>(place: &mut Option<T>, value: T)
    ensures { place.new ≡ Some value }
{
    *place = Some(value);
}

// The frame after the last one of a range of a sound's frames.
fn stop_in(range: WaveRange, taps: &Taps, sound: &Sound) -> usize
    ensures { result ≡ Ranges.stop_of range (total_frames taps.now sound.now) }
{
    range.stop.unwrap_or(total_frames(taps, sound) as usize)
}

// Whether a sound has the frames of a range.
fn is_inside(range: WaveRange, taps: &Taps, sound: &Sound) -> bool
    ensures inside { IsTrue result → IsInside range (total_frames taps.now sound.now) }
    ensures outside { IsFalse result → IsOutside range (total_frames taps.now sound.now) }
{
    let stop = stop_in(range, taps, sound);
    range.start <= stop && stop as u64 <= total_frames(taps, sound)
}

// So many frames as a sound of their own, whose WAVE file has their header and pad.
fn frames_sound(taps: &Taps, sound: &Sound, number: usize) -> Sound
    requires sound { IsSound sound.now }
    requires few { number ≤ total_frames taps.now sound.now }
    ensures sound { result ≡ Parts.frames_sound taps.now sound.now number }
    ensures limits { IsWithinLimits taps.now }
{
    let count = (number * taps.factor() as usize).min(sound.count);
    Sound {
        rate: sound.rate,
        channels: sound.channels,
        count,
        start: 0,
        size: count / 8 * sound.channels,
        interleaving: Interleaving::Bytes,
    }
}

/// Writes what is left to write once the whole sound came: the rest of the frames, and the pad. It answers how many
/// bytes the WAVE file has.
///
/// Refusals: `WriteFailed`, `Memory`.
pub(crate) fn finish<W: Write>(
    sink: &mut PlayingSink<'_, '_, W>,
    sound: &Sound,
) -> Result<u64, StreamFault>
    requires { HasAll W.contents sink.old sound.now }
    ensures ok { IfOk result (FinishesAll W.contents sink.old sink.new sound.now) }
    ensures refused { IfErr result (RefusesAll W.contents sink.old sink.new sound.now) }
    ensures fault { IfErr result IsWritingFault }
{
    match &mut *sink.player {
        Some(player) => put_rest(player, sink.out, sink.outlet)?,
        None => unreachable!(),
    }
    let stop = stop_in(sink.range, sink.taps, sound);
    let frames = frames_sound(sink.taps, sound, stop - sink.range.start);
    put_pad(sink.taps, &frames, sink.out, sink.outlet)?;
    Ok(file_size(sink.taps, &frames, sink.range.head))
}
