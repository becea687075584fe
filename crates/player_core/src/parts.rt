//! A part of a sound's frames, from the bytes on that the first of them needs.

ghost use Rattle.std.specs.Prelude.{◌≡◌, ◌+◌, ◌-◌, ◌*◌, ◌^◌, ◌≤◌, ◌++◌, OnOk, length, slice_range};
ghost use Rattle.dsd_bits.specs.Sounds.{IsSound};
ghost use Rattle.fir_core.specs.Decimator.{IsWithinLimits};
ghost use Rattle.player_core.specs.Groups as Groups;
ghost use Rattle.player_core.specs.Parts as Parts;
ghost use Rattle.player_core.specs.Parts.{frames_before, groups_before};
ghost use Rattle.wave_core.specs.Sizes as Sizes;

use crate::groups::{group_size, part_size};
use crate::piece::Piece;
use crate::player::Player;
use dsd_bits::{Interleaving, Sound};
use fir_core::Taps;
use std::alloc::{AllocError, Global};
use std::mem;

/// Some frames of a sound, by a filter that it borrows. It is fed the sound from a byte on before which no tap of
/// its first frame reads, and gives nothing for what comes before that frame, nor after its last.
#[derive(Drop)]
pub struct PartPlayer<'a> {
    pub(crate) player: Player<'a>,
    pub(crate) start: usize,
    pub(crate) skip: usize,
    pub(crate) stop: usize,
    pub(crate) given: usize,
    pub(crate) own: Vec<u8>,
}

// How many groups of a sound are left out, and how many frames begin in them.
#[derive(Clone, Copy)]
struct Place {
    groups: usize,
    frames: usize,
}

impl<'a> PartPlayer<'a> {
    ghost use Rattle.std.specs.Prelude.{◌≡◌, ◌+◌, ◌%◌, ◌<◌, ◌≤◌, [], IfOk, IsFalse, IsTrue, OnOk, length};
    ghost use Rattle.dsd_bits.specs.Sounds.{IsSound};
    ghost use Rattle.player_core.specs.Laws.{total_frames};
    ghost use Rattle.player_core.specs.Pieces.{IsBetweenFrames, Takes, piece_bytes};
    ghost use Rattle.player_core.specs.PartView.{FeedsPart, FinishesPart, IsPartComplete, IsPartFed, IsPartOf, IsPartPlayer, IsSamePart, part_fed, part_rest, part_start};

    /// The player of frames `start` to `stop - 1` of a sound, before the first byte that it is fed. The sound has 1 to
    /// 6 channels of the same number of bits, whole bytes if they are in frames. It is refused only for want of memory.
    pub fn new(
        alloc: Global,
        taps: &'a Taps,
        sound: Sound,
        start: usize,
        stop: usize,
    ) -> Result<PartPlayer<'a>, AllocError>
        requires sound { IsSound sound }
        requires whole { sound.interleaving ≡ Interleaving.Bytes → sound.count % 8 ≡ 0 }
        requires order { start ≤ stop }
        requires inside { stop ≤ total_frames taps.now sound }
        ensures ready { IfOk result IsPartPlayer }
        ensures part { IfOk result (IsPartOf taps.now sound start stop) }
        ensures fed { IfOk result (λ p. IsPartFed p []) }
    {
        let place = place_before(taps, &sound, start);
        let align = frame_size(taps, &sound);
        let player = Player::new(alloc, taps, rest_of(&sound, place.groups))?;
        Ok(PartPlayer {
            player,
            start: place.groups * group_size(&sound),
            skip: (start - place.frames) * align,
            stop: (stop - place.frames) * align,
            given: 0,
            own: Vec::new(alloc),
        })
    }

    /// The byte of the sound from which on it is fed, to the sound's end.
    pub fn start(&self) -> usize
        ensures { result ≡ part_start self.now }
    {
        self.start
    }

    /// Whether the bytes of all frames of the part were given, so that it needs no more of the sound.
    pub(crate) fn is_complete(&self) -> bool
        requires ready { IsPartPlayer self.now }
        ensures complete { IsTrue result → IsPartComplete self.now }
        ensures incomplete { IsFalse result → self.now.given < self.now.stop }
    {
        self.given >= self.stop
    }

    /// Takes the next bytes of the sound, and appends the bytes of each frame of the part whose place lies among the
    /// bits that came so far and that was not given yet. After `AllocError` the player is of no further use.
    pub fn feed(&mut self, bytes: &[u8], out: &mut Vec<u8>) -> Result<(), AllocError>
        requires ready { IsPartPlayer self.old }
        requires few { part_fed self.old + length bytes.now ≤ (part_rest self.old).size }
        ensures ready { OnOk result (IsPartPlayer self.new) }
        ensures same { IsSamePart self.old self.new }
        ensures fed { OnOk result (part_fed self.new ≡ part_fed self.old + length bytes.now) }
        ensures ok { OnOk result (FeedsPart self.old self.new bytes.now out.old.items out.new.items) }
    {
        self.feed_piece(Piece::Same(bytes), out)
    }

    /// Whether blocks of that many channels can be taken as they are after `came` bytes of the sound.
    pub(crate) fn takes_blocks(&self, came: usize, channels: usize) -> bool
        ensures { IsTrue result → (part_start self.now ≤ came) × IsBetweenFrames self.now.player channels }
    {
        self.start <= came && self.player.is_between_frames(channels)
    }

    /// Takes a piece as [`PartPlayer::feed`] takes its bytes.
    pub(crate) fn feed_piece(
        &mut self,
        piece: Piece<'_>,
        out: &mut Vec<u8>,
    ) -> Result<(), AllocError>
        requires ready { IsPartPlayer self.old }
        requires takes { Takes self.old.player piece }
        requires few { part_fed self.old + length (piece_bytes piece) ≤ (part_rest self.old).size }
        ensures ready { OnOk result (IsPartPlayer self.new) }
        ensures same { IsSamePart self.old self.new }
        ensures fed { OnOk result (part_fed self.new ≡ part_fed self.old + length (piece_bytes piece.entry)) }
        ensures ok { OnOk result (FeedsPart self.old self.new (piece_bytes piece.entry) out.old.items out.new.items) }
    {
        self.own.clear();
        self.player.feed_piece(piece, &mut self.own)?;
        let number = self.own.len();
        move_within(out, &mut self.own, self.skip, self.stop, self.given)?;
        self.given += number;
        Ok(())
    }

    /// Appends the bytes of the rest of the part's frames. All bytes from [`PartPlayer::start`] on were fed, and after
    /// `Ok` or `AllocError` the player is of no further use.
    pub fn finish(&mut self, out: &mut Vec<u8>) -> Result<(), AllocError>
        requires ready { IsPartPlayer self.old }
        requires all { part_fed self.old ≡ (part_rest self.old).size }
        ensures same { IsSamePart self.old self.new }
        ensures ok { OnOk result (FinishesPart self.old out.old.items out.new.items) }
    {
        self.own.clear();
        self.player.finish(&mut self.own)?;
        move_within(out, &mut self.own, self.skip, self.stop, self.given)
    }
}

// Appends those of some bytes that lie from place `skip` to place `stop`, the first of them being at place `given`. If
// these are all, and `out` is empty, none is copied.
fn move_within(
    out: &mut Vec<u8>,
    bytes: &mut Vec<u8>,
    skip: usize,
    stop: usize,
    given: usize,
) -> Result<(), AllocError>
    ensures { OnOk result (out.new.items ≡ out.old.items ++ slice_range bytes.old.items (skip - given) (stop - given)) }
{
    let first = skip.saturating_sub(given).min(bytes.len());
    let last = stop.saturating_sub(given).min(bytes.len());
    if out.is_empty() && first == 0 && last == bytes.len() {
        mem::swap(out, bytes);
        return Ok(());
    }
    let (prefix, _) = bytes.split_at(last);
    let (_, within) = prefix.split_at(first.min(last));
    out.extend_from_slice(within)
}

// How many bytes a frame has.
fn frame_size(taps: &Taps, sound: &Sound) -> usize
    requires { sound.now.channels ≤ 6 }
    ensures { result ≡ Sizes.block_align sound.now.channels taps.now.width }
{
    sound.channels * (taps.width() as usize / 8)
}

// The last place before a frame at which a group and a frame begin, and from which on all lies that its taps read.
fn place_before(taps: &Taps, sound: &Sound, start: usize) -> Place
    requires { start ≤ 2 ^ 36 }
    ensures groups { result.groups ≡ groups_before taps.now sound.now.interleaving start }
    ensures frames { result.frames ≡ frames_before taps.now sound.now.interleaving start }
    ensures limits { IsWithinLimits taps.now }
{
    let bits = 8 * part_size(sound.interleaving);
    let factor = taps.factor() as usize;
    let groups = if bits % factor == 0 { 1 } else { factor / 8 };
    let frames = groups * bits / factor;
    let steps = start.saturating_sub(taps.first_whole()) / frames;
    Place {
        groups: steps * groups,
        frames: steps * frames,
    }
}

// What is left of a sound without so many of its first groups.
fn rest_of(sound: &Sound, groups: usize) -> Sound
    requires channels { sound.now.channels ≤ 6 }
    requires few { groups ≤ 2 ^ 44 }
    ensures { result ≡ Parts.rest_of sound.now groups }
{
    Sound {
        rate: sound.rate,
        channels: sound.channels,
        count: sound
            .count
            .saturating_sub(8 * (groups * part_size(sound.interleaving))),
        start: 0,
        size: sound.size.saturating_sub(groups * group_size(sound)),
        interleaving: sound.interleaving,
    }
}
