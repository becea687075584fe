//! Frames of a sound whose bytes come piece by piece.

ghost use Rattle.std.specs.Prelude.{◌≡◌, ◌+◌, ◌^◌, ◌≤◌, ◌<◌, ◌++◌, All, IfOk, OnOk, length};
ghost use Rattle.std.specs.Int.{div_ceil};
ghost use Rattle.fir_core.specs.StreamView.{IsStream};
ghost use Rattle.wave_core.specs.Contents.{IsSample, IsWidth};
ghost use Rattle.player_core.specs.Frames.{tile_bytes};
ghost use Rattle.player_core.specs.Groups.{whole_size};
ghost use Rattle.player_core.specs.PlayerView.{AdvanceAll, AreNew, AreReady, AreWhole, FeedChannels, FeedsChannel, FinishChannels};

use crate::groups::{WholeGroups, bytes_known, drop_first, fill_channel, group_size};
use crate::piece::Piece;
use dsd_bits::{Interleaving, Sound};
use fir_core::{Stream, Taps};
use std::alloc::{AllocError, Global};
use wave_core::push_frames;

/// The frames of a sound whose bytes come piece by piece, by a filter that it borrows. Of the sound it holds a
/// part of one group, and in each channel's stream the bytes that a later sample reads.
#[derive(Drop)]
pub(crate) struct Player<'a> {
    pub(crate) taps: &'a Taps,
    pub(crate) sound: Sound,
    pub(crate) fed: usize,
    pub(crate) streams: Vec<Stream>,
    pub(crate) held: Vec<u8>,
    pub(crate) own: Vec<u8>,
    pub(crate) tile: Vec<i32>,
}

impl<'a> Player<'a> {
    ghost use Rattle.std.specs.Prelude.{◌≡◌, ◌+◌, ◌%◌, ◌≤◌, [], IfOk, IsTrue, OnOk, length};
    ghost use Rattle.dsd_bits.specs.Sounds.{IsSound};
    ghost use Rattle.player_core.specs.PlayerView.{AreNext, FeedsGroups, FeedsPlayer, FinishesPlayer, IsPlayerFed, IsPlayer, IsSamePlayer};
    ghost use Rattle.player_core.specs.Pieces.{IsBetweenFrames, Takes, piece_bytes};

    /// The player before the first byte of a sound: 1 to 6 channels of the same number of bits, whole bytes if they are
    /// in frames. The only refusal is out of memory.
    pub(crate) fn new(alloc: Global, taps: &'a Taps, sound: Sound) -> Result<Player<'a>, AllocError>
        requires sound { IsSound sound }
        requires whole { sound.interleaving ≡ Interleaving.Bytes → sound.count % 8 ≡ 0 }
        ensures ready { IfOk result IsPlayer }
        ensures made { IfOk result (λ p. (p.taps.now ≡ taps.now) × (p.sound ≡ sound) × (p.fed ≡ 0)) }
        ensures fed { IfOk result (λ p. IsPlayerFed p []) }
    {
        let streams = streams_of(alloc, taps, &sound)?;
        Ok(Player {
            taps,
            sound,
            fed: 0,
            streams,
            held: Vec::new(alloc),
            own: Vec::new(alloc),
            tile: Vec::new(alloc),
        })
    }

    /// Takes the next bytes of the sound, and appends the bytes of each frame whose place is among the bits so far and
    /// that was not returned yet. After `AllocError` the player is of no further use.
    pub(crate) fn feed(&mut self, bytes: &[u8], out: &mut Vec<u8>) -> Result<(), AllocError>
        requires ready { IsPlayer self.old }
        requires few { self.old.fed + length bytes.now ≤ self.old.sound.size }
        ensures ready { OnOk result (IsPlayer self.new) }
        ensures same { (self.new.taps ≡ self.old.taps) × (self.new.sound ≡ self.old.sound) }
        ensures fed { OnOk result (self.new.fed ≡ self.old.fed + length bytes.now) }
        ensures ok { OnOk result (FeedsPlayer self.old self.new bytes.now out.old.items out.new.items) }
    {
        if !self.held.is_empty() || bytes.len() % group_size(&self.sound) != 0 {
            return self.feed_held(bytes, out);
        }
        let fed = self.fed + bytes.len();
        let number = bytes_known(&self.sound, fed) - bytes_known(&self.sound, self.fed);
        let groups = WholeGroups {
            bytes,
            channels: self.sound.channels,
            interleaving: self.sound.interleaving,
            number,
        };
        self.feed_groups(groups, bytes.len(), out)
    }

    // The same of bytes that follow a part of a group, or end with one.
    fn feed_held(&mut self, bytes: &[u8], out: &mut Vec<u8>) -> Result<(), AllocError>
        requires ready { IsPlayer self.old }
        requires few { self.old.fed + length bytes.now ≤ self.old.sound.size }
        ensures ready { OnOk result (IsPlayer self.new) }
        ensures same { (self.new.taps ≡ self.old.taps) × (self.new.sound ≡ self.old.sound) }
        ensures fed { OnOk result (self.new.fed ≡ self.old.fed + length bytes.now) }
        ensures ok { OnOk result (FeedsPlayer self.old self.new bytes.now out.old.items out.new.items) }
    {
        let fed = self.fed + bytes.len();
        let number = bytes_known(&self.sound, fed) - bytes_known(&self.sound, self.fed);
        self.held.extend_from_slice(bytes)?;
        let size = group_size(&self.sound);
        let whole = self.held.len() / size * size;
        let (groups, _) = self.held.split_at(whole);
        let groups = WholeGroups {
            bytes: groups,
            channels: self.sound.channels,
            interleaving: self.sound.interleaving,
            number,
        };
        feed_all(&mut self.streams, &mut self.own, &mut self.tile, groups)?;
        push_tile(out, self.taps.width(), &self.tile, self.sound.channels)?;
        drop_first(&mut self.held, whole);
        self.fed = fed;
        Ok(())
    }

    /// Whether blocks of that many channels can be taken as they are: its sound has as many, interleaved byte by byte,
    /// and it holds no part of a frame.
    pub(crate) fn is_between_frames(&self, channels: usize) -> bool
        ensures { IsTrue result → IsBetweenFrames self.now channels }
    {
        let sound = &self.sound;
        self.held.is_empty() && sound.channels == channels && !sound.interleaving.has_blocks()
    }

    /// Takes a piece as [`Player::feed`] takes its bytes.
    pub(crate) fn feed_piece(
        &mut self,
        piece: Piece<'_>,
        out: &mut Vec<u8>,
    ) -> Result<(), AllocError>
        requires ready { IsPlayer self.old }
        requires takes { Takes self.old piece }
        requires few { self.old.fed + length (piece_bytes piece) ≤ self.old.sound.size }
        ensures ready { OnOk result (IsPlayer self.new) }
        ensures same { (self.new.taps ≡ self.old.taps) × (self.new.sound ≡ self.old.sound) }
        ensures fed { OnOk result (self.new.fed ≡ self.old.fed + length (piece_bytes piece.entry)) }
        ensures ok { OnOk result (FeedsPlayer self.old self.new (piece_bytes piece.entry) out.old.items out.new.items) }
    {
        match piece {
            Piece::Same(bytes) => self.feed(bytes, out),
            Piece::Blocks(blocks) => self.feed_groups(blocks.groups(), blocks.size(), out),
        }
    }

    // Takes whole groups with the next `size` bytes of the sound, which may be interleaved in another way there, and
    // appends the bytes of each frame whose place is among the bits so far and that was not returned yet. After
    // `AllocError` the player is of no further use.
    fn feed_groups(
        &mut self,
        groups: WholeGroups<'_>,
        size: usize,
        out: &mut Vec<u8>,
    ) -> Result<(), AllocError>
        requires ready { IsPlayer self.old }
        requires nothing_held { self.old.held.items ≡ [] }
        requires few { self.old.fed + size ≤ self.old.sound.size }
        requires groups { AreNext self.old groups size }
        ensures ready { OnOk result (IsPlayer self.new) }
        ensures same { (self.new.taps ≡ self.old.taps) × (self.new.sound ≡ self.old.sound) }
        ensures fed { OnOk result (self.new.fed ≡ self.old.fed + size) }
        ensures ok { OnOk result (FeedsGroups self.old self.new groups.entry size out.old.items out.new.items) }
    {
        let fed = self.fed + size;
        feed_all(&mut self.streams, &mut self.own, &mut self.tile, groups)?;
        push_tile(out, self.taps.width(), &self.tile, self.sound.channels)?;
        self.fed = fed;
        Ok(())
    }

    /// Appends the bytes of the rest of the frames. All bytes of the sound were fed, and after `Ok` or
    /// `AllocError` the player is of no further use.
    pub(crate) fn finish(&mut self, out: &mut Vec<u8>) -> Result<(), AllocError>
        requires ready { IsPlayer self.old }
        requires all { self.old.fed ≡ self.old.sound.size }
        ensures same { IsSamePlayer self.old self.new }
        ensures ok { OnOk result (FinishesPlayer self.old out.old.items out.new.items) }
    {
        finish_all(&mut self.streams, &mut self.tile)?;
        push_tile(out, self.taps.width(), &self.tile, self.sound.channels)?;
        Ok(())
    }
}

// A stream for each channel, before its first byte. All share the tables of one.
fn streams_of(alloc: Global, taps: &Taps, sound: &Sound) -> Result<Vec<Stream>, AllocError>
    requires count { sound.now.count ≤ 2 ^ 36 }
    requires channels { 1 ≤ sound.now.channels }
    ensures number { IfOk result (λ streams. length streams.items ≡ sound.now.channels) }
    ensures each { IfOk result (λ streams. AreNew taps.now sound.now.count streams.items) }
{
    let first = Stream::new(alloc, taps, sound.count)?;
    let mut streams = Vec::new(alloc);
    for _channel in 1..sound.channels {
        let stream = first.beside(alloc)?;
        streams.push(stream)?;
    }
    streams.push(first)?;
    Ok(streams)
}

// Appends the bytes of the frames of samples that come channel by channel.
fn push_tile(out: &mut Vec<u8>, width: u32, tile: &[i32], channels: usize) -> Result<(), AllocError>
    requires channels { 1 ≤ channels }
    requires width { IsWidth width }
    requires values { All (IsSample width) tile.now }
    ensures { OnOk result (out.new.items ≡ out.old.items ++ tile_bytes width channels tile.now) }
{
    let frames = tile.len() / channels;
    if frames == 0 {
        return Ok(());
    }
    push_frames(out, width, tile, frames)
}

// Feeds each stream its channel's first bytes in whole groups of sound bytes. The samples that become due replace what
// `tile` held, channel by channel.
fn feed_all(
    streams: &mut [Stream],
    own: &mut Vec<u8>,
    tile: &mut Vec<i32>,
    groups: WholeGroups<'_>,
) -> Result<(), AllocError>
    requires channels { (length streams.old ≡ groups.channels) × (groups.channels ≤ 6) }
    requires ready { AreReady groups.number streams.old }
    requires enough { groups.number ≤ whole_size groups.interleaving groups.channels (length groups.bytes.now) }
    ensures channels { OnOk result (AdvanceAll groups.entry.number streams.old streams.new) }
    ensures fed { OnOk result (FeedChannels groups.entry streams.old streams.new tile.new.items) }
{
    tile.clear();
    for (channel, stream) in streams.iter_mut().enumerate() {
        feed_one(stream, own, tile, groups, channel)?;
    }
    Ok(())
}

// Feeds a stream the first bytes of a channel in whole groups of sound bytes.
fn feed_one(
    stream: &mut Stream,
    own: &mut Vec<u8>,
    tile: &mut Vec<i32>,
    groups: WholeGroups<'_>,
    channel: usize,
) -> Result<(), AllocError>
    requires ready { IsStream stream.old }
    requires few { stream.old.fed + groups.number ≤ div_ceil stream.old.count 8 }
    requires channel { (channel < groups.channels) × (groups.channels ≤ 6) }
    requires enough { groups.number ≤ whole_size groups.interleaving groups.channels (length groups.bytes.now) }
    ensures ready { IsStream stream.new }
    ensures ok { OnOk result (FeedsChannel stream.old stream.new groups.entry channel tile.old.items tile.new.items) }
    ensures fed { OnOk result (stream.new.fed ≡ stream.old.fed + groups.entry.number) }
    ensures same { (stream.new.taps ≡ stream.old.taps) × (stream.new.count ≡ stream.old.count) }
{
    fill_channel(
        own,
        groups.bytes,
        groups.channels,
        channel,
        groups.interleaving,
        groups.number,
    )?;
    stream.feed(own.as_slice(), tile)
}

// Returns the rest of each stream's samples. They replace what `tile` held, channel by channel.
fn finish_all(streams: &mut [Stream], tile: &mut Vec<i32>) -> Result<(), AllocError>
    requires ready { AreWhole streams.old }
    ensures { OnOk result (FinishChannels streams.old tile.new.items) }
{
    tile.clear();
    for stream in streams.iter_mut() {
        stream.finish(tile)?;
    }
    Ok(())
}
