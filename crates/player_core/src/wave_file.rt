//! The WAVE file of a recording's samples.

ghost use Rattle.std.specs.Prelude.{◌≡◌, ◌+◌, ◌*◌, ◌/◌, ◌%◌, ◌≤◌, ◌++◌, ◌↔◌, IfOk, OnOk, None, Some};
ghost use Rattle.dsd_bits.specs.Channels.{IsLevel};
ghost use Rattle.wave_core.specs.Texts.{wave_text};
ghost use Rattle.fir_core.specs.Windows.{aligned};
ghost use Rattle.player_core.specs.Frames.{frame_bytes, frame_count, tile_of};
ghost use Rattle.player_core.specs.Samples.{pcm};

use crate::spec::wave_spec;
use dsd_bits::{Bits, Recording};
use fir_core::{Tables, Taps, push_part};
use std::alloc::{AllocError, Global};
use wave_core::{WaveFault, parts_join, push_frames};

// How many frames are made at a time, so that their samples stay in the cache.
const TILE: usize = 4096;

/// The WAVE file of a recording's samples: in each frame one of each channel, in order.
///
/// Refusals, in this order: `TooLarge` if its sizes would not fit 32 bits, for which no sample is made; `Memory`.
pub fn wave_of(alloc: Global, taps: &Taps, recording: &Recording) -> Result<Vec<u8>, WaveFault>
    requires divided { recording.now.rate % taps.now.factor ≡ 0 }
    ensures text { IfOk result (λ wave. wave_text (pcm recording.now taps.now) ≡ Some wave.items) }
    ensures too_large { (result ≡ Err WaveFault.TooLarge) ↔ (wave_text (pcm recording.now taps.now) ≡ None) }
{
    parts_join();
    let factor = taps.factor();
    let width = taps.width();
    let channels = recording.channels();
    let spec = wave_spec(taps, channels.len(), recording.rate());
    let count = recording.count().div_ceil(factor as usize);
    let mut wave = Vec::new(alloc);
    spec.push_header(&mut wave, count as u64)?;
    wave.reserve_exact(count * (channels.len() * (width / 8) as usize) + 1)?;
    push_tiles(alloc, &mut wave, taps, channels, count)?;
    spec.push_pad(&mut wave, count as u64)?;
    Ok(wave)
}

// Appends the first `count` frames, tile by tile.
fn push_tiles(
    alloc: Global,
    out: &mut Vec<u8>,
    taps: &Taps,
    channels: &[Bits],
    count: usize,
) -> Result<(), AllocError>
    requires level { IsLevel channels.now }
    requires count { count ≡ frame_count taps.now channels.now }
    ensures { OnOk result (out.new.items ≡ out.old.items ++ frame_bytes taps.now channels.now count) }
{
    let tables = Tables::new(alloc, taps)?;
    let width = taps.width();
    let mut tile = Vec::new(alloc);
    for turn in 0..count.div_ceil(TILE) {
        let start = turn * TILE;
        let number = TILE.min(count - start);
        fill_tile(&mut tile, taps, &tables, channels, start, number)?;
        push_frames(out, width, tile.as_slice(), number)?;
    }
    Ok(())
}

// The samples of some frames from frame `start` on, channel by channel.
fn fill_tile(
    tile: &mut Vec<i32>,
    taps: &Taps,
    tables: &Tables,
    channels: &[Bits],
    start: usize,
    number: usize,
) -> Result<(), AllocError>
    requires level { IsLevel channels.now }
    requires tables { tables.now ≡ aligned taps.now.taps taps.now.delay }
    requires within { start + number ≤ frame_count taps.now channels.now }
    ensures { OnOk result (tile.new.items ≡ tile_of taps.now channels.now start number) }
{
    tile.clear();
    for bits in channels {
        push_part(tile, number, taps, tables, bits, start)?;
    }
    Ok(())
}
