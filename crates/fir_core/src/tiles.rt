//! The sums and the samples of a run of places, by tables if the window is within the bytes.

ghost use Rattle.std.specs.Prelude.{◌≡◌, ◌+◌, ◌*◌, ◌/◌, ◌%◌, ◌^◌, ◌<◌, ◌≤◌, ◌++◌, EachIndex, OnErr, OnOk, length, map, pos, slice_index_or, unsigned_abs};
ghost use Rattle.std.specs.Int.{div_ceil};
ghost use Rattle.fir_core.specs.Decimator.{samples_of};
ghost use Rattle.fir_core.specs.Places.{sums_from};
ghost use Rattle.fir_core.specs.Rounding.{round_clip};
ghost use Rattle.fir_core.specs.Sources.{ArePlayable, samples_over, sums_over};
ghost use Rattle.fir_core.specs.Windows.{AreWithin, aligned, window_size, window_sums};

use crate::convolution::sum_over;
use crate::lanes::dot_by_lanes;
use crate::lookup::Lookup;
use crate::rounding::{clip, round};
use crate::source::Source;
use crate::strides::sum_all;
use crate::tables::Tables;
use crate::taps::Taps;
use dsd_bits::Bits;
use std::alloc::AllocError;

/// How many samples are summed at a time, so that their sums stay in the cache.
const TILE: usize = 4096;

/// The sums of windows that begin at each `step`-th byte: by rows, or one by one if the tables are those of another
/// factor, which no stream has.
fn sum_tile(tables: &Tables, bytes: &[u8], step: usize, sums: &mut [i32])
    requires { AreWithin (length tables.now / 8) step (length sums.old) bytes.now }
    ensures { sums.new ≡ window_sums tables.now bytes.now step (length sums.old) }
{
    if tables.step == step {
        let lookup = Lookup {
            taps: tables.taps.as_slice(),
            entries: tables.lookup.as_slice(),
            step,
            span: tables.span,
        };
        sum_all(lookup, bytes, sums);
    } else {
        sum_windows(tables, bytes, step, sums);
    }
}

/// The sums of windows that begin at each `step`-th byte, one by one.
fn sum_windows(tables: &Tables, bytes: &[u8], step: usize, sums: &mut [i32])
    requires { AreWithin (length tables.now / 8) step (length sums.old) bytes.now }
    ensures { sums.new ≡ window_sums tables.now bytes.now step (length sums.old) }
{
    let taps = tables.taps.as_slice();
    for i in 0..sums.len() {
        sums[i] = dot_by_lanes(taps, &bytes[i * step..]);
    }
}

/// Sums as samples.
fn finish(taps: &Taps, sums: &mut [i32])
    requires { EachIndex sums.old (λ i. unsigned_abs (slice_index_or sums.old i (pos 0)) ≤ 2 ^ 30) }
    ensures { sums.new ≡ map (λ sum. round_clip sum taps.now.shift taps.now.width) sums.old }
{
    let shift = taps.shift;
    let width = taps.width;
    for sum in sums.iter_mut() {
        *sum = clip(round(*sum, shift), width);
    }
}

/// The sums of a run of places, bit by bit: the first is at place `first`, in bits.
fn sum_plainly(source: Source<'_>, first: usize, sums: &mut [i32])
    requires { length sums.old * source.taps.now.factor + first ≤ 2 ^ 37 }
    ensures { sums.new ≡ sums_over source.entry first (length sums.old) }
{
    let taps = source.taps;
    let factor = taps.factor() as usize;
    for i in 0..sums.len() {
        let place = i * factor + first;
        sums[i] = sum_over(taps, source.bytes, source.count, place);
    }
}

/// The sums of a run of places whose windows lie within the bytes, by the tables.
fn sum_inside(source: Source<'_>, first: usize, sums: &mut [i32])
    requires phase { first % 8 ≡ source.taps.now.delay % 8 }
    requires begins { window_size (length source.taps.now.taps) source.taps.now.delay ≤ first / 8 + 1 }
    requires some { 1 ≤ length sums.old }
    requires inside { EachIndex sums.old (λ i. i * source.taps.now.factor + first < source.count) }
    ensures { sums.new ≡ sums_over source.entry first (length sums.old) }
{
    let tables = source.tables;
    let bytes = source.bytes;
    let step = source.taps.factor() as usize / 8;
    let groups = tables.taps.as_slice();
    let at = first / 8 + 1 - groups.len() / 8;
    let front = &bytes[at..];
    sum_tile(tables, front, step, sums);
}

/// The sums of a run of places: bit by bit if the window extends beyond the bytes, and by the tables between.
fn sum_run(source: Source<'_>, first: usize, sums: &mut [i32])
    requires { ArePlayable source.taps.now first (length sums.old) }
    ensures { sums.new ≡ sums_over source.entry first (length sums.old) }
{
    let tables = source.tables;
    let count = source.count;
    let factor = source.taps.factor() as usize;
    let size = tables.taps.len() / 8;
    let early = (size - 1).saturating_sub(first / 8).div_ceil(factor / 8);
    let late = count.saturating_sub(first).div_ceil(factor).min(sums.len());
    if late <= early {
        sum_plainly(source, first, sums);
        return;
    }
    let (head, rest) = sums.split_at_mut(early);
    let (middle, tail) = rest.split_at_mut(late - early);
    sum_plainly(source, first, head);
    sum_inside(source, early * factor + first, middle);
    sum_plainly(source, late * factor + first, tail);
}

/// The samples of a run of places.
fn fill_tile(source: Source<'_>, first: usize, samples: &mut [i32])
    requires { ArePlayable source.taps.now first (length samples.old) }
    ensures { samples.new ≡ samples_over source.entry first (length samples.old) }
{
    let taps = source.taps;
    let _factor = taps.factor();
    sum_run(source, first, samples);
    finish(taps, samples);
}

/// The samples of a run of places, tile by tile.
pub(crate) fn fill_samples(source: Source<'_>, first: usize, samples: &mut [i32])
    requires { ArePlayable source.taps.now first (length samples.old) }
    ensures { samples.new ≡ samples_over source.entry first (length samples.old) }
{
    let factor = source.taps.factor() as usize;
    let number = samples.len();
    for tile in 0..number.div_ceil(TILE) {
        let start = tile * TILE;
        let end = (start + TILE).min(number);
        fill_tile(source, start * factor + first, &mut samples[start..end]);
    }
}

/// Appends the samples of a run of places. If memory runs out it appends nothing.
pub(crate) fn push_samples(
    out: &mut Vec<i32>,
    number: usize,
    source: Source<'_>,
    first: usize,
) -> Result<(), AllocError>
    requires { ArePlayable source.taps.now first number }
    ensures ok { OnOk result (out.new.items ≡ out.old.items ++ samples_over source.entry first number) }
    ensures err { OnErr result (out.new.items ≡ out.old.items) }
{
    let before = out.len();
    let _factor = source.taps.factor();
    out.resize(before + number, 0)?;
    let samples = out.as_mut_slice();
    fill_samples(source, first, &mut samples[before..]);
    Ok(())
}

/// Appends samples of a channel: sample `start` and those that follow it, `number` in all and each as [`crate::sample`]
/// returns it, by the tables of the same decimator. If memory runs out it appends nothing.
pub fn push_part(
    out: &mut Vec<i32>,
    number: usize,
    taps: &Taps,
    tables: &Tables,
    bits: &Bits,
    start: usize,
) -> Result<(), AllocError>
    requires tables { tables.now ≡ aligned taps.now.taps taps.now.delay }
    requires within { start + number ≤ div_ceil (length bits.now) taps.now.factor }
    ensures ok { OnOk result (out.new.items ≡ out.old.items ++ samples_of taps.now bits.now start number) }
    ensures err { OnErr result (out.new.items ≡ out.old.items) }
{
    let count = bits.len();
    let first = start * taps.factor() as usize + taps.delay as usize;
    let source = Source {
        taps,
        tables,
        bytes: bits.as_bytes(),
        count,
    };
    push_samples(out, number, source, first)?;
    Ok(())
}

/// The sums at a run of places before they are rounded, by the tables of the same decimator: the convolution at place
/// `first` (in bits), and at each place a factor after the one before. Each is what [`crate::sum_at`] returns. Places
/// may be before the first whole window and after the last bit: what is outside the recording counts 0. It takes no
/// memory. A few thousand sums at a time stay in the cache.
pub fn fill_sums(sums: &mut [i32], taps: &Taps, tables: &Tables, bits: &Bits, first: usize)
    requires tables { tables.now ≡ aligned taps.now.taps taps.now.delay }
    requires places { ArePlayable taps.now first (length sums.old) }
    ensures value { sums.new ≡ sums_from taps.now bits.now first (length sums.old) }
    ensures bound { EachIndex sums.new (λ i. unsigned_abs (slice_index_or sums.new i (pos 0)) ≤ 2 ^ 30) }
{
    let count = bits.len();
    let _factor = taps.factor();
    let source = Source {
        taps,
        tables,
        bytes: bits.as_bytes(),
        count,
    };
    sum_run(source, first, sums);
}
