//! What each byte adds to the windows that contain it, for a decimator's taps.

ghost use Rattle.std.specs.Prelude.{◌≡◌, ◌+◌, ◌*◌, ◌%◌, ◌^◌, ◌<◌, ◌≤◌, length, IfOk, unsigned_abs};
ghost use Rattle.std.specs.List.{sum_by};
ghost use Rattle.fir_core.specs.Lookup as Lookup;
ghost use Rattle.fir_core.specs.Lookup.{lookup};
ghost use Rattle.fir_core.specs.Signed.{bits_of, dot};
ghost use Rattle.fir_core.specs.Windows.{aligned};

use crate::lookup::span_of;
use crate::taps::Taps;
use std::alloc::{AllocError, Global};
use std::marker::Model;

/// A decimator's taps in the order of the bits of a window of whole bytes, and for each byte, at each place in the
/// bytes of a step, a row of what it adds to the windows that contain it. Contracts see it as the taps in that order.
#[derive(Drop)]
pub struct Tables {
    pub(crate) taps: Vec<i32>,
    pub(crate) lookup: Vec<i32>,
    pub(crate) step: usize,
    pub(crate) span: usize,
}

// Taps in whole groups of eight, how many bytes a step has, and how many windows a row spans.
#[derive(Clone, Copy)]
struct Layout<'a> {
    taps: &'a [i32],
    step: usize,
    span: usize,
    ghost whole: { length taps.now % 8 ≡ 0 },
    ghost small: { sum_by unsigned_abs taps.now ≤ 2 ^ 30 },
    ghost short: { step ≤ 128 },
    ghost narrow: { span ≤ 1024 },
}

impl Model for Tables {
    ghost use Rattle.std.specs.Prelude.{ℤ, List};
    ghost use Rattle.fir_core.specs.TableView.{taps_of};
    ghost use Rattle.fir_core.specs.Lookup.{IsLaid};

    ghost Value = { List ℤ };

    ghost view = { taps_of };

    ghost invariant = { λ a. IsLaid a.taps.items a.lookup.items a.step a.span };
}

impl Tables {
    ghost use Rattle.std.specs.Prelude.{◌≡◌, IfOk};
    ghost use Rattle.fir_core.specs.Windows.{aligned};

    /// The tables of a decimator. They are made for the place in its byte that the delay has, which every sample's
    /// place has too. The only refusal is out of memory.
    pub fn new(alloc: Global, taps: &Taps) -> Result<Tables, AllocError>
        ensures { IfOk result (λ made. made ≡ aligned taps.now.taps taps.now.delay) }
    {
        let step = taps.factor() as usize / 8;
        let aligned = aligned_taps(alloc, taps)?;
        let span = span_of(aligned.len() / 8, step);
        let layout = Layout {
            taps: aligned.as_slice(),
            step,
            span,
        };
        let lookup = lookup_of(alloc, layout)?;
        Ok(Tables {
            taps: aligned,
            lookup,
            step,
            span,
        })
    }
}

// The taps in the order of the window's bits, with zeros before and after them.
pub(crate) fn aligned_taps(alloc: Global, taps: &Taps) -> Result<Vec<i32>, AllocError>
    ensures { IfOk result (λ made. made.items ≡ aligned taps.now.taps taps.now.delay) }
{
    let number = taps.taps.len();
    let filled = number + (7 - taps.delay as usize % 8);
    let size = 8 * filled.div_ceil(8);
    let mut reversed = Vec::from_slice(alloc, taps.taps.as_slice())?;
    reversed.reverse();
    let mut made = Vec::new(alloc);
    made.resize(size - filled, 0)?;
    made.extend_from_slice(reversed.as_slice())?;
    made.resize(size, 0)?;
    Ok(made)
}

// The rows of all places in a step and all bytes.
fn lookup_of(alloc: Global, layout: Layout<'_>) -> Result<Vec<i32>, AllocError>
    ensures { IfOk result (λ made. made.items ≡ lookup layout.entry.taps.now layout.entry.step layout.entry.span) }
{
    (0..256 * layout.step * (layout.span + 8) + 4)
        .map(|i| row_entry(layout, i))
        .collect(alloc)
}

// Entry `i` of the rows.
fn row_entry(layout: Layout<'_>, i: usize) -> i32
    requires { i < 256 * layout.step * (layout.span + 8) + 4 }
    ensures { result ≡ Lookup.row_entry layout.entry.taps.now layout.entry.step layout.entry.span i }
{
    let width = layout.span + 8;
    let at = i.saturating_sub(4);
    let row = at / width;
    let number = groups_at(layout, row / 256, at % width);
    last_group(layout, number, (row % 256) as u8)
}

// How many groups of its window a byte ends, by its place in a step and a column of its row.
fn groups_at(layout: Layout<'_>, place: usize, column: usize) -> usize
    requires { place < 2 ^ 32 }
    ensures { result ≡ Lookup.groups_at layout.entry.step layout.entry.span place column }
{
    let step = layout.step;
    (layout.span.saturating_sub(column) * step + (place + 1)).saturating_sub(step)
}

// The sum, for a byte, of the last of some groups of taps; 0 for none, and for more than there are.
fn last_group(layout: Layout<'_>, number: usize, byte: u8) -> i32
    ensures { result ≡ Lookup.last_group layout.entry.taps.now number byte }
{
    let taps = layout.taps;
    if number == 0 || taps.len() / 8 < number {
        return 0;
    }
    let at = 8 * (number - 1);
    dot_plain(&taps[at..at + 8], &[byte])
}

// The sum of the taps, each with its bit's sign.
pub(crate) fn dot_plain(taps: &[i32], bytes: &[u8]) -> i32
    requires enough { length taps.now ≤ 8 * length bytes.now }
    requires small { sum_by unsigned_abs taps.now ≤ 2 ^ 30 }
    ensures { result ≡ dot taps.now (bits_of bytes.now) }
{
    let mut sum = 0;
    for k in 0..taps.len() {
        if (bytes[k / 8] >> (7 - k % 8)) % 2 == 1 {
            sum += taps[k];
        } else {
            sum -= taps[k];
        }
    }
    sum
}
