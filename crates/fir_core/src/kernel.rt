//! Different ways to compute the same samples.

ghost use Rattle.std.specs.Prelude.{◌≡◌, IfOk};
ghost use Rattle.fir_core.specs.Decimator.{samples};

use crate::decimator::sample;
use crate::lanes::decimate_by_lanes;
use crate::source::Source;
use crate::tables::Tables;
use crate::taps::Taps;
use crate::tiles::push_samples;
use dsd_bits::Bits;
use std::alloc::{AllocError, Global};

/// How the sums of a decimator are computed. Each way gives the same samples.
#[derive(Clone, Copy, Drop)]
pub enum Kernel {
    /// Bit by bit.
    Plain,
    /// Every eighth step in turn, over tiles of samples: for each place in the bytes of a step and each of the 256
    /// bytes, a row of what the byte adds to the windows that contain it.
    Table,
    /// Eight taps at a time, in lanes. A byte's bits are the mask that selects a tap or its negative.
    Lanes,
}

/// All samples of a channel, as [`decimate`] returns them, computed by a kernel. The only refusal is out of memory.
pub fn decimate_with(
    alloc: Global,
    taps: &Taps,
    bits: &Bits,
    kernel: Kernel,
) -> Result<Vec<i32>, AllocError>
    ensures { IfOk result (λ made. made.items ≡ samples taps.now bits.now) }
{
    match kernel {
        Kernel::Plain => decimate_plainly(alloc, taps, bits),
        Kernel::Table => decimate_by_table(alloc, taps, bits),
        Kernel::Lanes => decimate_by_lanes(alloc, taps, bits),
    }
}

fn decimate_plainly(alloc: Global, taps: &Taps, bits: &Bits) -> Result<Vec<i32>, AllocError>
    ensures { IfOk result (λ made. made.items ≡ samples taps.now bits.now) }
{
    let count = bits.len().div_ceil(taps.factor as usize);
    (0..count).map(|j| sample(taps, bits, j)).collect(alloc)
}

fn decimate_by_table(alloc: Global, taps: &Taps, bits: &Bits) -> Result<Vec<i32>, AllocError>
    ensures { IfOk result (λ made. made.items ≡ samples taps.now bits.now) }
{
    let tables = Tables::new(alloc, taps)?;
    let number = bits.len().div_ceil(taps.factor() as usize);
    let first = taps.delay as usize;
    let source = Source {
        taps,
        tables: &tables,
        bytes: bits.as_bytes(),
        count: bits.len(),
    };
    let mut made = Vec::new(alloc);
    push_samples(&mut made, number, source, first)?;
    Ok(made)
}
