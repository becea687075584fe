//! Reads an entry, a row at a time.

ghost use Rattle.std.specs.Prelude.{◌≡◌, ℕ, ◌+◌, ◌*◌, ◌-◌, ◌^◌, ◌<◌, ◌≤◌, length, slice_index_or, IfOk, OnOk};
ghost use Rattle.std.specs.Int.{w64, to_be_bytes};
ghost use Rattle.chunk_core.specs.Inlets.{PullsBytes, inlet_failures, inlet_reader};
ghost use Rattle.cost_core.specs.Trellis.{states, cost, IsBounded};
ghost use Rattle.cost_core.specs.StateCosts.{trellis_of};
ghost use Rattle.cost_core.specs.Limits.{IsBridging};
ghost use Rattle.cert_core.specs.Text.{entry_start};
ghost use Rattle.cert_core.specs.Reasons.{RowBounded};
ghost use Rattle.cert_core.specs.Stops.{OnLeft, OnReason, failed_stops, AgainstEntry, CutBelow, InStart, InRows, InEnd, PullsEntry, PullsRows, ReachesEnds};

use crate::filling::fill;
use crate::numbers::{make_buffer, number_in, start_numbers};
use crate::row_reader::read_row;
use crate::rows::{low_end, row_reason};
use crate::stop::Stop;
use crate::verdict::CertReason;
use crate::version::Version;
use chunk_core::Inlet;
use cost_core::Window;
use dsd_bits::Bits;
use std::alloc::{AllocError, Global};
use std::io::Read;

// Reads a number of eight bytes.
fn read_number<R: Read>(inlet: &mut Inlet<R>) -> Result<u64, Stop>
    requires { inlet_failures inlet.old < 2 ^ 64 - 1 }
    ensures ok { IfOk result (λ value. PullsBytes R.remaining inlet.old inlet.new (to_be_bytes w64 value)) }
    ensures cut { OnReason result (CutBelow (R.remaining (inlet_reader inlet.old)) 8) }
    ensures failures { inlet_failures inlet.new ≡ inlet_failures inlet.old + failed_stops result }
{
    let mut bytes = [0u8; 8];
    fill(inlet, &mut bytes)?;
    Ok(number_in(bytes))
}

// Reads the start of an entry, which must be of this cue, this channel and a bridge of this length.
fn read_start<R: Read>(
    inlet: &mut Inlet<R>,
    cue: u16,
    channel: u16,
    length: usize,
) -> Result<(), Stop>
    requires ready { inlet_failures inlet.old < 2 ^ 64 - 1 }
    ensures ok { OnOk result (PullsBytes R.remaining inlet.old inlet.new
        (entry_start cue channel length)) }
    ensures reason { OnReason result (InStart (R.remaining (inlet_reader inlet.old)) cue channel length) }
    ensures failures { inlet_failures inlet.new ≡ inlet_failures inlet.old + failed_stops result }
{
    let mut bytes = [0u8; 6];
    fill(inlet, &mut bytes)?;
    let (found_cue, found_channel, found_length) = start_numbers(bytes);
    if found_cue != cue || found_channel != channel {
        return Err(Stop::Reason(CertReason::Head));
    }
    if usize::from(found_length) != length {
        return Err(Stop::Reason(CertReason::Length));
    }
    Ok(())
}

// A row of `count` zeros.
fn make_row(alloc: Global, count: usize) -> Result<Vec<u64>, AllocError>
    ensures { IfOk result (λ row. length row.items ≡ count) }
{
    vec![in alloc; 0; count]
}

// Reads the rows of all levels and returns the last. It holds two rows, the steps of one level and the bytes of a row.
fn read_rows<R: Read>(
    alloc: Global,
    inlet: &mut Inlet<R>,
    version: Version,
    window: &Window,
    steps: &mut [u64],
) -> Result<Vec<u64>, Stop>
    requires ready { inlet_failures inlet.old < 2 ^ 64 - 1 }
    requires steps { length steps.old ≡ 2 * states (trellis_of window.now) }
    ensures steps { length steps.new ≡ length steps.old }
    ensures ok { IfOk result (λ last. PullsRows R.remaining inlet.old inlet.new version window.now last.items) }
    ensures reason { OnLeft R.remaining inlet.old result (InRows version (trellis_of window.now)) }
    ensures failures { inlet_failures inlet.new ≡ inlet_failures inlet.old + failed_stops result }
{
    let states = window.states();
    let mut previous = make_row(alloc, states)?;
    let mut row = make_row(alloc, states)?;
    let mut buffer = make_buffer(alloc, 8 + 8 * states)?;
    for level in 0..window.length() + 1 {
        read_row(inlet, version, level, &mut buffer, &mut row)?;
        if let Some(reason) = row_reason(window, level, &previous, &row, steps) {
            return Err(Stop::Reason(reason));
        }
        std::mem::swap(&mut previous, &mut row);
    }
    Ok(previous)
}

// Reads the cost. It must be `found`, the cost of the bits, and no more than any end of the last row. `tails` is
// overwritten.
fn read_end<R: Read>(
    inlet: &mut Inlet<R>,
    window: &Window,
    last: &[u64],
    tails: &mut [u64],
    found: u64,
) -> Result<u64, Stop>
    requires ready { inlet_failures inlet.old < 2 ^ 64 - 1 }
    requires bounded { IsBounded (trellis_of window.now) }
    requires last { length last.now ≡ states (trellis_of window.now) }
    requires limit { RowBounded (trellis_of window.now) last.now }
    requires tails { length tails.old ≡ states (trellis_of window.now) }
    ensures ok { IfOk result (λ cost. PullsBytes R.remaining inlet.old inlet.new (to_be_bytes w64 cost)) }
    ensures cost { IfOk result (λ cost. cost ≡ found) }
    ensures ends { IfOk result (ReachesEnds (trellis_of window.now) last.now) }
    ensures reason { OnLeft R.remaining inlet.old result (InEnd (trellis_of window.now) last.now found) }
    ensures failures { inlet_failures inlet.new ≡ inlet_failures inlet.old + failed_stops result }
{
    let stated = read_number(inlet)?;
    if stated != found {
        return Err(Stop::Reason(CertReason::Cost));
    }
    match low_end(window, last, stated, tails) {
        Some(state) => Err(Stop::Reason(CertReason::End(state))),
        None => Ok(stated),
    }
}

/// Which bridge an entry is of: the one after this cue, in this channel.
#[derive(Clone, Copy)]
pub struct Place {
    pub cue: u16,
    pub channel: u16,
}

/// Reads an entry of a version, whose table must be valid for the bits, and returns what they cost.
pub(crate) fn read_entry<R: Read>(
    alloc: Global,
    inlet: &mut Inlet<R>,
    version: Version,
    place: Place,
    window: &Window,
    bits: &Bits,
) -> Result<u64, Stop>
    requires ready { inlet_failures inlet.old < 2 ^ 64 - 1 }
    requires bits { length bits.now ≡ window.now.levels }
    ensures limits { IsBridging window.now }
    ensures entry { IfOk result (λ _. PullsEntry R.remaining inlet.old inlet.new version window.now place bits.now) }
    ensures cost { IfOk result (λ found. found ≡ cost (trellis_of window.now) bits.now) }
    ensures reason { OnLeft R.remaining inlet.old result (AgainstEntry version window.now place bits.now) }
    ensures failures { inlet_failures inlet.new ≡ inlet_failures inlet.old + failed_stops result }
{
    read_start(inlet, place.cue, place.channel, window.length())?;
    let states = window.states();
    let mut steps = make_row(alloc, 2 * states)?;
    let last = read_rows(alloc, inlet, version, window, &mut steps)?;
    let (tails, _) = steps.split_at_mut(states);
    read_end(inlet, window, &last, tails, window.cost_of(bits))
}
