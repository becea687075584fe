//! A second pass over the levels, which passes on their rows capped at the cost.

ghost use Rattle.std.specs.Prelude.{◌≡◌, ℕ, ◌+◌, ◌<◌, ◌≤◌, min, true, false, length, slice_index, OnOk, OnErr, MatchResult};
ghost use Rattle.cost_core.specs.Trellis.{states};
ghost use Rattle.cost_core.specs.StateCosts.{trellis_of};
ghost use Rattle.trellis_core.specs.Handing.{GotCapped, GotCappedUpTo};
ghost use Rattle.trellis_core.specs.Passes.{HasBuffers};

use crate::rows::{PassRoom, next_row, write_first_row};
use cost_core::{LevelSink, SinkFault, Window};

// Writes the values of a row, with each value above the cost as the cost. (A plain loop over two slices, which the
// compiler turns into lanes.)
fn cap_row(row: &[u64], cost: u64, capped: &mut [u64])
    requires { length capped.old ≡ length row.now }
    ensures { (k : ℕ) → k < length row.now → slice_index capped.new k ≡ min (slice_index row.now k) cost }
{
    for i in 0..capped.len() {
        capped[i] = row[i].min(cost);
    }
}

/// Makes the rows of all levels in the memory for a pass. It passes each row to the sink when it is made, with each
/// number above the cost as the cost. Nothing is chosen and nothing is allocated, so a bridge whose bits are known is
/// certified in memory that was reserved before.
///
/// Refusal: `SinkFault` if the sink refuses a row, and then it got those of the levels before it.
pub fn hand_capped<S: LevelSink>(
    window: &Window,
    room: &mut PassRoom,
    cost: u64,
    sink: &mut S,
) -> Result<(), SinkFault>
    requires buffers { HasBuffers (states (trellis_of window.now)) room.old }
    requires rows { window.now.levels + 1 ≤ S.rows_left sink.old }
    requires row_length { S.row_length sink.old ≡ states (trellis_of window.now) }
    requires ready { S.has_refused sink.old ≡ false }
    ensures buffers { OnOk result (HasBuffers (states (trellis_of window.now)) room.new) }

    // The rows that the sink got.
    ensures ok { OnOk result (GotCapped S.text S.spelling S.kind sink.old sink.new window.now cost) }
    ensures err { OnErr result (GotCappedUpTo S.text S.spelling S.kind sink.old sink.new window.now cost) }

    // The state of the sink afterwards.
    ensures refused { MatchResult result (λ _. S.has_refused sink.new ≡ false) (λ _. S.has_refused sink.new ≡ true) }
    ensures rows_left { OnOk result (S.rows_left sink.new + (window.now.levels + 1) ≡ S.rows_left sink.old) }
    ensures row_length { S.row_length sink.new ≡ S.row_length sink.old }
    ensures kind { S.kind sink.new ≡ S.kind sink.old }
    ensures kept { S.kept sink.new ≡ S.kept sink.old }
{
    write_first_row(window, &mut room.row);
    for level in 0..window.length() {
        cap_row(&room.row, cost, &mut room.totals);
        sink.level(&room.totals)?;
        next_row(
            window,
            level,
            &room.row,
            &mut room.steps,
            &mut room.totals,
            &mut room.decided,
        );
        std::mem::swap(&mut room.row, &mut room.totals);
    }
    cap_row(&room.row, cost, &mut room.totals);
    sink.level(&room.totals)?;
    Ok(())
}
