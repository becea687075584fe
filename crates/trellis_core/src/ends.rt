//! The state in which the chosen bits end.

ghost use Rattle.std.specs.Prelude.{◌≡◌, ◌-◌, ◌^◌, ◌<◌, ◌≤◌, length};
ghost use Rattle.cost_core.specs.Trellis.{states, IsBounded};
ghost use Rattle.cost_core.specs.StateCosts.{trellis_of};
ghost use Rattle.trellis_core.specs.Best.{best_row, total_row, final};

use cost_core::Window;

/// Writes the least cost of the bits that end in each state, from the least sums of the last level.
pub(crate) fn write_totals(window: &Window, last: &[u64], totals: &mut [u64])
    requires bounded { IsBounded (trellis_of window.now) }
    requires last { last.now ≡ best_row (trellis_of window.now) (trellis_of window.now).levels }
    requires totals { length totals.old ≡ states (trellis_of window.now) }
    ensures { totals.new ≡ total_row (trellis_of window.now) }
{
    window.tail_costs(totals);
    for state in 0..totals.len() {
        totals[state] += last[state];
    }
}

/// Of the states whose bits, except the `rest` oldest, are `low`, the one with the least total. On a tie the state wins
/// that has 0 at the newest bit that differs.
pub(crate) fn end_state(window: &Window, totals: &[u64], rest: usize, low: usize) -> usize
    requires bounded { IsBounded (trellis_of window.now) }
    requires totals { totals.now ≡ total_row (trellis_of window.now) }
    requires rest { rest ≤ (trellis_of window.now).width }
    requires low { low < 2 ^ ((trellis_of window.now).width - rest) }
    ensures chosen { result ≡ final (trellis_of window.now) rest low }
    ensures in_range { result < states (trellis_of window.now) }
{
    if rest == 0 {
        return low;
    }
    let stride = window.states() >> rest;
    let with_0 = end_state(window, totals, rest - 1, low);
    let with_1 = end_state(window, totals, rest - 1, low + stride);
    if totals[with_1] < totals[with_0] {
        with_1
    } else {
        with_0
    }
}
