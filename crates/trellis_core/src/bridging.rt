//! Chooses the bits of a bridge.

ghost use Rattle.std.specs.Prelude.{◌≡◌, ◌+◌, ◌*◌, ◌<◌, ◌≤◌, ◌↔◌, true, false, IfOk, OnOk, IsErrOf};
ghost use Rattle.cost_core.specs.Trellis.{states};
ghost use Rattle.cost_core.specs.StateCosts.{trellis_of};
ghost use Rattle.cost_core.specs.Bridges.{bridge_cost, IsFirstLeastBridge};
ghost use Rattle.trellis_core.specs.Best.{total_row};
ghost use Rattle.trellis_core.specs.Decisions.{DecideAll};
ghost use Rattle.trellis_core.specs.Handing.{GotAll, GotBestUpTo, GotCapped, GotSome, GotUpTo};

use crate::capping::hand_capped;
use crate::discarding::Discarding;
use crate::ends::end_state;
use crate::fault::BridgeFault;
use crate::rows::{Searched, forward};
use crate::tracing::{reversed, trace};
use cost_core::{LevelSink, Window};
use dsd_bits::Bits;
use std::alloc::{AllocError, Global};

/// The bits of a bridge and what they cost.
#[derive(Drop)]
pub struct Chosen {
    /// The bits, earliest first: as many as the window has levels.
    pub bits: Bits,
    /// The sum of the squared deviations over the places of the window.
    pub cost: u64,
}

/// The bits of a bridge that cost least in its window. Of several such lists it returns the first, read from the last
/// bit to the first, 0 before 1. Err is out of memory.
pub fn bridge(alloc: Global, window: &Window) -> Result<Chosen, AllocError>
    ensures first_least { IfOk result (λ chosen. IsFirstLeastBridge window.now chosen.bits) }
    ensures cost { IfOk result (λ chosen. chosen.cost ≡ bridge_cost window.now chosen.bits) }
{
    let mut sink = Discarding::new(window);
    match bridge_into(alloc, window, &mut sink) {
        Ok(chosen) => Ok(chosen),
        Err(_) => Err(AllocError),
    }
}

/// Returns the same bits, and passes a row of numbers for each level to the sink, level 0 first. By rising state, a
/// number is the lesser of `2^63` and the least sum of steps from the start to the state.
///
/// Refusals: `Memory`, and then the sink got the rows of the first levels; `Sink` if the sink refused a row, and then
/// it got those of the levels before it.
pub fn bridge_into<S: LevelSink>(
    alloc: Global,
    window: &Window,
    sink: &mut S,
) -> Result<Chosen, BridgeFault>
    requires rows { window.now.levels + 1 ≤ S.rows_left sink.old }
    requires row_length { S.row_length sink.old ≡ states (trellis_of window.now) }
    requires ready { S.has_refused sink.old ≡ false }
    ensures first_least { IfOk result (λ chosen. IsFirstLeastBridge window.now chosen.bits) }
    ensures cost { IfOk result (λ chosen. chosen.cost ≡ bridge_cost window.now chosen.bits) }

    // The rows that the sink got.
    ensures rows { OnOk result (GotAll S.text S.spelling S.kind sink.old sink.new window.now) }
    ensures memory { IsErrOf result BridgeFault.Memory → GotSome S.text S.spelling S.kind sink.old sink.new window.now }
    ensures sink { IsErrOf result BridgeFault.Sink → GotUpTo S.text S.spelling S.kind sink.old sink.new window.now }

    // The state of the sink afterwards.
    ensures refused { IsErrOf result BridgeFault.Sink ↔ (S.has_refused sink.new ≡ true) }
    ensures rows_left { OnOk result (S.rows_left sink.new + (window.now.levels + 1) ≡ S.rows_left sink.old) }
    ensures row_length { S.row_length sink.new ≡ S.row_length sink.old }
    ensures kind { S.kind sink.new ≡ S.kind sink.old }
    ensures kept { S.kept sink.new ≡ S.kept sink.old }
{
    let searched = forward(alloc, window, sink)?;
    Ok(choose(alloc, window, &searched)?)
}

/// Returns the same bits, and passes the same rows to the sink, but each number above the cost as the cost. It goes
/// through the levels twice, and allocates nothing once the first row was passed on.
///
/// Refusals: `Memory`, and then the sink got no row; `Sink` if the sink refused a row, and then it got those of the
/// levels before it.
pub fn bridge_capped_into<S: LevelSink>(
    alloc: Global,
    window: &Window,
    sink: &mut S,
) -> Result<Chosen, BridgeFault>
    requires rows { window.now.levels + 1 ≤ S.rows_left sink.old }
    requires row_length { S.row_length sink.old ≡ states (trellis_of window.now) }
    requires ready { S.has_refused sink.old ≡ false }
    ensures first_least { IfOk result (λ chosen. IsFirstLeastBridge window.now chosen.bits) }
    ensures cost { IfOk result (λ chosen. chosen.cost ≡ bridge_cost window.now chosen.bits) }

    // The rows that the sink got.
    ensures rows { IfOk result (λ chosen. GotCapped S.text S.spelling S.kind sink.old sink.new window.now chosen.cost) }
    ensures memory { IsErrOf result BridgeFault.Memory → S.text sink.new ≡ S.text sink.old }
    ensures sink { IsErrOf result BridgeFault.Sink → GotBestUpTo S.text S.spelling S.kind sink.old sink.new window.now }

    // The state of the sink afterwards.
    ensures refused { IsErrOf result BridgeFault.Sink ↔ (S.has_refused sink.new ≡ true) }
    ensures rows_left { OnOk result (S.rows_left sink.new + (window.now.levels + 1) ≡ S.rows_left sink.old) }
    ensures row_length { S.row_length sink.new ≡ S.row_length sink.old }
    ensures kind { S.kind sink.new ≡ S.kind sink.old }
    ensures kept { S.kept sink.new ≡ S.kept sink.old }
{
    let Ok(mut searched) = forward(alloc, window, &mut Discarding::new(window)) else {
        return Err(BridgeFault::Memory);
    };
    let chosen = choose(alloc, window, &searched)?;
    hand_capped(window, &mut searched.room, chosen.cost, sink)?;
    Ok(chosen)
}

// The bits that a search leads to, and their cost.
fn choose(alloc: Global, window: &Window, searched: &Searched) -> Result<Chosen, AllocError>
    requires totals { searched.now.room.totals.items ≡ total_row (trellis_of window.now) }
    requires decisions { DecideAll window.now searched.now.decisions.items }
    ensures first_least { IfOk result (λ chosen. IsFirstLeastBridge window.now chosen.bits) }
    ensures cost { IfOk result (λ chosen. chosen.cost ≡ bridge_cost window.now chosen.bits) }
{
    let end = end_state(window, &searched.room.totals, window.width(), 0);
    let newest_first = trace(alloc, window, &searched.decisions, end)?;
    Ok(Chosen {
        bits: reversed(alloc, &newest_first)?,
        cost: searched.room.totals[end],
    })
}
