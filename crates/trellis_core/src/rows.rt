//! The least sums of steps, level by level.

ghost use Rattle.std.specs.Prelude.{◌≡◌, ◌+◌, ◌*◌, ◌<◌, ◌≤◌, ◌^◌, ◌↔◌, true, false, [], length, IfOk, OnOk, IsErrOf};
ghost use Rattle.cost_core.specs.Trellis.{IsBounded, states};
ghost use Rattle.cost_core.specs.StateCosts.{trellis_of};
ghost use Rattle.trellis_core.specs.Best.{best, best_row, total_row};
ghost use Rattle.trellis_core.specs.Decisions.{AreDecisions, DecideAll, decision_bytes};
ghost use Rattle.trellis_core.specs.Passes.{HasBuffers};
ghost use Rattle.trellis_core.specs.Handing.{GotAll, GotSome, GotUpTo};

use crate::choosing::{NO_WAY, choose};
use crate::ends::write_totals;
use crate::fault::BridgeFault;
use cost_core::{LevelSink, Ways, Window};
use std::alloc::{AllocError, Global};

/// Memory for a pass over the levels of a window: the steps of a level, two rows, and the decisions of a level. It
/// serves for one pass after another, over windows of as many states.
#[derive(Drop)]
pub struct PassRoom {
    pub(crate) steps: Vec<u64>,
    pub(crate) row: Vec<u64>,
    // The second row. A search leaves in it, by state, the least cost of the bits that end there.
    pub(crate) totals: Vec<u64>,
    pub(crate) decided: Vec<u8>,
}

impl PassRoom {
    /// Memory for windows with `states` states. Err is out of memory.
    pub fn new(alloc: Global, states: usize) -> Result<PassRoom, AllocError>
        requires { states ≤ 2 ^ 11 }
        ensures { IfOk result (HasBuffers states) }
    {
        let decided = vec![in alloc; 0; states.div_ceil(8)]?;
        let steps = make_row(alloc, 2 * states)?;
        let row = make_row(alloc, states)?;
        let totals = make_row(alloc, states)?;
        Ok(PassRoom {
            steps,
            row,
            totals,
            decided,
        })
    }
}

/// What a search leaves: the memory of its pass, with the least costs, and the decisions of all levels.
#[derive(Drop)]
pub struct Searched {
    pub room: PassRoom,
    pub decisions: Vec<u8>,
}

// The least sum of a state of level 0.
#[tactic(auto, unfolding(crate::specs::Best::best))]
fn first_sum(window: &Window, state: usize) -> u64
    ensures { result ≡ best (trellis_of window.now) 0 state }
{
    if state == window.start() { 0 } else { NO_WAY }
}

/// Writes the least sums of level 0.
pub(crate) fn write_first_row(window: &Window, row: &mut [u64])
    requires { length row.old ≡ states (trellis_of window.now) }
    ensures { row.new ≡ best_row (trellis_of window.now) 0 }
{
    for state in 0..row.len() {
        row[state] = first_sum(window, state);
    }
}

/// Writes the least sums of the level after `level`, and the decisions of `level`. `row` is the least sums of `level`,
/// and `steps` is overwritten.
pub(crate) fn next_row(
    window: &Window,
    level: usize,
    row: &[u64],
    steps: &mut [u64],
    following: &mut [u64],
    decisions: &mut [u8],
)
    requires level { level < (trellis_of window.now).levels }
    requires row { row.now ≡ best_row (trellis_of window.now) level }
    requires steps { length steps.old ≡ 2 * states (trellis_of window.now) }
    requires following { length following.old ≡ states (trellis_of window.now) }
    requires decisions { length decisions.old ≡ decision_bytes (states (trellis_of window.now)) }
    ensures following { following.new ≡ best_row (trellis_of window.now) (level + 1) }
    ensures decisions { AreDecisions (trellis_of window.now) level decisions.new }
    ensures steps_length { length steps.new ≡ length steps.old }
    ensures decisions_length { length decisions.new ≡ length decisions.old }
{
    window.step_costs(level, steps);
    let (lows, highs) = steps.split_at(window.states());
    let ways = Ways {
        old: row,
        lows,
        highs,
    };
    choose(ways, following, decisions);
}

// Memory for a search of a window. Err is out of memory.
fn make_room(alloc: Global, window: &Window) -> Result<Searched, AllocError>
    ensures bounded { IsBounded (trellis_of window.now) }
    ensures buffers { IfOk result (λ room. HasBuffers (states (trellis_of window.now)) room.room) }
    ensures none { IfOk result (λ room. room.decisions.items ≡ []) }
{
    let room = PassRoom::new(alloc, window.states())?;
    let decisions = Vec::with_capacity(alloc, window.length() * room.decided.len())?;
    Ok(Searched { room, decisions })
}

// A row of `count` zeros.
fn make_row(alloc: Global, count: usize) -> Result<Vec<u64>, AllocError>
    ensures { IfOk result (λ row. length row.items ≡ count) }
{
    vec![in alloc; 0; count]
}

// Searches all levels in memory for it, which is borrowed here, so that no exit has to free it.
fn search<S: LevelSink>(
    window: &Window,
    room: &mut PassRoom,
    decisions: &mut Vec<u8>,
    sink: &mut S,
) -> Result<(), BridgeFault>
    requires buffers { HasBuffers (states (trellis_of window.now)) room.old }
    requires none { decisions.old.items ≡ [] }
    requires rows { window.now.levels + 1 ≤ S.rows_left sink.old }
    requires row_length { S.row_length sink.old ≡ states (trellis_of window.now) }
    requires ready { S.has_refused sink.old ≡ false }
    ensures totals { OnOk result (room.new.totals.items ≡ total_row (trellis_of window.now)) }
    ensures decisions { OnOk result (DecideAll window.now decisions.new.items) }
    ensures buffers { OnOk result (HasBuffers (states (trellis_of window.now)) room.new) }
    ensures rows { OnOk result (GotAll S.text S.spelling S.kind sink.old sink.new window.now) }
    ensures memory { IsErrOf result BridgeFault.Memory → GotSome S.text S.spelling S.kind sink.old sink.new window.now }
    ensures sink { IsErrOf result BridgeFault.Sink → GotUpTo S.text S.spelling S.kind sink.old sink.new window.now }
    ensures refused { IsErrOf result BridgeFault.Sink ↔ (S.has_refused sink.new ≡ true) }
    ensures rows_left { OnOk result (S.rows_left sink.new + (window.now.levels + 1) ≡ S.rows_left sink.old) }
    ensures row_length { S.row_length sink.new ≡ S.row_length sink.old }
    ensures kind { S.kind sink.new ≡ S.kind sink.old }
    ensures kept { S.kept sink.new ≡ S.kept sink.old }
{
    write_first_row(window, &mut room.row);
    for level in 0..window.length() {
        sink.level(&room.row)?;
        next_row(
            window,
            level,
            &room.row,
            &mut room.steps,
            &mut room.totals,
            &mut room.decided,
        );
        decisions.extend_from_slice(&room.decided)?;
        std::mem::swap(&mut room.row, &mut room.totals);
    }
    sink.level(&room.row)?;
    write_totals(window, &room.row, &mut room.totals);
    Ok(())
}

/// Searches all levels. It passes each row to the sink when it is made. It holds two rows, and allocates nothing from
/// the first level on.
pub(crate) fn forward<S: LevelSink>(
    alloc: Global,
    window: &Window,
    sink: &mut S,
) -> Result<Searched, BridgeFault>
    requires rows { window.now.levels + 1 ≤ S.rows_left sink.old }
    requires row_length { S.row_length sink.old ≡ states (trellis_of window.now) }
    requires ready { S.has_refused sink.old ≡ false }
    ensures totals { IfOk result (λ searched. searched.room.totals.items ≡ total_row (trellis_of window.now)) }
    ensures buffers { IfOk result (λ searched. HasBuffers (states (trellis_of window.now)) searched.room) }
    ensures decisions { IfOk result (λ searched. DecideAll window.now searched.decisions.items) }
    ensures rows { OnOk result (GotAll S.text S.spelling S.kind sink.old sink.new window.now) }
    ensures memory { IsErrOf result BridgeFault.Memory → GotSome S.text S.spelling S.kind sink.old sink.new window.now }
    ensures sink { IsErrOf result BridgeFault.Sink → GotUpTo S.text S.spelling S.kind sink.old sink.new window.now }
    ensures refused { IsErrOf result BridgeFault.Sink ↔ (S.has_refused sink.new ≡ true) }
    ensures rows_left { OnOk result (S.rows_left sink.new + (window.now.levels + 1) ≡ S.rows_left sink.old) }
    ensures row_length { S.row_length sink.new ≡ S.row_length sink.old }
    ensures kind { S.kind sink.new ≡ S.kind sink.old }
    ensures kept { S.kept sink.new ≡ S.kept sink.old }
{
    let mut searched = make_room(alloc, window)?;
    search(window, &mut searched.room, &mut searched.decisions, sink)?;
    Ok(searched)
}
