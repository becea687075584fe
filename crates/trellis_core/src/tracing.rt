//! The way back through the decisions.

ghost use Rattle.std.specs.Prelude.{◌≡◌, ◌^◌, ◌<◌, ◌≤◌, length, reverse, IfOk};
ghost use Rattle.cost_core.specs.Trellis.{states};
ghost use Rattle.cost_core.specs.StateCosts.{trellis_of};
ghost use Rattle.trellis_core.specs.Best.{before, traced};
ghost use Rattle.trellis_core.specs.Decisions.{DecideAll};

use cost_core::Window;
use dsd_bits::Bits;
use std::alloc::{AllocError, Global};

// The state at `level` from which `state` is reached at the next level, as it was decided.
fn before(window: &Window, decisions: &[u8], level: usize, state: usize) -> usize
    requires decisions { DecideAll window.now decisions.now }
    requires level { level < (trellis_of window.now).levels }
    requires state { state < states (trellis_of window.now) }
    ensures { result ≡ before (trellis_of window.now) level state }
{
    let states = window.states();
    let byte = decisions[level * states.div_ceil(8) + state / 8];
    let low = state / 2;
    if (byte >> (state % 8)) % 2 == 1 {
        low + states / 2
    } else {
        low
    }
}

/// The bits on the way back from a state of the last level, newest first. Err is out of memory.
pub(crate) fn trace(
    alloc: Global,
    window: &Window,
    decisions: &[u8],
    end: usize,
) -> Result<Vec<bool>, AllocError>
    requires decisions { DecideAll window.now decisions.now }
    requires end { end < states (trellis_of window.now) }
    ensures { IfOk result (λ bits. bits.items ≡ traced (trellis_of window.now) (trellis_of window.now).levels end) }
{
    let mut bits = Vec::new(alloc);
    let mut level = window.length();
    let mut state = end;
    while level > 0 {
        bits.push(state % 2 == 1)?;
        level -= 1;
        state = before(window, decisions, level, state);
    }
    Ok(bits)
}

/// The bits packed in reverse, so that the last comes first. Err is out of memory.
pub(crate) fn reversed(alloc: Global, newest_first: &[bool]) -> Result<Bits, AllocError>
    requires { length newest_first.now ≤ 2 ^ 36 }
    ensures { IfOk result (λ bits. bits ≡ reverse newest_first.now) }
{
    let mut bits = Bits::new(alloc);
    for i in 0..newest_first.len() {
        bits.push_bit(newest_first[newest_first.len() - 1 - i])?;
    }
    Ok(bits)
}
