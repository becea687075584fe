//! The room that a bridge needs in the takes.

ghost use Rattle.std.specs.Prelude.{◌≡◌, ◌+◌, ◌<◌, ◌≤◌, length, IsOk, OnOk, Some};
ghost use Rattle.splice_core.specs.Splices.{splice_content};
ghost use Rattle.cost_core.specs.Faults.{HasRoom, NamesMissing, missing_room, reach_at};
ghost use Rattle.cost_core.specs.Targets.{reach_of};

use crate::fault::RoomFault;
use splice_core::{Splice, Target};

/// Whether the bridge after cue `cue` has room, if each channel of that cue's take has `count` bits. A fade of `L` bits
/// by `K` weights reads `L + K - 1` bits before the next cue and `L` bits after its own, a line none.
///
/// Refusals, in this order: `NoRoomBefore` if the next cue starts too early in its take for what the target reads
/// before it, `NoRoomAfter` if cue `cue` stops too late in its own for what the target reads after it.
pub fn has_room(splice: &Splice, cue: usize, count: usize) -> Result<(), RoomFault>
    requires { cue + 1 < length (splice_content splice.now).cues }

    // It is refused exactly if there is no room.
    ensures found { OnOk result (HasRoom (splice_content splice.now) cue count) }
    ensures only { HasRoom (splice_content splice.now) cue count → IsOk result }

    // Which fault it is: the first room that is lacking.
    ensures order { NamesMissing (λ fault. Some fault) result (missing_room (splice_content splice.now) cue count) }
{
    let here = &splice.cues[cue];
    let (before, after) = reach_at(splice, cue);
    if splice.cues[cue + 1].start < before {
        return Err(RoomFault::NoRoomBefore);
    }
    if count < here.stop + after {
        return Err(RoomFault::NoRoomAfter);
    }
    Ok(())
}

/// How many bits beyond its cues the target of the bridge after cue `cue` reads: before the next cue in its take, and
/// after the cue in its own.
pub fn reach_at(splice: &Splice, cue: usize) -> (usize, usize)
    requires { cue < length (splice_content splice.now).cues }
    ensures before { result.0 ≡ (reach_at (splice_content splice.now) cue).before }
    ensures after { result.1 ≡ (reach_at (splice_content splice.now) cue).after }
    ensures few { (result.0 ≤ 4107) × (result.1 ≤ 4096) }
{
    let here = &splice.cues[cue];
    reach_of(here.target, splice.weights.len(), here.bridge)
}

// How many bits beyond its cues the target of a bridge of `levels` bits by `weights` weights reads: before the next
// cue, and after its own.
fn reach_of(target: Target, weights: usize, levels: usize) -> (usize, usize)
    requires weights { (1 ≤ weights) × (weights ≤ 12) }
    requires levels { levels ≤ 4096 }
    ensures before { result.0 ≡ (reach_of target weights levels).before }
    ensures after { result.1 ≡ (reach_of target weights levels).after }
    ensures few { (result.0 ≤ 4107) × (result.1 ≤ 4096) }
{
    match target {
        Target::Fade => (levels + weights - 1, levels),
        Target::Line { .. } => (0, 0),
    }
}
