//! The targets of a bridge's places.

ghost use Rattle.std.specs.Prelude.{◌≡◌, ◌+◌, ◌<◌, length, IfOk};
ghost use Rattle.splice_core.specs.Splices.{splice_content};
ghost use Rattle.cost_core.specs.Faults.{CanBridge};
ghost use Rattle.cost_core.specs.Windows.{bridging_over};

use crate::fading::fade_targets;
use crate::line::line_targets;
use crate::seam::Seam;
use splice_core::{Splice, Target};
use std::alloc::{AllocError, Global};

/// The targets of all places of the bridge after cue `cue`, over its seam. Err is out of memory.
pub(crate) fn targets_after(
    alloc: Global,
    splice: &Splice,
    cue: usize,
    seam: Seam<'_>,
) -> Result<Vec<i32>, AllocError>
    requires cues { cue + 1 < length (splice_content splice.now).cues }
    requires room { CanBridge (splice_content splice.now) cue seam.own.now seam.stop seam.next.now seam.start }
    ensures { IfOk result (λ made. made.items ≡ (bridging_over (splice_content splice.now) cue seam.entry).targets) }
{
    let weights = splice.weights.as_slice();
    let levels = splice.cues[cue].bridge;
    match splice.cues[cue].target {
        Target::Fade => fade_targets(alloc, weights, seam, levels),
        Target::Line { a, b } => line_targets(alloc, a, b, weights.len(), levels),
    }
}
