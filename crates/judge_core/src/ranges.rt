//! Where the bridges of a master are.

ghost use Rattle.std.specs.Prelude.{◌≡◌, IfOk};
ghost use Rattle.judge_core.specs.Auditing as specs;

use cut_core::Cut;
use dsd_bits::BitRange;
use std::alloc::{AllocError, Global};

/// The range of the bridge after each cue but the last in the master. Err is out of memory.
pub(crate) fn bridge_ranges(alloc: Global, cut: &Cut) -> Result<Vec<BitRange>, AllocError>
    ensures { IfOk result (λ made. made.items ≡ specs.bridge_ranges cut.now) }
{
    cut.can_cut();
    let mut ranges = Vec::new(alloc);
    let mut place = 0;
    for i in 0..cut.cue_number() - 1 {
        let cue = cut.cue(i);
        let start = place + (cue.stop - cue.start);
        place = start + cue.bridge;
        ranges.push(BitRange { start, stop: place })?;
    }
    Ok(ranges)
}
