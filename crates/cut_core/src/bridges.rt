//! The places of a cut's bridges, in their one order.

ghost use Rattle.std.specs.Prelude.{◌≡◌, ◌+◌, ◌<◌, ◌≤◌, ◌++◌, All, IfOk, OnOk, length};
ghost use Rattle.cut_core.specs.Bridges as specs;
ghost use Rattle.cut_core.specs.Bridges.{IsPlace, places_after};

use crate::cut::Cut;
use std::alloc::{AllocError, Global};

/// The place of a bridge in a master.
#[derive(Clone, Copy, PartialEq, Eq)]
pub struct BridgePlace {
    /// The number of the cue before it.
    pub cue: usize,
    /// The number of the channel.
    pub channel: usize,
}

/// The places of all bridges, by rising cue and then by rising channel. A plain cut is not a bridge. Err is out of
/// memory.
pub(crate) fn bridge_places(alloc: Global, cut: &Cut) -> Result<Vec<BridgePlace>, AllocError>
    ensures places { IfOk result (λ made. made.items ≡ specs.bridges cut.now) }
    ensures each { IfOk result (λ made. All (IsPlace cut.now) made.items) }
    ensures few { IfOk result (λ made. length made.items ≤ 1536) }
{
    let mut places = Vec::new(alloc);
    for cue in 0..cut.cue_number() - 1 {
        push_places(&mut places, cut, cue)?;
    }
    Ok(places)
}

// Appends the places of the bridge after a cue.
fn push_places(out: &mut Vec<BridgePlace>, cut: &Cut, cue: usize) -> Result<(), AllocError>
    requires { cue + 1 < length cut.now.splice.cues }
    ensures appended { OnOk result (out.new.items ≡ out.old.items ++ places_after cut.now cue) }
    ensures each { All (IsPlace cut.now) out.old.items → OnOk result (All (IsPlace cut.now) out.new.items) }
    ensures few { OnOk result (length out.new.items ≤ length out.old.items + 6) }
{
    if cut.cue(cue).bridge == 0 {
        return Ok(());
    }
    for channel in 0..cut.channel_number() {
        out.push(BridgePlace { cue, channel })?;
    }
    Ok(())
}
