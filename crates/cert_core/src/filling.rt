//! Reads bytes that must be there.

ghost use Rattle.std.specs.Prelude.{◌≡◌, ◌+◌, ◌-◌, ◌<◌, ◌^◌, length, OnOk};
ghost use Rattle.chunk_core.specs.Inlets.{PullsBytes, inlet_failures, inlet_reader};
ghost use Rattle.cert_core.specs.Stops.{OnReason, failed_stops, CutBelow};

use crate::stop::Stop;
use crate::verdict::CertReason;
use chunk_core::Inlet;
use std::io::Read;

/// Fills a buffer with the next bytes. Reason: `Cut` if there are fewer.
pub(crate) fn fill<R: Read>(inlet: &mut Inlet<R>, buffer: &mut [u8]) -> Result<(), Stop>
    requires { inlet_failures inlet.old < 2 ^ 64 - 1 }
    ensures ok { OnOk result (PullsBytes R.remaining inlet.old inlet.new buffer.new) }
    ensures cut { OnReason result (CutBelow (R.remaining (inlet_reader inlet.old)) (length buffer.new)) }
    ensures failures { inlet_failures inlet.new ≡ inlet_failures inlet.old + failed_stops result }
{
    let count = inlet.fill(buffer)?;
    if count < buffer.len() {
        return Err(Stop::Reason(CertReason::Cut));
    }
    Ok(())
}
