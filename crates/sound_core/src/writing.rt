//! Bytes that are written, with the fault of those who stream a file.

ghost use Rattle.std.specs.Prelude.{◌≡◌, ◌+◌, ◌-◌, ◌<◌, ◌^◌, IfErr, OnErr, OnOk};
ghost use Rattle.chunk_core.specs.Outlets.{Puts, PutsPart, outlet_failures};
ghost use Rattle.sound_core.specs.Faults.{IsWritingFault, failed_writes};

use crate::fault::StreamFault;
use chunk_core::Outlet;
use std::io::Write;

/// Writes these bytes.
///
/// Refusal: `WriteFailed`; a prefix of them was written, but not all of them.
pub fn put<W: Write>(outlet: &mut Outlet<W>, bytes: &[u8]) -> Result<(), StreamFault>
    requires ready { outlet_failures outlet.old < 2 ^ 64 - 1 }
    ensures ok { OnOk result (Puts W.contents outlet.old outlet.new bytes.now) }
    ensures err { OnErr result (PutsPart W.contents outlet.old outlet.new bytes.now) }
    ensures failures { outlet_failures outlet.new ≡ outlet_failures outlet.old + failed_writes result }
    ensures fault { IfErr result IsWritingFault }
{
    match outlet.put_all(bytes) {
        Ok(()) => Ok(()),
        Err(_) => Err(StreamFault::WriteFailed),
    }
}
