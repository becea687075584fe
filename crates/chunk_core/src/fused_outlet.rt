//! An outlet that writes nothing more after its first failure.

ghost use Rattle.std.specs.Prelude.{◌≡◌, ◌+◌, ◌-◌, ◌<◌, ◌^◌, true, false, not, is_ok, ◌↔◌, IsErrOf, OnOk};
ghost use Rattle.chunk_core.specs.Outlets.{Puts, PutsPart, outlet_failures};

use crate::outlet::Outlet;
use std::fmt;
use std::io::Write;
use thiserror::Error;

/// Why bytes weren't written, or not all of them. A fault's text is its name.
#[derive(Clone, Copy, Debug, PartialEq, Eq, Error)]
pub enum FusedFault {
    /// A write failed. A prefix of the bytes was written.
    Device,
    /// An earlier write failed. Nothing was written.
    Failed,
}

impl fmt::Display for FusedFault {
    fn fmt<W: fmt::Write>(&self, f: &mut fmt::Formatter<W>) -> fmt::Result {
        fmt::Debug::fmt(self, f)
    }
}

/// An outlet that writes nothing more after a failed write.
#[derive(Drop)]
pub struct FusedOutlet<W> {
    outlet: Outlet<W>,
    has_failed: bool,
    ghost ready: { has_failed ≡ false → outlet_failures outlet < 2 ^ 64 - 1 },
}

impl<W: Write> FusedOutlet<W> {
    ghost use Rattle.chunk_core.specs.FusedOutlets.{failed_parts, fused_failed, fused_outlet};

    /// An outlet without a failed write so far.
    pub fn new(outlet: Outlet<W>) -> FusedOutlet<W>
        requires { outlet_failures outlet < 2 ^ 64 - 1 }
        ensures outlet { fused_outlet result ≡ outlet }
        ensures failed { fused_failed result ≡ false }
    {
        FusedOutlet {
            outlet,
            has_failed: false,
        }
    }

    /// Writes all of the bytes, in as many writes as needed.
    ///
    /// Refusals: `Device` at the first write that returns an error or accepts nothing; a prefix of the bytes was
    /// written, but not all of them. `Failed` after a `Device`; nothing is written.
    pub fn put_all(&mut self, bytes: &[u8]) -> Result<(), FusedFault>
        ensures ok { OnOk result (Puts W.contents (fused_outlet self.old) (fused_outlet self.new) bytes.now) }
        ensures device { IsErrOf result FusedFault.Device
            → PutsPart W.contents (fused_outlet self.old) (fused_outlet self.new) bytes.now }
        ensures failed { IsErrOf result FusedFault.Failed ↔ (fused_failed self.old ≡ true) }
        ensures unchanged { IsErrOf result FusedFault.Failed → self.new ≡ self.old }
        ensures failures { outlet_failures (fused_outlet self.new)
            ≡ outlet_failures (fused_outlet self.old) + failed_parts result }
        ensures refused { fused_failed self.new ≡ not (is_ok result) }
    {
        if self.has_failed {
            return Err(FusedFault::Failed);
        }
        match self.outlet.put_all(bytes) {
            Ok(()) => Ok(()),
            Err(_) => {
                self.has_failed = true;
                Err(FusedFault::Device)
            }
        }
    }

    /// Whether a write failed.
    pub fn has_failed(&self) -> bool
        ensures { result ≡ fused_failed self.now }
    {
        self.has_failed
    }

    /// The outlet itself.
    pub fn into_inner(self) -> Outlet<W>
        ensures { result ≡ fused_outlet self }
    {
        let FusedOutlet {
            outlet,
            has_failed: _,
        } = self;
        outlet
    }
}
