//! The reader of certificates.

ghost use Rattle.std.specs.Prelude.{◌≡◌, ◌+◌, ◌-◌, ◌^◌, ◌<◌, ◌≤◌, ◌++◌, List, ℕ, length, true, false, IfSome, IsErrOf};
ghost use Rattle.std.specs.Io.KnownBytes.{IsAtEnd};
ghost use Rattle.chunk_core.specs.Inlets.{inlet_failures, inlet_reader};
ghost use Rattle.cost_core.specs.Bridges.{bridge_cost, IsLeastBridge};

use crate::entry::{Place, read_entry};
use crate::numbers::version_in;
use crate::stop::Stop;
use crate::verdict::{CertReason, CertVerdict, CheckFault};
use crate::version::Version;
use chunk_core::Inlet;
use cost_core::Window;
use dsd_bits::Bits;
use std::alloc::Global;
use std::io::Read;

/// A reader of a certificate: [`read_head`](CertReader::read_head), then [`check_bridge`](CertReader::check_bridge) for
/// each entry, then [`at_end`](CertReader::at_end). After a rejection, `Device` or `Memory` its position is
/// unspecified, so don't call it again.
#[derive(Drop)]
pub struct CertReader<R> {
    inlet: Inlet<R>,
    version: Version,
    has_head: bool,
}

impl<R: Read> CertReader<R> {
    ghost use Rattle.cert_core.specs.Readers.{IfLeft, cert_inlet, check_failures, has_read_head, read_version, IfAccepted, IfRejected, failed_checks, IsWell, IfReason, InHead, InRest, ReadsHead, HasNoHead, ReadsNext, IsNextReason, HasNoNext};

    /// A reader that starts where the inlet is.
    pub fn new(inlet: Inlet<R>) -> CertReader<R>
        ensures inlet { cert_inlet result ≡ inlet }
        ensures head { has_read_head result ≡ false }
    {
        CertReader {
            inlet,
            version: Version::One,
            has_head: false,
        }
    }

    /// The inlet, at its present position.
    pub fn into_inlet(self) -> Inlet<R>
        ensures { result ≡ cert_inlet self }
    {
        let CertReader {
            inlet,
            version: _,
            has_head: _,
        } = self;
        inlet
    }

    /// Reads the header, which must be that of `weights` weights and `entries` entries, in either version. None means
    /// that it is.
    ///
    /// Reasons, in this order: `Cut` if fewer than 12 bytes are left, `Head`. Refusal: `Device` if a read fails. It
    /// takes no memory.
    pub fn read_head(
        &mut self,
        weights: usize,
        entries: u32,
    ) -> Result<Option<CertReason>, CheckFault>
        requires ready { check_failures self.old < 2 ^ 64 - 1 }
        requires weights { weights ≤ 12 }
        ensures none { IsWell result → ReadsHead R.remaining self.old self.new weights entries }
        ensures read { IsWell result → has_read_head self.new ≡ true }

        // If the bytes are known, this is their first reason, and they don't begin with the header.
        ensures reason { IfReason result (InHead weights entries (R.remaining (inlet_reader (cert_inlet self.old)))) }
        ensures only { IfReason result (λ _. IfLeft R.remaining self.old (HasNoHead weights entries)) }

        // The answer is `Device` exactly if a read failed, and never `Memory`.
        ensures failures { check_failures self.new
            ≡ check_failures self.old + failed_checks result }
        ensures memory { IsErrOf result CheckFault.Memory → ⊥ }
    {
        let mut bytes = [0u8; 12];
        let Ok(count) = self.inlet.fill(&mut bytes) else {
            return Err(CheckFault::Device);
        };
        if count < 12 {
            return Ok(Some(CertReason::Cut));
        }
        let Some(version) = version_in(&bytes, weights, entries) else {
            return Ok(Some(CertReason::Head));
        };
        self.version = version;
        self.has_head = true;
        Ok(None)
    }

    /// Reads the next entry, in the version that the header names, and judges by it the bits of the bridge after `cue`
    /// in `channel`. `Accepted` says that the entry's table is valid for these bits, so no bits of the bridge's length
    /// cost less.
    ///
    /// Reasons, in this order:
    /// 1. `Cut` if the 6 bytes of the entry's start aren't there, `Head` for another cue or channel, `Length`.
    /// 2. For each level in turn `Cut`, `Bound`, and then at level 0 `Start`, at the others `Step` for the lowest such
    ///    state.
    /// 3. `Cut`, `Cost`, and `End` for the lowest such state.
    ///
    /// For a row of the second version, step 2 has these in place of `Cut` and `Bound`: `Cut` if its first 9 bytes
    /// aren't there, `Row` for a width above 8, `Cut`, `Bound`, and `Row` if no excess is 0 or the width isn't the
    /// least.
    ///
    /// Refusals: `Device` if a read fails, `Memory`. It holds two rows of the table at a time, and the bytes of one
    /// row, which are read whole.
    pub fn check_bridge(
        &mut self,
        alloc: Global,
        cue: u16,
        channel: u16,
        window: &Window,
        bits: &Bits,
    ) -> Result<CertVerdict, CheckFault>
        requires ready { check_failures self.old < 2 ^ 64 - 1 }
        requires head { has_read_head self.old ≡ true }
        requires bits { length bits.now ≡ window.now.levels }

        // Exactly one entry was read, whose table is valid for the bits.
        ensures entry { IfAccepted result (λ _. ReadsNext R.remaining self.old self.new window.now cue channel bits.now) }
        ensures cost { IfAccepted result (λ cost. cost ≡ bridge_cost window.now bits.now) }
        ensures least { IfAccepted result (λ _. IsLeastBridge window.now bits.now) }

        // If the bytes are known, this is their first reason, and they begin with no such entry.
        ensures reason { IfRejected result (IsNextReason R.remaining self.old window.now cue channel bits.now) }
        ensures only { IfRejected result (λ _. HasNoNext R.remaining self.old window.now cue channel bits.now) }

        // The answer is `Device` exactly if a read failed.
        ensures failures { check_failures self.new
            ≡ check_failures self.old + failed_checks result }

        // What was read of the header is unchanged.
        ensures read { has_read_head self.new ≡ has_read_head self.old }
        ensures version { read_version self.new ≡ read_version self.old }
    {
        match read_entry(
            alloc,
            &mut self.inlet,
            self.version,
            Place { cue, channel },
            window,
            bits,
        ) {
            Ok(cost) => Ok(CertVerdict::Accepted { cost }),
            Err(Stop::Reason(reason)) => Ok(CertVerdict::Rejected(reason)),
            Err(Stop::Device) => Err(CheckFault::Device),
            Err(Stop::Memory) => Err(CheckFault::Memory),
        }
    }

    /// Whether the certificate ends here: None means that it does.
    ///
    /// Reason: `Extra`. Refusal: `Device` if a read fails. It takes no memory.
    pub fn at_end(&mut self) -> Result<Option<CertReason>, CheckFault>
        requires { check_failures self.old < 2 ^ 64 - 1 }
        ensures none { IsWell result → IsAtEnd (R.remaining (inlet_reader (cert_inlet self.old))) }
        ensures reason { IfReason result (InRest (R.remaining (inlet_reader (cert_inlet self.old)))) }

        // The answer is `Device` exactly if a read failed, and never `Memory`.
        ensures failures { check_failures self.new
            ≡ check_failures self.old + failed_checks result }
        ensures memory { IsErrOf result CheckFault.Memory → ⊥ }
    {
        let mut bytes = [0u8; 1];
        let Ok(count) = self.inlet.fill(&mut bytes) else {
            return Err(CheckFault::Device);
        };
        if count == 0 {
            Ok(None)
        } else {
            Ok(Some(CertReason::Extra))
        }
    }
}
