//! The writer of certificates.

ghost use Rattle.std.specs.Prelude.{◌≡◌, true, false, ◌+◌, ◌*◌, ◌-◌, ◌<◌, ◌≤◌, ◌^◌, length, not, is_ok, ◌↔◌, IsErrOf, OnOk, OnErr, IfOk, IfErr};
ghost use Rattle.std.specs.Int.{w64, to_be_bytes};
ghost use Rattle.chunk_core.specs.FusedOutlets.{failed_parts};
ghost use Rattle.chunk_core.specs.Outlets.{outlet_failures};
ghost use Rattle.cert_core.specs.Counting.{IsCounted};
ghost use Rattle.cert_core.specs.Rooms.{room_weights};
ghost use Rattle.cert_core.specs.Text.{entry_start, cert_head};

use crate::CertFault;
use crate::numbers::{head_bytes, start_bytes};
use crate::room::CertRoom;
use crate::spelling::put_row;
use crate::version::Version;
use chunk_core::{FusedOutlet, Outlet};
use std::alloc::Global;
use std::io::Write;

/// Writes a certificate to an outlet: [`begin`](CertWriter::begin), then for each entry
/// [`begin_bridge`](CertWriter::begin_bridge), [`level`](CertWriter::level) for each row, and
/// [`end_bridge`](CertWriter::end_bridge); last [`finish`](CertWriter::finish). It holds the bytes of one row, and
/// takes no memory once it is made.
///
/// After `Device` every call but `finish` may be made in any order. It returns `Failed`, writes nothing and leaves the
/// writer as it is.
#[derive(Drop)]
pub struct CertWriter<W> {
    outlet: FusedOutlet<W>,
    buffer: Vec<u8>,
    version: Version,
    weights: usize,
    has_head: bool,
    entries_left: u32,
    is_open: bool,
    rows_left: u32,
    // How many failures the outlet had before.
    failures: u64,
    ghost few: { weights ≤ 12 },
    ghost room: { length buffer.items ≡ 17 + 8 * 2 ^ (weights - 1) },
    ghost counted: { IsCounted failures outlet },
}

impl<W: Write> CertWriter<W> {
    ghost use Rattle.cert_core.specs.Writers.{Stage, OnDevice, Writes, WritesSome, before_head, cert_failures, cert_outlet, entry_begun, writer_head, writer_row, has_failed, cert_version, cert_weights, row_length, rows_left, stage, has_head, entries_left, is_open};

    /// A writer of this version for bridges by `weights` weights, which has written nothing. Err is out of memory, and
    /// gives the outlet back.
    pub fn new(
        alloc: Global,
        outlet: Outlet<W>,
        weights: usize,
        version: Version,
    ) -> Result<CertWriter<W>, Outlet<W>>
        requires ready { outlet_failures outlet < 2 ^ 64 - 1 }
        requires two { 2 ≤ weights }
        requires few { weights ≤ 12 }
        ensures outlet { IfOk result (λ writer. cert_outlet writer ≡ outlet) }
        ensures failed { IfOk result (λ writer. has_failed writer ≡ false) }
        ensures stage { IfOk result (λ writer. stage writer ≡ before_head version weights (outlet_failures outlet)) }
        ensures rows { IfOk result (λ writer. rows_left writer ≡ 0) }
        ensures back { IfErr result (λ given. given ≡ outlet) }
    {
        match CertRoom::new(alloc, weights) {
            Ok(room) => Ok(CertWriter::in_room(outlet, room, version)),
            Err(_) => Err(outlet),
        }
    }

    /// The same in memory that was reserved before, for bridges by as many weights. It takes no memory.
    pub fn in_room(outlet: Outlet<W>, room: CertRoom, version: Version) -> CertWriter<W>
        requires ready { outlet_failures outlet < 2 ^ 64 - 1 }
        ensures outlet { cert_outlet result ≡ outlet }
        ensures failed { has_failed result ≡ false }
        ensures stage { stage result ≡ before_head version (room_weights room) (outlet_failures outlet) }
        ensures rows { rows_left result ≡ 0 }
    {
        let failures = outlet.failures();
        let CertRoom { buffer, weights } = room;
        CertWriter {
            outlet: FusedOutlet::new(outlet),
            buffer,
            version,
            weights,
            has_head: false,
            entries_left: 0,
            is_open: false,
            rows_left: 0,
            failures,
        }
    }

    /// Writes the header, which announces `entries` entries.
    ///
    /// Refusals of this and of each later call that writes: `Device` if a write fails, and then a prefix of the part
    /// was written, but not all of it; `Failed` after a `Device`, and then nothing is written. Only a writer that
    /// hasn't failed requires the order of calls.
    pub fn begin(&mut self, entries: u32) -> Result<(), CertFault>
        requires head { has_failed self.old ≡ false → has_head self.old ≡ false }
        ensures ok { OnOk result (Writes W.contents self.old self.new
            (writer_head self.old entries)) }
        ensures device { OnDevice result (WritesSome W.contents self.old self.new (writer_head self.old entries)) }
        ensures failed { IsErrOf result CertFault.Failed ↔ (has_failed self.old ≡ true) }
        ensures unchanged { IsErrOf result CertFault.Failed → self.new ≡ self.old }
        ensures failures { cert_failures self.new
            ≡ cert_failures self.old + failed_parts result }
        ensures refused { has_failed self.new ≡ not (is_ok result) }
        ensures begun { OnOk result (stage self.new
            ≡ record (stage self.old) { has_head = true; entries_left = entries }) }
        ensures kept { OnErr result (stage self.new ≡ stage self.old) }
        ensures rows { rows_left self.new ≡ rows_left self.old }
    {
        self.outlet
            .put_all(&head_bytes(self.version, self.weights, entries))?;
        self.has_head = true;
        self.entries_left = entries;
        Ok(())
    }

    /// Writes the start of the entry of the bridge after `cue` in `channel`, which announces a row for
    /// each level of a bridge of `length` bits.
    pub fn begin_bridge(&mut self, cue: u16, channel: u16, length: u16) -> Result<(), CertFault>
        requires head { has_failed self.old ≡ false → has_head self.old ≡ true }
        requires entries { has_failed self.old ≡ false → 0 < entries_left self.old }
        requires open { has_failed self.old ≡ false → is_open self.old ≡ false }
        ensures ok { OnOk result (Writes W.contents self.old self.new (entry_start cue channel length)) }
        ensures device { OnDevice result (WritesSome W.contents self.old self.new (entry_start cue channel length)) }
        ensures failed { IsErrOf result CertFault.Failed ↔ (has_failed self.old ≡ true) }
        ensures unchanged { IsErrOf result CertFault.Failed → self.new ≡ self.old }
        ensures failures { cert_failures self.new
            ≡ cert_failures self.old + failed_parts result }
        ensures refused { has_failed self.new ≡ not (is_ok result) }
        ensures begun { OnOk result (stage self.new
            ≡ entry_begun (stage self.old)) }
        ensures kept { OnErr result (stage self.new ≡ stage self.old) }
        ensures rows { OnOk result (rows_left self.new ≡ length + 1) }
        ensures rows_kept { OnErr result (rows_left self.new ≡ rows_left self.old) }
    {
        self.outlet.put_all(&start_bytes(cue, channel, length))?;
        self.entries_left -= 1;
        self.is_open = true;
        self.rows_left = u32::from(length) + 1;
        Ok(())
    }

    /// Writes the row of the next level: `2^(K-1)` values by rising state, where `K` is the number of weights.
    pub fn level(&mut self, row: &[u64]) -> Result<(), CertFault>
        requires rows { has_failed self.old ≡ false → 0 < rows_left self.old }
        requires row { length row.now ≡ row_length self.old }
        ensures ok { OnOk result (Writes W.contents self.old self.new (writer_row self.old row.now)) }
        ensures device { OnDevice result (WritesSome W.contents self.old self.new (writer_row self.old row.now)) }
        ensures failed { IsErrOf result CertFault.Failed ↔ (has_failed self.old ≡ true) }
        ensures unchanged { IsErrOf result CertFault.Failed → self.new ≡ self.old }
        ensures failures { cert_failures self.new
            ≡ cert_failures self.old + failed_parts result }
        ensures refused { has_failed self.new ≡ not (is_ok result) }
        ensures kept { stage self.new ≡ stage self.old }
        ensures rows { OnOk result (rows_left self.new + 1 ≡ rows_left self.old) }
        ensures rows_kept { OnErr result (rows_left self.new ≡ rows_left self.old) }
    {
        if self.has_failed() {
            return Err(CertFault::Failed);
        }
        let count = put_row(self.version, row, &mut self.buffer);
        self.outlet.put_all(&self.buffer[0..count])?;
        self.rows_left -= 1;
        Ok(())
    }

    /// Writes the cost of the bridge's bits, after all rows of its entry.
    pub fn end_bridge(&mut self, cost: u64) -> Result<(), CertFault>
        requires open { has_failed self.old ≡ false → is_open self.old ≡ true }
        requires rows { has_failed self.old ≡ false → rows_left self.old ≡ 0 }
        ensures ok { OnOk result (Writes W.contents self.old self.new (to_be_bytes w64 cost)) }
        ensures device { OnDevice result (WritesSome W.contents self.old self.new (to_be_bytes w64 cost)) }
        ensures failed { IsErrOf result CertFault.Failed ↔ (has_failed self.old ≡ true) }
        ensures unchanged { IsErrOf result CertFault.Failed → self.new ≡ self.old }
        ensures failures { cert_failures self.new
            ≡ cert_failures self.old + failed_parts result }
        ensures refused { has_failed self.new ≡ not (is_ok result) }
        ensures ended { OnOk result (stage self.new ≡ record (stage self.old) { is_open = false }) }
        ensures kept { OnErr result (stage self.new ≡ stage self.old) }
        ensures rows { rows_left self.new ≡ rows_left self.old }
    {
        self.outlet.put_all(&cost.to_be_bytes())?;
        self.is_open = false;
        Ok(())
    }

    /// Whether a write failed.
    pub(crate) fn has_failed(&self) -> bool
        ensures { result ≡ has_failed self.now }
    {
        self.outlet.has_failed()
    }

    /// The outlet, as it is now.
    pub fn finish(self) -> Outlet<W>
        ensures { result ≡ cert_outlet self }
    {
        let CertWriter {
            outlet,
            buffer: _,
            version: _,
            weights: _,
            has_head: _,
            entries_left: _,
            is_open: _,
            rows_left: _,
            failures: _,
        } = self;
        outlet.into_inner()
    }
}
