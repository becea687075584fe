//! Whether a certificate shows the bridges of a master to be least.

ghost use Rattle.std.specs.Prelude.{◌≡◌, ◌+◌, ◌-◌, ◌^◌, ◌<◌, ◌≤◌, All, IfOk, None, OnOk, [], false, length, slice_index_or, true};
ghost use Rattle.std.specs.Io.KnownBytes.{IsAtEnd};
ghost use Rattle.chunk_core.specs.Inlets.{inlet_failures, inlet_reader};
ghost use Rattle.cert_core.specs.Readers.{IfLeft, cert_inlet, check_failures, failed_checks, has_read_head, read_version};
ghost use Rattle.cut_core.specs.Bridges.{IsPlace};
ghost use Rattle.cut_core.specs.Claims.{claim_over};
ghost use Rattle.judge_core.specs.Judging.{JudgesAllKept, JudgesHeadOf, JudgesKept, JudgesNext};
ghost use Rattle.judge_core.specs.Kept.{AreKept, kept_at, kept_claim, kept_items};

use crate::verdict::Verdict;
use cert_core::{CertReader, CertReason, CertVerdict, CheckFault, cert_goes_on, read_is_cert};
use cost_core::Window;
use cut_core::{BridgePlace, Cut};
use dsd_bits::Bits;
use request_core::Reason;
use std::alloc::Global;
use std::io::Read;

/// Whether a certificate, judged while it is read, shows the bridges of a master to be least. `kept` is the bits of the
/// bridges, by cue but the last and by channel. It is accepted exactly if it does, with the total of what they cost.
///
/// A rejection has the first reason in this order: `CertHead`, `Cert` with the first such entry, `CertExtra`. Refusals:
/// `Device` if a read fails, `Memory`.
pub(crate) fn judge_certificate<R: Read>(
    alloc: Global,
    cut: &Cut,
    kept: &[Vec<Bits>],
    reader: &mut CertReader<R>,
) -> Result<Verdict, CheckFault>
    requires ready { inlet_failures (cert_inlet reader.old) < 2 ^ 64 - 1 }
    requires kept { AreKept cut.now (kept_items kept.now) }
    ensures judged { JudgesAllKept R.remaining reader.old cut.now kept.now result }
    ensures failures { check_failures reader.new ≡ check_failures reader.old + failed_checks result }
{
    let places = cut.bridges(alloc)?;
    read_is_cert();
    cert_goes_on();
    if let Some(reason) = judge_head(reader, cut, places.len())? {
        return Ok(Verdict::Rejected(Reason::CertHead(reason)));
    }
    let verdict = judge_entries(alloc, cut, kept, &places, reader)?;
    match verdict {
        Verdict::Rejected(reason) => Ok(Verdict::Rejected(reason)),
        Verdict::Accepted { total } => {
            if has_more(reader)? {
                return Ok(Verdict::Rejected(Reason::CertExtra));
            }
            Ok(Verdict::Accepted { total })
        }
    }
}

// Reads the head of a certificate of `entries` entries. None means that it is correct.
fn judge_head<R: Read>(
    reader: &mut CertReader<R>,
    cut: &Cut,
    entries: usize,
) -> Result<Option<CertReason>, CheckFault>
    requires ready { inlet_failures (cert_inlet reader.old) < 2 ^ 64 - 1 }
    requires few { entries ≤ 1536 }
    ensures judged { IfOk result (JudgesHeadOf R.remaining reader.old reader.new cut.now entries) }
    ensures read { IfOk result (λ reason. reason ≡ None → has_read_head reader.new ≡ true) }
    ensures failures { check_failures reader.new ≡ check_failures reader.old + failed_checks result }
{
    let reason = reader.read_head(cut.weight_number(), entries as u32)?;
    Ok(reason)
}

// Whether more bytes follow.
fn has_more<R: Read>(reader: &mut CertReader<R>) -> Result<bool, CheckFault>
    requires ready { inlet_failures (cert_inlet reader.old) < 2 ^ 64 - 1 }
    ensures end { IfOk result (λ more. more ≡ false → IsAtEnd (R.remaining (inlet_reader (cert_inlet reader.old)))) }
    ensures more { IfOk result (λ more. more ≡ true → IfLeft R.remaining reader.old (λ bytes. 0 < length bytes)) }
    ensures failures { check_failures reader.new ≡ check_failures reader.old + failed_checks result }
{
    match reader.at_end() {
        Ok(None) => Ok(false),
        Ok(Some(_)) => Ok(true),
        Err(fault) => Err(fault),
    }
}

// Judges the bridges at these places by the next entries.
fn judge_entries<R: Read>(
    alloc: Global,
    cut: &Cut,
    kept: &[Vec<Bits>],
    places: &[BridgePlace],
    reader: &mut CertReader<R>,
) -> Result<Verdict, CheckFault>
    requires ready { inlet_failures (cert_inlet reader.old) < 2 ^ 64 - 1 }
    requires head { has_read_head reader.old ≡ true }
    requires kept { AreKept cut.now (kept_items kept.now) }
    requires each { All (IsPlace cut.now) places.now }
    requires few { length places.now ≤ 1536 }
    ensures judged { IfOk result (JudgesKept R.remaining reader.old reader.new cut.now kept.now places.now) }
    ensures failures { check_failures reader.new ≡ check_failures reader.old + failed_checks result }
{
    read_is_cert();
    cert_goes_on();
    let mut total = 0;
    for k in 0..places.len() {
        match judge_entry(alloc, cut, kept, places[k], reader)? {
            CertVerdict::Accepted { cost } => total += u128::from(cost),
            CertVerdict::Rejected(reason) => {
                return Ok(Verdict::Rejected(Reason::Cert(k, reason)));
            }
        }
    }
    Ok(Verdict::Accepted { total })
}

// Judges the bridge at a place by the next entry.
fn judge_entry<R: Read>(
    alloc: Global,
    cut: &Cut,
    kept: &[Vec<Bits>],
    place: BridgePlace,
    reader: &mut CertReader<R>,
) -> Result<CertVerdict, CheckFault>
    requires ready { inlet_failures (cert_inlet reader.old) < 2 ^ 64 - 1 }
    requires head { has_read_head reader.old ≡ true }
    requires kept { AreKept cut.now (kept_items kept.now) }
    requires place { IsPlace cut.now place }
    ensures judged { IfOk result (JudgesNext R.remaining reader.old reader.new (kept_claim cut.now kept.now place)) }
    ensures failures { check_failures reader.new ≡ check_failures reader.old + failed_checks result }
    ensures read { OnOk result (has_read_head reader.new ≡ true) }
    ensures version { OnOk result (read_version reader.new ≡ read_version reader.old) }
{
    cut.can_cut();
    let window = cut.window(alloc, place)?;
    let bits = kept_in(kept, place);
    check_bits(alloc, place, &window, bits, reader)
}

// Judges the bits of the bridge at a place by the next entry.
fn check_bits<R: Read>(
    alloc: Global,
    place: BridgePlace,
    window: &Window,
    bits: &Bits,
    reader: &mut CertReader<R>,
) -> Result<CertVerdict, CheckFault>
    requires ready { inlet_failures (cert_inlet reader.old) < 2 ^ 64 - 1 }
    requires head { has_read_head reader.old ≡ true }
    requires cue { place.cue < 2 ^ 16 }
    requires channel { place.channel < 2 ^ 16 }
    requires bits { length bits.now ≡ window.now.levels }
    ensures judged { IfOk result (JudgesNext R.remaining reader.old reader.new (claim_over place window.now bits.now)) }
    ensures failures { check_failures reader.new ≡ check_failures reader.old + failed_checks result }
    ensures read { OnOk result (has_read_head reader.new ≡ true) }
    ensures version { OnOk result (read_version reader.new ≡ read_version reader.old) }
{
    let BridgePlace { cue, channel } = place;
    let verdict = reader.check_bridge(alloc, cue as u16, channel as u16, window, bits)?;
    Ok(verdict)
}

// The bits that were kept of a master for the bridge at a place.
fn kept_in<'a>(kept: &'a [Vec<Bits>], place: BridgePlace) -> &'a Bits
    requires cue { place.cue < length (kept_items kept.now) }
    requires channel { place.channel < length (slice_index_or (kept_items kept.now) place.cue []) }
    ensures { result.now ≡ kept_at (kept_items kept.now) place.channel place.cue }
{
    let BridgePlace { cue, channel } = place;
    &kept[cue][channel]
}
