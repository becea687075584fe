//! What was found of a master whose bits are no longer in memory, and the verdict from that.

ghost use Rattle.std.specs.Prelude.{◌≡◌, ◌+◌, ◌-◌, ◌^◌, ◌<◌, IfOk, None, length};
ghost use Rattle.dsd_bits.specs.Contents.{Content};
ghost use Rattle.chunk_core.specs.Inlets.{inlet_failures};
ghost use Rattle.cert_core.specs.Readers.{cert_inlet, check_failures, failed_checks};
ghost use Rattle.cut_core.specs.Cuts.{take_channels};
ghost use Rattle.judge_core.specs.Checking.{FindsReason};
ghost use Rattle.judge_core.specs.Judging.{IsLeastAt, JudgesFound, RejectsNoCert};
ghost use Rattle.judge_core.specs.Kept.{AreKept, FindsLowest, ForFoundOf, IsFoundOf, kept_items};

use crate::comparing::outer_reason;
use crate::entries::judge_certificate;
use crate::verdict::Verdict;
use cert_core::{CertReader, CheckFault};
use cost_core::{least_together, places_are_windows};
use cut_core::Cut;
use dsd_bits::{Bits, Recording};
use form_core::Form;
use request_core::Reason;
use std::alloc::{AllocError, Global};
use std::io::Read;

/// A place in a channel of a master.
#[derive(Clone, Copy)]
pub struct CuedPlace {
    /// The number of the channel.
    pub channel: usize,
    /// The place of the bit in it.
    pub place: usize,
}

/// What was found of a recording whose bits are no longer in memory.
#[derive(Drop)]
pub struct Found {
    /// The form of its file.
    pub form: Form,
    /// The recording without its bits: its channels are empty.
    pub recording: Recording,
    /// How many bits each channel had.
    pub count: usize,
    /// The first bit that isn't that of the cue there, by rising channel and then by rising place. It is meaningful
    /// only if the recording has the rate, the channels and the length of the master.
    pub differs: Option<CuedPlace>,
    /// By cue but the last, and by channel, the bits at the place of the bridge after the cue. They are meaningful
    /// under the same condition as `differs`.
    pub kept: Vec<Vec<Bits>>,
}

/// The first bit of a master that isn't that of the cue there, from the first such place of each of its channels.
pub(crate) fn lowest_off(cut: &Cut, firsts: &[Option<usize>]) -> Option<CuedPlace>
    requires { length firsts.now ≡ take_channels cut.now }
    ensures { FindsLowest cut.now firsts.now result }
{
    cut.can_cut();
    for channel in 0..firsts.len() {
        if let Some(place) = firsts[channel] {
            return Some(CuedPlace { channel, place });
        }
    }
    None
}

/// The verdict on a recording whose bits are no longer in memory, from what was found of it and from a certificate that
/// is judged while it is read, two rows of it at a time. Only an accepted certificate is read to its end. If there is a
/// reason against the recording, the certificate isn't read.
///
/// Refusals: `Device` if a read fails, `Memory`.
pub(crate) fn judge_found<R: Read>(
    alloc: Global,
    cut: &Cut,
    found: &Found,
    reader: &mut CertReader<R>,
) -> Result<Verdict, CheckFault>
    requires ready { inlet_failures (cert_inlet reader.old) < 2 ^ 64 - 1 }
    requires found { (r : Content) × IsFoundOf cut.now found.now r }
    // For whichever recording it was found: what the verdict says of it and of the bytes that the reader has left.
    ensures judged { JudgesFound R.remaining reader.old cut.now found.now result }
    // What is accepted is least, whichever reader it was.
    ensures least { ForFoundOf cut.now found.now (λ r. IfOk result (IsLeastAt cut.now found.now.form r)) }
    ensures only { RejectsNoCert R.remaining reader.old cut.now found.now result }
    // `Device` is returned exactly if a read failed.
    ensures failures { check_failures reader.new ≡ check_failures reader.old + failed_checks result }
{
    cut.can_cut();
    least_together();
    places_are_windows();
    if let Some(reason) = found_reason(alloc, cut, found)? {
        return Ok(Verdict::Rejected(reason));
    }
    judge_certificate(alloc, cut, &found.kept, reader)
}

// The first reason why a recording isn't the master of the cut, from what was found of it.
fn found_reason(alloc: Global, cut: &Cut, found: &Found) -> Result<Option<Reason>, AllocError>
    requires { (r : Content) × IsFoundOf cut.now found.now r }
    ensures reason { ForFoundOf cut.now found.now (λ r. IfOk result (FindsReason cut.now found.now.form r)) }
    ensures kept { IfOk result (λ reason. reason ≡ None → AreKept cut.now (kept_items found.now.kept.items)) }
{
    if let Some(reason) = outer_reason(alloc, cut, found.form, &found.recording, found.count)? {
        return Ok(Some(reason));
    }
    match found.differs {
        Some(CuedPlace { channel, place }) => Ok(Some(Reason::CuedBit(channel, place))),
        None => Ok(None),
    }
}
