//! The file of a master, read once.

ghost use Rattle.std.specs.Prelude.{◌≡◌, ◌+◌, ◌-◌, ◌<◌, ◌≤◌, ◌^◌, IfErr, IfOk};
ghost use Rattle.chunk_core.specs.Inlets.{inlet_failures, inlet_reader, inlet_reads};
ghost use Rattle.form_core.specs.Steps.{map_err};
ghost use Rattle.sound_core.specs.Faults.{failed_reads};
ghost use Rattle.sound_core.specs.Naming.{IfRefusedAs, IsExact, NamesFault, plain};
ghost use Rattle.sound_core.specs.Outlines.{IsOutlineFault};
ghost use Rattle.sound_core.specs.Readers.{RunsOut};
ghost use Rattle.judge_core.specs.Auditing.{AuditsFile, AuditsGiven};

use crate::auditor::Auditor;
use crate::finding::{CuedPlace, lowest_off};
use crate::ranges::bridge_ranges;
use chunk_core::Inlet;
use cut_core::Cut;
use dsd_bits::Bits;
use form_core::has_shape;
use sound_core::{Outline, StreamFault, Unread, read_named};
use std::alloc::Global;
use std::io::Read;

/// The file of a master without its sound, and what was found in its sound.
#[derive(Drop)]
pub(crate) struct Audited {
    /// The bytes before and after the sound, and what they say.
    pub(crate) outline: Outline,
    /// The first bit that isn't that of the cue there, by rising channel and then by rising place. It is meaningful
    /// only if the sound has as many channels as the master, and each as many bits.
    pub(crate) differs: Option<CuedPlace>,
    /// By cue but the last, and by channel, the bits at the place of the bridge after the cue.
    pub(crate) kept: Vec<Vec<Bits>>,
}

/// Reads the file of a master once, as [`read_outline`](sound_core::read_outline) does, and finds in its sound what a
/// verdict by the cut needs: the first bit that isn't that of the cue there, and the bits of the bridges. Besides
/// these, at most three blocks of 65,536 bytes of the sound are held at a time, and the channels of one.
///
/// Refusals: those of `read_outline`.
pub(crate) fn audit<R: Read>(
    alloc: Global,
    cut: &Cut,
    inlet: &mut Inlet<R>,
) -> Result<Audited, Unread>
    // The reader's file is the outline with some sound, and this was found in the recording that it holds.
    ensures ok { IfOk result (AuditsFile (R.remaining (inlet_reader inlet.old)) cut.now) }
    // The same of the bytes that were read, if the reader's bytes aren't known.
    ensures any_reader { IfOk result (AuditsGiven R.remaining inlet.old inlet.new cut.now) }
    // The first fault of what was read, and of the reader's file.
    ensures named { IfErr result (λ u. IfRefusedAs u (NamesFault R.remaining inlet.old inlet.new)) }
    ensures exact { IfErr result IsExact }
    ensures fault { IfErr result (λ u. IsOutlineFault (R.remaining (inlet_reader inlet.old)) (plain u)) }
    ensures read_failed { inlet_failures inlet.new ≡ inlet_failures inlet.old + failed_reads (map_err plain result) }
    // Whatever is returned, there were at most 2^40 reads.
    ensures reads { inlet_reads inlet.new ≤ inlet_reads inlet.old + 2 ^ 40 }
    ensures turn_limit { IfErr result (λ u. plain u ≡ StreamFault.TurnLimit → RunsOut inlet.old inlet.new) }
{
    let Ok(ranges) = bridge_ranges(alloc, cut) else {
        return Err(Unread::Stream(StreamFault::Memory));
    };
    let mut auditor = Auditor::new(alloc, cut, &ranges);
    match read_named(alloc, inlet, &mut auditor) {
        Ok(outline) => {
            has_shape(&outline.recording);
            let differs = lowest_off(cut, &auditor.firsts);
            Ok(Audited {
                outline,
                differs,
                kept: auditor.keeper.stretches,
            })
        }
        Err(fault) => Err(fault),
    }
}
