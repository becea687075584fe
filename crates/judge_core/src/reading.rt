//! A master's file, read to be judged.

ghost use Rattle.std.specs.Prelude.{◌≡◌, ◌+◌, ◌-◌, ◌<◌, ◌≤◌, ◌^◌, IfErr, IfOk, IsErrOf};
ghost use Rattle.chunk_core.specs.Inlets.{inlet_failures, inlet_reads};
ghost use Rattle.sound_core.specs.Faults.{IsReadingFault, failed_reads};
ghost use Rattle.sound_core.specs.Readers.{RunsOut};
ghost use Rattle.form_core.specs.Forms as forms;
ghost use Rattle.judge_core.specs.Auditing.{found_in};
ghost use Rattle.judge_core.specs.Finding.{IsFoundGiven, IsFoundLeft};

use crate::auditing::{Audited, audit};
use crate::finding::Found;
use chunk_core::Inlet;
use cut_core::Cut;
use form_core::{ReadFault, form_in};
use sound_core::{StreamFault, Unread};
use std::alloc::Global;
use std::io::Read;

/// What is found of the file of a master that is to be judged by a cut, or the first fault of a file that doesn't hold a
/// recording, which [`read_any`](form_core::read_any) answers too. The file is read once, as far as needed, as
/// [`read_outline`](sound_core::read_outline) does. Besides what is found, at most three blocks of 65,536 bytes of the
/// sound are held at a time, and the channels of one.
///
/// Refusals: `ReadFailed`; `TurnLimit` after `2^40` reads (there are never more, whatever is returned), or at once if the
/// inlet had counted `2^63` reads or bytes, or as many failures as it can; `Memory`.
pub fn find_master<R: Read>(
    alloc: Global,
    cut: &Cut,
    inlet: &mut Inlet<R>,
) -> Result<Result<Found, ReadFault>, StreamFault>
    // It was found in the recording that the reader's file holds, or is the file's first fault.
    ensures found { IfOk result (IsFoundLeft R.remaining inlet.old cut.now) }
    // The same of the bytes that were read, if the reader's bytes aren't known.
    ensures any_reader { IfOk result (IsFoundGiven R.remaining inlet.old inlet.new cut.now) }
    ensures fault { IfErr result IsReadingFault }
    ensures read_failed { inlet_failures inlet.new ≡ inlet_failures inlet.old + failed_reads result }
    // Whatever is returned, there were at most 2^40 reads.
    ensures reads { inlet_reads inlet.new ≤ inlet_reads inlet.old + 2 ^ 40 }
    ensures turn_limit { IsErrOf result StreamFault.TurnLimit → RunsOut inlet.old inlet.new }
{
    match audit(alloc, cut, inlet) {
        Ok(audited) => Ok(Ok(found_by(audited))),
        Err(Unread::Refused(fault)) => Ok(Err(fault)),
        Err(Unread::Stream(fault)) => Err(fault),
    }
}

// What was found in a file, with the form that it has.
fn found_by(audited: Audited) -> Found
    ensures { result ≡ found_in (forms.form_in audited.outline.sound.interleaving) audited }
{
    let Audited {
        outline,
        differs,
        kept,
    } = audited;
    Found {
        form: form_in(outline.sound.interleaving),
        recording: outline.recording,
        count: outline.sound.count,
        differs,
        kept,
    }
}
