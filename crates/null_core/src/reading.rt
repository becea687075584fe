//! Takes, read from their files.

ghost use Rattle.std.specs.Prelude.{◌≡◌, ◌+◌, ◌≤◌, ◌^◌, IfErr, IfOk, IsErrOf};
ghost use Rattle.chunk_core.specs.Inlets.{inlet_failures, inlet_reads};
ghost use Rattle.clip_core.specs.Contents.{mix_content};
ghost use Rattle.null_core.specs.Files.{HoldsExcerpts, IsReadGiven, IsReadLeft};
ghost use Rattle.sound_core.specs.Faults.{IsReadingFault, failed_reads};
ghost use Rattle.sound_core.specs.Readers.{RunsOut};

use crate::ranges::ranges_of;
use chunk_core::Inlet;
use clip_core::Mix;
use cut_core::Excerpts;
use form_core::{ReadFault, has_shape};
use sound_core::{Kept, StreamFault, Unread, read_stretches};
use std::alloc::Global;
use std::io::Read;

/// What a mix reads of a file, the take of a number, or the first fault of a file that doesn't hold a recording, which
/// [`read_any`](form_core::read_any) returns too. The file is read once, and only the bits that the mix reads are kept.
/// Besides these, at most three blocks of 65,536 bytes of the sound are held at a time, and the channels of one.
///
/// Refusals: `ReadFailed`; `TurnLimit` after `2^40` reads (there are never more, whatever is returned), or at once if the
/// inlet had counted `2^63` reads or bytes, or as many failures as it can; `Memory`.
pub fn read_take<R: Read>(
    alloc: Global,
    mix: &Mix,
    number: usize,
    inlet: &mut Inlet<R>,
) -> Result<Result<Excerpts, ReadFault>, StreamFault>
    // It was read of the recording that the reader's file holds, or is the file's first fault.
    ensures found { IfOk result (IsReadLeft (HoldsExcerpts (mix_content mix.now) number) R.remaining inlet.old) }
    // The same of the bytes that were read, if the reader's bytes aren't known.
    ensures any_reader { IfOk result (IsReadGiven (HoldsExcerpts (mix_content mix.now) number) R.remaining inlet.old inlet.new) }
    ensures fault { IfErr result IsReadingFault }
    ensures read_failed { inlet_failures inlet.new ≡ inlet_failures inlet.old + failed_reads result }
    // Whatever is returned, there were at most 2^40 reads.
    ensures reads { inlet_reads inlet.new ≤ inlet_reads inlet.old + 2 ^ 40 }
    ensures turn_limit { IsErrOf result StreamFault.TurnLimit → RunsOut inlet.old inlet.new }
{
    let Ok(ranges) = ranges_of(alloc, mix, number) else {
        return Err(StreamFault::Memory);
    };
    match read_stretches(alloc, inlet, &ranges) {
        Ok(kept) => {
            let Kept { outline, stretches } = kept;
            has_shape(&outline.recording);
            Ok(Ok(Excerpts {
                recording: outline.recording,
                count: outline.sound.count,
                stretches,
            }))
        }
        Err(Unread::Refused(fault)) => Ok(Err(fault)),
        Err(Unread::Stream(fault)) => Err(fault),
    }
}
