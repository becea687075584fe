//! Makes a WAVE file of a project and a file: in memory, or from a reader to a writer.

ghost use Rattle.std.specs.Prelude.{◌≡◌, ◌+◌, ◌-◌, ◌<◌, ◌≤◌, ◌^◌, IfErr, IfOk, IsErrOf, OnErr};
ghost use Rattle.chunk_core.specs.Inlets.{inlet_failures, inlet_reads};
ghost use Rattle.chunk_core.specs.Outlets.{outlet_failures};
ghost use Rattle.sound_core.specs.Faults.{StopsReading, failed_reads, failed_writes};
ghost use Rattle.sound_core.specs.Naming.{NamesFault};
ghost use Rattle.transfer_core.specs.Ends.{AreSpent, LagsLittle, PlaysAll, PlaysRead, Starts, WritesNothing, left_in};
ghost use Rattle.request_core.specs.Faults.{IfNamed, OfStream, as_stream};
ghost use Rattle.transfer_core.specs.Laws.{WholePlays};
ghost use Rattle.transfer_core.specs.Playing.{Plays, played_of};
ghost use Rattle.form_core.specs.Steps.{GivesUnless};
ghost use Rattle.transfer_core.specs.Streaming.{FailsBeforeWriting, OnlyFromOutside, PlaysRange, SaysNone, StreamApplies};

use chunk_core::{Inlet, Outlet};
use form_core::{Opened, read_any};
use player_core::{WaveRange, wave_of, whole_is_all};
use request_core::{Fault, decimator_of};
use sound_core::StreamFault;
use std::alloc::Global;
use std::io::{Read, Write};

/// The WAVE file of a recording. Each frame has, for each channel in order, the whole-number convolution of the
/// channel's stored bits with the project's taps, rounded and clipped by the project's shift and width.
///
/// `project` is a project text, `file` a DSDIFF or DSF file of 1 to 6 channels. Refusals, in this order: `Project`,
/// `NoDecimation`, `FileUnread`, `RateNotDivided`, `TooLarge`. Out of memory is always `Memory`.
#[tactic(auto, unfolding(crate::specs::Playing::played_of))]
pub fn play(alloc: Global, project: &[u8], file: &[u8]) -> Result<Vec<u8>, Fault>
    // What is returned is the WAVE text of the samples of the stored bits.
    ensures found { IfOk result (λ bytes. Plays project.now file.now bytes.items) }
    // The answer or the fault is what reading in order ends with, unless memory runs out.
    ensures exact { GivesUnless Fault.Memory (λ bytes. bytes.items) result (played_of project.now file.now) }
{
    let taps = decimator_of(alloc, project)?;
    let Opened { recording, .. } = read_any(alloc, file)?;
    if !taps.rate_fits(recording.rate()) {
        return Err(Fault::Stream(StreamFault::RateNotDivided));
    }
    Ok(wave_of(alloc, &taps, &recording)?)
}

/// Plays frames of a reader's file to a writer, and returns the number of bytes that were written: a WAVE file whose
/// header and sizes are those of these frames. Of all frames it is what [`play`] returns for the file
/// ([`whole_plays`]), however its bytes are split into reads. The filter reads the recording around the frames. The file
/// is read from its start.
///
/// Of the sound it holds at most one block of 65,536 bytes and one group of the channels' blocks. What precedes the
/// sound is held whole, and so is what follows it in a DSDIFF form, or the tag of a DSF file. The reading may stop at a
/// DSDIFF form's end.
///
/// Refusals:
///
/// - `Project`, `NoDecimation`, before the first read;
/// - `FileRefused` with the fault that [`form_core::read_any`] answers, for bytes that are neither a DSDIFF nor a DSF
///   file that holds a recording (as much more of them is read as tells it);
/// - `Stream` with `FileRefused` if the recording lacks these frames;
/// - `RateNotDivided`, `TooLarge`, before the first write;
/// - `ReadFailed`, `WriteFailed`;
/// - `TurnLimit` after `2^40` reads (there are never more, whatever is returned), or at once if the inlet had counted
///   `2^63` reads or bytes, or inlet or outlet as many failures as they can;
/// - `Memory`.
///
/// If several apply, any of them may be returned. A file whose frames can be played is never refused because of the
/// file.
///
/// If such a file is refused, what was written is a prefix of the WAVE file. After `ReadFailed` and `TurnLimit`, if more
/// than 131,072 bytes of the sound were read, this prefix holds the header and each of the frames whose place lies, for
/// every channel, in all but the last 131,072 of them.
pub fn play_stream<R: Read, W: Write>(
    alloc: Global,
    project: &[u8],
    range: WaveRange,
    inlet: &mut Inlet<R>,
    outlet: &mut Outlet<W>,
) -> Result<u64, Fault>
    // What project and file play to was written, however its bytes are split into reads.
    ensures ok { IfOk result (PlaysAll R.remaining inlet.old (PlaysRange project.now range)
        W.contents outlet.old outlet.new) }
    // If the reader's bytes aren't known, the same holds of what was read.
    ensures any_reader { IfOk result (PlaysRead R.remaining inlet.old inlet.new (PlaysRange project.now range)
        W.contents outlet.old outlet.new) }
    // What can be played is refused only because of a device, the limit of reads or memory, and a prefix of it was
    // written.
    ensures cause { IfErr result (OnlyFromOutside (left_in R.remaining inlet.old) project.now range) }
    ensures prefix { OnErr result (Starts R.remaining inlet.old (PlaysRange project.now range)
        W.contents outlet.old outlet.new) }
    // If the reading stops, what was written lags by at most 131,072 bytes of the one sound that the file states.
    ensures keeps_up { IfErr result (λ fault. OfStream StopsReading fault
        → LagsLittle R.remaining inlet.old inlet.new project.now range W.contents outlet.old outlet.new) }
    // A fault that is returned is true.
    ensures refused { IfErr result (StreamApplies (left_in R.remaining inlet.old) project.now range) }
    // The first fault of what was read, and of the reader's file.
    ensures named { IfErr result (λ fault. IfNamed fault (NamesFault R.remaining inlet.old inlet.new)) }
    ensures read_failed { inlet_failures inlet.new ≡ inlet_failures inlet.old + failed_reads (as_stream result) }
    ensures write_failed { outlet_failures outlet.new ≡ outlet_failures outlet.old + failed_writes (as_stream result) }
    // Whatever is returned, there were at most 2^40 reads.
    ensures reads { inlet_reads inlet.new ≤ inlet_reads inlet.old + 2 ^ 40 }
    ensures turn_limit { IsErrOf result (Fault.Stream StreamFault.TurnLimit) → AreSpent outlet.old inlet.old inlet.new }
    // What is refused before the first read, and before the first write.
    ensures unread { SaysNone project.now → inlet_reads inlet.new ≡ inlet_reads inlet.old }
    ensures unwritten { IfErr result (λ fault. FailsBeforeWriting fault → WritesNothing outlet.old outlet.new) }
{
    let taps = decimator_of(alloc, project)?;
    Ok(player_core::play(alloc, &taps, range, inlet, outlet)?)
}

/// The law of a whole file: the range of all its frames plays what [`play`] plays of it.
pub fn whole_plays()
    ensures { WholePlays }
{
    whole_is_all();
}
