//! From a reader of a file to a writer of its bits as DoP samples.

ghost use Rattle.std.specs.Prelude.{◌≡◌, ◌+◌, ◌⊎◌, ◌≤◌, ◌^◌, IfErr, IfOk, OnErr, OnOk};
ghost use Rattle.chunk_core.specs.Inlets.{inlet_failures, inlet_reader, inlet_reads};
ghost use Rattle.chunk_core.specs.Outlets.{outlet_failures, outlet_writer};
ghost use Rattle.form_core.specs.Steps.{map_err};
ghost use Rattle.sound_core.specs.Faults.{IsBeforeWriting, failed_reads, failed_writes};
ghost use Rattle.sound_core.specs.Naming.{IfRefusedAs, IsExact, NamesFault, plain};
ghost use Rattle.sound_core.specs.Readers.{CanFail, RunsOut};
ghost use Rattle.dop_core.specs.Playing.{DopAppliesBy, DopLags, DopOnlyFromOutsideBy, DopPlaysReadTo, DopPlaysTo, DopWritesPrefixTo};
ghost use Rattle.dop_core.specs.Sinks.{SinkFails, SinkPlays, SinkPlaysRead};

use crate::header::file_size;
use crate::sink::{DopSink, put_tail};
use chunk_core::{Inlet, Outlet};
use native_core::{native_has_size, native_joins};
use sound_core::{StreamFault, Unread, can_fail, read_named};
use std::alloc::Global;
use std::io::{Read, Write};

/// Plays a reader's file to a writer, and returns the number of bytes of the WAVE file that was written: the bits as DoP
/// 1.1 samples, at a sixteenth of the rate. If the bits don't fill the last frame, silence does, and a chunk after the
/// data says how many there are.
///
/// Refusals: `Refused` with the fault that [`form_core::read_any`] answers, for bytes that are neither a DSDIFF nor a
/// DSF file that holds a recording; `RateNotDivided` if 16 doesn't divide the rate, `TooLarge`, before the first write;
/// `ReadFailed`, `WriteFailed`; `TurnLimit` after `2^40` reads, or at once if the inlet had counted `2^63` reads or
/// bytes, or inlet or outlet as many failures as they can; `Memory`.
///
/// After `ReadFailed` and `TurnLimit`, if more than 65,536 bytes of the sound were read, what was written holds the
/// header and the samples of all but the last 65,536 of them.
///
/// Of the sound it holds one block of 65,536 bytes and its samples. Of a file that holds no recording as much more is
/// read as tells its first fault, at most to its end or that of its DSDIFF form.
pub fn play_dop<R: Read, W: Write>(
    alloc: Global,
    inlet: &mut Inlet<R>,
    outlet: &mut Outlet<W>,
) -> Result<u64, Unread>
    // What the reader's file plays was written, however its reads are cut.
    ensures ok { IfOk result (DopPlaysTo R.remaining W.contents inlet.old outlet.old outlet.new) }
    // The same of the bytes that were read, if the reader's bytes aren't known.
    ensures any_reader { IfOk result (DopPlaysReadTo R.remaining W.contents inlet.old inlet.new outlet.old outlet.new) }
    // A fault of the file applies.
    ensures fault { IfErr result (λ u. DopAppliesBy (R.remaining (inlet_reader inlet.old)) (plain u)) }
    // A file that can be played is refused only from outside.
    ensures cause { IfErr result (λ u. DopOnlyFromOutsideBy (R.remaining (inlet_reader inlet.old)) (plain u)) }
    // The first fault of what was read, and of the reader's file; none is missing.
    ensures named { IfErr result (λ u. IfRefusedAs u (NamesFault R.remaining inlet.old inlet.new)) }
    ensures exact { IfErr result IsExact }
    // Nothing is written for a sound that can't be played.
    ensures unwritten { IfErr result (λ u. IsBeforeWriting (plain u)
        → outlet_writer outlet.new ≡ outlet_writer outlet.old) }
    // After a refusal a prefix of what the file plays was written.
    ensures prefix { OnErr result (DopWritesPrefixTo R.remaining W.contents inlet.old outlet.old outlet.new) }
    // If the reading stops, what was written lags by at most 65,536 bytes of the one sound that the file describes.
    ensures keeps_up { IfErr result (λ u. DopLags R.remaining W.contents inlet.old inlet.new outlet.old outlet.new
        (plain u)) }
    ensures read_failed { inlet_failures inlet.new ≡ inlet_failures inlet.old + failed_reads (map_err plain result) }
    ensures write_failed { outlet_failures outlet.new
        ≡ outlet_failures outlet.old + failed_writes (map_err plain result) }
    // Whatever is returned, there were at most 2^40 reads.
    ensures reads { inlet_reads inlet.new ≤ inlet_reads inlet.old + 2 ^ 40 }
    ensures turn_limit { IfErr result (λ u. plain u ≡ StreamFault.TurnLimit
        → (CanFail outlet.old → ⊥) ⊎ RunsOut inlet.old inlet.new) }
{
    let mut out = Vec::new(alloc);
    let mut sink = DopSink {
        outlet,
        out: &mut out,
    };
    play_file(alloc, inlet, &mut sink)
}

// Plays a reader's file with a sink that has not begun.
fn play_file<R: Read, W: Write>(
    alloc: Global,
    inlet: &mut Inlet<R>,
    sink: &mut DopSink<'_, W>,
) -> Result<u64, Unread>
    ensures same { sink.new.outlet.ghost_name ≡ sink.old.outlet.ghost_name }
    ensures ok { IfOk result (SinkPlays R.remaining W.contents inlet.old sink.old sink.new) }
    ensures any_reader { IfOk result (SinkPlaysRead R.remaining W.contents inlet.old inlet.new sink.old sink.new) }
    ensures failures { OnOk result (outlet_failures sink.new.outlet.now ≡ outlet_failures sink.old.outlet.now) }
    ensures fault { IfErr result (λ u. SinkFails R.remaining W.contents inlet.old inlet.new sink.old sink.new
        (plain u)) }
    ensures named { IfErr result (λ u. IfRefusedAs u (NamesFault R.remaining inlet.old inlet.new)) }
    ensures exact { IfErr result IsExact }
    ensures read_failed { inlet_failures inlet.new ≡ inlet_failures inlet.old + failed_reads (map_err plain result) }
    ensures reads { inlet_reads inlet.new ≤ inlet_reads inlet.old + 2 ^ 40 }
    ensures turn_limit { IfErr result (λ u. plain u ≡ StreamFault.TurnLimit
        → (CanFail sink.old.outlet.now → ⊥) ⊎ RunsOut inlet.old inlet.new) }
{
    native_joins();
    native_has_size();
    if !can_fail(sink.outlet) {
        return Err(Unread::Stream(StreamFault::TurnLimit));
    }
    let outline = read_named(alloc, inlet, sink)?;
    match put_tail(&outline.sound, sink.out, sink.outlet) {
        Ok(()) => Ok(file_size(&outline.sound)),
        Err(fault) => Err(Unread::Stream(fault)),
    }
}
