//! From a reader of a file to a writer of its frames.

ghost use Rattle.std.specs.Prelude.{◌≡◌, ◌+◌, ◌≤◌, ◌^◌, IfErr, IfOk, OnErr, OnOk};
ghost use Rattle.chunk_core.specs.Inlets.{inlet_failures, inlet_reader, inlet_reads};
ghost use Rattle.chunk_core.specs.Outlets.{outlet_failures, outlet_writer};
ghost use Rattle.fir_core.specs.Decimator.{IsWithinLimits};
ghost use Rattle.form_core.specs.Steps.{map_err};
ghost use Rattle.sound_core.specs.Faults.{IsBeforeWriting, failed_reads, failed_writes};
ghost use Rattle.sound_core.specs.Naming.{IfRefusedAs, IsExactUnless, NamesFault, plain};
ghost use Rattle.player_core.specs.Pace.{Lags};
ghost use Rattle.player_core.specs.Playing.{AppliesBy, IsLackedBySome, IsLimited, OnlyFromOutsideBy, PlaysBy, PlaysReadTo, PlaysTo, WritesPrefixTo};
ghost use Rattle.player_core.specs.Sinks.{SinkFails, SinkPlays, SinkPlaysRead};

use crate::laws::part_is_played;
use crate::range::WaveRange;
use crate::sink::{PlayingSink, finish};
use chunk_core::{Inlet, Outlet};
use fir_core::Taps;
use sound_core::{StreamFault, Unread, can_fail, read_named};
use std::alloc::Global;
use std::io::{Read, Write};

/// Plays frames of a reader's file to a writer, and returns the number of bytes of the WAVE file that was written. Its
/// header and sizes are those of these frames. What is before them in the file is read and dropped.
///
/// Refusals: `Refused` with the fault that [`form_core::read_any`] answers, for bytes that are neither a DSDIFF nor a
/// DSF file that holds a recording; `Stream` with `FileRefused` if the recording lacks these frames; `RateNotDivided`,
/// `TooLarge`, before the first write; `ReadFailed`, `WriteFailed`; `TurnLimit` after `2^40` reads, or at once if the
/// inlet had counted `2^63` reads or bytes, or inlet or outlet as many failures as they can; `Memory`.
///
/// Of a file that holds no recording as much more is read as tells its first fault, at most to its end or that of its
/// DSDIFF form.
pub fn play<R: Read, W: Write>(
    alloc: Global,
    taps: &Taps,
    range: WaveRange,
    inlet: &mut Inlet<R>,
    outlet: &mut Outlet<W>,
) -> Result<u64, Unread>
    // What the reader's file plays was written, however its reads are cut.
    ensures ok { IfOk result (PlaysTo R.remaining W.contents (PlaysBy taps.now range) inlet.old outlet.old outlet.new) }
    // The same of the bytes that were read, if the reader's bytes aren't known.
    ensures any_reader { IfOk result (PlaysReadTo R.remaining W.contents (PlaysBy taps.now range) inlet.old inlet.new
        outlet.old outlet.new) }
    // A fault of the file applies; a file that can be played is refused only from outside, and a prefix of its WAVE
    // file was written.
    ensures fault { IfErr result (λ u. AppliesBy (R.remaining (inlet_reader inlet.old)) taps.now range (plain u)) }
    ensures cause { IfErr result (λ u. OnlyFromOutsideBy (R.remaining (inlet_reader inlet.old)) taps.now range
        (plain u)) }
    // The first fault of what was read, and of the reader's file.
    ensures named { IfErr result (λ u. IfRefusedAs u (NamesFault R.remaining inlet.old inlet.new)) }
    // None is missing, but where a sound may lack frames of the range.
    ensures exact { IfErr result (IsExactUnless (IsLackedBySome taps.now range)) }
    // Nothing is written for a sound that can't be played.
    ensures unwritten { IfErr result (λ u. IsBeforeWriting (plain u)
        → outlet_writer outlet.new ≡ outlet_writer outlet.old) }
    ensures prefix { OnErr result (WritesPrefixTo R.remaining W.contents (PlaysBy taps.now range) inlet.old
        outlet.old outlet.new) }
    // If the reading stops, what was written lags by at most 131,072 bytes of the one sound that the file describes.
    ensures keeps_up { IfErr result (λ u. Lags R.remaining W.contents taps.now range inlet.old inlet.new
        outlet.old outlet.new (plain u)) }
    ensures read_failed { inlet_failures inlet.new ≡ inlet_failures inlet.old + failed_reads (map_err plain result) }
    ensures write_failed { outlet_failures outlet.new
        ≡ outlet_failures outlet.old + failed_writes (map_err plain result) }
    // Whatever is returned, there were at most 2^40 reads.
    ensures reads { inlet_reads inlet.new ≤ inlet_reads inlet.old + 2 ^ 40 }
    ensures turn_limit { IfErr result (λ u. plain u ≡ StreamFault.TurnLimit
        → IsLimited outlet.old inlet.old inlet.new) }
{
    part_is_played();
    keeps_limits(taps);
    let mut player = None;
    let mut out = Vec::new(alloc);
    let mut sink = PlayingSink::new(taps, range, outlet, &mut player, &mut out);
    play_file(alloc, inlet, &mut sink)
}

// A filter keeps its limits, which proofs cite.
fn keeps_limits(taps: &Taps)
    ensures { IsWithinLimits taps.now }
{
    let _ = taps.factor();
}

// Plays a reader's file with a sink that has not begun.
fn play_file<R: Read, W: Write>(
    alloc: Global,
    inlet: &mut Inlet<R>,
    sink: &mut PlayingSink<'_, '_, W>,
) -> Result<u64, Unread>
    requires least { 8 ≤ sink.old.taps.now.factor }
    ensures same { sink.new.outlet.ghost_name ≡ sink.old.outlet.ghost_name }
    ensures ok { IfOk result (SinkPlays R.remaining W.contents inlet.old sink.old sink.new) }
    ensures any_reader { IfOk result (SinkPlaysRead R.remaining W.contents inlet.old inlet.new sink.old sink.new) }
    ensures failures { OnOk result (outlet_failures sink.new.outlet.now ≡ outlet_failures sink.old.outlet.now) }
    ensures fault { IfErr result (λ u. SinkFails R.remaining W.contents inlet.old inlet.new sink.old sink.new
        (plain u)) }
    ensures named { IfErr result (λ u. IfRefusedAs u (NamesFault R.remaining inlet.old inlet.new)) }
    ensures exact { IfErr result (IsExactUnless (IsLackedBySome sink.old.taps.now sink.old.range)) }
    ensures read_failed { inlet_failures inlet.new ≡ inlet_failures inlet.old + failed_reads (map_err plain result) }
    ensures reads { inlet_reads inlet.new ≤ inlet_reads inlet.old + 2 ^ 40 }
    ensures turn_limit { IfErr result (λ u. plain u ≡ StreamFault.TurnLimit
        → IsLimited sink.old.outlet.now inlet.old inlet.new) }
{
    part_is_played();
    if !can_fail(sink.outlet) {
        return Err(Unread::Stream(StreamFault::TurnLimit));
    }
    let outline = read_named(alloc, inlet, sink)?;
    match finish(sink, &outline.sound) {
        Ok(count) => Ok(count),
        Err(fault) => Err(Unread::Stream(fault)),
    }
}
