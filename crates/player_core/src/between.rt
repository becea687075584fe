//! Plays a file between others, from a reader to a writer.

ghost use Rattle.std.specs.Prelude.{◌≡◌, ◌+◌, ◌-◌, ◌<◌, ◌≤◌, ◌^◌, IfErr, IfOk, OnErr, OnOk};
ghost use Rattle.chunk_core.specs.Inlets.{inlet_failures, inlet_reader, inlet_reads};
ghost use Rattle.chunk_core.specs.Outlets.{outlet_failures, outlet_writer};
ghost use Rattle.fir_core.specs.Decimator.{IsWithinLimits};
ghost use Rattle.form_core.specs.Steps.{map_err};
ghost use Rattle.player_core.specs.Between.{AppliesBetweenBy, IsUnjoinedBySome, PlaysBetween, channels_after, channels_before};
ghost use Rattle.player_core.specs.Joining.{BetweenFails, IsSameOutlet, JoinedFails, JoinedPlays, JoinedPlaysRead};
ghost use Rattle.player_core.specs.Playing.{IsLimited, PlaysReadTo, PlaysTo, WritesPrefixTo};
ghost use Rattle.sound_core.specs.Faults.{IsBeforeWriting, failed_reads, failed_writes};
ghost use Rattle.sound_core.specs.Naming.{IfRefusedAs, IsExactUnless, NamesFault, plain};
ghost use Rattle.sound_core.specs.Readers.{RunsOut};

use crate::joining::{JoiningSink, Neighbours, finish_joined};
use crate::laws::part_is_played;
use crate::range::WaveRange;
use crate::sink::PlayingSink;
use chunk_core::{Inlet, Outlet};
use fir_core::Taps;
use sound_core::{StreamFault, Unread, can_fail, read_named};
use std::alloc::Global;
use std::io::{Read, Write};
use wave_core::WaveHead;

/// Plays a reader's file to a writer as a part of the recording that the sound before it, the file's and the sound
/// after it make: the frames whose place lies in the file's sound. Returns the number of bytes of the WAVE file that was
/// written. It has this head, and its header and sizes are those of these frames.
///
/// Of the sounds before and after, it is given only what the filter reaches, at most 65,536 bytes each.
///
/// Refusals: `Refused` with the fault that [`form_core::read_any`] answers, for bytes that are neither a DSDIFF nor a
/// DSF file that holds a recording; `Stream` with `FileRefused` if the recording has another rate or other channels, if
/// it or a neighbour doesn't end with a whole byte, or if they are too long; `RateNotDivided`, `TooLarge`, before the
/// first write; `ReadFailed`, `WriteFailed`; `TurnLimit` as [`crate::play`]; `Memory`. What was written before a refusal is
/// a prefix of the WAVE file.
pub fn play_between<R: Read, W: Write>(
    alloc: Global,
    taps: &Taps,
    around: Neighbours<'_>,
    head: WaveHead,
    inlet: &mut Inlet<R>,
    outlet: &mut Outlet<W>,
) -> Result<u64, Unread>
    // What the reader's file plays between its neighbours was written, however its reads are cut.
    ensures ok { IfOk result (PlaysTo R.remaining W.contents (PlaysBetween head taps.now around.entry.rate (channels_before around.entry) (channels_after around.entry)) inlet.old outlet.old outlet.new) }
    // The same of the bytes that were read, if the reader's bytes aren't known.
    ensures any_reader { IfOk result (PlaysReadTo R.remaining W.contents (PlaysBetween head taps.now around.entry.rate (channels_before around.entry) (channels_after around.entry)) inlet.old inlet.new outlet.old outlet.new) }
    // A fault of the file between its neighbours applies.
    ensures fault { IfErr result (λ u. AppliesBetweenBy (R.remaining (inlet_reader inlet.old)) head taps.now around.entry
        (plain u)) }
    // The first fault of what was read, and of the reader's file.
    ensures named { IfErr result (λ u. IfRefusedAs u (NamesFault R.remaining inlet.old inlet.new)) }
    // None is missing, but where a sound may not be joined to the neighbours.
    ensures exact { IfErr result (IsExactUnless (IsUnjoinedBySome around.entry)) }
    // Nothing is written for a sound that can't be played.
    ensures unwritten { IfErr result (λ u. IsBeforeWriting (plain u)
        → outlet_writer outlet.new ≡ outlet_writer outlet.old) }
    // A prefix of whatever the reader's file plays was written before a refusal.
    ensures prefix { OnErr result (WritesPrefixTo R.remaining W.contents (PlaysBetween head taps.now around.entry.rate (channels_before around.entry) (channels_after around.entry)) inlet.old outlet.old outlet.new) }
    ensures read_failed { inlet_failures inlet.new ≡ inlet_failures inlet.old + failed_reads (map_err plain result) }
    ensures write_failed { outlet_failures outlet.new
        ≡ outlet_failures outlet.old + failed_writes (map_err plain result) }
    // Whatever is returned, there were at most 2^40 reads.
    ensures reads { inlet_reads inlet.new ≤ inlet_reads inlet.old + 2 ^ 40 }
    ensures turn_limit { IfErr result (λ u. plain u ≡ StreamFault.TurnLimit
        → IsLimited outlet.old inlet.old inlet.new) }
{
    keeps_limits(taps);
    let range = WaveRange {
        start: 0,
        stop: None,
        head,
    };
    let mut player = None;
    let mut out = Vec::new(alloc);
    let mut playing = PlayingSink::new(taps, range, outlet, &mut player, &mut out);
    play_by(alloc, around, inlet, &mut playing)
}

// Plays a reader's file between its neighbours with a sink that has not begun.
fn play_by<R: Read, W: Write>(
    alloc: Global,
    around: Neighbours<'_>,
    inlet: &mut Inlet<R>,
    playing: &mut PlayingSink<'_, '_, W>,
) -> Result<u64, Unread>
    requires least { 8 ≤ playing.old.taps.now.factor }
    ensures same { playing.new.outlet.ghost_name ≡ playing.old.outlet.ghost_name }
    ensures ok { IfOk result (PlaysTo R.remaining W.contents (PlaysBetween playing.old.range.head playing.old.taps.now around.entry.rate (channels_before around.entry) (channels_after around.entry)) inlet.old playing.old.outlet.now playing.new.outlet.now) }
    ensures any_reader { IfOk result (PlaysReadTo R.remaining W.contents (PlaysBetween playing.old.range.head playing.old.taps.now around.entry.rate (channels_before around.entry) (channels_after around.entry)) inlet.old inlet.new playing.old.outlet.now playing.new.outlet.now) }
    ensures failures { OnOk result (outlet_failures playing.new.outlet.now ≡ outlet_failures playing.old.outlet.now) }
    ensures fault { IfErr result (λ u. BetweenFails W.contents (R.remaining (inlet_reader inlet.old)) playing.old.range.head
        playing.old.taps.now around.entry playing.old.outlet.now playing.new.outlet.now (plain u)) }
    ensures named { IfErr result (λ u. IfRefusedAs u (NamesFault R.remaining inlet.old inlet.new)) }
    ensures exact { IfErr result (IsExactUnless (IsUnjoinedBySome around.entry)) }
    ensures read_failed { inlet_failures inlet.new ≡ inlet_failures inlet.old + failed_reads (map_err plain result) }
    ensures reads { inlet_reads inlet.new ≤ inlet_reads inlet.old + 2 ^ 40 }
    ensures turn_limit { IfErr result (λ u. plain u ≡ StreamFault.TurnLimit
        → IsLimited playing.old.outlet.now inlet.old inlet.new) }
{
    if !can_fail(playing.outlet) {
        return Err(Unread::Stream(StreamFault::TurnLimit));
    }
    let mut bytes = Vec::new(alloc);
    let mut sink = JoiningSink {
        playing,
        around,
        bytes: &mut bytes,
    };
    play_joined(alloc, inlet, &mut sink)
}

// Plays a reader's file with a sink that has not begun.
fn play_joined<R: Read, W: Write>(
    alloc: Global,
    inlet: &mut Inlet<R>,
    sink: &mut JoiningSink<'_, '_, '_, '_, W>,
) -> Result<u64, Unread>
    requires least { 8 ≤ sink.old.playing.now.taps.now.factor }
    requires ready { outlet_failures sink.old.playing.now.outlet.now < 2 ^ 64 - 1 }
    ensures same { IsSameOutlet sink.old sink.new }
    ensures ok { IfOk result (JoinedPlays R.remaining W.contents inlet.old sink.old sink.new) }
    ensures any_reader { IfOk result (JoinedPlaysRead R.remaining W.contents inlet.old inlet.new sink.old sink.new) }
    ensures failures { OnOk result (outlet_failures sink.new.playing.now.outlet.now
        ≡ outlet_failures sink.old.playing.now.outlet.now) }
    ensures fault { IfErr result (λ u. JoinedFails R.remaining W.contents inlet.old sink.old sink.new (plain u)) }
    ensures named { IfErr result (λ u. IfRefusedAs u (NamesFault R.remaining inlet.old inlet.new)) }
    ensures exact { IfErr result (IsExactUnless (IsUnjoinedBySome sink.old.around)) }
    ensures read_failed { inlet_failures inlet.new ≡ inlet_failures inlet.old + failed_reads (map_err plain result) }
    ensures reads { inlet_reads inlet.new ≤ inlet_reads inlet.old + 2 ^ 40 }
    ensures turn_limit { IfErr result (λ u. plain u ≡ StreamFault.TurnLimit → RunsOut inlet.old inlet.new) }
{
    part_is_played();
    let outline = read_named(alloc, inlet, sink)?;
    match finish_joined(sink, &outline.sound) {
        Ok(count) => Ok(count),
        Err(fault) => Err(Unread::Stream(fault)),
    }
}

// A filter keeps its limits, which proofs cite.
fn keeps_limits(taps: &Taps)
    ensures { IsWithinLimits taps.now }
{
    let _ = taps.factor();
}
