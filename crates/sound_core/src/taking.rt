//! A sound taken by a sink while its file is read once.

ghost use Rattle.std.specs.Prelude.{◌≡◌, ◌+◌, ◌-◌, ◌<◌, ◌≤◌, ◌^◌, [], IfErr, IfOk, IsErrOf, OnOk};
ghost use Rattle.chunk_core.specs.Inlets.{inlet_failures, inlet_reads};
ghost use Rattle.form_core.specs.Steps.{map_err};
ghost use Rattle.sound_core.specs.Causes.{HasPrefix, IsNamed};
ghost use Rattle.sound_core.specs.Faults.{failed_reads};
ghost use Rattle.sound_core.specs.Files.{IsHeaderOf};
ghost use Rattle.sound_core.specs.Naming.{IfRefusedAs, IsCutFault, IsExactUnless, NamesFault, plain};
ghost use Rattle.sound_core.specs.Readers.{Counts, IsAtStart, IsReading, IsSame, RunsOut};
ghost use Rattle.sound_core.specs.Sinks.{BreaksOff, CutsSound, EndsInRead, GivesOutline, HasBefore, IsFed, RefusesFile, RefusesRead, StopsFile, StopsRead, TakesOutline, TakesRead, TakesSound};

use crate::cause::Cause;
use crate::fault::{StreamFault, Unread};
use crate::header::read_header;
use crate::naming::unread;
use crate::outline::{Outline, read_rest};
use crate::part::SoundPart;
use crate::reader::{SoundReader, can_count, new_block};
use crate::sink::SoundSink;
use chunk_core::Inlet;
use dsd_bits::Sound;
use form_core::ReadFault;
use interleave_core::{segment_bits, segment_size};
use std::alloc::Global;
use std::io::Read;

/// Reads a file once, to its end or to that of a DSDIFF form, while a sink takes its sound. The bytes before the sound
/// are held, and those that are kept after it. Of the sound one block of 65,536 bytes is held at a time, and what the
/// sink holds.
///
/// At entry the sink must be able to begin.
///
/// Refusals: `FileRefused` if the bytes are neither a DSDIFF nor a DSF file that holds a recording; `ReadFailed`;
/// `TurnLimit` after `2^40` reads (there are never more, whatever is returned), or at once if the inlet had counted
/// `2^63` reads or bytes, or as many failures as it can; `Memory`; those of the sink.
pub fn read_into<R: Read, S: SoundSink>(
    alloc: Global,
    inlet: &mut Inlet<R>,
    sink: &mut S,
) -> Result<Outline, StreamFault>
    requires sink_ready { S.ready sink.old }
    // The reader's file is the outline with some sound, and the sink has its bytes.
    ensures ok { IfOk result (TakesOutline (S.has sink.old sink.new) R.remaining inlet.old) }
    // The same of the bytes that were read, if the reader's bytes aren't known.
    ensures any_reader { IfOk result (GivesOutline (S.has sink.old sink.new) R.remaining inlet.old inlet.new) }
    // A fault of the file applies, and the sink has what came before it, or refused that.
    ensures fault { IfErr result (StopsFile R.remaining S.has S.refused inlet.old inlet.new sink.old sink.new) }
    ensures read_failed { inlet_failures inlet.new ≡ inlet_failures inlet.old + failed_reads result }
    // Whatever is returned, there were at most 2^40 reads.
    ensures reads { inlet_reads inlet.new ≤ inlet_reads inlet.old + 2 ^ 40 }
    ensures turn_limit { IsErrOf result StreamFault.TurnLimit → RunsOut inlet.old inlet.new }
{
    if !can_count(inlet) {
        return Err(StreamFault::TurnLimit);
    }
    let mut block = new_block(alloc)?;
    let mut ahead = Vec::new(alloc);
    let mut reader = SoundReader::new(inlet, &mut block, &mut ahead);
    take_file(alloc, sink, &mut reader)
}

/// Reads a file as [`read_into`] does, and names the first fault of one that holds no recording. Of such a file as much
/// more is read as tells it, at most to its end or that of its DSDIFF form.
///
/// At entry the sink must be able to begin.
///
/// Refusals: `Refused` with the fault that [`form_core::read_any`] answers; `Stream` with those of reading, as
/// [`read_into`] returns them, with those of the sink, and with `FileRefused` only if that is the sink's.
pub fn read_named<R: Read, S: SoundSink>(
    alloc: Global,
    inlet: &mut Inlet<R>,
    sink: &mut S,
) -> Result<Outline, Unread>
    requires sink_ready { S.ready sink.old }
    ensures ok { IfOk result (TakesOutline (S.has sink.old sink.new) R.remaining inlet.old) }
    ensures any_reader { IfOk result (GivesOutline (S.has sink.old sink.new) R.remaining inlet.old inlet.new) }
    // The first fault of what was read, and of the reader's file.
    ensures named { IfErr result (λ u. IfRefusedAs u (NamesFault R.remaining inlet.old inlet.new)) }
    // None is missing, but where the sink refused the file.
    ensures exact { IfErr result (IsExactUnless (RefusesFile S.refused sink.old sink.new)) }
    ensures fault { IfErr result (λ u. StopsFile R.remaining S.has S.refused inlet.old inlet.new sink.old sink.new
        (plain u)) }
    ensures read_failed { inlet_failures inlet.new ≡ inlet_failures inlet.old + failed_reads (map_err plain result) }
    ensures reads { inlet_reads inlet.new ≤ inlet_reads inlet.old + 2 ^ 40 }
    ensures turn_limit { IfErr result (λ u. plain u ≡ StreamFault.TurnLimit → RunsOut inlet.old inlet.new) }
{
    if !can_count(inlet) {
        return Err(Unread::Stream(StreamFault::TurnLimit));
    }
    let Ok(mut block) = new_block(alloc) else {
        return Err(Unread::Stream(StreamFault::Memory));
    };
    let mut ahead = Vec::new(alloc);
    let mut reader = SoundReader::new(inlet, &mut block, &mut ahead);
    match take_file(alloc, sink, &mut reader) {
        Ok(outline) => Ok(outline),
        Err(fault) => Err(unread(alloc, fault, &mut reader)),
    }
}

// Reads a file, and has a sink take its sound. What is known of a refused file is its cause.
fn take_file<R: Read, S: SoundSink>(
    alloc: Global,
    sink: &mut S,
    reader: &mut SoundReader<'_, R>,
) -> Result<Outline, StreamFault>
    requires start { IsAtStart reader.old }
    requires ready { S.ready sink.old }
    ensures same { IsSame reader.old reader.new }
    ensures ok { IfOk result (TakesOutline (S.has sink.old sink.new) R.remaining reader.old.inlet.now) }
    ensures any_reader { IfOk result (GivesOutline (S.has sink.old sink.new) R.remaining reader.old.inlet.now
        reader.new.inlet.now) }
    ensures named { IfErr result (IsNamed (RefusesFile S.refused sink.old sink.new) R.remaining
        reader.old.inlet.now reader.new) }
    ensures prefix { IfErr result (λ f. f ≡ StreamFault.FileRefused → HasPrefix reader.new.cause → sink.new ≡ sink.old) }
    ensures counts { Counts reader.old reader.new result }
    ensures fault { IfErr result (StopsFile R.remaining S.has S.refused reader.old.inlet.now reader.new.inlet.now
        sink.old sink.new) }
{
    let sound = read_header(alloc, reader)?;
    let head = reader.take_head(alloc, sound.start)?;
    match take_sound(alloc, sound, sink, reader) {
        Ok(true) => {}
        Ok(false) => {
            let total = reader.inlet.given() - reader.given;
            reader.cause = Cause::Fault(cut_in(&sound, &head, total));
            return Err(StreamFault::FileRefused);
        }
        Err(fault) => {
            reader.cause = Cause::Unknown;
            return Err(fault);
        }
    }
    read_rest(alloc, sound, head, reader)
}

// The first fault of a file of so many bytes that begins with this head, and ends inside its sound.
fn cut_in(sound: &Sound, head: &[u8], total: u64) -> ReadFault
    requires { IsHeaderOf head.now sound.now }
    ensures { IsCutFault head.now sound.now total result }
{
    if sound.interleaving.has_blocks() {
        return ReadFault::from(dsf_core::cut_fault(sound, total));
    }
    ReadFault::from(dsdiff_core::cut_fault(head, total))
}

// Reads a sound to its end, and has a sink take it, a few groups of blocks at a time. It answers whether the file has
// all of it.
fn take_sound<R: Read, S: SoundSink>(
    alloc: Global,
    sound: Sound,
    sink: &mut S,
    reader: &mut SoundReader<'_, R>,
) -> Result<bool, StreamFault>
    requires fed { IsFed sound 0 [] }
    requires ready { S.ready sink.old }
    requires reading { IsReading reader.old }
    ensures same { IsSame reader.old reader.new }
    ensures reading { OnOk result (IsReading reader.new) }
    ensures ok { IfOk result (TakesSound R.remaining S.has sound reader.old reader.new sink.old sink.new) }
    ensures short { IfOk result (CutsSound R.remaining S.has S.refused sound reader.old reader.new sink.old sink.new) }
    ensures own { IfErr result (λ f. f ≡ StreamFault.FileRefused → RefusesFile S.refused sink.old sink.new) }
    ensures counts { Counts reader.old reader.new result }
    ensures fault { IfErr result (BreaksOff R.remaining S.has S.refused sound reader.old reader.new sink.old sink.new) }
{
    sink.begin(alloc, sound)?;
    let most = segment_bits(sound.channels);
    let mut done = 0;
    while done < sound.count {
        let bits = (sound.count - done).min(most);
        let part = SoundPart { sound, done, bits };
        if !take_part(alloc, part, sink, reader)? {
            return Ok(false);
        }
        done += bits;
    }
    Ok(true)
}

// Reads the bytes of the next part of a sound, and has a sink take them. It answers whether the file has all of them.
fn take_part<R: Read, S: SoundSink>(
    alloc: Global,
    part: SoundPart,
    sink: &mut S,
    reader: &mut SoundReader<'_, R>,
) -> Result<bool, StreamFault>
    requires fed { HasBefore S.has part sink.old }
    requires reading { IsReading reader.old }
    ensures same { IsSame reader.old reader.new }
    ensures reading { OnOk result (IsReading reader.new) }
    ensures ok { IfOk result (TakesRead R.remaining S.has reader.old reader.new sink.old sink.new part) }
    ensures short { IfOk result (EndsInRead R.remaining reader.old reader.new sink.old sink.new part) }
    ensures own { IfErr result (RefusesRead R.remaining S.has S.refused reader.old reader.new sink.old sink.new part) }
    ensures counts { Counts reader.old reader.new result }
    ensures fault { IfErr result (StopsRead R.remaining S.has S.refused reader.old reader.new sink.old sink.new part) }
{
    let size = segment_size(part.sound.interleaving, part.sound.channels, part.bits);
    if !reader.fill(size)? {
        return Ok(false);
    }
    let (bytes, _) = reader.block.split_at(size);
    sink.take(alloc, part, bytes)?;
    Ok(true)
}
