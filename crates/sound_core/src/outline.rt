//! What a file holds besides its sound, read in one pass.

ghost use Rattle.std.specs.Prelude.{◌≡◌, ◌+◌, ◌-◌, ◌%◌, ◌<◌, ◌≤◌, ◌^◌, IfErr, IfOk, length, true};
ghost use Rattle.chunk_core.specs.Inlets.{inlet_failures, inlet_reader, inlet_reads};
ghost use Rattle.dsd_bits.specs.Sounds.{IsSound, has_blocks};
ghost use Rattle.sound_core.specs.Faults.{failed_reads};
ghost use Rattle.sound_core.specs.Files.{IsHeaderOf};
ghost use Rattle.form_core.specs.Steps.{map_err};
ghost use Rattle.sound_core.specs.Naming.{IfRefusedAs, IsExact, NamesFault, NamesRest, is_memory, plain};
ghost use Rattle.sound_core.specs.Outlines.{BuffersRest, BuffersTag, IsFaultAfter, IsFaultAtTag, IsOutlineFault, MissesTag, OutlinesRest, SurroundsFile, SurroundsGiven, around_of};
ghost use Rattle.sound_core.specs.Readers.{Counts, IsAfter, IsReading, IsSame, RunsOut};

use crate::cause::Cause;
use crate::fault::{StreamFault, Unread};
use crate::nothing::Nothing;
use crate::reader::SoundReader;
use crate::taking::read_named;
use chunk_core::Inlet;
use dsd_bits::{Interleaving, Recording, Sound};
use dsdiff_core::DsdiffFault;
use dsf_core::DsfFault;
use form_core::ReadFault;
use std::alloc::Global;
use std::io::Read;

/// A file without its sound: the bytes around it, and what they say.
///
/// The file is `head`, the bytes of the sound, `gap` bytes that don't matter, `back`, and any further bytes if it need
/// not end there.
#[derive(Drop)]
pub struct Outline {
    /// What the sound is, and where it is.
    pub sound: Sound,
    /// The bytes before the sound.
    pub head: Vec<u8>,
    /// How many bytes between the sound and `back` don't matter: those before the tag of a DSF file.
    pub gap: u64,
    /// The bytes after it: what follows the sound in a DSDIFF form, or the tag of a DSF file.
    pub back: Vec<u8>,
    /// Whether the file ends after `back`: bytes after a whole DSDIFF form don't matter.
    pub ends: bool,
    /// The recording that it holds, with empty channels.
    pub recording: Recording,
}

/// Reads a file to its end, or to that of a DSDIFF form, and returns all of it but the bits of its sound. The bytes
/// before the sound are held, and those that are kept after it. Of the sound one block of 65,536 bytes is held at a
/// time.
///
/// Refusals: `Refused` with the fault that [`form_core::read_any`] answers, for bytes that are neither a DSDIFF nor a
/// DSF file that holds a recording; `Stream` with `ReadFailed`, `TurnLimit` after `2^40` reads (whatever is answered
/// there were no more), or at once if the inlet had counted `2^63` reads or bytes, or as many failures as it can, or
/// `Memory`.
pub fn read_outline<R: Read>(alloc: Global, inlet: &mut Inlet<R>) -> Result<Outline, Unread>
    // The reader's file is the outline with some sound, and every such file holds what the outline describes.
    ensures ok { IfOk result (λ o. SurroundsFile (R.remaining (inlet_reader inlet.old)) (around_of o)) }
    // The same of the bytes that were read, as many as were counted, if the reader's bytes aren't known.
    ensures any_reader { IfOk result (λ o. SurroundsGiven R.remaining inlet.old inlet.new (around_of o)) }
    // The first fault of what was read, and of the reader's file.
    ensures named { IfErr result (λ u. IfRefusedAs u (NamesFault R.remaining inlet.old inlet.new)) }
    ensures exact { IfErr result IsExact }
    ensures fault { IfErr result (λ u. IsOutlineFault (R.remaining (inlet_reader inlet.old)) (plain u)) }
    ensures read_failed { inlet_failures inlet.new ≡ inlet_failures inlet.old + failed_reads (map_err plain result) }
    // Whatever is returned, there were at most 2^40 reads.
    ensures reads { inlet_reads inlet.new ≤ inlet_reads inlet.old + 2 ^ 40 }
    ensures turn_limit { IfErr result (λ u. plain u ≡ StreamFault.TurnLimit → RunsOut inlet.old inlet.new) }
{
    read_named(alloc, inlet, &mut Nothing {})
}

/// Reads the rest of a file after its sound, as far as it matters, and returns what the whole file says, which begins
/// with this head.
///
/// Refusals: `FileRefused` if no file that continues like this holds a recording; those of reading.
pub(crate) fn read_rest<R: Read>(
    alloc: Global,
    sound: Sound,
    head: Vec<u8>,
    reader: &mut SoundReader<'_, R>,
) -> Result<Outline, StreamFault>
    requires at_sound { IsHeaderOf head.items sound }
    requires sound { IsSound sound }
    requires whole { sound.interleaving ≡ Interleaving.Bytes → sound.count % 8 ≡ 0 }
    requires reading { IsReading reader.old }
    requires given { IsAfter reader.old (length head.items + sound.size) }
    ensures same { IsSame reader.old reader.new }
    ensures ok { IfOk result (OutlinesRest R.remaining reader.old reader.new sound head.items) }
    ensures named { IfErr result (NamesRest R.remaining reader.old reader.new sound head.items) }
    ensures counts { Counts reader.old reader.new result }
    ensures fault { IfErr result (IsFaultAfter R.remaining reader.old sound head.items) }
{
    let after = read_after_sound(alloc, &sound, &head, reader)?;
    let back = reader.take_ahead(alloc);
    Ok(Outline {
        sound,
        head,
        gap: after.gap,
        back,
        ends: after.ends,
        recording: after.recording,
    })
}

// What was found after a sound.
#[derive(Drop)]
struct AfterSound {
    // How many bytes are between the sound and what was kept.
    gap: u64,
    // Whether the file ends after what was kept.
    ends: bool,
    // The recording, with empty channels.
    recording: Recording,
}

// Reads the rest of a file that begins with this head. Then what is kept after the sound is buffered.
fn read_after_sound<R: Read>(
    alloc: Global,
    sound: &Sound,
    head: &[u8],
    reader: &mut SoundReader<'_, R>,
) -> Result<AfterSound, StreamFault>
    requires at_sound { IsHeaderOf head.now sound.now }
    requires sound { IsSound sound.now }
    requires whole { sound.now.interleaving ≡ Interleaving.Bytes → sound.now.count % 8 ≡ 0 }
    requires reading { IsReading reader.old }
    requires given { IsAfter reader.old (length head.now + sound.now.size) }
    ensures same { IsSame reader.old reader.new }
    ensures ok { IfOk result (BuffersRest R.remaining reader.old reader.new sound.now head.now) }
    ensures named { IfErr result (NamesRest R.remaining reader.old reader.new sound.now head.now) }
    ensures counts { Counts reader.old reader.new result }
    ensures fault { IfErr result (IsFaultAfter R.remaining reader.old sound.now head.now) }
{
    if sound.interleaving.has_blocks() {
        after_blocks(alloc, sound, head, reader)
    } else {
        after_frames(alloc, sound, head, reader)
    }
}

// The same for a DSF file: its tag is kept.
fn after_blocks<R: Read>(
    alloc: Global,
    sound: &Sound,
    head: &[u8],
    reader: &mut SoundReader<'_, R>,
) -> Result<AfterSound, StreamFault>
    requires at_sound { IsHeaderOf head.now sound.now }
    requires interleaving { has_blocks sound.now.interleaving ≡ true }
    requires sound { IsSound sound.now }
    requires reading { IsReading reader.old }
    requires given { IsAfter reader.old (length head.now + sound.now.size) }
    ensures same { IsSame reader.old reader.new }
    ensures ok { IfOk result (BuffersRest R.remaining reader.old reader.new sound.now head.now) }
    ensures named { IfErr result (NamesRest R.remaining reader.old reader.new sound.now head.now) }
    ensures counts { Counts reader.old reader.new result }
    ensures fault { IfErr result (IsFaultAfter R.remaining reader.old sound.now head.now) }
{
    let stop = (head.len() + sound.size) as u64;
    let place = dsf_core::tag_at(head);
    let gap = match read_tag(place, stop, reader) {
        Ok(gap) => gap,
        Err(fault) => {
            let total = reader.inlet.given().saturating_sub(reader.given);
            reader.cause = Cause::Fault(ReadFault::from(dsf_core::pointer_fault(
                place, stop, total,
            )));
            return Err(fault);
        }
    };
    let total = reader.inlet.given() - reader.given;
    let tag = Vec::from_slice(alloc, reader.ahead.as_slice())?;
    let recording = match dsf_core::outline(alloc, head, total, tag) {
        Ok(recording) => recording,
        Err(fault) => match fault {
            DsfFault::Memory => return Err(StreamFault::Memory),
            fault => {
                reader.cause = Cause::Fault(ReadFault::from(fault));
                return Err(StreamFault::FileRefused);
            }
        },
    };
    Ok(AfterSound {
        gap,
        ends: true,
        recording,
    })
}

// The same for a DSDIFF form: all of it is kept.
fn after_frames<R: Read>(
    alloc: Global,
    sound: &Sound,
    head: &[u8],
    reader: &mut SoundReader<'_, R>,
) -> Result<AfterSound, StreamFault>
    requires at_sound { IsHeaderOf head.now sound.now }
    requires interleaving { sound.now.interleaving ≡ Interleaving.Bytes }
    requires sound { IsSound sound.now }
    requires whole { sound.now.count % 8 ≡ 0 }
    requires reading { IsReading reader.old }
    ensures same { IsSame reader.old reader.new }
    ensures ok { IfOk result (BuffersRest R.remaining reader.old reader.new sound.now head.now) }
    ensures named { IfErr result (NamesRest R.remaining reader.old reader.new sound.now head.now) }
    ensures counts { Counts reader.old reader.new result }
    ensures fault { IfErr result (IsFaultAfter R.remaining reader.old sound.now head.now) }
{
    let wanted = dsdiff_core::bytes_after_sound(head);
    reader.read_until(wanted)?;
    let ends = (reader.ahead.len() as u64) < wanted;
    let kept = reader.ahead.len().min(wanted as usize);
    reader.ahead.truncate(kept);
    let recording = match dsdiff_core::outline(alloc, head, reader.ahead.as_slice()) {
        Ok(recording) => recording,
        Err(fault) if is_memory(fault) => return Err(StreamFault::Memory),
        Err(fault) => {
            reader.cause = Cause::Fault(ReadFault::from(fault));
            return Err(StreamFault::FileRefused);
        }
    };
    Ok(AfterSound {
        gap: 0,
        ends,
        recording,
    })
}

// Whether a fault is want of memory.
fn is_memory(fault: DsdiffFault) -> bool
    ensures { result ≡ is_memory fault }
{
    match fault {
        DsdiffFault::Memory => true,
        _ => false,
    }
}

// Reads a DSF file to its end, and keeps its tag, which is at this place, 0 for none. The sound ends at `stop`. Returns
// how many bytes are between the sound and the tag.
fn read_tag<R: Read>(
    place: u64,
    stop: u64,
    reader: &mut SoundReader<'_, R>,
) -> Result<u64, StreamFault>
    requires reading { IsReading reader.old }
    requires given { IsAfter reader.old stop }
    ensures same { IsSame reader.old reader.new }
    ensures ok { IfOk result (BuffersTag R.remaining reader.old reader.new place stop) }
    ensures off { IfErr result (MissesTag R.remaining reader.old reader.new place stop) }
    ensures counts { Counts reader.old reader.new result }
    ensures fault { IfErr result (IsFaultAtTag R.remaining reader.old place stop) }
{
    if place == 0 {
        reader.read_to_end()?;
        reader.ahead.clear();
        return Ok(reader.inlet.given() - reader.given - stop);
    }
    if place < stop {
        return Err(StreamFault::FileRefused);
    }
    let gap = place - stop;
    if !reader.pass(gap)? {
        return Err(StreamFault::FileRefused);
    }
    reader.read_all()?;
    Ok(gap)
}
