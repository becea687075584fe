//! A whole file.

ghost use Rattle.std.specs.Prelude.{◌≡◌, ◌≤◌, ◌+◌, List, ℕ, IfOk, Ok, Some, length};
ghost use Rattle.dsd_bits.specs.Contents.{Content};
ghost use Rattle.dsdiff_core.specs.Files.{IsDsdiff};
ghost use Rattle.dsdiff_core.specs.Headers.{sound_head_place};
ghost use Rattle.dsdiff_core.specs.Held.{IsParted};
ghost use Rattle.dsdiff_core.specs.Reading.{recording_of};
ghost use Rattle.dsdiff_core.specs.Steps.{Gives};

use crate::describing::describe_held;
use crate::fault::DsdiffFault;
use crate::header::find_sound;
use crate::held::{Held, whole};
use crate::sound::channels_of;
use chunk_core::{Order, u64_at};
use dsd_bits::Recording;
use std::alloc::Global;

/// The recording that a DSDIFF 1.5 file holds: its rate in hertz, a list of bits for each channel, the channels' IDs,
/// the marks of every `DIIN`, and the chunks that are kept as they are. These are those of the sound property, then
/// those of every `DIIN`, then those of the form, each in the order of the file. The layout is the usual one for the
/// number of channels, and the tag is empty.
///
/// Refusals; the first that applies, in this order:
/// 1. `NotDsdiff`: fewer than 16 bytes, no `FRM8`, or a form of another type than `DSD `.
/// 2. `FormCut`: the form's size is below 4, or the form extends past the file's end by more than one byte.
/// 3. `Chunk`: the form is not a list of chunks.
/// 4. `NoVersion`, `BadVersion`: the first chunk is not `FVER` with 4 bytes or more; its first byte is not 1.
/// 5. `Twice`: the first chunk that is a second `FVER`, sound property or `DSD `.
/// 6. `NoProperty`: no `PROP` whose data begin with `SND `.
/// 7. `Chunk`, `Twice`: what follows that in the property is not a list of chunks; a second `FS  `, `CHNL` or `CMPR`.
/// 8. `NoRate`, `NoChannels`, `NoCompression`: one of these is missing or too short.
/// 9. `Compressed`: the compression is another than `DSD `. Its name is not read.
/// 10. `BadRate`, `BadChannelNumber`: not 1,000,000 to 50,000,000 hertz; not 1 to 6 channels.
/// 11. `NoSound`, `SoundBeforeProperty`: no `DSD `; it comes before the sound property.
/// 12. `PartFrame`, `TooLong`: the sound is not a whole number of frames of one byte a channel; it has more than `2^36`
///   bits a channel.
/// 13. `Chunk`, `BadMark`, for each `DIIN` in turn: it is not a list of chunks; a `MARK` has fewer than 22 bytes, or
///   fewer than 22 and the size of its text.
///
/// `Memory` may come in place of any of them.
pub fn read(alloc: Global, file: &[u8]) -> Result<Recording, DsdiffFault>
    // What is read is what the file holds.
    ensures found { IfOk result (λ r. IsDsdiff file.now r) }
    // What a file holds is read, unless memory runs out.
    ensures only { (r : Content) → IsDsdiff file.now r → Gives (λ r. r) result (Ok r) }
    // The fault is the first one.
    ensures exact { Gives (λ r. r) result (recording_of file.now) }
{
    read_in_order(alloc, file)
}

// The same, in the order of refusals alone.
fn read_in_order(alloc: Global, file: &[u8]) -> Result<Recording, DsdiffFault>
    ensures { Gives (λ r. r) result (recording_of file.now) }
{
    let (held, sound) = part(file);
    let description = describe_held(alloc, held)?;
    let number = description.ids().len();
    let channels = channels_of(alloc, sound, number)?;
    Ok(Recording::new(description, channels))
}

// The file around its sound, and the bytes of that. If no sound is found, the whole file is kept, and it is refused.
fn part(file: &[u8]) -> (Held, &[u8])
    ensures { IsParted file.now result.0 result.1.now }
{
    match find_sound(file) {
        Ok(Some(at)) => part_at(file, at),
        Ok(None) => (whole(file), &[]),
        Err(_) => (whole(file), &[]),
    }
}

// The same, by the place of the header of the sound.
fn part_at(file: &[u8], at: usize) -> (Held, &[u8])
    requires located { sound_head_place file.now ≡ Ok (Some at) }
    requires inside { (16 ≤ at) × (at + 12 ≤ length file.now) }
    ensures { IsParted file.now result.0 result.1.now }
{
    let size = u64_at(Order::Big, file, at + 4);
    if ((file.len() - at - 12) as u64) < size {
        return (whole(file), &[]);
    }
    let hole = size as usize;
    let (prefix, rest) = file.split_at(at + 12);
    let (sound, back) = rest.split_at(hole);
    (Held { prefix, hole, back }, sound)
}
