//! A whole file.

ghost use Rattle.std.specs.Prelude.{◌≡◌, ◌≤◌, ◌+◌, List, ℕ, IfOk, Ok, length};
ghost use Rattle.dsd_bits.specs.declared.blocks.BitOrder.{BitOrder};
ghost use Rattle.dsd_bits.specs.Blocks.{blocks_size};
ghost use Rattle.dsd_bits.specs.Channels.{IsLevel, count_of};
ghost use Rattle.dsd_bits.specs.Contents.{Content};
ghost use Rattle.dsd_bits.specs.Sounds.{IsSound};
ghost use Rattle.dsf_core.specs.Fields.{tag_from};
ghost use Rattle.dsf_core.specs.Files.{IsDsf};
ghost use Rattle.dsf_core.specs.Reading.{channels_by, recording_of};
ghost use Rattle.dsf_core.specs.Steps.{Gives};

use crate::describing::description_of;
use crate::fault::DsfFault;
use crate::header::{Header, check_ends, read_header};
use dsd_bits::{BitOrder, Bits, LaceFault, Recording, unlace_blocks};
use std::alloc::{AllocError, Global};

/// The recording that a DSF 1.01 file holds, and the order of the bits in its bytes. It has the rate in hertz, a list
/// of bits for each channel, and the tag, which is everything from the pointer to the file's end. The IDs are `SLFT`
/// and `SRGT` for two channels, else `C000`, `C001` and so on. The layout is the channel type if it fits the channel
/// number, else the usual layout for that number. There are no marks and no kept chunks.
///
/// Refusals; the first that applies, in this order:
/// 1. `NotDsf`: fewer than 4 bytes, or no `DSD `.
/// 2. `HeadCut`: fewer than 80 bytes.
/// 3. `BadFormat`: the size of the first chunk is not 28, `fmt ` does not follow it, or `fmt ` has fewer than 52 bytes.
/// 4. `HeadCut`: the file ends before the 12 bytes after the format chunk.
/// 5. `BadFormat`: `data` does not come there, or has fewer than 12 bytes, or the format is not 0.
/// 6. `BadVersion`, `BadChannelNumber`, `BadRate`, `BadBits`, `BadBlock`, `TooLong`: not version 1; not
///    1 to 6 channels; not 1,000,000 to 50,000,000 hertz; neither 1 nor 8 bits per sample; blocks of
///    another size than 4096; more than `2^36` bits a channel.
/// 7. `DataCut`: the blocks that the channels need are not wholly in the data chunk, or not in the file.
/// 8. `BadPointer`: the pointer is not 0, and leads to a place before the end of these blocks or past the file's end.
///
/// `Memory` may come in place of any of them.
pub fn read(alloc: Global, file: &[u8]) -> Result<(Recording, BitOrder), DsfFault>
    // What is read is what the file holds.
    ensures found { IfOk result (λ x. IsDsf file.now x.0 x.1) }
    // What a file holds is read, unless memory runs out.
    ensures only { (r : Content) (order : BitOrder) → IsDsf file.now r order → Gives (λ x. x) result (Ok (r, order)) }
    // The fault is the first one.
    ensures exact { Gives (λ x. x) result (recording_of file.now) }
{
    read_in_order(alloc, file)
}

// The same, in the order of refusals alone.
#[tactic(auto, unfolding(crate::specs::Reading::recording_of))]
fn read_in_order(alloc: Global, file: &[u8]) -> Result<(Recording, BitOrder), DsfFault>
    ensures { Gives (λ x. x) result (recording_of file.now) }
{
    let header = read_header(file)?;
    check_ends(&header, file.len() as u64)?;
    let tag = Vec::from_slice(alloc, tag_in(file, header.tag_at))?;
    let description = description_of(alloc, &header, tag)?;
    let (_, sound) = file.split_at(header.sound.start);
    let channels = channels_in(alloc, &header, sound)?;
    Ok((Recording::new(description, channels), header.order))
}

// The bytes from a place on; none for 0.
fn tag_in(file: &[u8], place: u64) -> &[u8]
    requires { place ≤ length file.now }
    ensures { result.now ≡ tag_from place file.now }
{
    if place == 0 {
        let (_, none) = file.split_at(file.len());
        return none;
    }
    let (_, tag) = file.split_at(place as usize);
    tag
}

// The channels in the bytes from the sound on, which hold it whole.
fn channels_in(alloc: Global, header: &Header, bytes: &[u8]) -> Result<Vec<Bits>, AllocError>
    requires in_limits { IsSound header.now.sound }
    requires enough { blocks_size header.now.sound.channels header.now.sound.count ≤ length bytes.now }
    ensures bits { IfOk result (λ made. made.items ≡ channels_by header.now bytes.now) }
    ensures shape { IfOk result (λ made. IsLevel made.items × (count_of made.items ≡ header.now.sound.count)) }
{
    let sound = header.sound;
    match unlace_blocks(alloc, bytes, sound.channels, sound.count, header.order) {
        Ok(channels) => Ok(channels),
        Err(LaceFault::Memory) => Err(AllocError),
        Err(LaceFault::PartFrame | LaceFault::TooFewBytes) => unreachable!(),
    }
}
