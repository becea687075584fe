//! A whole file of DoP samples.

ghost use Rattle.std.specs.Prelude.{◌≡◌, ◌<◌, ◌≤◌, ◌+◌, ◌*◌, ◌^◌, IfOk, Ok, length};
ghost use Rattle.dsd_bits.specs.Limits.{most_bits};
ghost use Rattle.dsd_bits.specs.Contents.{Content};
ghost use Rattle.dsf_core.specs.Fields.{dsf_ids};
ghost use Rattle.dop_core.specs.Files.{IsDopOf};
ghost use Rattle.dop_core.specs.Fields as fields;
ghost use Rattle.dop_core.specs.Reading.{count_by, count_in, described_by, fills, recording_of};
ghost use Rattle.dop_core.specs.Steps.{Gives};

use crate::channels::dop_channels;
use crate::chunks::{HEAD_SIZE, chunk_from, long_at, next_of};
use crate::fault::DopFault;
use crate::head::{DopHead, read_head};
use crate::markers::check_markers;
use chunk_core::{Order, u64_at};
use dsd_bits::{Description, Metadata, Recording, usual_layout};
use std::alloc::{AllocError, Global};

/// The recording whose bits a WAVE file of DoP 1.1 samples has. Its rate is sixteen times that of the frames, and its
/// channels are those of a frame. If a chunk `DoPn` follows the data, it says how many bits each channel has; without one
/// all bits of the frames count. The IDs and the layout are those of a DSF 1.01 file that names no loudspeakers.
///
/// The format chunk may have its first form or its second (`WAVE_FORMAT_EXTENSIBLE`). Other chunks are passed over, also
/// bytes after the last of them. The size of the whole is ignored.
///
/// Refusals; the first that applies, in this order:
/// 1. `NotWave`: fewer than 12 bytes, no `RIFF`, or no `WAVE`.
/// 2. `NoData`: the file ends before a `data` chunk.
/// 3. `NoFormat`: no `fmt ` before it, or fewer than 16 bytes in that.
/// 4. `NotPcm24`: the samples aren't integers of 24 bits, all of them valid, in frames of three bytes a channel.
/// 5. `BadChannelNumber`, `BadRate`: not 1 to 6 channels; not 62,500 to 3,125,000 frames a second.
/// 6. `NoSize`: the data chunk has the size of a stream, 0xffffffff, or 0 if the file goes on.
/// 7. `DataCut`, `PartFrame`: the file ends inside the data chunk; this isn't whole frames.
/// 8. `BadMarker`: a marker isn't that of its frame, 0x05 and 0xFA in turn, beginning with either.
/// 9. `CountCut`, `BadCount`: the chunk `DoPn` is cut short, or its number of bits doesn't end in the last frame.
///
/// `Memory` may come in place of any of them.
pub fn read(alloc: Global, file: &[u8]) -> Result<Recording, DopFault>
    // What is read is what the file has.
    ensures found { IfOk result (IsDopOf file.now) }
    // What a file has is read, unless memory runs out.
    ensures only { (r : Content) → IsDopOf file.now r → Gives (λ r. r) result (Ok r) }
    // The fault is the first one.
    ensures exact { Gives (λ r. r) result (recording_of file.now) }
{
    read_in_order(alloc, file)
}

// The same, in the order of refusals alone.
#[tactic(auto, unfolding(crate::specs::Reading::recording_of))]
fn read_in_order(alloc: Global, file: &[u8]) -> Result<Recording, DopFault>
    ensures { Gives (λ r. r) result (recording_of file.now) }
{
    let head = read_head(file)?;
    let (_, sound) = file.split_at(head.start);
    check_markers(&head, sound)?;
    let count = read_count(file, &head)?;
    let channels = dop_channels(alloc, sound, head.channels, head.frames, count)?;
    let description = describe(alloc, &head, count)?;
    Ok(Recording::new(description, channels))
}

// How many bits each channel has.
fn read_count(file: &[u8], head: &DopHead) -> Result<usize, DopFault>
    requires start { 8 ≤ head.now.start }
    requires inside { head.now.start ≤ length file.now }
    requires few { head.now.frames ≤ 2 ^ 32 }
    ensures exact { result ≡ count_in file.now head.now }
    ensures fills { IfOk result (λ n. n ≤ 16 * head.now.frames) }
{
    count_from(file, next_of(file, head.start - HEAD_SIZE), head.frames)
}

/// How many bits each channel has: what the first chunk of its kind from a place on says.
#[tactic(auto, unfolding(crate::specs::Reading::count_by))]
pub(crate) fn count_from(file: &[u8], from: usize, frames: usize) -> Result<usize, DopFault>
    requires few { frames ≤ 2 ^ 32 }
    ensures exact { result ≡ count_by file.now frames (fields.chunk_from fields.COUNT file.now from) }
    ensures fills { IfOk result (λ n. (n ≤ 16 * frames) × (16 * frames < n + 16)) }
{
    let Some(at) = chunk_from(file, from, *b"DoPn") else {
        return Ok(16 * frames);
    };
    if long_at(file, at + 4) < 8 || file.len() < at + 16 {
        return Err(DopFault::CountCut);
    }
    let count = u64_at(Order::Little, file, at + HEAD_SIZE);
    if 16 * (frames as u64) < count || count + 16 <= 16 * (frames as u64) {
        return Err(DopFault::BadCount(count));
    }
    Ok(count as usize)
}

/// What a file says of a recording of so many bits a channel.
pub(crate) fn describe(
    alloc: Global,
    head: &DopHead,
    count: usize,
) -> Result<Description, AllocError>
    requires rate { (1000000 ≤ head.now.rate) × (head.now.rate ≤ 50000000) }
    requires channels { (1 ≤ head.now.channels) × (head.now.channels ≤ 6) }
    requires in_limit { count ≤ most_bits }
    ensures { IfOk result (λ made. made ≡ described_by head.now count) }
{
    let ids = channel_ids(alloc, head.channels)?;
    let metadata = Metadata {
        marks: Vec::new(alloc),
        others: Vec::new(alloc),
        tag: Vec::new(alloc),
    };
    let layout = usual_layout(head.channels as u32);
    Ok(Description::new(head.rate, count, ids, layout, metadata))
}

// The IDs of channels whose loudspeakers aren't named, as those of a DSF 1.01 file.
fn channel_ids(alloc: Global, number: usize) -> Result<Vec<[u8; 4]>, AllocError>
    requires { number ≤ 6 }
    ensures { IfOk result (λ ids. ids.items ≡ dsf_ids number) }
{
    let mut ids = Vec::new(alloc);
    if number == 2 {
        ids.push(*b"SLFT")?;
        ids.push(*b"SRGT")?;
        return Ok(ids);
    }
    for c in 0..number as u8 {
        ids.push([b'C', b'0', b'0', b'0' + c])?;
    }
    Ok(ids)
}
