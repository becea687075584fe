//! What a file holds besides its bits, if its sound is not in memory, and at which length the file is whole.

ghost use Rattle.std.specs.Prelude.{◌≡◌, ◌≤◌, ◌-◌, ◌++◌, ◌↔◌, IfOk, length, replicate, true};
ghost use Rattle.dsd_bits.specs.declared.sound.Sound.{Sound};
ghost use Rattle.dsd_bits.specs.declared.sound.SoundAt.TheVariants.{Found};
ghost use Rattle.dsd_bits.specs.Sounds.{IsSound};
ghost use Rattle.dsf_core.specs.Fields.{pointer};
ghost use Rattle.dsf_core.specs.Headers.{Describes, DescribesSound, EndsAtSound, IsAccepted, IsTagPlace, sound_at};
ghost use Rattle.dsf_core.specs.Reading.{described_by};

use crate::fault::DsfFault;
use crate::fields::{POINTER_AT, long_at};
use crate::format::{channel_ids, layout};
use crate::header::{Header, check_ends, read_header};
use dsd_bits::{Description, Metadata};
use std::alloc::{AllocError, Global};

/// The place of the tag in a file that begins with `prefix`, which ends where the sound starts. The tag is everything
/// from there to the file's end; 0 means that there is none. In an accepted file it comes after the blocks that the
/// channels need.
///
/// It takes no memory.
pub fn tag_at(prefix: &[u8]) -> u64
    requires at_sound { EndsAtSound prefix.now }
    ensures place { IsTagPlace prefix.now result }
    ensures stated { result ≡ pointer prefix.now }
{
    long_at(prefix, POINTER_AT)
}

/// Whether a file of `total` bytes that begins with `prefix` is accepted. `prefix` ends where the sound starts, and the
/// rest is taken as zeros. The blocks that the channels need must lie in the file, and the pointer to the tag must be 0
/// or lead to a place after them in the file. Which bytes follow `prefix` does not matter
/// ([`crate::bytes_of_sound_do_not_matter`]).
///
/// It takes no memory.
pub fn closes(prefix: &[u8], total: u64) -> bool
    requires at_sound { EndsAtSound prefix.now }
    requires not_cut { length prefix.now ≤ total }
    ensures { (result ≡ true) ↔ IsAccepted (prefix.now ++ replicate (total - length prefix.now) 0) }
{
    match read_header(prefix) {
        Ok(header) => check_ends(&header, total).is_ok(),
        Err(_) => false,
    }
}

/// The description of the recording that a file holds, without reading its sound. The file has `total` bytes, begins
/// with `prefix`, which ends where the sound starts, and has this tag ([`tag_at`]). Its other bytes do not matter: the
/// description and the channels in its sound bytes make the recording that [`crate::read`] returns.
///
/// Refusals, in this order, whatever the tag: `DataCut`, `BadPointer`. `Memory` may come in place of either.
pub fn describe(
    alloc: Global,
    prefix: &[u8],
    total: u64,
    tag: Vec<u8>,
) -> Result<Description, DsfFault>
    requires at_sound { EndsAtSound prefix.now }
    ensures stated { Describes prefix.now total tag.items result }
    ensures sound { IfOk result (λ made. (s : Sound) → sound_at prefix.now ≡ Found s → DescribesSound s made) }
{
    let header = read_header(prefix)?;
    check_ends(&header, total)?;
    Ok(description_of(alloc, &header, tag)?)
}

/// The description of a file with this header and this tag.
pub(crate) fn description_of(
    alloc: Global,
    header: &Header,
    tag: Vec<u8>,
) -> Result<Description, AllocError>
    requires in_limits { IsSound header.now.sound }
    ensures { IfOk result (λ made. made ≡ described_by header.now tag.items) }
{
    let sound = header.sound;
    let ids = channel_ids(alloc, sound.channels)?;
    let layout = layout(header.kind, sound.channels as u32);
    let metadata = Metadata {
        marks: Vec::new(alloc),
        others: Vec::new(alloc),
        tag,
    };
    Ok(Description::new(sound.rate, sound.count, ids, layout, metadata))
}
