//! What the first bytes of DSDIFF 1.5 and DSF 1.01 files state about their sound, which ends close such files, and the
//! mark of a title.

use crate::fixtures::compared::equal;
use crate::fixtures::files::{DSF_HEADER, FILE, file_of};
use dsd_bits::{BitOrder, Interleaving, Mark, Sound, SoundAt};
use dsdiff_core::{closes, mark_at, place, sound_at};
use std::alloc::{AllocError, Global};
use std::test::Fail;

#[test]
fn finds_the_sound_of_a_form(rt: HostRuntime) -> Result<(), Fail> {
    let sound = Sound {
        rate: 2_822_400,
        channels: 1,
        count: 8,
        start: 126,
        size: 1,
        interleaving: Interleaving::Bytes,
    };
    assert!(rt; sound_at(rt.alloc(), &FILE[..125])? == SoundAt::More);
    assert!(rt; sound_at(rt.alloc(), &FILE[..126])? == SoundAt::Found(sound));
    Ok(())
}

/// The number of channels that a header states, and whether these bytes close the file with it. None if the header
/// doesn't lead up to a sound.
pub(crate) fn closes_after(
    alloc: Global,
    prefix: &[u8],
    back: &[u8],
) -> Result<Option<(usize, bool)>, AllocError> {
    match sound_at(alloc, prefix)? {
        SoundAt::Found(sound) if sound.start == prefix.len() => {
            Ok(Some((sound.channels, closes(alloc, prefix, back)?)))
        }
        _ => Ok(None),
    }
}

// What may follow the sound of `FILE`: its pad, nothing, and bytes after the form.
const ENDS: [&[u8]; 3] = [&[0], &[], &[0, 1, 2, 3, 4, 5]];

#[test]
fn closes_after_the_sound(rt: HostRuntime) -> Result<(), Fail> {
    for back in &ENDS {
        let closed = closes_after(rt.alloc(), &FILE[..126], back)?;
        assert!(rt; closed == Some((1, true)), "{} bytes", back.len());
    }
    Ok(())
}

// Whether a file of so many channels of a byte is found, and closed by what follows its sound. The header of one
// channel has 126 bytes, and each other channel has an ID of four bytes.
fn is_closed(alloc: Global, number: usize) -> Result<bool, AllocError> {
    let file = file_of(alloc, number, &[0x0f; 6][..number.min(6)])?;
    let (prefix, rest) = file.split_at((122 + 4 * number.min(6)).min(file.len()));
    let back = rest.get(number..).unwrap_or(&[]);
    Ok(closes_after(alloc, prefix, back)? == Some((number, true)))
}

#[test]
fn closes_each_number_of_channels(rt: HostRuntime) -> Result<(), Fail> {
    for number in 1..7 {
        assert!(rt; is_closed(rt.alloc(), number)?, "{number} channels");
    }
    Ok(())
}

const ONE_BIT: Sound = Sound {
    rate: 2_822_400,
    channels: 1,
    count: 1,
    start: 92,
    size: 4096,
    interleaving: Interleaving::Blocks(BitOrder::LeastFirst),
};

// Whether a DSF file of `total` bytes is closed. None if its header doesn't lead up to a sound.
fn closes_at(total: u64) -> Option<bool> {
    match dsf_core::sound_at(&DSF_HEADER) {
        SoundAt::Found(sound) if sound.start == 92 && 92 <= total => {
            Some(dsf_core::closes(&DSF_HEADER, total))
        }
        _ => None,
    }
}

#[test]
fn finds_the_sound_of_blocks(rt: HostRuntime) {
    assert!(rt; dsf_core::sound_at(&DSF_HEADER[..91]) == SoundAt::More);
    assert!(rt; dsf_core::sound_at(&DSF_HEADER) == SoundAt::Found(ONE_BIT));
    assert!(rt; (closes_at(4188), closes_at(4187)) == (Some(true), Some(false)));
}

// Whether a mark has one hour, one minute, one second and five samples, is of the kind 0, and has this text.
fn is_mark(mark: &Mark, text: &[u8]) -> bool {
    (mark.hours, mark.minutes, mark.seconds) == (1, 1, 1)
        && (mark.samples, mark.offset) == (5, 0)
        && (mark.kind, mark.channel, mark.flags) == (0, 0, 0)
        && equal(&mark.text, text)
}

// Whether the mark of a title has the right fields, and the place that it marks.
fn title_mark(alloc: Global) -> Result<(bool, i64), AllocError> {
    let mark = mark_at(alloc, 10332806405, 2822400, b"x")?;
    Ok((is_mark(&mark, b"x"), place(&mark, 2822400)))
}

#[test]
fn marks_the_start_of_a_title(rt: HostRuntime) -> Result<(), Fail> {
    assert!(rt; title_mark(rt.alloc())? == (true, 10332806405));
    Ok(())
}
