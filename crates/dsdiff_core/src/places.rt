//! Where marks are.

ghost use Rattle.std.specs.Prelude.{◌≡◌, ◌≤◌, IfOk};
ghost use Rattle.dsd_bits.specs.Contents.{mark_content};
ghost use Rattle.dsd_bits.specs.Limits.{IsRate, most_bits};
ghost use Rattle.dsdiff_core.specs.MarkPlaces.{IsAt, place_of, title_mark};

use dsd_bits::Mark;
use std::alloc::{AllocError, Global};

// The type of a mark at the start of a track.
const TRACK_START: u16 = 0;

/// The place of a mark of DSDIFF 1.5 at a rate in hertz, in samples from the start, each one bit of each channel: its
/// hours, minutes and seconds as samples, plus its own samples and its offset. A mark whose offset leads to before the
/// start has a place below zero.
///
/// Nothing is checked: 70 minutes count as 70 minutes. It takes no memory.
pub fn place(mark: &Mark, rate: u32) -> i64
    ensures { result ≡ place_of (mark_content mark.now) rate }
{
    let minutes = mark.hours as u64 * 60 + mark.minutes as u64;
    let seconds = minutes * 60 + mark.seconds as u64;
    let samples = seconds * rate as u64 + mark.samples as u64;
    samples as i64 + mark.offset as i64
}

/// The mark of a title that starts at a place: `pos` samples from the start, at most `2^36`, at a rate of 1,000,000 to
/// 50,000,000 hertz. It is a track's start (DSDIFF 1.5, mark type 0) for all channels, with whole hours, minutes below
/// 60, seconds below 60 and the remaining samples, without offset and flags. The text is copied. [`place`] returns
/// `pos` for it.
///
/// The only refusal is out of memory.
pub fn mark_at(alloc: Global, pos: usize, rate: u32, text: &[u8]) -> Result<Mark, AllocError>
    requires pos { pos ≤ most_bits }
    requires rate { IsRate rate }
    ensures made { IfOk result (λ mark. mark_content mark ≡ title_mark pos rate text.now) }
    ensures place { IfOk result (λ mark. IsAt (mark_content mark) rate pos) }
{
    let rate = rate as usize;
    let seconds = pos / rate;
    let text = Vec::from_slice(alloc, text)?;
    Ok(Mark {
        hours: (seconds / 3600) as u16,
        minutes: (seconds / 60 % 60) as u8,
        seconds: (seconds % 60) as u8,
        samples: (pos % rate) as u32,
        offset: 0,
        kind: TRACK_START,
        channel: 0,
        flags: 0,
        text,
    })
}
