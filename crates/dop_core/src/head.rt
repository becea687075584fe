//! What the header of a WAVE file of DoP samples says.

ghost use Rattle.std.specs.Prelude.{◌≡◌, ◌≤◌, ◌+◌, ◌*◌, ◌^◌, IfOk, length};
ghost use Rattle.dop_core.specs.Fields as fields;
ghost use Rattle.dop_core.specs.Reading.{checked, data_of, format_of, head_at, head_of, sized};

use crate::chunks::{FIRST_AT, HEAD_SIZE, chunk_from, has_id, is_wave, long_at, next_of, short_at};
use crate::fault::DopFault;
use dsd_bits::MOST_CHANNELS;

// The tag of a format chunk in its second form (WAVE_FORMAT_EXTENSIBLE).
const EXTENSIBLE: u16 = 0xfffe;

/// What the header of a file says about its samples.
#[derive(Clone, Copy)]
pub(crate) struct DopHead {
    /// The rate of the recording: sixteen times that of the frames.
    pub rate: u32,
    /// How many channels there are.
    pub channels: usize,
    /// Where the first sample is.
    pub start: usize,
    /// How many frames there are.
    pub frames: usize,
}

/// What the header of a file says, whose samples are all there.
#[tactic(auto, unfolding(crate::specs::Reading::head_of))]
pub(crate) fn read_head(file: &[u8]) -> Result<DopHead, DopFault>
    ensures exact { result ≡ head_of file.now }
    ensures rate { IfOk result (λ h. (1000000 ≤ h.rate) × (h.rate ≤ 50000000)) }
    ensures channels { IfOk result (λ h. (1 ≤ h.channels) × (h.channels ≤ 6)) }
    ensures inside { IfOk result (λ h. h.start + 3 * (h.frames * h.channels) ≤ length file.now) }
    ensures few { IfOk result (λ h. h.frames ≤ 2 ^ 32) }
    ensures start { IfOk result (λ h. 8 ≤ h.start) }
{
    let data = find_data(file)?;
    let format = find_format(file, data)?;
    check_format(file, format)?;
    check_data(file, data, format)
}

// The place of the data chunk.
#[tactic(auto, unfolding(crate::specs::Reading::data_of))]
fn find_data(file: &[u8]) -> Result<usize, DopFault>
    ensures exact { result ≡ data_of file.now }
    ensures inside { IfOk result (λ d. d + 8 ≤ length file.now) }
{
    if !is_wave(file) {
        return Err(DopFault::NotWave);
    }
    match chunk_from(file, FIRST_AT, *b"data") {
        Some(data) => Ok(data),
        None => Err(DopFault::NoData),
    }
}

/// The place of the format chunk, before the data chunk.
#[tactic(auto, unfolding(crate::specs::Reading::format_of))]
pub(crate) fn find_format(file: &[u8], place: usize) -> Result<usize, DopFault>
    requires { place + 8 ≤ length file.now }
    ensures exact { result ≡ format_of file.now place }
    ensures long { IfOk result (λ f. 16 ≤ fields.size_at file.now f) }
    ensures inside { IfOk result (λ f. f + 8 + fields.size_at file.now f ≤ length file.now) }
{
    let Some(format) = chunk_from(file, FIRST_AT, *b"fmt ") else {
        return Err(DopFault::NoFormat);
    };
    if place < next_of(file, format) || long_at(file, format + 4) < 16 {
        return Err(DopFault::NoFormat);
    }
    Ok(format)
}

/// Whether the format chunk at a place is within the limits.
#[tactic(auto, unfolding(crate::specs::Reading::checked))]
pub(crate) fn check_format(file: &[u8], format: usize) -> Result<usize, DopFault>
    requires long { 16 ≤ fields.size_at file.now format }
    requires inside { format + 8 + fields.size_at file.now format ≤ length file.now }
    ensures exact { result ≡ checked file.now format }
    ensures same { IfOk result (λ f. f ≡ format) }
    ensures channels { IfOk result (λ f. (1 ≤ fields.channel_number file.now f) × (fields.channel_number file.now f ≤ 6)) }
    ensures rate { IfOk result (λ f. (62500 ≤ fields.frame_rate file.now f) × (fields.frame_rate file.now f ≤ 3125000)) }
{
    if !is_pcm_24(file, format) {
        return Err(DopFault::NotPcm24);
    }
    let channels = short_at(file, format + 10);
    if channels < 1 || MOST_CHANNELS < channels as usize {
        return Err(DopFault::BadChannelNumber(channels));
    }
    let rate = long_at(file, format + 12);
    if rate < 62_500 || 3_125_000 < rate {
        return Err(DopFault::BadRate(rate));
    }
    Ok(format)
}

// Whether the format chunk at a place says that the samples are integers of 24 bits.
#[tactic(auto, unfolding(crate::specs::Fields::is_pcm_24))]
fn is_pcm_24(file: &[u8], format: usize) -> bool
    requires long { 16 ≤ fields.size_at file.now format }
    requires inside { format + 8 + fields.size_at file.now format ≤ length file.now }
    ensures { result ≡ fields.is_pcm_24 file.now format }
{
    let channels = short_at(file, format + 10);
    let frame_size = short_at(file, format + 20);
    short_at(file, format + 22) == 24
        && u32::from(frame_size) == 3 * u32::from(channels)
        && has_integers(file, format)
}

// Whether the format chunk at a place says that the samples are integers.
#[tactic(auto, unfolding(crate::specs::Fields::has_integers))]
fn has_integers(file: &[u8], format: usize) -> bool
    requires long { 16 ≤ fields.size_at file.now format }
    requires inside { format + 8 + fields.size_at file.now format ≤ length file.now }
    ensures { result ≡ fields.has_integers file.now format }
{
    let tag = short_at(file, format + 8);
    tag == 1
        || (tag == EXTENSIBLE
            && long_at(file, format + 4) >= 40
            && short_at(file, format + 26) == 24
            && is_integer(file, format))
}

// Whether the second form of the format chunk has the subformat of integer samples.
#[tactic(auto, unfolding(crate::specs::Fields::is_integer))]
fn is_integer(file: &[u8], format: usize) -> bool
    requires inside { format + 48 ≤ length file.now }
    ensures { result ≡ fields.is_integer file.now format }
{
    has_id(file, format + 32, [1, 0, 0, 0])
        && has_id(file, format + 36, [0, 0, 16, 0])
        && has_id(file, format + 40, [128, 0, 0, 170])
        && has_id(file, format + 44, [0, 56, 155, 113])
}

// What a file says if its data chunk is whole frames that are all there.
#[tactic(auto, unfolding(crate::specs::Reading::sized))]
fn check_data(file: &[u8], place: usize, format: usize) -> Result<DopHead, DopFault>
    requires sound { place + 8 ≤ length file.now }
    requires format { format + 24 ≤ length file.now }
    requires channels { (1 ≤ fields.channel_number file.now format) × (fields.channel_number file.now format ≤ 6) }
    requires rate { fields.frame_rate file.now format ≤ 3125000 }
    ensures exact { result ≡ sized file.now place format }
    ensures head { IfOk result (λ h. h ≡ head_at file.now place format) }
    ensures inside { IfOk result (λ h. h.start + 3 * (h.frames * h.channels) ≤ length file.now) }
    ensures few { IfOk result (λ h. h.frames ≤ 2 ^ 32) }
{
    let size = long_at(file, place + 4);
    let start = place + HEAD_SIZE;
    let there = (file.len() - start) as u64;
    if size == u32::MAX || (size == 0 && there > 0) {
        return Err(DopFault::NoSize(size));
    }
    if there < u64::from(size) {
        return Err(DopFault::DataCut { size, there });
    }
    let channels = usize::from(short_at(file, format + 10));
    if size as usize % (3 * channels) != 0 {
        return Err(DopFault::PartFrame);
    }
    Ok(DopHead {
        rate: 16 * long_at(file, format + 12),
        channels,
        start,
        frames: size as usize / (3 * channels),
    })
}
