//! Numbers as bytes, highest byte first.

ghost use Rattle.std.specs.Prelude.{◌≡◌, ◌≢◌, ◌*◌, ◌≤◌, length, IfOk, MatchOption};
ghost use Rattle.std.specs.Int.{w32, w64, to_be_bytes};
ghost use Rattle.cert_core.specs.Spelling.{row_text, version_number};
ghost use Rattle.cert_core.specs.Text.{FindsVersion, entry_start, cert_head};

use crate::version::Version;
use std::alloc::{AllocError, Global};

// The number of a version.
fn number_of(version: Version) -> u16
    ensures { result ≡ version_number version }
{
    match version {
        Version::One => 1,
        Version::Two => 2,
    }
}

/// The header of a certificate.
pub(crate) fn head_bytes(version: Version, weights: usize, entries: u32) -> [u8; 12]
    requires { weights ≤ 12 }
    ensures { result ≡ cert_head version weights entries }
{
    let version = number_of(version).to_be_bytes();
    let weights = (weights as u16).to_be_bytes();
    let entries = entries.to_be_bytes();
    [
        b'D', b'S', b'P', b'C', version[0], version[1], weights[0], weights[1], entries[0],
        entries[1], entries[2], entries[3],
    ]
}

/// The version whose header these twelve bytes are, if there is one.
pub(crate) fn version_in(bytes: &[u8; 12], weights: usize, entries: u32) -> Option<Version>
    requires { weights ≤ 12 }
    ensures { FindsVersion weights entries bytes.now result }
{
    if *bytes == head_bytes(Version::One, weights, entries) {
        return Some(Version::One);
    }
    if *bytes == head_bytes(Version::Two, weights, entries) {
        return Some(Version::Two);
    }
    None
}

/// The start of an entry.
pub(crate) fn start_bytes(cue: u16, channel: u16, length: u16) -> [u8; 6]
    ensures { result ≡ entry_start cue channel length }
{
    let cue = cue.to_be_bytes();
    let channel = channel.to_be_bytes();
    let length = length.to_be_bytes();
    [cue[0], cue[1], channel[0], channel[1], length[0], length[1]]
}

/// The cue, the channel and the bridge's length in the start of an entry.
pub(crate) fn start_numbers(bytes: [u8; 6]) -> (u16, u16, u16)
    ensures { bytes ≡ entry_start result.0 result.1 result.2 }
{
    (
        u16::from_be_bytes([bytes[0], bytes[1]]),
        u16::from_be_bytes([bytes[2], bytes[3]]),
        u16::from_be_bytes([bytes[4], bytes[5]]),
    )
}

// The number in four bytes.
fn half_in(bytes: [u8; 4]) -> u32
    ensures { bytes ≡ to_be_bytes w32 result }
{
    u32::from_be_bytes([bytes[0], bytes[1], bytes[2], bytes[3]])
}

/// The number in eight bytes.
pub(crate) fn number_in(bytes: [u8; 8]) -> u64
    ensures { bytes ≡ to_be_bytes w64 result }
{
    let high = half_in([bytes[0], bytes[1], bytes[2], bytes[3]]);
    let low = half_in([bytes[4], bytes[5], bytes[6], bytes[7]]);
    u64::from(high) * 4294967296 + u64::from(low)
}

/// Decodes the numbers of a row from their bytes.
pub(crate) fn take_row(bytes: &[u8], row: &mut [u64])
    requires { length bytes.now ≡ 8 * length row.old }
    ensures { bytes.now ≡ row_text Version.One row.new }
{
    let (numbers, _) = bytes.as_chunks::<8>();
    for place in 0..row.len() {
        row[place] = number_in(numbers[place]);
    }
}

/// A buffer of `count` bytes.
pub(crate) fn make_buffer(alloc: Global, count: usize) -> Result<Vec<u8>, AllocError>
    ensures { IfOk result (λ buffer. length buffer.items ≡ count) }
{
    vec![in alloc; 0; count]
}
