//! The bytes of a row, in either version.

ghost use Rattle.std.specs.Prelude.{◌≡◌, ℕ, ◌+◌, ◌-◌, ◌*◌, ◌^◌, ◌<◌, ◌≤◌, length, map, take, flat_map, slice_index, length};
ghost use Rattle.std.specs.Int.{bytes_high_first};
ghost use Rattle.cert_core.specs.Spelling.{byte_width, excess_text, floor, peak, row_text};

use crate::version::Version;

// What a number must reach to need another byte: 1, 256, 256^2, and so on.
const STEPS: [u64; 8] = [
    1,
    0x100,
    0x1_0000,
    0x100_0000,
    0x1_0000_0000,
    0x100_0000_0000,
    0x1_0000_0000_0000,
    0x100_0000_0000_0000,
];

/// How many bytes a number needs.
pub(crate) fn width_of(number: u64) -> usize
    ensures width { result ≡ byte_width number }
    ensures few { result ≤ 8 }
{
    let mut width = 0;
    for step in &STEPS {
        if *step <= number {
            width += 1;
        }
    }
    width
}

/// The least and the greatest value of a row.
pub(crate) fn bounds_of(row: &[u64]) -> (u64, u64)
    requires { 0 < length row.now }
    ensures least { result.0 ≡ floor row.now }
    ensures greatest { result.1 ≡ peak row.now }
    ensures below { (q : ℕ) → q < length row.now → result.0 ≤ slice_index row.now q }
{
    let first = row[0];
    let (mut least, mut greatest) = (first, first);
    for place in 1..row.len() {
        least = least.min(row[place]);
        greatest = greatest.max(row[place]);
    }
    (least, greatest)
}

// Writes the values of a row, eight bytes each.
fn put_values(row: &[u64], buffer: &mut [u8])
    requires { length buffer.old ≡ 8 * length row.now }
    ensures { buffer.new ≡ row_text Version.One row.now }
{
    for (place, value) in row.iter().enumerate() {
        buffer[8 * place..8 * place + 8].copy_from_slice(&value.to_be_bytes());
    }
}

// Writes by how much each value of a row exceeds `least`, in `width` bytes each. The eight bytes after them may hold
// anything then.
fn put_some(row: &[u64], least: u64, width: usize, buffer: &mut [u8])
    requires some { 0 < width }
    requires few { width ≤ 8 }
    requires below { (q : ℕ) → q < length row.now → least ≤ slice_index row.now q }
    requires fits { (q : ℕ) → q < length row.now → slice_index row.now q - least < 256 ^ width }
    requires room { width * length row.now + 8 ≤ length buffer.old }
    ensures room { length buffer.new ≡ length buffer.old }
    ensures text { take (width * length row.now) buffer.new ≡ excess_text width least row.now }
{
    let spare = 64 - 8 * width as u32;
    for place in 0..row.len() {
        let bytes = ((row[place] - least) << spare).to_be_bytes();
        buffer[width * place..width * place + 8].copy_from_slice(&bytes);
    }
}

// The same, where the width may also be 0.
fn put_excesses(row: &[u64], least: u64, width: usize, buffer: &mut [u8])
    requires few { width ≤ 8 }
    requires below { (q : ℕ) → q < length row.now → least ≤ slice_index row.now q }
    requires fits { (q : ℕ) → q < length row.now → slice_index row.now q - least < 256 ^ width }
    requires room { width * length row.now + 8 ≤ length buffer.old }
    ensures room { length buffer.new ≡ length buffer.old }
    ensures text { take (width * length row.now) buffer.new ≡ excess_text width least row.now }
{
    if width > 0 {
        put_some(row, least, width, buffer);
    }
}

// Writes a row of the second version at the start of a buffer, and returns how many bytes it has.
fn put_narrow(row: &[u64], buffer: &mut [u8]) -> usize
    requires some { 0 < length row.now }
    requires room { length buffer.old ≡ 17 + 8 * length row.now }
    ensures room { length buffer.new ≡ length buffer.old }
    ensures count { result ≤ length buffer.new }
    ensures text { take result buffer.new ≡ row_text Version.Two row.now }
{
    let (least, greatest) = bounds_of(row);
    let width = width_of(greatest - least);
    let count = width * row.len();
    buffer[0..8].copy_from_slice(&least.to_be_bytes());
    buffer[8] = width as u8;
    put_excesses(row, least, width, &mut buffer[9..17 + count]);
    9 + count
}

/// Writes a row of either version at the start of a buffer that has room for any row, and returns how many bytes it
/// has.
pub(crate) fn put_row(version: Version, row: &[u64], buffer: &mut [u8]) -> usize
    requires some { 0 < length row.now }
    requires room { length buffer.old ≡ 17 + 8 * length row.now }
    ensures room { length buffer.new ≡ length buffer.old }
    ensures count { result ≤ length buffer.new }
    ensures text { take result buffer.new ≡ row_text version row.now }
{
    match version {
        Version::One => {
            let count = 8 * row.len();
            put_values(row, &mut buffer[0..count]);
            count
        }
        Version::Two => put_narrow(row, buffer),
    }
}
