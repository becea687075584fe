//! Reads a row of either version.

ghost use Rattle.std.specs.Prelude.{◌≡◌, ℕ, ◌+◌, ◌*◌, ◌-◌, ◌^◌, ◌<◌, ◌≤◌, [], length, map, take, drop, flat_map, slice_index, slice_index_or, IfOk, IfErr, OnOk};
ghost use Rattle.std.specs.Int.{w64, to_be_bytes, bytes_high_first};
ghost use Rattle.chunk_core.specs.Inlets.{PullsBytes, inlet_failures, inlet_reader};
ghost use Rattle.cert_core.specs.Reasons.{Bounded};
ghost use Rattle.cert_core.specs.Spelling.{raised_text, row_text};
ghost use Rattle.cert_core.specs.Stops.{OnLeft, OnReason, failed_stops, InForm, InSpelling, RaisedReason};

use crate::filling::fill;
use crate::numbers::{number_in, take_row};
use crate::rows::{GREATEST, is_above};
use crate::spelling::{bounds_of, width_of};
use crate::stop::Stop;
use crate::verdict::CertReason;
use crate::version::Version;
use chunk_core::Inlet;
use std::io::Read;

// The number in the eight bytes at `place`.
fn number_at(bytes: &[u8], place: usize) -> u64
    requires { place + 8 ≤ length bytes.now }
    ensures { take 8 (drop place bytes.now) ≡ to_be_bytes w64 result }
{
    let (numbers, _) = bytes[place..place + 8].as_chunks::<8>();
    number_in(numbers[0])
}

// Decodes numbers of `width` bytes each. Eight more bytes follow theirs.
fn take_narrow(bytes: &[u8], width: usize, row: &mut [u64])
    requires some { 0 < width }
    requires few { width ≤ 8 }
    requires room { width * length row.old + 8 ≤ length bytes.now }
    ensures len { length row.new ≡ length row.old }
    ensures text { take (width * length row.new) bytes.now ≡ flat_map (bytes_high_first width) row.new }
    ensures below { (q : ℕ) → slice_index_or row.new q 0 < 256 ^ width }
{
    let spare = 64 - 8 * width as u32;
    for place in 0..row.len() {
        row[place] = number_at(bytes, width * place) >> spare;
    }
}

// The same, where the width may also be 0.
fn take_excesses(bytes: &[u8], width: usize, row: &mut [u64])
    requires few { width ≤ 8 }
    requires room { width * length row.old + 8 ≤ length bytes.now }
    ensures len { length row.new ≡ length row.old }
    ensures text { take (width * length row.new) bytes.now ≡ flat_map (bytes_high_first width) row.new }
    ensures below { (q : ℕ) → slice_index_or row.new q 0 < 256 ^ width }
{
    if width == 0 {
        row.fill(0);
    } else {
        take_narrow(bytes, width, row);
    }
}

// Adds a number to each value of a row.
fn add_to_each(row: &mut [u64], least: u64)
    requires { (q : ℕ) → q < length row.old → slice_index row.old q + least ≤ 2 ^ 63 }
    ensures { row.new ≡ map (λ v. least + v) row.old }
{
    for place in 0..row.len() {
        row[place] += least;
    }
}

// Turns the excesses in a row, which were read in `width` bytes each, into values. Reasons, in this order: `Bound`;
// `Row` if no excess is 0 or fewer bytes would do. In both cases the row is unchanged.
fn raise(least: u64, width: usize, level: usize, row: &mut [u64]) -> Result<(), CertReason>
    requires some { 0 < length row.old }
    ensures len { length row.new ≡ length row.old }
    ensures bounded { OnOk result (Bounded (length row.new) row.new) }
    ensures values { OnOk result (row.new ≡ map (λ v. least + v) row.old) }
    ensures own { OnOk result (raised_text least width row.old ≡ row_text Version.Two row.new) }
    ensures reason { IfErr result (RaisedReason least width level row.old) }
{
    let (floor, peak) = bounds_of(row);
    if least > GREATEST || peak > GREATEST - least {
        return Err(CertReason::Bound);
    }
    if floor != 0 || width != width_of(peak) {
        return Err(CertReason::Row(level));
    }
    add_to_each(row, least);
    Ok(())
}

// Reads the values of a row of the first version.
fn read_values<R: Read>(
    inlet: &mut Inlet<R>,
    level: usize,
    buffer: &mut [u8],
    row: &mut [u64],
) -> Result<(), Stop>
    requires ready { inlet_failures inlet.old < 2 ^ 64 - 1 }
    requires room { 8 * length row.old ≤ length buffer.old }
    ensures len { length row.new ≡ length row.old }
    ensures buffer { length buffer.new ≡ length buffer.old }
    ensures bounded { OnOk result (Bounded (length row.new) row.new) }
    ensures ok { OnOk result (PullsBytes R.remaining inlet.old inlet.new
        (row_text Version.One row.new)) }
    ensures reason { OnLeft R.remaining inlet.old result (InSpelling Version.One (length row.old) level) }
    ensures failures { inlet_failures inlet.new ≡ inlet_failures inlet.old + failed_stops result }
{
    let size = 8 * row.len();
    fill(inlet, &mut buffer[0..size])?;
    take_row(&buffer[0..size], row);
    if is_above(row) {
        return Err(Stop::Reason(CertReason::Bound));
    }
    Ok(())
}

// Reads what a row of the second version begins with: its least value, and how many bytes each excess has.
fn read_form<R: Read>(inlet: &mut Inlet<R>, level: usize) -> Result<(u64, usize), Stop>
    requires ready { inlet_failures inlet.old < 2 ^ 64 - 1 }
    ensures ok { IfOk result (λ form. PullsBytes R.remaining inlet.old inlet.new (raised_text form.0 form.1 [])) }
    ensures few { IfOk result (λ form. form.1 ≤ 8) }
    ensures reason { OnLeft R.remaining inlet.old result (InForm level) }
    ensures failures { inlet_failures inlet.new ≡ inlet_failures inlet.old + failed_stops result }
{
    let mut form = [0u8; 9];
    fill(inlet, &mut form)?;
    let width = usize::from(form[8]);
    if width > 8 {
        return Err(Stop::Reason(CertReason::Row(level)));
    }
    Ok((number_at(&form, 0), width))
}

// Reads the values of a row of the second version.
fn read_raised<R: Read>(
    inlet: &mut Inlet<R>,
    level: usize,
    buffer: &mut [u8],
    row: &mut [u64],
) -> Result<(), Stop>
    requires ready { inlet_failures inlet.old < 2 ^ 64 - 1 }
    requires some { 0 < length row.old }
    requires room { 8 * length row.old + 8 ≤ length buffer.old }
    ensures len { length row.new ≡ length row.old }
    ensures buffer { length buffer.new ≡ length buffer.old }
    ensures bounded { OnOk result (Bounded (length row.new) row.new) }
    ensures ok { OnOk result (PullsBytes R.remaining inlet.old inlet.new
        (row_text Version.Two row.new)) }
    ensures reason { OnLeft R.remaining inlet.old result (InSpelling Version.Two (length row.old) level) }
    ensures failures { inlet_failures inlet.new ≡ inlet_failures inlet.old + failed_stops result }
{
    let (least, width) = read_form(inlet, level)?;
    let size = width * row.len();
    fill(inlet, &mut buffer[0..size])?;
    take_excesses(buffer, width, row);
    match raise(least, width, level, row) {
        Ok(()) => Ok(()),
        Err(reason) => Err(Stop::Reason(reason)),
    }
}

/// Reads the row of a level, which has as many values as the old one, through a buffer for its bytes. It must be
/// spelled as the version spells it, and none of its values may be above `2^63`.
pub(crate) fn read_row<R: Read>(
    inlet: &mut Inlet<R>,
    version: Version,
    level: usize,
    buffer: &mut [u8],
    row: &mut [u64],
) -> Result<(), Stop>
    requires ready { inlet_failures inlet.old < 2 ^ 64 - 1 }
    requires some { 0 < length row.old }
    requires room { 8 * length row.old + 8 ≤ length buffer.old }
    ensures len { length row.new ≡ length row.old }
    ensures buffer { length buffer.new ≡ length buffer.old }
    ensures bounded { OnOk result (Bounded (length row.new) row.new) }
    ensures ok { OnOk result (PullsBytes R.remaining inlet.old inlet.new
        (row_text version row.new)) }
    ensures reason { OnLeft R.remaining inlet.old result (InSpelling version (length row.old) level) }
    ensures failures { inlet_failures inlet.new ≡ inlet_failures inlet.old + failed_stops result }
{
    match version {
        Version::One => read_values(inlet, level, buffer, row),
        Version::Two => read_raised(inlet, level, buffer, row),
    }
}
