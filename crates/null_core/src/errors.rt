//! How far a channel of a master is from the mix.

ghost use Rattle.std.specs.Prelude.{◌≡◌, ◌+◌, ◌-◌, ◌^◌, ◌<◌, ◌≤◌, false, length, map, slice_index_or, unsigned_abs, IfOk, MatchOption};
ghost use Rattle.std.specs.List.{range_with_len};
ghost use Rattle.null_core.specs.Errors.{IsLoud, error_of, in_units, wanted};
ghost use Rattle.null_core.specs.Judging.{AppendErrors, IsQuietError};
ghost use Rattle.null_core.specs.Mixing.{AreSmall, mixes_from};
ghost use Rattle.null_core.specs.Parts.{IsAsked, asked_content, mix_at, part_content};

use crate::asked::Asked;
use crate::channel::Channel;
use crate::mixing::{MixSpace, mix_between};
use std::alloc::AllocError;

/// From which absolute value on an error is too large to be judged.
const LOUD: u64 = 1 << 31;

/// A gain of 1.
const FULL_GAIN: i64 = 16_777_216;

/// Half a unit of errors.
const HALF: i64 = 4_194_304;

/// By how many bits a difference is shifted to be in units of errors.
const SHIFT: u32 = 23;

/// Appends the errors of the places from `from` up to `to`. If one is `2^31` or more in absolute value, the first such
/// place is returned, and what was appended is of no use. Err is out of memory.
pub(crate) fn push_errors(
    errors: &mut Vec<i64>,
    space: &mut MixSpace,
    asked: Asked<'_>,
    bits: &Channel<'_>,
    from: usize,
    to: usize,
) -> Result<Option<usize>, AllocError>
    requires asked { IsAsked (asked_content asked) }
    requires in_order { from ≤ to }
    requires inside { to ≤ length bits.now }
    ensures { IfOk result (λ loud. AppendErrors (asked_content asked.entry) bits.now from to errors.old.items errors.new.items loud) }
{
    let _count = bits.len();
    mix_between(space, asked.parts, from, to)?;
    push_quiet(errors, asked, bits, from, &space.mixed)
}

// The same where this is the mix.
fn push_quiet(
    errors: &mut Vec<i64>,
    asked: Asked<'_>,
    bits: &Channel<'_>,
    from: usize,
    mixed: &[i64],
) -> Result<Option<usize>, AllocError>
    requires unit { asked.unit ≤ 2 ^ 28 }
    requires inside { from + length mixed.now ≤ length bits.now }
    requires mix { mixed.now ≡ mixes_from (map part_content asked.parts.now) from (length mixed.now) }
    requires small { AreSmall (2 ^ 60) mixed.now }
    ensures { IfOk result (λ loud. AppendErrors (asked_content asked.entry) bits.now from (from + length mixed.now) errors.old.items errors.new.items loud) }
{
    let _count = bits.len();
    for i in 0..mixed.len() {
        match quiet_error(asked, bits, from + i, mixed[i]) {
            Some(error) => errors.push(error)?,
            None => return Ok(Some(from + i)),
        }
    }
    Ok(None)
}

// The error at a place where this is the mix, unless it is too large.
fn quiet_error(asked: Asked<'_>, bits: &Channel<'_>, place: usize, mix: i64) -> Option<i64>
    requires unit { asked.unit ≤ 2 ^ 28 }
    requires inside { place < length bits.now }
    requires mix { mix ≡ mix_at (map part_content asked.parts.now) place }
    requires small { unsigned_abs mix ≤ 2 ^ 60 }
    ensures { MatchOption result (IsLoud (asked_content asked.entry) bits.now place) (IsQuietError (asked_content asked.entry) bits.now place) }
{
    let error = error_of(asked.unit, bits.get(place), mix);
    if error.unsigned_abs() >= LOUD {
        return None;
    }
    Some(error)
}

// The error of a bit where this is the mix.
fn error_of(unit: u32, bit: bool, mix: i64) -> i64
    requires unit { unit ≤ 2 ^ 28 }
    requires mix { unsigned_abs mix ≤ 2 ^ 60 }
    ensures { result ≡ error_of unit bit mix }
{
    in_units(wanted(unit, bit) - mix)
}

// What a bit counts at full scale.
fn wanted(unit: u32, bit: bool) -> i64
    requires { unit ≤ 2 ^ 28 }
    ensures value { result ≡ wanted unit bit }
    ensures bound { unsigned_abs result ≤ 2 ^ 52 }
{
    let full = i64::from(unit) * FULL_GAIN;
    if bit { full } else { -full }
}

// A difference in units of `2^23`, to the nearest whole number, halves upwards.
fn in_units(difference: i64) -> i64
    requires { unsigned_abs difference ≤ 2 ^ 61 }
    ensures { result ≡ in_units difference }
{
    (difference + HALF) >> SHIFT
}
