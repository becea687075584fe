//! The errors that windows read.

ghost use Rattle.std.specs.Prelude.{◌^◌, ◌≤◌, IfOk, length};
ghost use Rattle.null_core.specs.Chunks.{ListsErrors};
ghost use Rattle.null_core.specs.Parts.{IsAsked, asked_content};

use crate::asked::Asked;
use crate::channel::Channel;
use crate::errors::push_errors;
use crate::mixing::MixSpace;
use std::alloc::AllocError;

/// Lists the errors that windows read which begin `reach` places before place `first`: 0 outside of the master. If one
/// is `2^31` or more in absolute value, the first such place is returned, and what is listed is of no use.
pub(crate) fn list_errors_around(
    errors: &mut Vec<i64>,
    space: &mut MixSpace,
    asked: Asked<'_>,
    bits: &Channel<'_>,
    first: usize,
    number: usize,
) -> Result<Option<usize>, AllocError>
    requires asked { IsAsked (asked_content asked) }
    requires inside { first ≤ length bits.now }
    requires small { number ≤ 2 ^ 17 }
    ensures { IfOk result (ListsErrors (asked_content asked.entry) bits.now first number errors.new.items) }
{
    let reach = asked.audible.len() / 2;
    let count = bits.len();
    let end = (first + number).saturating_sub(reach).min(count);
    errors.clear();
    errors.resize(reach.saturating_sub(first), 0)?;
    let loud = push_errors(errors, space, asked, bits, first.saturating_sub(reach), end)?;
    errors.resize(number, 0)?;
    Ok(loud)
}
