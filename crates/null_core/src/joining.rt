//! Stretches are joined.

ghost use Rattle.std.specs.Prelude.{OnOk};
ghost use Rattle.null_core.specs.Stretches.{AddsStretch, IsJoined};

use crate::stretch::Stretch;
use std::alloc::AllocError;

/// Adds a stretch after the others: it extends the last one if fewer places are between them than `audible` has taps.
pub(crate) fn join_stretch(
    stretches: &mut Vec<Stretch>,
    next: Stretch,
    tap_number: usize,
) -> Result<(), AllocError>
    ensures { OnOk result (AddsStretch tap_number next stretches.old.items stretches.new.items) }
{
    let Some(last) = stretches.pop() else {
        stretches.push(next)?;
        return Ok(());
    };
    if next.first.saturating_sub(last.last) <= tap_number {
        stretches.push(joined(last, next))?;
    } else {
        stretches.push(last)?;
        stretches.push(next)?;
    }
    Ok(())
}

// Two stretches as one. The earlier place stays if both have the same residual.
fn joined(last: Stretch, next: Stretch) -> Stretch
    ensures { IsJoined last next result }
{
    let mut loudest = last;
    if next.residual > last.residual {
        loudest = next;
    }
    Stretch {
        first: last.first,
        last: next.last,
        residual: loudest.residual,
        place: loudest.place,
    }
}
