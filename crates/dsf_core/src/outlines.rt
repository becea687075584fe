//! What a file holds besides its bits, as a recording with empty channels.

ghost use Rattle.std.specs.Prelude.{◌≡◌, ◌++◌, List, ℕ, IfErr, IfOk, length};
ghost use Rattle.dsf_core.specs.Headers.{EndsAtSound, IsOutline};
ghost use Rattle.dsf_core.specs.Reading.{recording_of};
ghost use Rattle.dsf_core.specs.Steps.{Fails};

use crate::describing::describe;
use crate::fault::DsfFault;
use dsd_bits::Recording;
use std::alloc::Global;

/// What [`describe`] returns of a file, as the recording that it holds, but with empty channels; or the fault with
/// which [`crate::read`] refuses each such file.
///
/// `Memory` may come in place of any of them.
pub fn outline(
    alloc: Global,
    prefix: &[u8],
    total: u64,
    tag: Vec<u8>,
) -> Result<Recording, DsfFault>
    requires at_sound { EndsAtSound prefix.now }
    ensures stated { IfOk result (IsOutline prefix.now total tag.items) }
    ensures fault { IfErr result (λ e. (rest : List ℕ) → length (prefix.now ++ rest) ≡ total
        → Fails e (recording_of (prefix.now ++ rest))) }
{
    let description = describe(alloc, prefix, total, tag)?;
    Ok(Recording::silent(alloc, description)?)
}
