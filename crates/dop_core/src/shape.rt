//! What the bytes before the first sample announce.

ghost use Rattle.std.specs.Prelude.{◌≡◌, ◌++◌, ℕ, List, Err, IfErr, IfOk};
ghost use Rattle.dop_core.specs.Fronts.{Announces, IsFront};
ghost use Rattle.dop_core.specs.Reading.{recording_of};

use crate::chunks::{HEAD_SIZE, long_at, short_at};
use crate::fault::DopFault;
use crate::head::{DopHead, check_format, find_format};

/// What the bytes before the first sample announce.
#[derive(Clone, Copy)]
pub(crate) struct Announced {
    /// What the header says.
    pub head: DopHead,
    /// How many bytes the data chunk has.
    pub size: usize,
}

/// What the bytes before the first sample announce.
///
/// Refusals: those of the format chunk, and `NoSize` for a size that isn't known.
pub(crate) fn read_announced(front: &[u8]) -> Result<Announced, DopFault>
    requires { IsFront front.now }
    ensures ok { IfOk result (Announces front.now) }
    ensures refused { IfErr result (λ fault. (rest : List ℕ) → recording_of (front.now ++ rest) ≡ Err fault) }
{
    let place = front.len() - HEAD_SIZE;
    let format = find_format(front, place)?;
    check_format(front, format)?;
    let size = long_at(front, place + 4);
    if size == u32::MAX {
        return Err(DopFault::NoSize(size));
    }
    let channels = usize::from(short_at(front, format + 10));
    let size = size as usize;
    Ok(Announced {
        head: DopHead {
            rate: 16 * long_at(front, format + 12),
            channels,
            start: front.len(),
            frames: size / (3 * channels),
        },
        size,
    })
}
