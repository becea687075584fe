//! The bytes before the first sample, read from an inlet.

ghost use Rattle.std.specs.Prelude.{◌≡◌, [], IfErr, IfOk};
ghost use Rattle.dop_core.specs.Fronts.{ReadsFront};
ghost use Rattle.dop_core.specs.Pieces.{IfRefused, NamesAfter};

use crate::chunks::{FIRST_AT, HEAD_SIZE, has_id, is_wave, next_of};
use crate::fault::DopFault;
use crate::pieces::hold_until;
use crate::stop::DopStop;
use chunk_core::Inlet;
use std::alloc::Global;
use std::io::Read;

/// Reads up to the first sample, and returns what is before it.
///
/// Refusals: `NotWave`, `NoData`; `ReadFailed`, `Memory`.
pub(crate) fn read_front<R: Read>(
    alloc: Global,
    inlet: &mut Inlet<R>,
    piece: &mut Vec<u8>,
) -> Result<Vec<u8>, DopStop>
    ensures front { IfOk result (λ front. ReadsFront R.remaining inlet.old inlet.new front.items) }
    ensures named { IfErr result (λ stop. IfRefused stop (NamesAfter R.remaining inlet.old inlet.new [])) }
{
    let mut front = Vec::new(alloc);
    let is_long = hold_until(inlet, piece, &mut front, FIRST_AT)?;
    if !is_long || !is_wave(&front) {
        return Err(DopStop::Refused(DopFault::NotWave));
    }
    loop {
        let at = front.len();
        if !hold_until(inlet, piece, &mut front, at + HEAD_SIZE)? {
            return Err(DopStop::Refused(DopFault::NoData));
        }
        if has_id(&front, at, *b"data") {
            return Ok(front);
        }
        let next = next_of(&front, at);
        if !hold_until(inlet, piece, &mut front, next)? {
            return Err(DopStop::Refused(DopFault::NoData));
        }
    }
}
