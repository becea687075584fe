//! The three chunks: `DSD `, `fmt ` and `data`.

ghost use Rattle.std.specs.Prelude.{◌≡◌, ◌≤◌, ◌+◌, length, IfOk};
ghost use Rattle.dsf_core.specs.Fields.{data_place};
ghost use Rattle.dsf_core.specs.Reading.{chunks_of};

use crate::fault::{DsfFault, Misformat};
use crate::fields::{
    FIRST_SIZE, FIRST_SIZE_AT, FORMAT_AT, FORMAT_SIZE, FORMAT_SIZE_AT, HEAD_SIZE, RAW_DSD, has_id,
    long_at, short_at,
};
use chunk_core::id_at;

/// The place of the data chunk.
#[tactic(auto, unfolding(crate::specs::Reading::chunks_of))]
pub(crate) fn find_data(file: &[u8]) -> Result<usize, DsfFault>
    ensures exact { result ≡ chunks_of file.now }
    ensures place { IfOk result (λ n. n ≡ data_place file.now) }
    ensures inside { IfOk result (λ n. (80 ≤ n) × (n + 12 ≤ length file.now)) }
{
    if file.len() < 4 {
        return Err(DsfFault::NotDsf);
    }
    if !has_id(file, 0, *b"DSD ") {
        return Err(DsfFault::NotDsf);
    }
    if file.len() < FIRST_SIZE + FORMAT_SIZE {
        return Err(DsfFault::HeadCut(file.len() as u64));
    }
    let first = long_at(file, FIRST_SIZE_AT);
    if first != FIRST_SIZE as u64 {
        return Err(DsfFault::BadFormat(Misformat::First(first)));
    }
    let size = long_at(file, FORMAT_SIZE_AT);
    if !has_id(file, FIRST_SIZE, *b"fmt ") || size < FORMAT_SIZE as u64 {
        let id = id_at(file, FIRST_SIZE);
        return Err(DsfFault::BadFormat(Misformat::Format(id, size)));
    }
    if ((file.len() - (FIRST_SIZE + HEAD_SIZE)) as u64) < size {
        return Err(DsfFault::HeadCut(file.len() as u64));
    }
    let data_at = FIRST_SIZE + size as usize;
    let data_size = long_at(file, data_at + 4);
    if !has_id(file, data_at, *b"data") || data_size < HEAD_SIZE as u64 {
        let id = id_at(file, data_at);
        return Err(DsfFault::BadFormat(Misformat::Data(id, data_size)));
    }
    let kind = short_at(file, FORMAT_AT);
    if kind != RAW_DSD {
        return Err(DsfFault::BadFormat(Misformat::Kind(kind)));
    }
    Ok(data_at)
}
