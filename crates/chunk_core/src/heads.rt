//! The header of a chunk.

ghost use Rattle.std.specs.Prelude.{◌<◌, ◌+◌, length, MatchOption};
ghost use Rattle.chunk_core.specs.Heads.{IsHeadAt};

use crate::layout::Head;
use crate::numbers::{Order, id_at, u64_at};

/// The header at the place `at`, with its size in this order of bytes: `Big` for DSDIFF 1.5, `Little` for DSF 1.01.
///
/// It is `None` if fewer than 12 bytes are left there, as at any place past the end.
pub fn head(order: Order, bytes: &[u8], at: usize) -> Option<Head>
    ensures { MatchOption result (length bytes.now < at + 12) (IsHeadAt order bytes.now at) }
{
    if bytes.len() < 12 || bytes.len() - 12 < at {
        return None;
    }
    Some(Head {
        id: id_at(bytes, at),
        size: u64_at(order, bytes, at + 4),
    })
}
