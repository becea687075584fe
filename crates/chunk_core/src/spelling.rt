//! Writes DSDIFF chunks.

ghost use Rattle.std.specs.Prelude.{◌≡◌, ◌++◌, OnOk, OnErr};
ghost use Rattle.chunk_core.specs.Chunks.{spelled};

use crate::numbers::{Order, u64_bytes};
use std::alloc::AllocError;

/// Appends a DSDIFF chunk (DSDIFF 1.5): the ID, the number of data bytes, the data, and one zero byte after odd data.
/// The size does not count that byte. After a refused growth `out` is unchanged.
pub fn push_chunk(out: &mut Vec<u8>, id: [u8; 4], content: &[u8]) -> Result<(), AllocError>
    ensures ok { OnOk result (out.new.items ≡ out.old.items ++ spelled id content.now) }
    ensures err { OnErr result (out.new.items ≡ out.old.items) }
{
    let pad = content.len() % 2;
    out.reserve(12 + content.len() + pad)?;
    out.extend_from_slice(&id)?;
    out.extend_from_slice(&u64_bytes(Order::Big, content.len() as u64))?;
    out.extend_from_slice(content)?;
    if pad == 1 {
        out.push_reserved(0);
    }
    Ok(())
}
