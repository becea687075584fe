//! Memory for a writer of certificates.

ghost use Rattle.std.specs.Prelude.{◌≡◌, ◌+◌, ◌*◌, ◌-◌, ◌^◌, ◌≤◌, length, IfOk};

use crate::numbers::make_buffer;
use std::alloc::{AllocError, Global};

/// Memory for the bytes of a row. A certificate of bridges by `weights` weights needs no other memory while it is
/// written.
#[derive(Drop)]
pub struct CertRoom {
    pub(crate) buffer: Vec<u8>,
    pub(crate) weights: usize,
    ghost few: { weights ≤ 12 },
    ghost room: { length buffer.items ≡ 17 + 8 * 2 ^ (weights - 1) },
}

impl CertRoom {
    ghost use Rattle.cert_core.specs.Rooms.{room_weights};

    /// Memory for bridges by `weights` weights. Err is out of memory.
    pub fn new(alloc: Global, weights: usize) -> Result<CertRoom, AllocError>
        requires two { 2 ≤ weights }
        requires few { weights ≤ 12 }
        ensures { IfOk result (λ room. room_weights room ≡ weights) }
    {
        let buffer = make_buffer(alloc, 17 + (8 << (weights - 1)))?;
        Ok(CertRoom { buffer, weights })
    }
}
