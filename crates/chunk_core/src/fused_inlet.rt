//! A reader with a limited number of reads.

ghost use Rattle.std.specs.Prelude.{◌≡◌, ◌↔◌, IsTrue};
ghost use Rattle.chunk_core.specs.FusedInlets.{HasFailed, fused_most, fused_reader};

use crate::device::Device;
use crate::inlet::Inlet;
use std::io;
use std::io::{ErrorKind, Read};

/// A reader that is read a limited number of times, and not again after a failed read: every later read fails.
#[derive(Drop)]
pub struct FusedInlet<R> {
    inlet: Inlet<R>,
    most: u64,
}

impl<R: Read> FusedInlet<R> {
    /// This reader, for at most `most` reads.
    pub fn new(reader: R, most: u64) -> FusedInlet<R>
        ensures reader { fused_reader result ≡ reader }
        ensures most { fused_most result ≡ most }
    {
        FusedInlet {
            inlet: Inlet::new(reader),
            most,
        }
    }

    /// Whether a read failed, or the reads are used up.
    pub fn has_failed(&self) -> bool
        ensures { IsTrue result ↔ HasFailed self.now }
    {
        self.inlet.failures() > 0 || self.inlet.reads() >= self.most
    }
}

impl<R: Read> Read for FusedInlet<R> {
    ghost remaining = { λ fused. R.remaining (fused_reader fused) };

    fn read(&mut self, buffer: &mut [u8]) -> io::Result<usize> {
        if self.has_failed() {
            return Err(io::Error::from(ErrorKind::TimedOut));
        }
        match self.inlet.pull(buffer) {
            Ok(count) => Ok(count),
            Err(Device) => Err(io::Error::from(ErrorKind::Other)),
        }
    }
}
