//! A writer whose failures are counted.

ghost use Rattle.std.specs.Prelude.{◌≡◌, ◌+◌, ◌-◌, ◌<◌, ◌^◌, MatchResult, OnOk, OnErr};

use crate::device::Device;
use std::io::Write;

/// A writer with a counter of its failures: writes that returned an error, or accepted none of some bytes. It takes no
/// memory.
#[derive(Drop)]
pub struct Outlet<W> {
    writer: W,
    failures: u64,
}

impl<W: Write> Outlet<W> {
    ghost use Rattle.chunk_core.specs.Outlets.{Puts, PutsPart, outlet_failures, outlet_writer};

    /// An outlet over this writer, without failures.
    pub fn new(writer: W) -> Outlet<W>
        ensures writer { outlet_writer result ≡ writer }
        ensures failures { outlet_failures result ≡ 0 }
    {
        Outlet {
            writer,
            failures: 0,
        }
    }

    /// Writes all of the bytes, in as many writes as needed; for no bytes, none. After `Device` a prefix of them was
    /// written, but not all.
    ///
    /// Refusal: `Device` at the first write that returns an error of any kind, or accepts nothing.
    pub fn put_all(&mut self, bytes: &[u8]) -> Result<(), Device>
        requires { outlet_failures self.old < 2 ^ 64 - 1 }
        ensures ok { OnOk result (Puts W.contents self.old self.new bytes.now) }
        ensures err { OnErr result (PutsPart W.contents self.old self.new bytes.now) }
        ensures failures { MatchResult result
            (λ _. outlet_failures self.new ≡ outlet_failures self.old)
            (λ _. outlet_failures self.new ≡ outlet_failures self.old + 1) }
    {
        let mut rest = bytes;
        while !rest.is_empty() {
            match self.writer.write(rest) {
                Ok(count) if count > 0 => rest = &rest[count..],
                _ => {
                    self.failures += 1;
                    return Err(Device);
                }
            }
        }
        Ok(())
    }

    /// How many writes failed, or accepted none of some bytes.
    pub fn failures(&self) -> u64
        ensures { result ≡ outlet_failures self.now }
    {
        self.failures
    }

    /// The writer itself.
    pub fn into_inner(self) -> W
        ensures { result ≡ outlet_writer self }
    {
        let Outlet {
            writer,
            failures: _,
        } = self;
        writer
    }
}
