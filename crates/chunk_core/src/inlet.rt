//! A reader whose failures, reads and bytes are counted.

ghost use Rattle.std.specs.Prelude.{◌≡◌, ◌+◌, ◌-◌, ◌<◌, ◌≤◌, ◌^◌, min, length, take, MatchResult, IfOk, OnErr};
ghost use Rattle.std.specs.Io.KnownBytes.{IsAtEnd, ReadConsumes};
ghost use Rattle.std.specs.Io.Iter.{u64_saturate};

use crate::device::Device;
use std::io::Read;

/// A reader with three counters: failed reads, reads, and bytes that they returned. It takes no memory.
#[derive(Drop)]
pub struct Inlet<R> {
    reader: R,
    failures: u64,
    reads: u64,
    given: u64,
}

impl<R: Read> Inlet<R> {
    ghost use Rattle.chunk_core.specs.Inlets.{CountsReads, FailsFilling, PullsBytes, PullsAfter, inlet_failures, inlet_given, inlet_reader, inlet_reads};

    /// An inlet over this reader, with all counters at 0.
    pub fn new(reader: R) -> Inlet<R>
        ensures reader { inlet_reader result ≡ reader }
        ensures failures { inlet_failures result ≡ 0 }
        ensures reads { inlet_reads result ≡ 0 }
        ensures given { inlet_given result ≡ 0 }
    {
        Inlet {
            reader,
            failures: 0,
            reads: 0,
            given: 0,
        }
    }

    /// Reads once into the buffer, and returns how many bytes came. They are at the start of the buffer. What the
    /// buffer holds after them, or after `Device`, is unspecified.
    ///
    /// Refusal: `Device` if the read returns an error of any kind.
    pub fn pull(&mut self, buffer: &mut [u8]) -> Result<usize, Device>
        requires { inlet_failures self.old < 2 ^ 64 - 1 }
        ensures bound { IfOk result (λ n. n ≤ length buffer.new) }
        // Known bytes come in their order and leave the reader, none of them after `Device`. A buffer with room gets
        // none only at the reader's end.
        ensures bytes { ReadConsumes (R.remaining (inlet_reader self.old))
            (R.remaining (inlet_reader self.new)) result buffer.new }

        ensures failures { MatchResult result
            (λ _. inlet_failures self.new ≡ inlet_failures self.old)
            (λ _. inlet_failures self.new ≡ inlet_failures self.old + 1) }
        ensures reads { inlet_reads self.new ≡ u64_saturate (inlet_reads self.old + 1) }
        ensures given { MatchResult result
            (λ n. inlet_given self.new ≡ u64_saturate (inlet_given self.old + n))
            (λ _. inlet_given self.new ≡ inlet_given self.old) }
    {
        self.reads = self.reads.saturating_add(1);
        match self.reader.read(buffer) {
            Ok(count) => {
                self.given = self.given.saturating_add(count as u64);
                Ok(count)
            }
            Err(_) => {
                self.failures += 1;
                Err(Device)
            }
        }
    }

    /// Reads until the buffer is full or the reader ends, in as many reads as needed, and returns how many bytes came.
    /// They are at the start of the buffer. What the buffer holds after them, or after `Device`, is unspecified. Bytes
    /// that came before a failed read are counted.
    ///
    /// Refusal: `Device` at the first read that returns an error of any kind.
    pub fn fill(&mut self, buffer: &mut [u8]) -> Result<usize, Device>
        requires { inlet_failures self.old < 2 ^ 64 - 1 }
        ensures bytes { IfOk result (λ n. (n ≤ length buffer.new)
            × PullsBytes R.remaining self.old self.new (take n buffer.new)) }
        ensures end { IfOk result (λ n. n < length buffer.new → IsAtEnd (R.remaining (inlet_reader self.new))) }
        ensures failures { MatchResult result
            (λ _. inlet_failures self.new ≡ inlet_failures self.old)
            (λ _. inlet_failures self.new ≡ inlet_failures self.old + 1) }
        ensures given { IfOk result (λ n. inlet_given self.new ≡ u64_saturate (inlet_given self.old + n)) }
        // If the buffer isn't full, there was one read more than those that returned bytes.
        ensures reads { IfOk result (λ n. CountsReads (inlet_reads self.old) (inlet_reads self.new) n
            (min 1 (length buffer.new - n))) }
        // What came before a failed read is counted too.
        ensures err { OnErr result (FailsFilling R.remaining self.old self.new (length buffer.new)) }
    {
        let mut filled = 0;
        while filled < buffer.len() {
            let count = self.pull_after(buffer, filled)?;
            if count == 0 {
                return Ok(filled);
            }
            filled += count;
        }
        Ok(filled)
    }

    /// Reads once to the place after the first `filled` bytes of the buffer, which has more than these, and returns how
    /// many bytes came.
    ///
    /// Refusal: as for [`Inlet::pull`].
    pub fn pull_after(&mut self, buffer: &mut [u8], filled: usize) -> Result<usize, Device>
        requires ready { inlet_failures self.old < 2 ^ 64 - 1 }
        requires room { filled < length buffer.old }
        ensures bytes { PullsAfter (R.remaining (inlet_reader self.old))
            (R.remaining (inlet_reader self.new)) result filled buffer.old buffer.new }
        ensures failures { MatchResult result
            (λ _. inlet_failures self.new ≡ inlet_failures self.old)
            (λ _. inlet_failures self.new ≡ inlet_failures self.old + 1) }
        ensures reads { inlet_reads self.new ≡ u64_saturate (inlet_reads self.old + 1) }
        ensures given { MatchResult result
            (λ n. inlet_given self.new ≡ u64_saturate (inlet_given self.old + n))
            (λ _. inlet_given self.new ≡ inlet_given self.old) }
    {
        self.pull(&mut buffer[filled..])
    }

    /// How many reads failed.
    pub fn failures(&self) -> u64
        ensures { result ≡ inlet_failures self.now }
    {
        self.failures
    }

    /// How many reads there were. It stops at `2^64-1`.
    pub fn reads(&self) -> u64
        ensures { result ≡ inlet_reads self.now }
    {
        self.reads
    }

    /// How many bytes the reads returned. It stops at `2^64-1`.
    pub fn given(&self) -> u64
        ensures { result ≡ inlet_given self.now }
    {
        self.given
    }

    /// The reader itself.
    pub fn into_inner(self) -> R
        ensures { result ≡ inlet_reader self }
    {
        let Inlet {
            reader,
            failures: _,
            reads: _,
            given: _,
        } = self;
        reader
    }
}
