//! A file that is read a block at a time, and in a limited number of reads.

ghost use Rattle.std.specs.Prelude.{◌≡◌, ◌↔◌, ◌+◌, ◌-◌, ◌<◌, ◌≤◌, ◌^◌, [], IsTrue, IfErr, IfOk, MatchResult, OnErr, OnOk, drop, false, length, take, true};
ghost use Rattle.std.specs.Io.KnownBytes.{IsAtEnd};
ghost use Rattle.std.specs.Io.Iter.{u64_saturate};
ghost use Rattle.chunk_core.specs.Inlets.{PullsAfter, inlet_failures, inlet_given, inlet_reader, inlet_reads};
ghost use Rattle.sound_core.specs.Faults.{IsReadingFault, StopsReading};
ghost use Rattle.sound_core.specs.Readers.{BuffersAll, BuffersMore, BuffersUntil, CanCount, CanFail, Counts, CountsNoByte, EndsBefore, FillsBlock, IsAtStart, IsReading, IsSame, PassesNext, PullsIntoBlock, StopsWithin};
ghost use Rattle.sound_core.specs.Reads.{ReadsToEnd};

use crate::cause::Cause;
use crate::fault::StreamFault;
use chunk_core::{Device, Inlet, MOST_READS, Outlet};
use std::alloc::{AllocError, Global};
use std::io::{Read, Write};
use std::mem;

// How many bytes one read may return.
const BLOCK: usize = 65_536;

// How many reads and bytes an inlet may have counted.
const MOST_COUNTED: u64 = 0x8000_0000_0000_0000;

/// Whether what is read of a file can be counted.
pub(crate) fn can_count<R: Read>(inlet: &Inlet<R>) -> bool
    ensures { IsTrue result ↔ CanCount inlet.now }
{
    inlet.reads() < MOST_COUNTED && inlet.given() < MOST_COUNTED && inlet.failures() < u64::MAX
}

/// Whether one more failure can be counted.
pub fn can_fail<W: Write>(outlet: &Outlet<W>) -> bool
    ensures { IsTrue result ↔ CanFail outlet.now }
{
    outlet.failures() < u64::MAX
}

/// A block of 65,536 zeros, for bytes to be read into.
///
/// Refusal: out of memory.
pub(crate) fn new_block(alloc: Global) -> Result<Vec<u8>, AllocError>
    ensures { IfOk result (λ block. length block.items ≡ 65536) }
{
    vec![in alloc; 0u8; BLOCK]
}

// Puts these bytes at the start of a block.
fn put_first(block: &mut Vec<u8>, bytes: &[u8])
    requires { length bytes.now ≤ length block.old.items }
    ensures long { length block.new.items ≡ length block.old.items }
    ensures prefix { take (length bytes.now) block.new.items ≡ bytes.now }
{
    let (prefix, _) = block.as_mut_slice().split_at_mut(bytes.len());
    prefix.copy_from_slice(bytes);
}

// One read to the places from `filled` up to `size` of a block.
fn pull_part<R: Read>(
    inlet: &mut Inlet<R>,
    block: &mut Vec<u8>,
    filled: usize,
    size: usize,
) -> Result<usize, Device>
    requires ready { inlet_failures inlet.old < 2 ^ 64 - 1 }
    requires room { filled < size }
    requires fits { size ≤ length block.old.items }
    ensures long { length block.new.items ≡ length block.old.items }
    ensures few { IfOk result (λ n. filled + n ≤ size) }
    ensures bytes { PullsAfter (R.remaining (inlet_reader inlet.old)) (R.remaining (inlet_reader inlet.new))
        result filled block.old.items block.new.items }
    ensures failures { MatchResult result
        (λ _. inlet_failures inlet.new ≡ inlet_failures inlet.old)
        (λ _. inlet_failures inlet.new ≡ inlet_failures inlet.old + 1) }
    ensures reads { inlet_reads inlet.new ≡ u64_saturate (inlet_reads inlet.old + 1) }
    ensures given { MatchResult result
        (λ n. inlet_given inlet.new ≡ u64_saturate (inlet_given inlet.old + n))
        (λ _. inlet_given inlet.new ≡ inlet_given inlet.old) }
{
    let (prefix, _) = block.as_mut_slice().split_at_mut(size);
    inlet.pull_after(prefix, filled)
}

/// A file that is read from an inlet. The inlet is borrowed, and so is the memory that is read into.
#[derive(Drop)]
pub(crate) struct SoundReader<'a, R> {
    /// What is read.
    pub(crate) inlet: &'a mut Inlet<R>,
    /// How many bytes the inlet had counted before the file's first.
    pub(crate) given: u64,
    /// How many reads the inlet may count.
    pub(crate) limit: u64,
    /// What one read returns.
    pub(crate) block: &'a mut Vec<u8>,
    /// The buffered bytes: those that were read, and not yet taken or passed.
    pub(crate) ahead: &'a mut Vec<u8>,
    /// What is known of the first fault of a file that was refused.
    pub(crate) cause: Cause,
}

impl<'a, R: Read> SoundReader<'a, R> {
    /// A reader before the first byte of a file, of at most `2^40` reads.
    ///
    /// What is read can be counted, `block` is one of [`new_block`], and `ahead` is empty.
    pub(crate) fn new(
        inlet: &'a mut Inlet<R>,
        block: &'a mut Vec<u8>,
        ahead: &'a mut Vec<u8>,
    ) -> SoundReader<'a, R>
        requires counts { CanCount inlet.old }
        requires size { length block.old.items ≡ 65536 }
        requires empty { ahead.old.items ≡ [] }
        ensures reference { result.inlet.ghost_name ≡ inlet.entry.ghost_name }
        ensures inlet { result.inlet.now ≡ inlet.old }
        ensures limit { result.limit ≡ inlet_reads inlet.old + 2 ^ 40 }
        ensures start { IsAtStart result }
    {
        let given = inlet.given();
        let limit = inlet.reads() + MOST_READS;
        SoundReader {
            inlet,
            given,
            limit,
            block,
            ahead,
            cause: Cause::Unknown,
        }
    }

    /// One read to the places from `filled` up to `size` of the block. Returns how many bytes came; none only at the
    /// end.
    ///
    /// Refusals: `TurnLimit` if the inlet has counted `limit` reads; `ReadFailed`.
    fn pull_after(&mut self, filled: usize, size: usize) -> Result<usize, StreamFault>
        requires reading { IsReading self.old }
        requires room { filled < size }
        requires fits { size ≤ 65536 }
        ensures same { IsSame self.old self.new }
        ensures reading { OnOk result (IsReading self.new) }
        ensures kept { self.new.ahead.now.items ≡ self.old.ahead.now.items }
        ensures read { IfOk result (PullsIntoBlock R.remaining self.old self.new filled size) }
        ensures turn { OnOk result (inlet_reads self.new.inlet.now ≡ inlet_reads self.old.inlet.now + 1) }
        ensures none { OnErr result (CountsNoByte self.old self.new) }
        ensures counts { Counts self.old self.new result }
        ensures fault { IfErr result IsReadingFault }
    {
        if self.inlet.reads() == self.limit {
            return Err(StreamFault::TurnLimit);
        }
        match pull_part(self.inlet, self.block, filled, size) {
            Ok(count) => Ok(count),
            Err(_) => Err(StreamFault::ReadFailed),
        }
    }

    /// Makes the next so many bytes the first of the block: those ahead, and then what is read. It answers whether
    /// there are so many: if not, the file is at its end.
    ///
    /// Refusals: those of [`SoundReader::pull_after`].
    pub(crate) fn fill(&mut self, size: usize) -> Result<bool, StreamFault>
        requires reading { IsReading self.old }
        requires fits { size ≤ 65536 }
        ensures same { IsSame self.old self.new }
        ensures reading { OnOk result (IsReading self.new) }
        ensures ok { IfOk result (λ full. full ≡ true → FillsBlock R.remaining self.old self.new size) }
        ensures short { IfOk result (λ full. full ≡ false → EndsBefore R.remaining self.old self.new size) }
        ensures pace { IfErr result (StopsWithin self.old self.new size) }
        ensures counts { Counts self.old self.new result }
        ensures fault { IfErr result IsReadingFault }
    {
        let mut filled = self.move_ahead(size);
        while filled < size {
            let count = self.pull_after(filled, size)?;
            if count == 0 {
                return Ok(false);
            }
            filled += count;
        }
        Ok(true)
    }

    // Moves the first `count` buffered bytes, or as many as there are, to the start of the block. Returns how many.
    fn move_ahead(&mut self, size: usize) -> usize
        requires reading { IsReading self.old }
        requires fits { size ≤ 65536 }
        ensures same { IsSame self.old self.new }
        ensures untouched { self.new.inlet.now ≡ self.old.inlet.now }
        ensures reading { IsReading self.new }
        ensures number { result ≡ length (take size self.old.ahead.now.items) }
        ensures moved { take result self.new.block.now.items ≡ take size self.old.ahead.now.items }
        ensures rest { self.new.ahead.now.items ≡ drop size self.old.ahead.now.items }
    {
        let count = size.min(self.ahead.len());
        let (moved, _) = self.ahead.split_at(count);
        put_first(self.block, moved);
        self.drop_ahead(count);
        count
    }

    /// One read, whose bytes are appended to the buffered ones. Returns how many came; none only at the end.
    ///
    /// Refusals: as for [`SoundReader::pull_after`]; `Memory`.
    pub(crate) fn read_more(&mut self) -> Result<usize, StreamFault>
        requires reading { IsReading self.old }
        ensures same { IsSame self.old self.new }
        ensures reading { OnOk result (IsReading self.new) }
        ensures read { IfOk result (BuffersMore R.remaining self.old self.new) }
        ensures end { IfOk result (λ n. n ≡ 0 → IsAtEnd (R.remaining (inlet_reader self.new.inlet.now))) }
        ensures turn { IfOk result (λ n. inlet_reads self.new.inlet.now ≡ inlet_reads self.old.inlet.now + 1) }
        ensures none { IfErr result (λ f. StopsReading f → CountsNoByte self.old self.new) }
        ensures counts { Counts self.old self.new result }
        ensures fault { IfErr result IsReadingFault }
    {
        let count = self.pull_after(0, BLOCK)?;
        let (read, _) = self.block.split_at(count);
        self.ahead.extend_from_slice(read)?;
        Ok(count)
    }

    /// Reads until that many bytes are buffered, or the file ends.
    ///
    /// Refusals: as for [`SoundReader::read_more`].
    pub(crate) fn read_until(&mut self, wanted: u64) -> Result<(), StreamFault>
        requires reading { IsReading self.old }
        ensures same { IsSame self.old self.new }
        ensures reading { OnOk result (IsReading self.new) }
        ensures read { OnOk result (BuffersUntil R.remaining self.old self.new wanted) }
        ensures counts { Counts self.old self.new result }
        ensures fault { IfErr result IsReadingFault }
    {
        while (self.ahead.len() as u64) < wanted {
            let count = self.read_more()?;
            if count == 0 {
                return Ok(());
            }
        }
        Ok(())
    }

    /// Reads to the file's end, and keeps nothing.
    ///
    /// Refusals: as for [`SoundReader::pull_after`].
    pub(crate) fn read_to_end(&mut self) -> Result<(), StreamFault>
        requires reading { IsReading self.old }
        ensures same { IsSame self.old self.new }
        ensures kept { self.new.ahead.now.items ≡ self.old.ahead.now.items }
        ensures read { OnOk result (ReadsToEnd R.remaining self.old.inlet.now self.new.inlet.now) }
        ensures counts { Counts self.old self.new result }
        ensures fault { IfErr result IsReadingFault }
    {
        loop {
            let count = self.pull_after(0, BLOCK)?;
            if count == 0 {
                return Ok(());
            }
        }
    }

    /// Reads to the file's end.
    ///
    /// Refusals: as for [`SoundReader::read_more`].
    pub(crate) fn read_all(&mut self) -> Result<(), StreamFault>
        requires reading { IsReading self.old }
        ensures same { IsSame self.old self.new }
        ensures read { OnOk result (BuffersAll R.remaining self.old self.new) }
        ensures counts { Counts self.old self.new result }
        ensures fault { IfErr result IsReadingFault }
    {
        loop {
            let count = self.read_more()?;
            if count == 0 {
                return Ok(());
            }
        }
    }

    /// Takes out the first `count` buffered bytes.
    ///
    /// Refusal: `Memory`.
    pub(crate) fn take_head(&mut self, alloc: Global, size: usize) -> Result<Vec<u8>, StreamFault>
        requires within { size ≤ length self.old.ahead.now.items }
        ensures same { IsSame self.old self.new }
        ensures untouched { self.new.inlet.now ≡ self.old.inlet.now }
        ensures reading { IsReading self.old → IsReading self.new }
        ensures head { IfOk result (λ head. head.items ≡ take size self.old.ahead.now.items) }
        ensures rest { OnOk result (self.new.ahead.now.items ≡ drop size self.old.ahead.now.items) }
        ensures fault { IfErr result (λ f. f ≡ StreamFault.Memory) }
    {
        let (_, after) = self.ahead.split_at(size);
        let rest = Vec::from_slice(alloc, after)?;
        self.ahead.truncate(size);
        Ok(mem::replace(&mut *self.ahead, rest))
    }

    /// Takes out all buffered bytes.
    pub(crate) fn take_ahead(&mut self, alloc: Global) -> Vec<u8>
        ensures same { IsSame self.old self.new }
        ensures untouched { self.new.inlet.now ≡ self.old.inlet.now }
        ensures reading { IsReading self.old → IsReading self.new }
        ensures taken { result.items ≡ self.old.ahead.now.items }
        ensures none { self.new.ahead.now.items ≡ [] }
    {
        mem::replace(&mut *self.ahead, Vec::new(alloc))
    }

    /// Drops the first `count` buffered bytes.
    pub(crate) fn drop_ahead(&mut self, size: usize)
        requires within { size ≤ length self.old.ahead.now.items }
        ensures same { IsSame self.old self.new }
        ensures untouched { self.new.inlet.now ≡ self.old.inlet.now }
        ensures reading { IsReading self.old → IsReading self.new }
        ensures block { self.new.block.now.items ≡ self.old.block.now.items }
        ensures rest { self.new.ahead.now.items ≡ drop size self.old.ahead.now.items }
    {
        let left = self.ahead.len() - size;
        self.ahead.copy_within(size.., 0);
        self.ahead.truncate(left);
    }

    /// Passes `wanted` bytes: first those buffered, then what is read. None of them is kept. It answers whether there
    /// are so many: if not, the file is at its end.
    ///
    /// Refusals: those of [`SoundReader::read_more`].
    pub(crate) fn pass(&mut self, wanted: u64) -> Result<bool, StreamFault>
        requires reading { IsReading self.old }
        ensures same { IsSame self.old self.new }
        ensures reading { OnOk result (IsReading self.new) }
        ensures ok { IfOk result (λ whole. whole ≡ true → PassesNext R.remaining self.old self.new wanted) }
        ensures short { IfOk result (λ whole. whole ≡ false → EndsBefore R.remaining self.old self.new wanted) }
        ensures counts { Counts self.old self.new result }
        ensures fault { IfErr result IsReadingFault }
    {
        let mut left = wanted;
        while (self.ahead.len() as u64) < left {
            left -= self.ahead.len() as u64;
            self.ahead.clear();
            if self.read_more()? == 0 {
                return Ok(false);
            }
        }
        self.drop_ahead(left as usize);
        Ok(true)
    }
}
