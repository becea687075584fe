//! A file whose channels are reordered while it is read.

ghost use Rattle.std.specs.Prelude.{◌≡◌, ◌+◌, ◌*◌, ◌≤◌, IfOk, IsFalse, IsTrue, length, min, take};
ghost use Rattle.std.specs.Io.KnownBytes.{IsAtEnd, Keeps, prepend_known};
ghost use Rattle.speaker_core.specs.Reordering.{NamesChannels};

use crate::reordering::push_groups;
use std::alloc::{AllocError, Global};
use std::io;
use std::io::{ErrorKind, Read};

// How many bytes of each channel are reordered at once.
const AT_ONCE: usize = 4096;

/// A file that is read from its sound on, whose channels come in another order.
#[derive(Drop)]
pub struct ReorderedFile<R> {
    file: R,
    // The channels that come first, second and so on.
    order: Vec<usize>,
    // How many neighbouring bytes a group has of each channel.
    size: usize,
    // How many groups have yet to be reordered.
    groups: usize,
    // How many of them are reordered at once.
    most: usize,
    // The bytes of the next groups, as far as they were read.
    raw: Vec<u8>,
    filled: usize,
    // Bytes in their new order, and how many of them were given.
    ready: Vec<u8>,
    given: usize,
    ghost channels: { NamesChannels order.items },
    ghost fits: { length order.items * size ≤ 65536 },
    ghost some: { 1 ≤ length order.items * size },
    ghost at_once: { 1 ≤ most },
    ghost room: { most * (length order.items * size) ≤ length raw.items },
    ghost few: { filled ≤ min most groups * (length order.items * size) },
}

/// An order in which channels come, with the memory that a file needs for it.
#[derive(Drop)]
pub struct Reordering {
    order: Vec<usize>,
    size: usize,
    groups: usize,
    most: usize,
    raw: Vec<u8>,
    ready: Vec<u8>,
    ghost channels: { NamesChannels order.items },
    ghost fits: { length order.items * size ≤ 65536 },
    ghost some: { 1 ≤ length order.items * size },
    ghost at_once: { 1 ≤ most },
    ghost room: { most * (length order.items * size) ≤ length raw.items },
    ghost empty: { length ready.items ≡ 0 },
}

impl Reordering {
    ghost use Rattle.std.specs.Prelude.{◌≡◌, ◌≤◌, IfOk, length};
    ghost use Rattle.speaker_core.specs.Reordered.{reordering_groups, reordering_order, reordering_size};
    ghost use Rattle.speaker_core.specs.Reordering.{NamesChannels};

    /// This order of channels, in so many groups with `size` neighbouring bytes of each, 1 or 4096.
    ///
    /// It fails only if memory runs out.
    pub fn new(
        alloc: Global,
        order: Vec<usize>,
        size: usize,
        groups: usize,
    ) -> Result<Reordering, AllocError>
        requires channels { NamesChannels order.items }
        requires some_channel { 1 ≤ length order.items }
        requires few_channels { length order.items ≤ 6 }
        requires size { (1 ≤ size) × (size ≤ 4096) }
        ensures order { IfOk result (λ r. reordering_order r ≡ order.items) }
        ensures size { IfOk result (λ r. reordering_size r ≡ size) }
        ensures groups { IfOk result (λ r. reordering_groups r ≡ groups) }
    {
        let most = AT_ONCE / size;
        let room = most * (order.len() * size);
        Ok(Reordering {
            size,
            groups,
            most,
            raw: vec![in alloc; 0; room]?,
            ready: Vec::with_capacity(alloc, room)?,
            order,
        })
    }
}

impl<R> ReorderedFile<R> {
    ghost use Rattle.std.specs.Prelude.{◌≡◌, List, ℕ, Option};
    ghost use Rattle.speaker_core.specs.Reordered.{left_in_order, reordered_known, reordering_groups, reordering_order, reordering_size};

    /// A file whose sound comes next, in another order.
    pub fn new(file: R, reordering: Reordering) -> ReorderedFile<R>
        ensures { (left : _ → Option (List ℕ)) → left_in_order left result ≡ reordered_known (reordering_order reordering)
            (reordering_size reordering) (reordering_groups reordering) (left file) }
    {
        let Reordering {
            order,
            size,
            groups,
            most,
            raw,
            ready,
        } = reordering;
        ReorderedFile {
            file,
            order,
            size,
            groups,
            most,
            raw,
            filled: 0,
            ready,
            given: 0,
        }
    }
}

impl<R: Read> ReorderedFile<R> {
    ghost use Rattle.std.specs.Prelude.{◌+◌, ◌<◌, ◌≤◌, OnErr, OnOk, length};
    ghost use Rattle.std.specs.Io.KnownBytes.{Keeps};
    ghost use Rattle.speaker_core.specs.Reordered.{HasNext, IsReady, IsWaiting, left_in_order};

    // Reads on if nothing is ready and there are groups that are to be reordered.
    fn prepare(&mut self) -> io::Result<()>
        ensures kept { Keeps (left_in_order R.remaining self.old) (left_in_order R.remaining self.new) }
        ensures some { OnOk result (HasNext self.new) }
    {
        if self.given < self.ready.len() || self.groups == 0 {
            return Ok(());
        }
        self.fill()
    }

    // Reads the next groups, or what a file has left that ends before, and puts them in order.
    fn fill(&mut self) -> io::Result<()>
        requires given { length self.old.ready.items ≤ self.old.given }
        requires some { 0 < self.old.groups }
        ensures kept { Keeps (left_in_order R.remaining self.old) (left_in_order R.remaining self.new) }
        ensures some { OnOk result (HasNext self.new) }
    {
        let batch = self.most.min(self.groups);
        let wanted = batch * (self.order.len() * self.size);
        let (filled, came) = read_on(&mut self.file, &mut self.raw, self.filled, wanted);
        self.filled = filled;
        match came {
            Ok(is_at_end) => {
                let (groups, later) = parts_of(self.groups, batch, is_at_end);
                self.put_in_order(groups, later)
            }
            Err(error) => Err(error),
        }
    }

    // Puts the bytes that were read in order, which so many groups begin, and leaves as many for later.
    fn put_in_order(&mut self, groups: usize, later: usize) -> io::Result<()>
        requires few { groups + later ≤ self.old.groups }
        ensures ok { OnOk result (IsReady self.old self.new groups later) }
        ensures err { OnErr result (IsWaiting self.old self.new) }
    {
        self.ready.clear();
        self.given = 0;
        match push_groups(
            &mut self.ready,
            &self.raw[..self.filled],
            &self.order,
            self.size,
            groups,
        ) {
            Ok(()) => {
                self.filled = 0;
                self.groups = later;
                Ok(())
            }
            Err(_) => {
                self.ready.clear();
                Err(io::Error::from(ErrorKind::OutOfMemory))
            }
        }
    }
}

impl<R: Read> Read for ReorderedFile<R> {
    ghost use Rattle.speaker_core.specs.Reordered.{left_in_order};

    ghost remaining = { λ w. left_in_order R.remaining w };

    fn read(&mut self, buffer: &mut [u8]) -> io::Result<usize> {
        self.prepare()?;
        if self.given >= self.ready.len() {
            return self.file.read(buffer);
        }
        let count = give(buffer, &self.ready[self.given..]);
        self.given += count;
        Ok(count)
    }
}

// Reads on up to a place in a buffer, which is filled up to another. It returns how far that is now, and whether the
// file ended before.
fn read_on<R: Read>(
    file: &mut R,
    buffer: &mut [u8],
    filled: usize,
    wanted: usize,
) -> (usize, io::Result<bool>)
    requires room { wanted ≤ length buffer.old }
    requires few { filled ≤ wanted }
    ensures kept { Keeps (prepend_known (take filled buffer.old) (R.remaining file.old))
        (prepend_known (take result.0 buffer.new) (R.remaining file.new)) }
    ensures few { result.0 ≤ wanted }
    ensures long { length buffer.new ≡ length buffer.old }
    ensures at_end { IfOk result.1 (λ is_at_end. IsTrue is_at_end → IsAtEnd (R.remaining file.new)) }
    ensures full { IfOk result.1 (λ is_at_end. IsFalse is_at_end → result.0 ≡ wanted) }
{
    let mut filled = filled;
    while filled < wanted {
        match file.read(&mut buffer[filled..wanted]) {
            Ok(0) => return (filled, Ok(true)),
            Ok(count) => filled += count,
            Err(error) => return (filled, Err(error)),
        }
    }
    (filled, Ok(false))
}

// How many of the groups that are left are put in order now, and how many later. If the file is at its end, all are.
fn parts_of(groups: usize, batch: usize, is_at_end: bool) -> (usize, usize)
    requires { batch ≤ groups }
    ensures all { result.0 + result.1 ≤ groups }
    ensures ended { IsTrue is_at_end → (result.0 ≡ groups) × (result.1 ≡ 0) }
    ensures not_ended { IsFalse is_at_end → (result.0 ≡ batch) × (batch + result.1 ≡ groups) }
{
    if is_at_end {
        (groups, 0)
    } else {
        (batch, groups - batch)
    }
}

// Copies as many of the bytes that wait as there is room for, and returns how many.
fn give(buffer: &mut [u8], waiting: &[u8]) -> usize
    ensures count { result ≡ min (length waiting.now) (length buffer.old) }
    ensures long { length buffer.new ≡ length buffer.old }
    ensures front { take result buffer.new ≡ take result waiting.now }
{
    let count = waiting.len().min(buffer.len());
    buffer[..count].copy_from_slice(&waiting[..count]);
    count
}
