//! A channel of a master, without the bits that the takes have too.

ghost use Rattle.std.specs.Prelude.{◌≡◌, ◌≢◌, ◌++◌, [], ℕ, ◌+◌, ◌-◌, ◌*◌, ◌^◌, ◌<◌, ◌≤◌, IfOk, IfSome, OnOk, false, length, slice_index_or, slice_range};
ghost use Rattle.null_core.specs.Channels.{AreSettled, IsFull, IsPieceAt, block_bits, blocks_bits};

use crate::alone::alone_at;
use crate::compared::alike_bits;
use crate::part::Part;
use dsd_bits::Bits;
use std::alloc::{AllocError, Global};
use std::marker::Model;
use std::mem;

/// How many bits a block has.
const BLOCK: usize = 65_536;

/// The bits of a channel of a master, at most `2^36`. They are held in blocks of 65,536. A block that equals bits of a
/// part where these are asked for isn't kept: the part has it.
#[derive(Drop)]
pub struct Channel<'a> {
    // The full blocks.
    blocks: Vec<Block<'a>>,
    // The bits after them, fewer than a block has.
    last: Bits,
}

// A block of a channel.
#[derive(Drop)]
enum Block<'a> {
    // Bits that are kept.
    Kept(Bits),
    // Bits of a part, from one of them on.
    OfPart(&'a Bits, usize),
}

// Where a channel has its bits from a place on.
#[derive(Clone, Copy)]
struct Piece<'b> {
    // Bits among which they are.
    bits: &'b Bits,
    // Which of these is at the place.
    from: usize,
    // How many there are.
    size: usize,
}

impl<'a> Model for Channel<'a> {
    ghost use Rattle.std.specs.Prelude.{Bool, List};

    ghost Value = { List Bool };

    ghost use Rattle.null_core.specs.Channels.{KeepsChannel, channel_view};

    ghost view = { channel_view };

    ghost invariant = { KeepsChannel };
}

impl<'a> Channel<'a> {
    /// No bits. It takes no memory.
    pub fn new(alloc: Global) -> Channel<'a>
        ensures { result ≡ [] }
    {
        Channel {
            blocks: Vec::new(alloc),
            last: Bits::new(alloc),
        }
    }

    /// Adds bits at the end. A block that is full then isn't kept if a part has it whose source is asked for at the block's
    /// first place. Err is out of memory, and what is held then is of no use.
    pub fn push(&mut self, alloc: Global, parts: &[Part<'a>], bits: &Bits) -> Result<(), AllocError>
        requires { length self.old + length bits.now ≤ 2 ^ 36 }
        ensures { OnOk result (self.new ≡ self.old ++ bits.now) }
    {
        let count = bits.len();
        let mut from = 0;
        while from < count {
            from = self.push_some(alloc, parts, bits, from)?;
        }
        Ok(())
    }

    // Adds bits from one of them on, as many as the last block has room for, and returns which one is next.
    fn push_some(
        &mut self,
        alloc: Global,
        parts: &[Part<'a>],
        bits: &Bits,
        from: usize,
    ) -> Result<usize, AllocError>
        requires some { from < length bits.now }
        requires fits { length self.old + (length bits.now - from) ≤ 2 ^ 36 }
        ensures after { IfOk result (λ next. from < next) }
        ensures inside { IfOk result (λ next. next ≤ length bits.now) }
        ensures added { IfOk result (λ next. self.new ≡ self.old ++ slice_range bits.now from next) }
    {
        let count = bits.len();
        let held = self.last.len();
        if held == 0 && BLOCK <= count - from {
            push_block(alloc, parts, &mut self.blocks, bits, from)?;
            return Ok(from + BLOCK);
        }
        let next = count.min(from + (BLOCK - held));
        self.last.push_range(bits, from, next)?;
        settle(alloc, parts, &mut self.blocks, &mut self.last)?;
        Ok(next)
    }

    /// How many bits there are.
    pub fn len(&self) -> usize
        ensures value { result ≡ length self.now }
        ensures in_limit { length self.now ≤ 2 ^ 36 }
    {
        BLOCK * self.blocks.len() + self.last.len()
    }

    /// Bit `i`.
    pub(crate) fn get(&self, i: usize) -> bool
        requires { i < length self.now }
        ensures { result ≡ slice_index_or self.now i false }
    {
        let piece = self.piece_at(i);
        piece.bits.get(piece.from)
    }

    /// How many bits from place `at` on equal those of `others` from bit `own` on, before the first that differ, `most` at
    /// most.
    pub(crate) fn alike(&self, at: usize, others: &Bits, own: usize, most: usize) -> usize
        requires bits { at + most ≤ length self.now }
        requires others { own + most ≤ length others.now }
        ensures few { result ≤ most }
        ensures alike { (k : ℕ) → k < result → slice_index_or self.now (at + k) false ≡ slice_index_or others.now (own + k) false }
        ensures other { result < most → slice_index_or self.now (at + result) false ≢ slice_index_or others.now (own + result) false }
    {
        let _count = self.len();
        let _other_count = others.len();
        let mut done = 0;
        while done < most {
            let piece = self.piece_at(at + done);
            let size = piece.size.min(most - done);
            let same = alike_bits(piece.bits, piece.from, others, own + done, size);
            done += same;
            if same < size {
                return done;
            }
        }
        most
    }

    // Where the bits from place `i` on are, as far as the next block.
    fn piece_at(&self, i: usize) -> Piece<'_>
        requires { i < length self.now }
        ensures { IsPieceAt self.now i result }
    {
        let number = i / BLOCK;
        let place = i % BLOCK;
        if number < self.blocks.len() {
            return piece_of(&self.blocks[number], place);
        }
        Piece {
            bits: &self.last,
            from: place,
            size: self.last.len() - place,
        }
    }
}

// Where the bits of a full block are from one of them on.
fn piece_of<'b>(block: &'b Block<'_>, place: usize) -> Piece<'b>
    requires full { IsFull block.now }
    requires place { place < 65536 }
    ensures { IsPieceAt (block_bits block.now) place result }
{
    let size = BLOCK - place;
    match block {
        Block::Kept(bits) => Piece {
            bits,
            from: place,
            size,
        },
        Block::OfPart(bits, first) => {
            let _count = bits.len();
            Piece {
                bits: *bits,
                from: *first + place,
                size,
            }
        }
    }
}

// Adds a block of bits from one of them on.
fn push_block<'a>(
    alloc: Global,
    parts: &[Part<'a>],
    blocks: &mut Vec<Block<'a>>,
    bits: &Bits,
    from: usize,
) -> Result<(), AllocError>
    requires inside { from + 65536 ≤ length bits.now }
    requires fits { 65536 * length blocks.old.items < 2 ^ 36 }
    ensures added { OnOk result (blocks_bits blocks.new.items ≡ blocks_bits blocks.old.items ++ slice_range bits.now from (from + 65536)) }
    ensures settled { AreSettled blocks.old.items (slice_range bits.now from (from + 65536)) blocks.new.items [] }
{
    let block = block_of(alloc, parts, BLOCK * blocks.len(), bits, from)?;
    blocks.push(block)?;
    Ok(())
}

// A full block from a place on: bits of a part if one has them, or else a copy of bits from one of them on.
fn block_of<'a>(
    alloc: Global,
    parts: &[Part<'a>],
    place: usize,
    bits: &Bits,
    from: usize,
) -> Result<Block<'a>, AllocError>
    requires place { place < 2 ^ 36 }
    requires inside { from + 65536 ≤ length bits.now }
    ensures { IfOk result (λ block. block_bits block ≡ slice_range bits.now from (from + 65536)) }
{
    let _count = bits.len();
    if let Some(block) = block_in_parts(parts, place, bits, from) {
        return Ok(block);
    }
    let mut copied = Bits::new(alloc);
    copied.push_range(bits, from, from + BLOCK)?;
    Ok(Block::Kept(copied))
}

// Makes a block of the last bits if they fill one.
fn settle<'a>(
    alloc: Global,
    parts: &[Part<'a>],
    blocks: &mut Vec<Block<'a>>,
    last: &mut Bits,
) -> Result<(), AllocError>
    requires most { length last.old ≤ 65536 }
    requires fits { 65536 * length blocks.old.items + length last.old ≤ 2 ^ 36 }
    ensures same { OnOk result (blocks_bits blocks.new.items ++ last.new ≡ blocks_bits blocks.old.items ++ last.old) }
    ensures settled { AreSettled blocks.old.items last.old blocks.new.items last.new }
{
    if last.len() < BLOCK {
        return Ok(());
    }
    let place = BLOCK * blocks.len();
    let full = mem::replace(last, Bits::new(alloc));
    blocks.push(settled(parts, place, full))?;
    Ok(())
}

// A full block from a place on: bits of a part if one has them, or else these bits.
fn settled<'a>(parts: &[Part<'a>], place: usize, bits: Bits) -> Block<'a>
    requires place { place < 2 ^ 36 }
    requires full { length bits ≡ 65536 }
    ensures { block_bits result ≡ bits }
{
    match block_in_parts(parts, place, &bits, 0) {
        Some(block) => block,
        None => Block::Kept(bits),
    }
}

// Bits of a part that equal those of a block from a place on, if a part of the source has them that is asked for there.
// The block has the bits from one of them on.
fn block_in_parts<'a>(
    parts: &[Part<'a>],
    place: usize,
    bits: &Bits,
    from: usize,
) -> Option<Block<'a>>
    requires place { place < 2 ^ 36 }
    requires inside { from + 65536 ≤ length bits.now }
    ensures { IfSome result (λ block. block_bits block ≡ slice_range bits.now from (from + 65536)) }
{
    let source = alone_at(parts, place).source?;
    for part in parts {
        if part.take == source.take && part.ahead == source.ahead {
            if let Some(block) = block_in(part, place, bits, from) {
                return Some(block);
            }
        }
    }
    None
}

// Bits of a part that equal those of a block from a place on, if it has them.
fn block_in<'a>(part: &Part<'a>, place: usize, bits: &Bits, from: usize) -> Option<Block<'a>>
    requires place { place < 2 ^ 36 }
    requires inside { from + 65536 ≤ length bits.now }
    ensures { IfSome result (λ block. block_bits block ≡ slice_range bits.now from (from + 65536)) }
{
    let count = part.bits.len();
    let first = (part.start + place).checked_sub(part.at)?;
    if count < first + BLOCK || alike_bits(bits, from, part.bits, first, BLOCK) < BLOCK {
        return None;
    }
    Some(Block::OfPart(part.bits, first))
}
