//! A recording without its bits.

ghost use Rattle.std.specs.Prelude.{◌≡◌, ◌≤◌, length, map};
ghost use Rattle.dsd_bits.specs.Contents.{described_of, mark_content, other_content};
ghost use Rattle.dsd_bits.specs.Limits.{IsRate, most_bits};
ghost use Rattle.dsd_bits.specs.Shape.{IsDescription};

use crate::marks::{Mark, Other};
use std::marker::Model;

/// What a recording holds besides its sound and the IDs of its channels.
#[derive(Drop)]
pub struct Metadata {
    /// The marks, in the order of the file.
    pub marks: Vec<Mark>,
    /// The chunks that are kept as their bytes, in the order of [`crate::Place`].
    pub others: Vec<Other>,
    /// The bytes after the sound of a DSF 1.01 file, such as an ID3 tag.
    pub tag: Vec<u8>,
}

/// A recording without its bits: its rate, how many bits each channel has, and all that is kept besides them. Contracts
/// see it as one record of lists and numbers, `Described`, which obeys the rules of `IsDescription`.
#[derive(Drop)]
pub struct Description {
    rate: u32,
    count: usize,
    ids: Vec<[u8; 4]>,
    layout: u32,
    metadata: Metadata,
}

impl Model for Description {
    ghost use Rattle.dsd_bits.specs.Contents.{Described, described_of};
    ghost use Rattle.dsd_bits.specs.Shape.{IsDescription};

    ghost Value = { Described };

    ghost view = { λ a. described_of a.rate a.count a.ids.items a.layout
        a.metadata.marks.items a.metadata.others.items a.metadata.tag.items };

    ghost invariant = { λ a. IsDescription (described_of a.rate a.count a.ids.items a.layout
        a.metadata.marks.items a.metadata.others.items a.metadata.tag.items) };
}

impl Description {
    /// The description of these parts, which are moved into it. It takes no memory.
    ///
    /// The rate is in hertz, 1,000,000 to 50,000,000. `count` is the number of bits of each channel, at most `2^36`.
    /// There is an ID for each of one to six channels, and a layout of DSF 1.01 (`specs/Layouts.antt`) for that many.
    /// The others are in the order of [`crate::Place`], and none is a chunk that has a part of its own here. A mark's
    /// text has fewer than `2^32` bytes.
    pub fn new(
        rate: u32,
        count: usize,
        ids: Vec<[u8; 4]>,
        layout: u32,
        metadata: Metadata,
    ) -> Description
        requires shape { IsDescription (described_of rate count ids.items layout
            metadata.marks.items metadata.others.items metadata.tag.items) }
        ensures { result ≡ described_of rate count ids.items layout
            metadata.marks.items metadata.others.items metadata.tag.items }
    {
        Description {
            rate,
            count,
            ids,
            layout,
            metadata,
        }
    }

    /// The same description, but with another number of bits in each channel, at most `2^36`.
    pub fn with_count(self, count: usize) -> Description
        requires in_limit { count ≤ most_bits }
        ensures { result ≡ record self { count = count } }
    {
        let mut description = self;
        description.count = count;
        description
    }

    /// Bits per second of each channel, in hertz.
    pub fn rate(&self) -> u32
        ensures value { result ≡ self.now.rate }
        ensures in_limits { IsRate result }
    {
        self.rate
    }

    /// How many bits each channel has.
    pub fn count(&self) -> usize
        ensures value { result ≡ self.now.count }
        ensures in_limit { result ≤ most_bits }
    {
        self.count
    }

    /// The ID of each channel, as in DSDIFF 1.5: as many as there are channels.
    pub fn ids(&self) -> &[[u8; 4]]
        ensures value { result.now ≡ self.now.ids }
        ensures shape { IsDescription self.now }
    {
        let ids = self.ids.as_slice();
        ids
    }

    /// The layout of the channels, which is a channel type of DSF 1.01.
    pub fn layout(&self) -> u32
        ensures { result ≡ self.now.layout }
    {
        self.layout
    }

    /// The marks, in the order of the file.
    pub fn marks(&self) -> &[Mark]
        ensures { map mark_content result.now ≡ self.now.marks }
    {
        let marks = self.metadata.marks.as_slice();
        marks
    }

    /// The chunks that are kept as their bytes, in the order of [`crate::Place`].
    pub fn others(&self) -> &[Other]
        ensures { map other_content result.now ≡ self.now.others }
    {
        let others = self.metadata.others.as_slice();
        others
    }

    /// The bytes after the sound of a DSF 1.01 file, such as an ID3 tag.
    pub fn tag(&self) -> &[u8]
        ensures { result.now ≡ self.now.tag }
    {
        let tag = self.metadata.tag.as_slice();
        tag
    }
}
