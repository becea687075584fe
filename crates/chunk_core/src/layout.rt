//! What a chunk's header says, and where its data are.

/// What a chunk's header says.
#[derive(Clone, Copy)]
pub struct Head {
    /// The four bytes of the ID.
    pub id: [u8; 4],
    /// The size as written in the file, in bytes. That many bytes need not be there.
    pub size: u64,
}

/// Where a chunk's data are in the bytes that were walked.
#[derive(Clone, Copy, PartialEq, Eq)]
pub struct Span {
    /// The four bytes of the ID.
    pub id: [u8; 4],
    /// The place of the first data byte, 12 after that of the header.
    pub start: usize,
    /// The number of data bytes, without the pad.
    pub size: usize,
}
