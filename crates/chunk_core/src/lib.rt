//! Chunks of DSDIFF and DSF files, the numbers in them, and the devices that bytes come from and go to.
//!
//! A chunk is a header and its data. A header has 12 bytes: a four-byte ID, and the number of data bytes as an unsigned
//! number of eight bytes, the highest byte first in DSDIFF 1.5 and the lowest first in DSF 1.01 ([`Order`]). In DSDIFF,
//! as in IFF, one pad byte follows odd data. The size counts neither the header nor the pad.
//!
//! [`head`] reads one header. [`walk`] finds the DSDIFF chunks of a range of bytes, [`walk_at`] those of bytes that lie
//! at a given place of a file. [`u16_at`], [`u32_at`], [`u64_at`] and [`id_at`] read a number or an ID at a place.
//! [`push_chunk`], [`push_u16`], [`push_u32`] and [`push_u64`] append chunks and numbers to bytes. A size that was read
//! is never trusted: it may be up to `2^64-1`, and nothing is allocated for data that were only announced. All of these
//! work on bytes in memory.
//!
//! An [`Inlet`] is any reader with counters of its failed reads, its reads and the bytes that they returned. An
//! [`Outlet`] is any writer with a counter of its failures. [`Inlet::pull`] reads once, [`Inlet::fill`] until a buffer
//! is full, and [`Outlet::put_all`] writes a whole slice. [`Device`] is the one fault of both: it is returned exactly
//! if the counter of failures rose in the call.
//!
//! A device that failed once should not be used again. A [`FusedInlet`] is read at most a given number of times, and
//! not again after a failed read. A [`FusedOutlet`] writes nothing more after a failed write, and its fault,
//! [`FusedFault`], tells the write that failed from the calls after it. So a caller that writes part by part may make
//! every call and check the results at the end.
//!
//! None of them takes memory of its own, and none knows a file by name. [`MOST_READS`] is how many reads may be spent
//! on a file.
//!
//! The words of its contracts:
//! - `chunks bytes cs` (`specs/Chunks.antt`): the bytes are exactly these chunks. A pad may have any value, and the
//!   last one may be missing. `spell` is the bytes of a chunk as it is written, with a pad of zero.
//! - `places start cs` (`specs/Places.antt`): the spans of chunks that follow each other from `start` on. `span_chunk
//!   bytes` is the way back, from a span to the chunk whose data it holds.
//! - `spans_in bytes start stop` (`specs/Reading.antt`): the spans of a range or the first fault in it, chunk by chunk.
//!   `spans_at at bytes` is the same for bytes that lie at a given place.
//! - `number_at`, `bytes_of`, `id_at` (`specs/Numbers.antt`) and `IsHeadAt` (`specs/Heads.antt`): numbers
//!   and heads in either order, and IDs.
//! - `>>=`, `PullsBytes` (`specs/Steps.antt`): steps that may fail, and what a function returns of them if memory may
//!   run out.
//! - `inlet_reader`, `inlet_failures`, `inlet_reads`, `inlet_given` (`specs/Inlets.antt`), `outlet_writer` and
//!   `outlet_failures` (`specs/Outlets.antt`): what an inlet and an outlet hold. The bytes that a reader has left and a
//!   writer holds are std's `Read::remaining` and `Write::contents`: known in memory, unknown for files.
//! - `CountsReads`, `FailsFilling` (`specs/Inlets.antt`): how many reads it took to fill a buffer; what was read and
//!   counted before a read failed.
//! - `AppendsPrefix`, `AppendsPart` (`specs/Outlets.antt`): a prefix of some bytes was written; a prefix, but not all
//!   of them.
//! - `fused_reader`, `fused_most`, `HasFailed` (`specs/FusedInlets.antt`): the reader of a fused inlet, how many reads
//!   it may make in all, and that it is read no more.
//! - `fused_outlet`, `fused_failed`, `failed_parts` (`specs/FusedOutlets.antt`): the outlet inside a fused one, whether
//!   a write failed, and how many failures a result counts.
//!
//! What it promises: a walk returns exactly the chunks of the range, each with its place, or the first fault. Its only
//! other refusal is out of memory. What is appended is exactly the spelling, and after a refused push the bytes are
//! unchanged. Four functions that do nothing carry the laws that callers prove with (`specs/Laws.antt`): [`one_list`],
//! [`spelled_again`], [`spans_found`], [`spans_again`]. A pull returns the reader's next bytes, and if the buffer has
//! room, it returns none only at their end. What is put is written whole, or up to a failure. A fused inlet has the
//! bytes left that its reader has left. A fused outlet returns `Failed` exactly after a `Device`, and is then
//! unchanged.
//!
//! ```text
//! let mut bytes = Vec::new(alloc);
//! push_chunk(&mut bytes, *b"AAAA", &[0xff])?;   // 41414141 0000000000000001 ff 00
//! walk(alloc, &bytes, 0, 14)                    // Ok, one span AAAA, start 12, size 1
//! walk(alloc, &bytes, 0, 13)                    // the same: the last pad may be missing
//! walk(alloc, &bytes, 0, 12)                    // Err(ChunkFault::DataCut { place: 0, .. })
//!
//! let mut inlet = Inlet::new(b"abc".as_slice());
//! inlet.pull(&mut buffer)?;                     // as many bytes as the reader gave, at the front
//! let mut outlet = Outlet::new(Vec::new(alloc));
//! outlet.put_all(b"AAAA")?;                     // four bytes more
//!
//! let mut reader = FusedInlet::new(file, MOST_READS);
//! reader.read_to_end(&mut bytes)                // Err after 2^40 reads, or at the first that fails
//! reader.has_failed()                           // and whether it was that, or want of memory
//! ```
#![tactic(auto)]

mod device;
mod fault;
mod fused_inlet;
mod fused_outlet;
mod heads;
mod inlet;
mod laws;
mod layout;
mod limits;
mod numbers;
mod outlet;
mod spelling;
mod walking;

pub use device::Device;
pub use fault::ChunkFault;
pub use fused_inlet::FusedInlet;
pub use fused_outlet::{FusedFault, FusedOutlet};
pub use heads::head;
pub use inlet::Inlet;
pub use laws::{one_list, spans_again, spans_found, spelled_again};
pub use layout::{Head, Span};
pub use limits::MOST_READS;
pub use numbers::{Order, id_at, push_u16, push_u32, push_u64, u16_at, u32_at, u64_at, u64_bytes};
pub use outlet::Outlet;
pub use spelling::push_chunk;
pub use walking::{walk, walk_at};
