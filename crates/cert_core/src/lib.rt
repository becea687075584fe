//! Certificates: tables of bounds which show that the bits of bridges cost least.
//!
//! A bridge of `L` bits between two cues is one of `2^L` lists. A table shows that none of them costs less than the
//! chosen one. For each level from 0 to `L` and each state of a trellis it has a number, and no bits that lead there
//! cost less than this number. Whoever has such a table, the takes and the bits can check it step by step. That needs
//! neither the search that chose the bits nor trust in whoever wrote the table. `docs/CERTIFICATES.md` says why, and
//! has the format and an example worked out by hand.
//!
//! A [`CertWriter`] writes a certificate of either [`Version`] to an outlet, part by part. Its memory is a
//! [`CertRoom`], which is made with it or before it. As a `LevelSink` it takes the rows of a search.
//!
//! A [`CertReader`] reads a certificate of either version from an inlet and holds two rows at a time (`row_reader`).
//! Its [`check_bridge`](CertReader::check_bridge) judges the bits of a bridge by the next entry. It checks bounds,
//! steps and ends for eight states at a time; it goes state by state for the rest, and where something is wrong
//! (`rows`). This crate knows nothing of the search.
//!
//! Definitions that contracts use, all over lists and numbers without bounds:
//!
//! - `cert_text version weights entries` is the whole text: a `cert_head`, and a `cert_entry` for each `Entry`
//!   (`specs/Text.antt`). `row_text version row` is the text of a row. `HoldsRow version m bytes row rest` says that
//!   bytes hold a row of `m` values in the form of the version, whether or not they are its text
//!   (`specs/Spelling.antt`). A third version would be one more case of each. The validity of a table is `IsValid` of
//!   `cost_core`: five plain facts.
//! - `IsEntry version t cue channel x bytes` says that the bytes are an entry with a table that is valid for the bits
//!   `x`, `BeginsValid` that they begin with one (`specs/Entries.antt`).
//! - `FirstReason version t cue channel found bytes reason` is the first reason, in the stated order, why they don't
//!   (`specs/Reasons.antt`).
//! - `Claim` is what an entry has to show. `IsCert weights claims bytes` says that the bytes are a certificate, of
//!   either version, whose entries show all claims (`specs/Certificates.antt`).
//! - `stage` says how far a writer has come: `has_head`, `entries_left` and `is_open`. `rows_left` is how many rows it
//!   still takes (`specs/Writers.antt`).
//!
//! What it promises: the answer is `Accepted` exactly for a valid entry of these bits, and then no bits cost less.
//! Otherwise it is the first reason, or `Device` exactly if a read failed, or `Memory`. Each part of a certificate that
//! is written is exactly its part of the text. Functions that do nothing carry the laws that callers prove with
//! (`specs/Composing.antt`): [`parts_join`], [`shown_is_read`], [`read_is_cert`], [`cert_goes_on`], [`shown_is_least`],
//! [`one_reason`], [`byte_width_is_least`].
//!
//! ```text
//! // The bridge of one bit by the weights 1, 0 from ones to zeros: both bits cost 4.
//! let mut writer = CertWriter::new(alloc, Outlet::new(Vec::new(alloc)), 2, Version::One)?;
//! writer.begin(1)?;
//! writer.begin_bridge(0, 0, 1)?;
//! writer.level(&[1 << 63, 0])?;
//! writer.level(&[4, 4])?;
//! writer.end_bridge(4)?;
//! let bytes = writer.finish().into_inner();            // 58 bytes
//!
//! let mut reader = CertReader::new(Inlet::new(bytes.as_slice()));
//! reader.read_head(2, 1)?                              // None
//! reader.check_bridge(alloc, 0, 0, &window, &zero)?    // Accepted { cost: 4 }
//! reader.at_end()?                                     // None
//! ```
#![tactic(auto)]

mod entry;
mod filling;
mod laws;
mod numbers;
mod reader;
mod room;
mod row_reader;
mod rows;
mod sink;
mod spelling;
mod stop;
mod two_rows;
mod verdict;
mod version;
mod writer;

pub use chunk_core::FusedFault as CertFault;
pub use laws::{
    byte_width_is_least, cert_goes_on, one_reason, parts_join, read_is_cert, shown_is_least,
    shown_is_read,
};
pub use reader::CertReader;
pub use room::CertRoom;
pub use verdict::{CertReason, CertVerdict, CheckFault};
pub use version::Version;
pub use writer::CertWriter;
