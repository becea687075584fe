//! The bits of a sound as a converter takes them: as bytes, or as DoP 1.1 samples.
//!
//! [`push_native`] appends the frames of a segment in a [`Layout`]. Whole groups of 4096 bytes a channel and the bytes
//! after them can be given one after the other ([`native_joins`]), so a file can be played while it is read. If the
//! sound doesn't fill the last frame, silence follows it there: 0x69 again and again.
//!
//! [`BitRun`] does that: it takes the bytes of a sound as they come, and gives the frames from one on.
//!
//! Definitions that contracts use (`specs/Native.antt`, `specs/Runs.antt`):
//! - `native layout channels` is the frames of channels, and `native_of` those of the channels that sound bytes hold.
//! - `dop_samples n bytes` is the DoP samples of interleaved bytes, `filled unit bits` a channel with silence after it.
//! - `frames_from layout s bytes start` is the frames of a sound with these bytes, from one on. `IsGiven` says what a run
//!   gave of them.
//!
//! ```text
//! let segment = Segment { channels: 2, count: 16 };
//! push_native(alloc, &mut out, &[0xf0, 0x0f, 0xaa, 0x55], segment, Interleaving::Bytes, Layout::Dop)?;
//! // aa f0 05, 55 0f 05
//! ```
#![tactic(auto)]

mod dop;
mod filling;
mod layout;
mod native;
mod run;

pub use layout::Layout;
pub use native::{native_has_size, native_joins, push_native};
pub use run::BitRun;
