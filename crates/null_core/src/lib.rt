//! How far a master is, as heard, from the mix that was asked for, whoever made it.
//!
//! A [`Mixed`] is a mix with what it reads of its takes ([`read_take`], [`take_excerpts`]). [`judge`] compares a master
//! with it, channel by channel. In whole numbers it finds where a master isn't a take's own bits as far as can be heard
//! around, how large the residual is at most there, stretch by stretch, and whether that is within the mix's limit.
//!
//! A channel is judged over its parts ([`Part`]): the clips as the channel has them. `alone.rt` finds whose own bits are
//! asked for, `own.rt` where the master has them, and `edited.rt` the spans where it hasn't. `mixing.rt` adds up what the
//! parts sound like, `errors.rt` compares that with the master's bits, and `chunk.rt` sums what can be heard of the
//! errors. `judging.rt` joins what is found into stretches.
//!
//! The words of the contracts:
//! - `asked_of mix takes channel` is what a channel is asked to be (`specs/Asking.antt`), `mix_at` what it should sound
//!   like at a place (`specs/Parts.antt`), and `error_at` how far the master's bit is from that (`specs/Errors.antt`).
//! - `IsOwn`: the master has a take's own bit at a place. `IsEdited`: not all places that can be heard from one are the
//!   same take's own (`specs/Own.antt`). `IsJudged`: it is edited, and a multiple of `every` (`specs/Judged.antt`).
//! - `AreStretches`: these are the stretches of all judged places, each with its greatest residual and the first place
//!   that has it (`specs/Stretches.antt`). `IsTooLoud`: an error is too large to be judged.
//! - `NullsAll mix takes master most`: no residual at a judged place is above `most` (`specs/Asking.antt`). `IsHeard`: the
//!   verdict is the first that applies (`specs/Verdicts.antt`).
//!
//! Laws: what is kept of takes sounds as the whole takes do ([`excerpts_sound_alike`], [`alike_are_judged_alike`]).
//! Stretches say to which residuals a channel nulls ([`stretches_tell_nulls`]).
//!
//! ```text
//! let mixed = Mixed::of(alloc, mix, takes)?;
//! judge(alloc, &mixed, &master)?    // the stretches of each channel, and Accepted, or the first reason against it
//! ```
#![tactic(auto)]

mod alone;
mod around;
mod asked;
mod calling;
mod channel;
mod channels;
mod chunk;
mod compared;
mod edited;
mod errors;
mod fault;
mod filler;
mod fitting;
mod joining;
mod judging;
mod laws;
mod master;
mod master_reading;
mod mixed;
mod mixing;
mod own;
mod part;
mod peak;
mod ranges;
mod reading;
mod stretch;
mod verdict;
mod watch;

pub use alone::{Alone, Source};
pub use asked::Asked;
pub use calling::null_test;
pub use channel::Channel;
pub use edited::Span;
pub use fault::{MixedFault, NullFault};
pub use judging::judge_channel;
pub use laws::{alike_are_judged_alike, excerpts_sound_alike, stretches_tell_nulls};
pub use master::Master;
pub use master_reading::{Candidate, judge_candidate, read_master};
pub use mixed::{Mixed, take_excerpts};
pub use own::OwnRun;
pub use part::Part;
pub use ranges::ranges_of;
pub use reading::read_take;
pub use stretch::Stretch;
pub use verdict::{Heard, LoudPlace, Verdict, judge};
pub use watch::{Unwatched, Watch};
