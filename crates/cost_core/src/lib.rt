//! What the bits of a bridge between two cues cost.
//!
//! The window of a bridge has a place for each of its bits, and one for each bit after it where a weight still reads a
//! bit of the bridge. At each place the weighted sum of the newest bits is compared with a target. The cost is the sum
//! of the squared deviations. All sums are of whole numbers, multiplied by one more than the bridge's length, so
//! nothing is rounded.
//!
//! The cue before the bridge says which targets these are (`splice_core::Target`). Those of a fade go in a straight
//! line from the weighted sum of the take before to that of the take after, so they read bits of both takes beyond the
//! cues. Those of a line go from one given sum to another, and read nothing. [`has_room`] says whether the bits that a
//! target reads are there.
//!
//! A [`Window`] holds what decides the cost of one bridge in one channel. [`Window::cost_of`] returns the cost of any
//! bits. A trellis search such as Viterbi's needs the same cost step by step, over the states that the last bits make.
//! [`Window::step_cost`] and [`Window::tail_cost`] return it for one state, [`Window::step_costs`] and
//! [`Window::tail_costs`] for all states at once. [`sums_into`] adds a level's steps to the row before it, sixteen
//! states at a time. A [`LevelSink`] takes the rows of such a search, a level at a time.
//!
//! Definitions that contracts use, all over lists and numbers without bounds:
//!
//! - `weighted w z n` is the sum over `k` of `w[k] * sign(z[n - k])`.
//! - `targets_of` is the targets of a bridge's places by its cue's target, `fade` the target of one place of a fade,
//!   `line` that of one place of a line.
//! - `reach_of` says how many bits beyond the cues the targets read, `HasRoom splice i count` that the takes have them
//!   if the take of cue `i` has `count` bits, and `missing_room` which of them are missing first.
//! - `Bridging` is what a window holds. `bridge_cost d x` is the sum of the squared deviations over its places.
//!   `IsLeastBridge d x` says that no bits of its length cost less than `x`, `IsFirstLeastBridge d x` that `x` is the
//!   first of all such lists, read from the last bit to the first.
//! - `Trellis` is states, steps and ends, and `trellis_of d` that of a bridge. `cost` is the sum of the steps along
//!   some bits and of the end that they lead to. `next`, `before_by_0` and `before_by_1` are the states after and
//!   before a state. `step_row d level` is a level's steps by the state that they lead to, `tail_row d` the cost of
//!   ending in each state.
//! - `IsValid t bound c x` says by five plain facts that a table of forward bounds shows that no bits cost less than
//!   `x`, `IsBounded t` that no number exceeds 64 bits.
//! - `IsTable t rows` says that a list of rows is such a table, and `value_in rows` is its bounds by level and state.
//! - `HandsOver spelling old new rows` says that the text of a [`LevelSink`] grew by the spellings of these rows,
//!   `HandsOverPart` that a prefix of one more row followed.
//! - `channel` is a whole channel of cues and bridges, `channel_cost` the sum over all its places.
//!
//! What it promises: a window is what `bridging` builds from the splice and the bits, and is refused exactly if there
//! is no room for it, or memory runs out. Every cost is exactly that of its definition, and none exceeds its type.
//! Functions that do nothing carry the laws: [`steps_are_cost`], [`costs_in_bounds`], [`least_from_valid`],
//! [`capped_is_valid`], [`places_are_windows`], [`fades_join`] and [`least_together`].
//!
//! ```text
//! // Weights 1, 1; 8 bits of a take of ones, a bridge of 1 bit, then a take of zeros from its bit 2 on.
//! let window = Window::new(alloc, &splice, &ones, &zeros, 0)?;
//! window.cost_of(&zero)                // 0: the bridge's bit 0
//! window.cost_of(&one)                 // 32
//! ```
#![tactic(auto)]

mod fading;
mod fault;
mod laws;
mod line;
mod room;
mod rows;
mod seam;
mod sink;
mod sums;
mod targets;
mod window;

pub use fault::{RoomFault, WindowFault};
pub use laws::{
    capped_is_valid, costs_in_bounds, fades_join, least_from_valid, least_together,
    places_are_windows, steps_are_cost,
};
pub use room::{has_room, reach_at};
pub use rows::{Ways, sums_into};
pub use seam::Seam;
pub use sink::{LevelSink, SinkFault};
pub use window::Window;
