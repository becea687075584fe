//! The bits of a bridge between two cues that cost least, found by a trellis search.
//!
//! [`bridge`] returns the bits of a bridge whose cost is least among all lists of its length. Of several such lists it
//! returns the first, read from the last bit to the first, 0 before 1. So the answer is a function of the window. The
//! cost is that of `cost_core`: the sum of the squared deviations over the places of the window, including those after
//! the bridge.
//!
//! There are `2^n` lists of `n` bits, and they are not tried one by one. The search is that of Viterbi (A. Viterbi,
//! "Error bounds for convolutional codes and an asymptotically optimum decoding algorithm", IEEE Transactions on
//! Information Theory 13, 1967). A deviation reads no more bits than there are weights. So bits that lead to the same
//! state cost the same from there on, and of these only the least can be part of the answer. The search keeps the least
//! sum of each state, level by level, and then reads off the way back from the best end.
//!
//! [`bridge_into`] returns the same bits, and passes these least sums to a sink, a row for each level. The rows show
//! that the bits are least to anyone who has no search ([`best_rows_are_valid`]). [`bridge_capped_into`] passes each
//! sum above the cost as the cost, which shows it as well ([`capped_rows_are_valid`]), and goes through the levels
//! twice. [`hand_capped`] is the second of these passes alone, for bits that were chosen before. It allocates nothing,
//! and one [`PassRoom`] serves for all windows of as many weights.
//!
//! A search holds two rows at once, and one bit for each state and level, which says where its least sum came from.
//! These bits take at most 1 MiB. All memory is allocated before the first level. A row is made eight states at a time
//! (`choosing`), or one at a time if there are fewer than sixteen. After the last level the costs of ending are added
//! to its row, and the end is chosen from these totals (`ends`).
//!
//! Contracts use the definitions of `cost_core`, `IsFirstLeastBridge` and `bridge_cost` among them, and these:
//!
//! - `IsBest t level q v` says that `v` is the lesser of `2^63` and the least sum of steps over all lists of `level`
//!   bits that lead to state `q`. `BestRows t rows` says that there is a row of these for each level. There is one such
//!   table, `least_rows t` ([`best_rows_are_least`]).
//! - `GotAll` says that a sink's text grew by the rows of all levels of a bridge, `GotSome` by those of the first
//!   levels, `GotUpTo` by those and a prefix of the next. `GotCapped` and `GotCappedUpTo` say the same of rows that are
//!   capped at a cost, `GotBestUpTo` of rows that are capped at the least one.
//!
//! What it promises: the bits are the first of the least, the cost is theirs, and the rows that a sink took are those
//! of the search, capped at the cost or not. The only refusals are `Memory` and `Sink`.
//!
//! ```text
//! // Weights 1, 0; 8 bits of a take of ones, a bridge of 2 bits, then a take of zeros from bit 3 on.
//! let chosen = bridge(alloc, &window)?;
//! chosen.bits                          // 1, 0
//! chosen.cost                          // 8
//! ```
#![tactic(auto)]

mod bridging;
mod capping;
mod choosing;
mod discarding;
mod ends;
mod fault;
mod laws;
mod rows;
mod tracing;

pub use bridging::{Chosen, bridge, bridge_capped_into, bridge_into};
pub use capping::hand_capped;
pub use fault::BridgeFault;
pub use laws::{best_rows_are_least, best_rows_are_valid, capped_rows_are_valid};
pub use rows::PassRoom;
